//! Incremental validation of UTF-8.
ghost use Rattle.std.specs.Prelude.{◌≡◌, ◌≤◌, ◌+◌, ◌-◌, ◌++◌, ◌↔◌, ℕ, List, []};
ghost use Rattle.std.specs.Prelude.{IfSome, IsTrue, IsUtf8, MatchOption, drop, length, take};
ghost use Rattle.feed_text.specs.Utf8.{IsCheckOf, IsSpoiled, StandsFor};

use std::marker::Model;

// The longest character has four bytes, so an incomplete one has at most three.
const KEPT: usize = 3;

/// Checks whether bytes are UTF-8 (RFC 3629) as they arrive, wherever they are cut. Stores only the bytes of an
/// incomplete character, at most three, and does not allocate.
#[derive(Drop)]
pub struct Utf8Check {
    kept: [u8; KEPT],
    count: usize,
    spoiled: bool,
}

impl Model for Utf8Check {
    ghost use Rattle.std.specs.Prelude.{ℕ, List, Option, None, Some, ◌≤◌, if◌then◌else◌, take};

    ghost Value = { Option (List ℕ) };

    ghost view = { λ c. if c.spoiled then None else Some (take c.count c.kept) };

    ghost invariant = { λ c. c.count ≤ 3 };
}

// The number of bytes at the end that stand for all of them, or `None` if the text is spoiled.
fn count_to_keep(bytes: &[u8]) -> Option<usize>
    ensures spoiled { MatchOption result (IsSpoiled bytes.now)
        (λ count. StandsFor (drop (length bytes.now - count) bytes.now) bytes.now) }
    ensures few { IfSome result (λ count. (count ≤ 3) × (count ≤ length bytes.now)) }
{
    match str::from_utf8(bytes) {
        Ok(_) => Some(0),
        Err(error) => {
            let count = bytes.len() - error.valid_up_to();
            if count <= KEPT { Some(count) } else { None }
        }
    }
}

fn is_text(bytes: &[u8]) -> bool
    ensures { IsTrue result ↔ IsUtf8 bytes.now }
{
    str::from_utf8(bytes).is_ok()
}

// The bytes of both, one after the other.
fn join(left: &[u8], right: &[u8]) -> [u8; 2 * KEPT]
    requires left { length left.now ≤ 3 }
    requires right { length right.now ≤ 3 }
    ensures { take (length left.now + length right.now) result ≡ left.now ++ right.now }
{
    let mut joined = [0; 2 * KEPT];
    let end = left.len() + right.len();
    joined[..left.len()].copy_from_slice(left);
    joined[left.len()..end].copy_from_slice(right);
    joined
}

impl Utf8Check {
    /// Returns a check that has seen no bytes.
    pub fn new() -> Utf8Check
        ensures { IsCheckOf [] result }
    {
        Utf8Check::of(&[])
    }

    // Returns a check that has seen these bytes.
    fn of(bytes: &[u8]) -> Utf8Check
        ensures { IsCheckOf bytes.now result }
    {
        let mut kept = [0; KEPT];
        match count_to_keep(bytes) {
            None => Utf8Check {
                kept,
                count: 0,
                spoiled: true,
            },
            Some(count) => {
                kept[..count].copy_from_slice(&bytes[bytes.len() - count..]);
                Utf8Check {
                    kept,
                    count,
                    spoiled: false,
                }
            }
        }
    }

    /// Checks the next bytes.
    pub fn feed(&mut self, bytes: &[u8])
        ensures { (text : List ℕ) → IsCheckOf text self.old → IsCheckOf (text ++ bytes.now) self.new }
    {
        if self.spoiled {
            return;
        }
        let kept = &self.kept[..self.count];
        let front = &bytes[..bytes.len().min(KEPT)];
        let joined = join(kept, front);
        let joined = &joined[..kept.len() + front.len()];
        if bytes.len() <= KEPT {
            *self = Utf8Check::of(joined);
            return;
        }
        match count_to_keep(joined) {
            None => self.spoiled = true,
            Some(count) => *self = Utf8Check::of(&bytes[KEPT - count..]),
        }
    }

    /// Returns whether all bytes so far are UTF-8.
    pub fn finish(self) -> bool
        ensures { (text : List ℕ) → IsCheckOf text self → (IsTrue result ↔ IsUtf8 text) }
    {
        !self.spoiled && is_text(&self.kept[..self.count])
    }
}
