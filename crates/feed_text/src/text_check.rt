//! Checks the bytes of a text as they are read: UTF-8, and at most one byte-order mark.
ghost use Rattle.std.specs.Prelude.{◌≡◌, ◌≤◌, ◌+◌, ◌-◌, ◌++◌, ◌⊎◌, ℕ, List, [], IfErr, length, min, take};
ghost use Rattle.feed_text.specs.Checks.{IsCheckResult, IsTextCheckOf, bytes_seen};
ghost use Rattle.feed_limits.specs.Limits.{file_limit};
ghost use Rattle.feed_text.specs.declared.fault.TextFault.TheVariants as fault;

use crate::fault::TextFault;
use crate::utf8::Utf8Check;

// Two byte-order marks of UTF-8.
const TWO_MARKS: [u8; 6] = [0xEF, 0xBB, 0xBF, 0xEF, 0xBB, 0xBF];

/// Checks the bytes of a text that arrives in pieces, cut anywhere: UTF-8 (RFC 3629), and at most one byte-order mark
/// at the front.
#[derive(Drop)]
pub struct TextCheck {
    utf8: Utf8Check,
    front: [u8; 6],
    pub(crate) total: usize,
}

// Appends the next bytes to the first `known` bytes of a text, up to six in all.
fn with_next(front: [u8; 6], known: usize, bytes: &[u8]) -> [u8; 6]
    requires { known ≤ 6 }
    ensures { take (min (known + length bytes.now) 6) result ≡ take known front ++ take (6 - known) bytes.now }
{
    let mut front = front;
    let count = bytes.len().min(front.len() - known);
    front[known..known + count].copy_from_slice(&bytes[..count]);
    front
}

impl TextCheck {
    /// Returns a check that has seen no bytes.
    pub fn new() -> TextCheck
        ensures { IsTextCheckOf [] result }
    {
        TextCheck {
            utf8: Utf8Check::new(),
            front: [0; 6],
            total: 0,
        }
    }

    /// Returns the number of bytes that were checked.
    pub fn bytes_seen(&self) -> usize
        ensures { result ≡ bytes_seen self.now }
    {
        self.total
    }

    /// Checks the next bytes.
    pub fn feed(&mut self, bytes: &[u8])
        requires { bytes_seen self.old ≤ file_limit }
        ensures checked { (text : List ℕ) → IsTextCheckOf text self.old → IsTextCheckOf (text ++ bytes.now) self.new }
        ensures total { bytes_seen self.new ≡ bytes_seen self.old + length bytes.now }
    {
        self.utf8.feed(bytes);
        self.front = with_next(self.front, self.total.min(6), bytes);
        self.total += bytes.len();
    }

    /// Returns why the bytes of a whole text are bad, if they are: `NotUtf8` or `TwoMarks`.
    pub fn finish(self) -> Result<(), TextFault>
        requires { bytes_seen self ≤ file_limit }
        ensures checked { (text : List ℕ) → IsTextCheckOf text self → IsCheckResult text result }
        ensures fault { IfErr result (λ why. (why ≡ fault.NotUtf8) ⊎ (why ≡ fault.TwoMarks)) }
    {
        if !self.utf8.finish() {
            return Err(TextFault::NotUtf8);
        }
        if self.front[..self.total.min(6)].starts_with(&TWO_MARKS) {
            return Err(TextFault::TwoMarks);
        }
        Ok(())
    }
}
