//! Reading the text of a file from its parts, without copying them together first.
ghost use Rattle.std.specs.Prelude.{◌≡◌, ◌∷◌, [], IfSome, IfNone};
ghost use Rattle.feed_model.specs.Content.{AreParts, IsText};
ghost use Rattle.feed_model.specs.Change.{merged};
ghost use Rattle.feed_parts.specs.Piece.{joined};
ghost use Rattle.feed_parts.specs.Segments.{IsFull, IsTextOf};
ghost use Rattle.feed_parts.specs.Shown.{shown_part, shown_parts};

use crate::overlap::byte_count;
use crate::part::{Part, are_within};
use std::io::{self, Read};
use std::marker::Model;

/// Reads the bytes of stored and new parts, in the order of their places.
#[derive(Drop)]
pub struct SegmentReader<'a> {
    front: &'a [u8],
    kept: &'a [Part],
    new: &'a [Part],
}

impl<'a> Model for SegmentReader<'a> {
    ghost use Rattle.std.specs.Prelude.{ℕ, List, ◌++◌};
    ghost use Rattle.feed_model.specs.Content.{AreParts};
    ghost use Rattle.feed_model.specs.Change.{merged};
    ghost use Rattle.feed_parts.specs.Shown.{shown_parts};
    ghost use Rattle.feed_parts.specs.Piece.{joined};

    ghost Value = { List ℕ };

    ghost view = { λ r. r.front.now ++ joined (merged (shown_parts r.kept.now) (shown_parts r.new.now)) };

    ghost invariant = { λ r. AreParts (shown_parts r.new.now)
        × AreParts (merged (shown_parts r.kept.now) (shown_parts r.new.now)) };
}

impl<'a> SegmentReader<'a> {
    // Both lists of parts are in order.
    pub(crate) fn new(kept: &'a [Part], new: &'a [Part]) -> SegmentReader<'a>
        requires order { AreParts (shown_parts new.now) }
        requires apart { AreParts (merged (shown_parts kept.now) (shown_parts new.now)) }
        ensures bytes { result ≡ joined (merged (shown_parts kept.now) (shown_parts new.now)) }
        ensures text { IsTextOf (merged (shown_parts kept.now) (shown_parts new.now)) result }
    {
        SegmentReader {
            front: &[],
            kept,
            new,
        }
    }
}

impl<'a> Read for SegmentReader<'a> {
    ghost use Rattle.std.specs.Prelude.{Some, IsOk};
    ghost use Rattle.std.specs.Io.{ReadsAtMost};
    ghost use Rattle.std.specs.Io.KnownBytes.{ReadConsumes};

    ghost remaining = { λ r. Some r };

    /// Does not allocate, and never fails.
    fn read(&mut self, buf: &mut [u8]) -> io::Result<usize>
        ensures bound { ReadsAtMost result buf.new }
        ensures bytes { ReadConsumes (Some self.old) (Some self.exit.now) result buf.new }
        ensures whole { IsOk result }
    {
        if !self.front.is_empty() {
            return self.front.read(buf);
        }
        match split_first(self.kept, self.new) {
            None => Ok(0),
            Some((part, kept, new)) => {
                self.front = part.bytes.as_slice();
                self.kept = kept;
                self.new = new;
                self.front.read(buf)
            }
        }
    }
}

/// Returns a reader of a complete file of this size, in the order of its places. Returns `None` if the parts are not
/// inside the file or a place is missing. Does not allocate.
pub fn whole_reader(parts: &[Part], size: u64) -> Option<SegmentReader<'_>>
    ensures some { IfSome result (λ text. IsFull size (shown_parts parts.now)
        × IsText size (shown_parts parts.now) text) }
    ensures none { IfNone result (¬ (IsFull size (shown_parts parts.now))) }
{
    if !are_within(parts, size) || byte_count(parts) < size {
        return None;
    }
    Some(SegmentReader::new(parts, &[]))
}

// Splits off the part that begins first, and returns the other stored and new parts.
fn split_first<'a>(kept: &'a [Part], new: &'a [Part]) -> Option<(&'a Part, &'a [Part], &'a [Part])>
    requires { AreParts (shown_parts new.now) }
    ensures first { IfSome result (λ split. merged (shown_parts kept.now) (shown_parts new.now)
        ≡ shown_part split.0.now ∷ merged (shown_parts split.1.now) (shown_parts split.2.now)) }
    ensures order { IfSome result (λ split. AreParts (shown_parts split.2.now)) }
    ensures end { IfNone result (merged (shown_parts kept.now) (shown_parts new.now) ≡ []) }
{
    let Some((part, rest)) = new.split_first() else {
        let (part, rest) = kept.split_first()?;
        return Some((part, rest, new));
    };
    match kept.split_first() {
        Some((first, others)) if first.first <= part.first => Some((first, others, new)),
        _ => Some((part, kept, rest)),
    }
}
