//! The check of a file in windows, as far as its bytes are stored. So it can begin before the file is complete.
ghost use Rattle.std.specs.Prelude.{◌≡◌, ◌≤◌, ◌<◌, ◌+◌, ◌↔◌, ℕ, List, None, IfSome, IsSome, IsTrue, length};
ghost use Rattle.feed_kbart.specs.Files.{IsReadOf};
ghost use Rattle.feed_model.specs.Content.{IsText, Part, byte_in};
ghost use Rattle.feed_model.specs.Parts.{AgreesIn};
ghost use Rattle.feed_parts.specs.Segments.{HasRun};
ghost use Rattle.feed_releases.specs.FileCheck.{IsCheckOf, IsUnion, window};

use feed_kbart::{Holdings, KbartFault, ListCheck};
use feed_parts::Segments;
use std::alloc::Global;

// The most bytes that are read at once, so that it takes about a millisecond.
const WINDOW: usize = 131_072;

/// A check that has received the bytes of a file up to a place, from which it reads on.
#[derive(Drop)]
pub(crate) struct FileCheck {
    check: ListCheck,
    next: u64,
}

impl FileCheck {
    /// Returns a check that has received no bytes.
    pub(crate) fn new(alloc: Global) -> FileCheck
        ensures { (parts : List Part) → IsCheckOf parts result }
    {
        FileCheck {
            check: ListCheck::new(alloc),
            next: 0,
        }
    }

    // Receives the bytes of the file from the place on. Returns `None` if memory runs out.
    fn take_in(self, alloc: Global, bytes: &[u8]) -> Option<FileCheck>
        ensures place { IfSome result (λ running. running.next ≡ self.next + length bytes.now) }
        ensures reads { IfSome result (λ running. (parts : List Part) → IsCheckOf parts self
            → HasRun parts self.next bytes.now → IsCheckOf parts running) }
    {
        let FileCheck { check, next } = self;
        let Some(end) = next.checked_add(bytes.len() as u64) else {
            return None;
        };
        let Ok(check) = check.step(alloc, bytes) else {
            return None;
        };
        Some(FileCheck { check, next: end })
    }

    /// Reads on in the stored bytes, at most a window. Returns `None` if memory runs out.
    pub(crate) fn read_on(self, alloc: Global, kept: &Segments) -> Option<FileCheck>
        ensures few { IfSome result (λ running. running.next ≤ self.next + window) }
        ensures some { IfSome result (λ running. IsSome (byte_in kept.now.parts self.next) → self.next < running.next) }
        ensures none { IfSome result (λ running. byte_in kept.now.parts self.next ≡ None → running.next ≡ self.next) }
        ensures reads { IfSome result (λ running. IsCheckOf kept.now.parts self → IsCheckOf kept.now.parts running) }
    {
        let bytes = kept.bytes_from(self.next);
        let count = bytes.len().min(WINDOW);
        self.take_in(alloc, &bytes[..count])
    }

    /// Returns whether the next byte of the file is stored.
    pub(crate) fn has_more(&self, kept: &Segments) -> bool
        ensures { IsTrue result ↔ IsSome (byte_in kept.now.parts self.now.next) }
    {
        !kept.bytes_from(self.next).is_empty()
    }

    /// Reads the rest of a file that a piece completes, and returns what the whole file reads as. Returns `None` if
    /// nothing was read ahead, or memory runs out.
    pub(crate) fn finish(
        self,
        alloc: Global,
        size: u64,
        kept: &Segments,
        first: u64,
        bytes: &[u8],
    ) -> Option<Result<Holdings, KbartFault>>
        requires runs { IsCheckOf kept.now.parts self }
        requires agrees { AgreesIn kept.now.parts first bytes.now }
        ensures { (parts : List Part) (text : List ℕ) → IsUnion parts kept.now.parts first bytes.now
            → IsText size parts text → IfSome result (IsReadOf text) }
    {
        if self.next == 0 {
            return None;
        }
        let Some(running) = self.read_rest(alloc, size, kept, first, bytes) else {
            return None;
        };
        // A file that the piece completes has every place, so all of it was read.
        if running.next != size {
            return None;
        }
        Some(running.finish_whole(alloc))
    }

    /// Returns what a file reads as that was read to its end.
    pub(crate) fn finish_whole(self, alloc: Global) -> Result<Holdings, KbartFault>
        ensures { (parts : List Part) (text : List ℕ) → IsCheckOf parts self → IsText self.next parts text
            → IsReadOf text result }
    {
        self.check.finish(alloc)
    }

    // Reads on in the stored bytes and those of a piece, up to the end of the file or the first place that both lack.
    fn read_rest(
        self,
        alloc: Global,
        size: u64,
        kept: &Segments,
        first: u64,
        bytes: &[u8],
    ) -> Option<FileCheck>
        requires runs { IsCheckOf kept.now.parts self }
        requires agrees { AgreesIn kept.now.parts first bytes.now }
        ensures { (parts : List Part) → IsUnion parts kept.now.parts first bytes.now
            → IfSome result (IsCheckOf parts) }
    {
        let mut running = self;
        while running.next < size {
            let run = run_from(kept, first, bytes, running.next);
            if run.is_empty() {
                return Some(running);
            }
            match running.take_in(alloc, run) {
                Some(further) => running = further,
                None => return None,
            }
        }
        Some(running)
    }
}

/// Begins a check, unless one is there.
pub(crate) fn begin(alloc: Global, running: &mut Option<FileCheck>)
    ensures { (parts : List Part) → IfSome running.old (IsCheckOf parts) → IfSome running.new (IsCheckOf parts) }
{
    if running.is_none() {
        *running = Some(FileCheck::new(alloc));
    }
}

// Returns bytes of a file from a place on, those that are stored or those of a piece. Returns none if both lack the
// place.
fn run_from<'a>(kept: &'a Segments, first: u64, bytes: &'a [u8], place: u64) -> &'a [u8]
    requires { AgreesIn kept.now.parts first bytes.now }
    ensures { (parts : List Part) → IsUnion parts kept.now.parts first bytes.now → HasRun parts place result.now }
{
    let run = kept.bytes_from(place);
    if !run.is_empty() || place < first {
        return run;
    }
    let skipped = place - first;
    if skipped < bytes.len() as u64 {
        &bytes[skipped as usize..]
    } else {
        &[]
    }
}
