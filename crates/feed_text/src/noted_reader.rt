//! A reader that notes whether the reader underneath has failed.
ghost use Rattle.std.specs.Prelude.{◌≡◌, true, false, OnErr, OnOk};
ghost use Rattle.feed_text.specs.Failures.{has_failed};

use std::io;
use std::io::Read;

/// A reader that passes on what another reader returns, and notes whether that one has failed.
#[derive(Drop)]
pub(crate) struct NotedReader<R> {
    reader: R,
    failed: bool,
}

impl<R: Read> NotedReader<R> {
    /// Returns a reader that has read nothing.
    pub(crate) fn new(reader: R) -> NotedReader<R>
        ensures reader { result.reader ≡ reader }
        ensures fresh { has_failed result ≡ false }
    {
        NotedReader {
            reader,
            failed: false,
        }
    }

    /// Returns whether the reader underneath has failed.
    pub(crate) fn has_failed(&self) -> bool
        ensures { result ≡ has_failed self.now }
    {
        self.failed
    }
}

impl<R: Read> Read for NotedReader<R> {
    ghost use Rattle.std.specs.Io.{ReadsAtMost};
    ghost use Rattle.std.specs.Io.KnownBytes.{ReadConsumes};

    ghost remaining = { λ n. R.remaining n.reader };

    fn read(&mut self, buf: &mut [u8]) -> io::Result<usize>
        ensures bound { ReadsAtMost result buf.new }
        ensures bytes { ReadConsumes (R.remaining self.old.reader) (R.remaining self.new.reader) result buf.new }
        ensures noted { OnErr result (has_failed self.new ≡ true) }
        ensures same { OnOk result (has_failed self.new ≡ has_failed self.old) }
    {
        match self.reader.read(buf) {
            Ok(count) => Ok(count),
            Err(error) => {
                self.failed = true;
                Err(error)
            }
        }
    }
}
