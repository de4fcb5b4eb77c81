//! Prints lines, and records whether a print failed.
ghost use Rattle.std.specs.Prelude.{◌≡◌, false, IfSome, IsTrue, OnOk, OnErr};
ghost use Rattle.feed_fetch.specs.Printing.{has_failed, HasPrinted};

use crate::events::{FetchEvent, Observe};
use std::fmt;
use std::io::Write;

/// A line was not printed.
#[derive(Clone, Copy, Debug, PartialEq, Eq)]
pub struct Unprinted;

/// A writer of lines that records whether a print failed.
#[derive(Drop)]
pub struct Printer<W> {
    writer: W,
    has_failed: bool,
}

impl<W: Write> Printer<W> {
    /// Returns a printer to a writer. No print has failed.
    pub fn new(writer: W) -> Printer<W>
        ensures { has_failed result ≡ false }
    {
        Printer {
            writer,
            has_failed: false,
        }
    }

    /// Prints a line.
    pub fn print<D: fmt::Display + Drop>(&mut self, line: D) -> Result<(), Unprinted>
        ensures printed { OnOk result (has_failed self.new ≡ has_failed self.old) }
        ensures line { OnOk result (IfSome (D.output line) (HasPrinted W.contents self.old self.new)) }
        ensures failed { OnErr result (IsTrue (has_failed self.new)) }
    {
        match writeln!(&mut self.writer, "{line}") {
            Ok(()) => Ok(()),
            Err(_) => {
                self.has_failed = true;
                Err(Unprinted)
            }
        }
    }

    /// Returns the writer.
    pub fn into_writer(self) -> W {
        self.writer
    }
}

/// Prints each event as a line, and flushes the writer at the end.
impl<W: Write> Observe for Printer<W> {
    ghost use Rattle.feed_fetch.specs.Printing.{has_failed};

    ghost has_failed = { has_failed };

    ghost lines = { λ printer. W.contents printer.writer };

    fn observe(&mut self, event: FetchEvent) -> Result<(), Unprinted> {
        self.print(event)
    }

    fn finish(&mut self) -> Result<(), Unprinted> {
        match self.writer.flush() {
            Ok(()) => Ok(()),
            Err(_) => {
                self.has_failed = true;
                Err(Unprinted)
            }
        }
    }
}
