//! The output of a node that runs: its log on standard output, and notes on standard error. The node ends for neither.
use node_monitoring::{DroppedLines, LineLog};
use std::fmt;
use std::io::Write;

/// The log of a node, whose lines are dropped while it cannot be written, and its notes.
#[derive(Drop)]
pub struct NodeLog<W: Write, F: Write> {
    lines: LineLog<W>,
    notes: F,
    /// The lines that were dropped since the log was last written.
    dropped: u64,
}

impl<W: Write, F: Write> NodeLog<W, F> {
    /// Returns a log over a writer that does not buffer.
    pub fn new(out: W, notes: F) -> NodeLog<W, F> {
        NodeLog {
            lines: LineLog::new(out),
            notes,
            dropped: 0,
        }
    }

    /// Writes lines, and returns how many of them are dropped since the log cannot be written. A note says when that
    /// begins, and when it is over.
    pub fn write_lines(&mut self, lines: &[u8]) -> u64 {
        match self.lines.write_lines(lines) {
            Ok(()) => {
                if self.dropped > 0 {
                    let count = self.dropped;
                    self.dropped = 0;
                    self.note("the log is written again; lines dropped: ", count);
                }
                0
            }
            Err(DroppedLines { lines, cause }) => {
                if self.dropped == 0 {
                    self.note("the log is not written, and its lines are dropped: ", cause);
                }
                self.dropped = self.dropped.saturating_add(lines as u64);
                lines as u64
            }
        }
    }

    /// Prints notes that are whole lines.
    pub fn print_notes(&mut self, notes: &[u8]) {
        let _ = self.notes.write_all(notes);
    }

    fn note<D: fmt::Display + Drop>(&mut self, what: &str, detail: D) {
        let _ = writeln!(&mut self.notes, "kbfeed: {what}{detail}");
    }
}
