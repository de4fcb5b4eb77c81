//! Writes the lines of a log as far as its writer accepts them, and counts the others.
ghost use Rattle.std.specs.Prelude.{◌≡◌, ◌<◌, false, length, take, MatchResult};
ghost use Rattle.std.specs.Io.KnownBytes.{Appends};
ghost use Rattle.node_monitoring.specs.LineLogs.{AreDropped, AreWritten, end_of, is_inside, line_count};

use std::io;
use std::io::{ErrorKind, Write};

/// A log whose writer may fail. The writer does not buffer, so the log has exactly what it accepts.
#[derive(Drop)]
pub struct LineLog<W: Write> {
    pub out: W,
    /// Whether the log ends inside a line, whose rest was dropped.
    pub is_inside: bool,
}

/// How many lines the log does not have, and why.
#[derive(Drop)]
pub struct DroppedLines {
    pub lines: usize,
    pub cause: io::Error,
}

// The place of the first byte that a writer does not accept, and why.
#[derive(Drop)]
struct Cut {
    at: usize,
    cause: io::Error,
}

fn line_count(text: &[u8]) -> usize
    ensures { result ≡ line_count text.now }
{
    text.iter().filter(|byte| **byte == b'\n').count()
}

fn end_of(is_inside: bool) -> &'static [u8]
    ensures { result.now ≡ end_of is_inside }
{
    if is_inside { b"\n" } else { b"" }
}

fn is_inside(text: &[u8]) -> bool
    ensures { result ≡ is_inside text.now }
{
    match text.last() {
        Some(byte) => *byte != b'\n',
        None => false,
    }
}

// Writes bytes until the writer has all of them or fails.
fn write_bytes<W: Write>(out: &mut W, bytes: &[u8]) -> Result<(), Cut>
    ensures { MatchResult result
        (λ done. Appends (W.contents out.old) (W.contents out.new) bytes.now)
        (λ cut. (cut.at < length bytes.now)
        × Appends (W.contents out.old) (W.contents out.new) (take cut.at bytes.now)) }
{
    let mut at = 0;
    while at < bytes.len() {
        match out.write(&bytes[at..]) {
            Ok(0) => {
                let cause = io::Error::from(ErrorKind::WriteZero);
                return Err(Cut { at, cause });
            }
            Ok(count) => at += count,
            Err(cause) => return Err(Cut { at, cause }),
        }
    }
    Ok(())
}

impl<W: Write> LineLog<W> {
    /// Returns a log that begins with a line.
    pub fn new(out: W) -> LineLog<W>
        ensures out { result.out ≡ out }
        ensures inside { result.is_inside ≡ false }
    {
        LineLog {
            out,
            is_inside: false,
        }
    }

    /// Writes lines, each with its end. If the log ends inside a line, ends that line first.
    ///
    /// # Errors
    ///
    /// The writer's, with the number of lines that are not whole in the log.
    pub fn write_lines(&mut self, lines: &[u8]) -> Result<(), DroppedLines>
        ensures { MatchResult result
            (λ done. AreWritten lines.now
            (W.contents self.old.out) self.old.is_inside (W.contents self.new.out) self.new.is_inside)
            (λ dropped. AreDropped lines.now dropped.lines
            (W.contents self.old.out) self.old.is_inside (W.contents self.new.out) self.new.is_inside) }
    {
        if let Err(cut) = write_bytes(&mut self.out, end_of(self.is_inside)) {
            return Err(DroppedLines {
                lines: line_count(lines),
                cause: cut.cause,
            });
        }
        match write_bytes(&mut self.out, lines) {
            Ok(()) => {
                self.is_inside = is_inside(lines);
                Ok(())
            }
            Err(Cut { at, cause }) => {
                let (written, rest) = lines.split_at(at);
                self.is_inside = is_inside(written);
                Err(DroppedLines {
                    lines: line_count(rest),
                    cause,
                })
            }
        }
    }
}
