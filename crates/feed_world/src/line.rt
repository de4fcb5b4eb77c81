//! The lines of a transcript.
ghost use Rattle.std.specs.Prelude.{OnOk};
ghost use Rattle.std.specs.Io.KnownBytes.{Appends};
ghost use Rattle.feed_world.specs.Shown.{shown_line};
ghost use Rattle.feed_world.specs.LineText.{line_text};

use feed_answer::QueryFault;
use feed_model::{KeepFault, Refusal, Reply};
use feed_names::ReleaseName;
use std::error::Error;
use std::io::Write;
use std::{fmt, io};

/// Why an event of a world was refused. A refused event changes nothing.
#[derive(Clone, Copy, Debug, PartialEq, Eq)]
pub enum Why {
    /// Another file is published under the name.
    Republished,
    /// No node has the number.
    NoNode,
    /// No file is published under the name.
    Unpublished,
    /// The bytes are not inside the published file.
    NoSlice,
    /// The node is down: it could not be opened when it last stopped.
    Down,
    /// The feed of the node refused.
    Feed(Refusal),
    /// The query is invalid.
    Query(QueryFault),
    /// The package has no complete and good release at the node.
    NoRelease,
    /// There was no memory for an answer.
    Memory,
}

impl fmt::Display for Why {
    ghost use Rattle.std.specs.Prelude.{Some};
    ghost use Rattle.feed_world.specs.LineText.{why_text};

    ghost output = { λ why. Some (why_text why) };

    fn fmt<W: fmt::Write>(&self, f: &mut fmt::Formatter<W>) -> fmt::Result {
        match self {
            Why::Republished => f.write_str("Republished"),
            Why::NoNode => f.write_str("NoNode"),
            Why::Unpublished => f.write_str("Unpublished"),
            Why::NoSlice => f.write_str("NoSlice"),
            Why::Down => f.write_str("Down"),
            Why::Feed(refusal) => write!(f, "{refusal}"),
            Why::Query(fault) => write!(f, "{fault}"),
            Why::NoRelease => f.write_str("NoRelease"),
            Why::Memory => f.write_str("Memory"),
        }
    }
}

impl Error for Why {}

/// A line of a transcript, which shows the effect of an event.
#[derive(Debug, Drop)]
pub enum Line {
    /// The file is published, now or before.
    Published,
    /// The feed of a node accepted the event.
    Replied(Reply),
    /// The node was opened again after a restart.
    Restarted,
    /// The node was opened again after it stopped in the middle of an event.
    Stopped,
    /// The node could not be opened again. It is down until a restart succeeds.
    Down(KeepFault),
    /// A report: the active release.
    Active(ReleaseName),
    /// A report: no release is active.
    Inactive,
    /// The text of an answer, a line for the release and one for each hit.
    Text(Vec<u8>),
    /// The event was refused.
    Refused(Why),
}

impl Line {
    /// Writes the line with the LF that ends it.
    pub fn write<W: Write>(&self, writer: &mut W) -> io::Result<()>
        ensures { OnOk result (Appends (W.contents writer.old) (W.contents writer.new)
            (line_text (shown_line self.now))) }
    {
        match self {
            Line::Published => writer.write_all(b"published\n"),
            Line::Replied(reply) => writeln!(writer, "{reply}"),
            Line::Restarted => writer.write_all(b"restarted\n"),
            Line::Stopped => writer.write_all(b"stopped\n"),
            Line::Down(cause) => writeln!(writer, "down {cause}"),
            Line::Active(name) => {
                writer.write_all(b"active ")?;
                writer.write_all(name.text())?;
                writer.write_all(b"\n")
            }
            Line::Inactive => writer.write_all(b"none\n"),
            Line::Text(text) => writer.write_all(text),
            Line::Refused(why) => writeln!(writer, "refused {why}"),
        }
    }
}
