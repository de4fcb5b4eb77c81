//! The transcript of a replay.
ghost use Rattle.std.specs.Prelude.{◌≡◌, OnOk};
ghost use Rattle.std.specs.List.{flat_map};
ghost use Rattle.std.specs.Io.KnownBytes.{Appends};
ghost use Rattle.feed_core.specs.Printed.{text_of_line};
ghost use Rattle.feed_core.specs.Transcripts.{keepers_of, lines_of};

use feed_answer::WriteFault;
use feed_world::Line;
use std::io::Write;

/// The result of a replay: a line for each event, and the keepers of the nodes at its end.
#[derive(Drop)]
pub struct Transcript<K: Drop> {
    lines: Vec<Line>,
    keepers: Vec<K>,
}

impl<K: Drop> Transcript<K> {
    pub(crate) fn of(lines: Vec<Line>, keepers: Vec<K>) -> Transcript<K>
        ensures lines { result.lines ≡ lines }
        ensures keepers { result.keepers ≡ keepers }
    {
        Transcript { lines, keepers }
    }

    /// Returns a line for each event, in order.
    pub fn lines(&self) -> &[Line]
        ensures { result.now ≡ lines_of self.now }
    {
        &self.lines
    }

    /// Writes the lines, each ended by LF. If the writer fails, it is unspecified how much it has accepted.
    pub fn write<W: Write>(&self, writer: &mut W) -> Result<(), WriteFault>
        ensures { OnOk result (Appends (W.contents writer.old) (W.contents writer.new)
            (flat_map text_of_line (lines_of self.now))) }
    {
        for line in &self.lines {
            match line.write(writer) {
                Ok(()) => {}
                Err(_) => return Err(WriteFault::Write),
            }
        }
        Ok(())
    }

    /// Returns the keepers, in the order of the nodes.
    pub fn into_keepers(self) -> Vec<K>
        ensures { result.items ≡ keepers_of self }
    {
        let Transcript { lines: _, keepers } = self;
        keepers
    }
}
