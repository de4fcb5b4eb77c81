//! A writer into memory.
use std::alloc::{AllocError, Global};
use std::io;
use std::io::Write;

/// A text in memory, as a writer that accepts all bytes.
#[derive(Drop)]
pub(crate) struct Text {
    pub(crate) bytes: Vec<u8>,
}

impl Text {
    ghost use Rattle.std.specs.Prelude.{◌≡◌, [], IfOk};

    /// Returns an empty text, with room for this many bytes.
    pub(crate) fn with_capacity(alloc: Global, room: usize) -> Result<Text, AllocError>
        ensures { IfOk result (λ text. text.bytes.items ≡ []) }
    {
        let bytes = Vec::with_capacity(alloc, room)?;
        Ok(Text { bytes })
    }

    /// Returns the bytes and frees the unused room, because they are kept as long as the transcript.
    pub(crate) fn into_bytes(self) -> Vec<u8>
        ensures { result.items ≡ self.bytes.items }
    {
        let mut bytes = self.bytes;
        bytes.shrink_to_fit();
        bytes
    }
}

impl Write for Text {
    ghost use Rattle.std.specs.Prelude.{Some};

    ghost contents = { λ text. Some text.bytes.items };

    fn write(&mut self, piece: &[u8]) -> io::Result<usize> {
        self.bytes.write(piece)
    }

    fn flush(&mut self) -> io::Result<()> {
        self.bytes.flush()
    }

    fn write_all(&mut self, piece: &[u8]) -> io::Result<()> {
        self.bytes.extend_from_slice(piece)?;
        Ok(())
    }
}
