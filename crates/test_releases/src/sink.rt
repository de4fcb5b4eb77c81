//! A writer into memory that may fail.
use std::alloc::Global;
use std::cell::Cell;
use std::io;
use std::io::{ErrorKind, Write};

/// Stores the bytes written. Fails at the write or flush of this number, counted from 1 over all sinks that share the
/// count.
#[derive(Drop)]
pub struct CountingSink<'a> {
    pub text: Vec<u8>,
    calls: &'a Cell<usize>,
    fails_at: usize,
}

impl<'a> CountingSink<'a> {
    pub fn new(alloc: Global, calls: &'a Cell<usize>, fails_at: usize) -> CountingSink<'a> {
        CountingSink {
            text: Vec::new(alloc),
            calls,
            fails_at,
        }
    }
}

impl Write for CountingSink<'_> {
    fn write(&mut self, buf: &[u8]) -> io::Result<usize> {
        self.flush()?;
        self.text.extend_from_slice(buf)?;
        Ok(buf.len())
    }

    fn flush(&mut self) -> io::Result<()> {
        self.calls.set(self.calls.get().saturating_add(1));
        if self.calls.get() == self.fails_at {
            return Err(io::Error::from(ErrorKind::BrokenPipe));
        }
        Ok(())
    }
}
