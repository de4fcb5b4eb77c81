//! Readers and writers in memory that move few bytes in a call, or fail at one.
use std::alloc::Global;
use std::io;
use std::io::{ErrorKind, Read, Write};

/// A reader that returns at most `step` bytes in a call. It fails at the call of number `fails_at`, counted from 1.
/// After the last byte it would block if `waits` is set, and otherwise ends.
#[derive(Clone, Copy)]
pub struct ShortReader<'a> {
    pub bytes: &'a [u8],
    pub step: usize,
    pub fails_at: usize,
    pub waits: bool,
    pub calls: usize,
}

impl<'a> ShortReader<'a> {
    /// Returns a reader that ends after these bytes.
    pub fn new(bytes: &'a [u8], step: usize, fails_at: usize) -> ShortReader<'a> {
        ShortReader {
            bytes,
            step,
            fails_at,
            waits: false,
            calls: 0,
        }
    }
}

impl Read for ShortReader<'_> {
    fn read(&mut self, buf: &mut [u8]) -> io::Result<usize> {
        self.calls = self.calls.saturating_add(1);
        if self.calls == self.fails_at {
            return Err(io::Error::from(ErrorKind::ConnectionReset));
        }
        if self.waits && self.bytes.is_empty() {
            return Err(io::Error::from(ErrorKind::WouldBlock));
        }
        let count = self.step.min(buf.len()).min(self.bytes.len());
        let (given, kept) = self.bytes.split_at(count);
        buf[..count].copy_from_slice(given);
        self.bytes = kept;
        Ok(count)
    }
}

/// A writer that stores the bytes, at most `step` of them in a call. It fails at the call of number `fails_at`, counted
/// from 1.
#[derive(Drop)]
pub struct Sink {
    pub bytes: Vec<u8>,
    step: usize,
    fails_at: usize,
    pub calls: usize,
}

impl Sink {
    pub fn new(alloc: Global, step: usize, fails_at: usize) -> Sink {
        Sink {
            bytes: Vec::new(alloc),
            step,
            fails_at,
            calls: 0,
        }
    }
}

impl Write for Sink {
    fn write(&mut self, buf: &[u8]) -> io::Result<usize> {
        self.calls = self.calls.saturating_add(1);
        if self.calls == self.fails_at {
            return Err(io::Error::from(ErrorKind::BrokenPipe));
        }
        let count = self.step.min(buf.len());
        self.bytes.extend_from_slice(&buf[..count])?;
        Ok(count)
    }

    fn flush(&mut self) -> io::Result<()> {
        Ok(())
    }
}

/// A writer that accepts at most 3 bytes in a call, and would block at every other call.
#[derive(Drop)]
pub struct ShortWriter {
    pub bytes: Vec<u8>,
    waits: bool,
}

impl ShortWriter {
    pub fn new(alloc: Global) -> ShortWriter {
        ShortWriter {
            bytes: Vec::new(alloc),
            waits: false,
        }
    }
}

impl Write for ShortWriter {
    fn write(&mut self, buf: &[u8]) -> io::Result<usize> {
        self.waits = !self.waits;
        if self.waits {
            return Err(io::Error::from(ErrorKind::WouldBlock));
        }
        let count = 3.min(buf.len());
        self.bytes.extend_from_slice(&buf[..count])?;
        Ok(count)
    }

    fn flush(&mut self) -> io::Result<()> {
        Ok(())
    }
}
