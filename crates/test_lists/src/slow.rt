//! A reader and a writer that fail after a number of calls or bytes.
use std::io;
use std::io::{Read, Write};

/// When a reader fails: at each call after so many, or at the next one only.
#[derive(Clone, Copy)]
pub struct Calls {
    pub count: usize,
    pub fails_once: bool,
}

/// Returns at most `step` bytes at a call, and fails once its calls are done.
#[derive(Clone, Copy)]
pub struct Slow<'a> {
    pub rest: &'a [u8],
    pub step: usize,
    pub calls: Calls,
}

impl Read for Slow<'_> {
    fn read(&mut self, buf: &mut [u8]) -> io::Result<usize> {
        if self.calls.count == 0 {
            if self.calls.fails_once {
                self.calls.count = usize::MAX;
            }
            return Err(io::ErrorKind::Interrupted.into());
        }
        self.calls.count -= 1;
        let count = self.rest.len().min(buf.len()).min(self.step);
        let (front, rest) = self.rest.split_at(count);
        buf[..count].copy_from_slice(front);
        self.rest = rest;
        Ok(count)
    }
}

/// Accepts so many bytes, and then fails.
#[derive(Clone, Copy)]
pub struct Full {
    pub room: usize,
}

impl Write for Full {
    fn write(&mut self, buf: &[u8]) -> io::Result<usize> {
        if self.room == 0 {
            return Err(io::ErrorKind::StorageFull.into());
        }
        let count = buf.len().min(self.room);
        self.room -= count;
        Ok(count)
    }

    fn flush(&mut self) -> io::Result<()> {
        Ok(())
    }
}
