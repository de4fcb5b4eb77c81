//! A shelf over files in memory, with a device that fails at a call.
ghost use Rattle.std.specs.Prelude.{IsTrue};
ghost use Rattle.feed_http.specs.Shelves.{IsCounted};

use feed_http::{MemoryShelf, NamedFile, Shelf, ShelfFault};
use feed_names::ReleaseName;
use std::alloc::Global;

/// A shelf that counts its calls. Its device fails at the call of number `fails_at`, counted from 1.
#[derive(Drop)]
pub struct CountingShelf<'a> {
    files: MemoryShelf<'a>,
    fails_at: usize,
    calls: usize,
    failures: u64,
    longest: usize,
}

impl<'a> CountingShelf<'a> {
    pub fn new(files: &'a [NamedFile], fails_at: usize) -> CountingShelf<'a> {
        let files = MemoryShelf { files };
        CountingShelf {
            files,
            fails_at,
            calls: 0,
            failures: files.failures(),
            longest: 0,
        }
    }

    /// Returns the length of the longest block that was read.
    pub fn longest(&self) -> usize {
        self.longest
    }

    fn file(&self, name: &ReleaseName) -> Option<&[u8]> {
        let file = self.files.files.iter().find(|file| file.name == *name)?;
        Some(&file.bytes)
    }

    // Counts a call, and returns whether it fails.
    fn count_call(&mut self) -> bool
        ensures { IsCounted (IsTrue result) self.old.failures self.new.failures }
    {
        self.calls = self.calls.saturating_add(1);
        if self.calls != self.fails_at {
            return false;
        }
        self.failures = self.failures.saturating_add(1);
        true
    }
}

impl Shelf for CountingShelf<'_> {
    ghost failed = { λ shelf. shelf.failures };

    fn failures(&self) -> u64 {
        self.failures
    }

    fn size(&mut self, name: &ReleaseName) -> Result<Option<u64>, ShelfFault> {
        if self.count_call() {
            return Err(ShelfFault::Device);
        }
        match self.files.size(name) {
            Ok(size) => Ok(size),
            Err(_) => Err(ShelfFault::Memory),
        }
    }

    fn read(
        &mut self,
        alloc: Global,
        name: &ReleaseName,
        first: u64,
        len: usize,
    ) -> Result<Vec<u8>, ShelfFault> {
        self.longest = self.longest.max(len);
        if self.count_call() {
            return Err(ShelfFault::Device);
        }
        let Ok(mut bytes) = vec![in alloc; 0u8; len] else {
            return Err(ShelfFault::Memory);
        };
        let Some(file) = self.file(name) else {
            return Err(ShelfFault::Memory);
        };
        for (byte, given) in bytes.iter_mut().zip(file.iter().skip(first as usize)) {
            *byte = *given;
        }
        Ok(bytes)
    }
}
