//! A shelf of files in memory.
use crate::serving::shelf::{Shelf, ShelfFault};
use feed_names::ReleaseName;
use std::alloc::Global;

/// The file of a release.
#[derive(Debug, Drop)]
pub struct NamedFile {
    pub name: ReleaseName,
    pub bytes: Vec<u8>,
}

/// A shelf of files in memory. Its contracts name the files. If a name appears twice, the first file counts. It has no
/// device, so its only fault is running out of memory.
#[derive(Clone, Copy, Debug)]
pub struct MemoryShelf<'a> {
    pub files: &'a [NamedFile],
}

impl MemoryShelf<'_> {
    ghost use Rattle.std.specs.Prelude.{◌≡◌, option_copied};
    ghost use Rattle.feed_http.specs.MemoryShelves.{file_named};

    fn file(&self, name: &ReleaseName) -> Option<&[u8]>
        ensures { option_copied result ≡ file_named self.now.files.now name.now }
    {
        let file = self.files.iter().find(|file| file.name == *name)?;
        Some(&file.bytes)
    }
}

impl Shelf for MemoryShelf<'_> {
    ghost use Rattle.std.specs.Prelude.{Some};
    ghost use Rattle.feed_http.specs.MemoryShelves.{file_named};

    ghost files = { λ shelf. Some (file_named shelf.files.now) };

    ghost failed = { λ _. 0 };

    fn failures(&self) -> u64 {
        0
    }

    fn size(&mut self, name: &ReleaseName) -> Result<Option<u64>, ShelfFault> {
        Ok(self.file(name).map(|file| file.len() as u64))
    }

    fn read(
        &mut self,
        alloc: Global,
        name: &ReleaseName,
        first: u64,
        len: usize,
    ) -> Result<Vec<u8>, ShelfFault> {
        let Some(file) = self.file(name) else {
            unreachable!()
        };
        let start = first as usize;
        match Vec::from_slice(alloc, &file[start..start + len]) {
            Ok(bytes) => Ok(bytes),
            Err(_) => Err(ShelfFault::Memory),
        }
    }
}
