//! The releases of a folder, as a shelf that the HTTP server reads from.
ghost use Rattle.std.specs.Prelude.{◌≡◌, ℕ, List, IfOk, drop, length, take};
ghost use Rattle.cmd_files.specs.PlacedFiles.{HasBytes};
ghost use Rattle.feed_http.specs.Shelves.{IsCounted};

use feed_console::open_plain;
use feed_http::{Shelf, ShelfFault};
use feed_names::ReleaseName;
use std::alloc::Global;
use std::fs::File;
use std::io::{ErrorKind, Read, Seek, SeekFrom};
use std::{fs, io, str};

/// The plain files of a folder whose names are release names. Symbolic links are followed. A link that leads to no file
/// or back to itself is not on the shelf. A call of `size` opens the file, and `read` reads that file, even if another
/// one has taken its name since.
#[derive(Drop)]
pub struct Folder<'a> {
    rt: &'a HostRuntime,
    path: &'a str,
    failures: u64,
    open_file: Option<OpenFile>,
}

#[derive(Drop)]
struct OpenFile {
    name: ReleaseName,
    file: File,
}

// Returns the size of a file.
fn size_of<R: Read + Seek>(file: &mut R) -> io::Result<u64>
    ensures { (all : List ℕ) → HasBytes R.Read.remaining R.Seek.stream_position R.Seek.stream_bytes all file.old
        → IfOk result (λ size. size ≡ length all) }
{
    file.seek(SeekFrom::End(0))
}

// Reads exactly `len` bytes of a file, from a place on.
fn read_at<R: Read + Seek>(
    alloc: Global,
    file: &mut R,
    first: u64,
    len: usize,
) -> io::Result<Vec<u8>>
    ensures len { IfOk result (λ bytes. length bytes.items ≡ len) }
    ensures bytes { (all : List ℕ) → HasBytes R.Read.remaining R.Seek.stream_position R.Seek.stream_bytes all file.old
        → IfOk result (λ bytes. bytes.items ≡ take len (drop first all)) }
{
    let mut bytes = vec![in alloc; 0u8; len]?;
    file.seek(SeekFrom::Start(first))?;
    file.read_exact(bytes.as_mut_slice())?;
    Ok(bytes)
}

impl<'a> Folder<'a> {
    pub fn new(rt: &'a HostRuntime, path: &'a str) -> Folder<'a> {
        Folder {
            rt,
            path,
            failures: 0,
            open_file: None,
        }
    }

    /// Returns whether the folder is there.
    pub fn is_there(&self) -> bool {
        match fs::metadata(self.rt, self.path) {
            Ok(metadata) => metadata.is_dir(),
            Err(_) => false,
        }
    }

    // Opens the plain file of a name and returns its size, or `None` if the file is of another kind.
    fn open(&mut self, name: &ReleaseName) -> io::Result<Option<u64>>
        ensures { self.new.failures ≡ self.old.failures }
    {
        self.open_file = None;
        let alloc = self.rt.alloc();
        let text = str::from_utf8(name.text()).unwrap_or("");
        let path = format!(in alloc; "{}/{text}", self.path)?;
        let Some(mut file) = open_plain(self.rt, path.as_str())? else {
            return Ok(None);
        };
        let size = size_of(&mut file)?;
        self.open_file = Some(OpenFile {
            name: name.try_clone()?,
            file,
        });
        Ok(Some(size))
    }

    // Reads exactly `len` bytes of the open file, from a place on.
    fn read_bytes(
        &mut self,
        alloc: Global,
        name: &ReleaseName,
        first: u64,
        len: usize,
    ) -> io::Result<Vec<u8>>
        ensures len { IfOk result (λ bytes. length bytes.items ≡ len) }
        ensures kept { self.new.failures ≡ self.old.failures }
    {
        match &mut self.open_file {
            Some(open) if open.name == *name => read_at(alloc, &mut open.file, first, len),
            _ => Err(io::Error::from(ErrorKind::NotFound)),
        }
    }

    // Returns the fault of an error of the system, and counts it if it is one of the device.
    fn fault_of(&mut self, error: &io::Error) -> ShelfFault
        ensures { IsCounted (result ≡ ShelfFault.Device) self.old.failures self.new.failures }
    {
        if error.kind() == ErrorKind::OutOfMemory {
            return ShelfFault::Memory;
        }
        self.failures = self.failures.saturating_add(1);
        ShelfFault::Device
    }
}

impl Shelf for Folder<'_> {
    ghost failed = { λ folder. folder.failures };

    fn failures(&self) -> u64 {
        self.failures
    }

    fn size(&mut self, name: &ReleaseName) -> Result<Option<u64>, ShelfFault> {
        match self.open(name) {
            Ok(size) => Ok(size),
            Err(error) => match error.kind() {
                ErrorKind::NotFound | ErrorKind::NotADirectory | ErrorKind::FilesystemLoop => {
                    Ok(None)
                }
                _ => Err(self.fault_of(&error)),
            },
        }
    }

    fn read(
        &mut self,
        alloc: Global,
        name: &ReleaseName,
        first: u64,
        len: usize,
    ) -> Result<Vec<u8>, ShelfFault> {
        match self.read_bytes(alloc, name, first, len) {
            Ok(bytes) => Ok(bytes),
            Err(error) => Err(self.fault_of(&error)),
        }
    }
}
