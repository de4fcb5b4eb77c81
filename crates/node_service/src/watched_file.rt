//! The file of a database, by which a node notices that it was removed or replaced.
use std::os::unix::fs::MetadataExt;
use std::{fs, io};

/// The file at a path, by its device and inode.
#[derive(Drop)]
pub struct WatchedFile<'a> {
    rt: &'a HostRuntime,
    path: &'a str,
    device: u64,
    inode: u64,
}

impl<'a> WatchedFile<'a> {
    /// Begins to watch the file that is at a path now.
    pub fn new(rt: &'a HostRuntime, path: &'a str) -> io::Result<WatchedFile<'a>> {
        let found = fs::metadata(rt, path)?;
        Ok(WatchedFile {
            rt,
            path,
            device: found.dev(),
            inode: found.ino(),
        })
    }

    /// Returns whether the path still names the file.
    pub fn is_there(&self) -> bool {
        match fs::metadata(self.rt, self.path) {
            Ok(found) => found.dev() == self.device && found.ino() == self.inode,
            Err(_) => false,
        }
    }
}
