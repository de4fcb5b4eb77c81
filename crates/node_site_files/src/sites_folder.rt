//! The folder with the site file of each library, named after the host whose requests it is for. A node reads it all at
//! once before it starts, and later in steps between the turns of its loop.
use crate::site_faults::report_file;
use feed_console::{Console, DONE, FAILED, REFUSED, open_plain_file, read_front};
use feed_options::NodeOptions;
use node_site::{HOLDINGS_LIMIT, SITE_LIMIT, SITES_LIMIT};
use node_sites::{FileFault, Need, NodeSites, SitesFolder, SitesReading};
use std::alloc::{AllocError, Global};
use std::fs::File;
use std::io::Write;
use std::{fs, io};

// The end of the name of a site file.
const END: &str = ".toml";

/// A folder whose files are read one after the other.
#[derive(Drop)]
pub struct FolderReading<'a> {
    path: &'a str,
    reading: SitesReading,
    /// The name of the site file that is read.
    site: String,
    /// The name of its holdings file, once it was given.
    list: Option<String>,
    /// The exit status of the last fault.
    status: u8,
}

/// Reads the site files of a folder, with the holdings files that they name. Otherwise reports what is wrong with each,
/// and returns the exit status.
pub fn read_folder<O: Write, F: Write + Drop>(
    path: &str,
    options: NodeOptions<'_>,
    console: &mut Console<'_, O, F>,
) -> Result<NodeSites, u8> {
    let mut reading = FolderReading::begin(path, options, console)?;
    for _ in 0..u64::MAX {
        if !reading.advance(console) {
            break;
        }
    }
    reading.finish()
}

// Returns the names of the site files of a folder, without their end, in order. If there are more than a node may have,
// the rest is left out.
fn names_in(rt: &HostRuntime, path: &str) -> io::Result<Vec<String>> {
    let mut names = Vec::new(rt.alloc());
    for entry in fs::read_dir(rt, path)? {
        let entry = entry?;
        if let Some(name) = entry.file_name().strip_suffix(END) {
            names.push(String::from_str(rt.alloc(), name)?)?;
        }
        if names.len() > SITES_LIMIT + 1 {
            break;
        }
    }
    names.sort_unstable();
    Ok(names)
}

// Returns the length of a file of a folder, and its first bytes, or reports the error and returns the exit status.
fn read_file<O: Write, F: Write + Drop>(
    path: &str,
    name: &str,
    most: usize,
    console: &mut Console<'_, O, F>,
) -> Result<(u64, Vec<u8>), u8> {
    let line = format_args!("Read {name}");
    let size = match fs::symlink_metadata(console.rt, path) {
        Ok(facts) if facts.is_file() => facts.len(),
        Ok(_) => {
            let words = "it is a link, or not a plain file";
            return Err(console.faults.report_with(line, path, words, FAILED));
        }
        Err(error) => return Err(console.faults.report_with(line, path, error, FAILED)),
    };
    let mut file = open_plain_file(path, console)?;
    match read_front(console.rt.alloc(), &mut file, most) {
        Ok(bytes) => Ok((size, bytes)),
        Err(error) => Err(console.faults.report_read(path, error)),
    }
}

impl<'a> FolderReading<'a> {
    /// Begins to read a folder, or reports why it cannot be read, and returns the exit status.
    pub fn begin<O: Write, F: Write + Drop>(
        path: &'a str,
        options: NodeOptions<'_>,
        console: &mut Console<'_, O, F>,
    ) -> Result<FolderReading<'a>, u8> {
        let names = match names_in(console.rt, path) {
            Ok(names) => names,
            Err(error) => return Err(console.faults.report_read(path, error)),
        };
        if names.is_empty() {
            let words = "it has no site file, such as library.example.toml";
            return Err(
                console
                    .faults
                    .report_with("Sites Empty", path, words, REFUSED),
            );
        }
        match FolderReading::new(console.rt.alloc(), path, options, names) {
            Ok(reading) => Ok(reading),
            Err(_) => Err(console.faults.report("Memory", FAILED)),
        }
    }

    fn new(
        alloc: Global,
        path: &'a str,
        options: NodeOptions<'_>,
        names: Vec<String>,
    ) -> Result<FolderReading<'a>, AllocError> {
        let folder = SitesFolder {
            version: Vec::from_slice(alloc, options.version.as_bytes())?,
            max_age: options.max_age,
            names,
        };
        Ok(FolderReading {
            path,
            reading: SitesReading::begin(alloc, folder),
            site: String::new(alloc),
            list: None,
            status: DONE,
        })
    }

    /// Does the next step: opens a file and reads it, or reads a portion of a holdings file. Reports why a file is
    /// refused. Returns whether there was anything left to do.
    pub fn advance<O: Write, F: Write + Drop>(&mut self, console: &mut Console<'_, O, F>) -> bool {
        match self.step(console) {
            Ok(is_more) => is_more,
            Err(status) => {
                self.status = status;
                true
            }
        }
    }

    /// Returns the sites of all files, or the exit status if a file was refused.
    pub fn finish(self) -> Result<NodeSites, u8> {
        match self.reading.finish() {
            Some(sites) => Ok(sites),
            None => Err(self.status),
        }
    }

    // Does what the reading needs next, or reports why the file is refused and returns the exit status. Returns whether
    // it needed anything.
    fn step<O: Write, F: Write + Drop>(
        &mut self,
        console: &mut Console<'_, O, F>,
    ) -> Result<bool, u8> {
        let alloc = console.rt.alloc();
        match self.reading.need() {
            Need::Site(name) => match format!(in alloc; "{name}{END}") {
                Ok(name) => self.give_site(name, console)?,
                Err(_) => return Err(self.refuse(console.faults.report("Memory", FAILED))),
            },
            Need::Holdings(name) => match String::from_str(alloc, name) {
                Ok(name) => self.give_holdings(name, console)?,
                Err(_) => return Err(self.refuse(console.faults.report("Memory", FAILED))),
            },
            Need::Step => match self.reading.step(alloc) {
                Ok(()) => {}
                Err(fault) => return Err(self.report(fault, console)),
            },
            Need::Nothing => return Ok(false),
        }
        Ok(true)
    }

    // Refuses the next file, and returns the exit status.
    fn refuse(&mut self, status: u8) -> u8 {
        self.reading.refuse();
        status
    }

    // Gives the reading the site file of a name.
    fn give_site<O: Write, F: Write + Drop>(
        &mut self,
        name: String,
        console: &mut Console<'_, O, F>,
    ) -> Result<(), u8> {
        let (size, bytes) = match self.file(name.as_str(), SITE_LIMIT, console) {
            Ok(file) => file,
            Err(status) => return Err(self.refuse(status)),
        };
        self.site = name;
        self.list = None;
        match self.reading.take_site(console.rt.alloc(), size, bytes) {
            Ok(()) => Ok(()),
            Err(fault) => Err(self.report(fault, console)),
        }
    }

    // Gives the reading the holdings file of a name.
    fn give_holdings<O: Write, F: Write + Drop>(
        &mut self,
        name: String,
        console: &mut Console<'_, O, F>,
    ) -> Result<(), u8> {
        let (size, bytes) = match self.file(name.as_str(), HOLDINGS_LIMIT, console) {
            Ok(file) => file,
            Err(status) => return Err(self.refuse(status)),
        };
        self.list = Some(name);
        match self.reading.take_holdings(console.rt.alloc(), size, bytes) {
            Ok(()) => Ok(()),
            Err(fault) => Err(self.report(fault, console)),
        }
    }

    // Returns the length of a file of the folder, and as many of its bytes as the limit and one more.
    fn file<O: Write, F: Write + Drop>(
        &self,
        name: &str,
        limit: usize,
        console: &mut Console<'_, O, F>,
    ) -> Result<(u64, Vec<u8>), u8> {
        match self.path_of(console.rt.alloc(), name) {
            Ok(path) => read_file(path.as_str(), name, limit.saturating_add(1), console),
            Err(_) => Err(console.faults.report("Memory", FAILED)),
        }
    }

    fn path_of(&self, alloc: Global, name: &str) -> Result<String, AllocError> {
        let folder = self.path.trim_end_matches('/');
        format!(in alloc; "{folder}/{name}")
    }

    // Reports why a file is refused, and returns the exit status.
    fn report<O: Write, F: Write + Drop>(
        &self,
        fault: FileFault,
        console: &mut Console<'_, O, F>,
    ) -> u8 {
        let name = match (&fault, &self.list) {
            (FileFault::Host(_), _) | (_, None) => self.site.as_str(),
            (_, Some(list)) => list.as_str(),
        };
        match self.path_of(console.rt.alloc(), name) {
            Ok(path) => report_file(path.as_str(), name, fault, console),
            Err(_) => console.faults.report("Memory", FAILED),
        }
    }
}
