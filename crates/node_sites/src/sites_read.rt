//! The sites of the files of a folder that are read so far.
ghost use Rattle.std.specs.Prelude.{◌≡◌, ◌+◌, [], true, IfErr, IfOk, OnErr, OnOk, option_map};
ghost use Rattle.node_sites.specs.SitesReadings.{AddsNext, AddsSiteOf, HasRead, IsNextFault, RefusesNext};
ghost use Rattle.node_sites.specs.SitesReadings.{file_name, is_for_others, name_at};
ghost use Rattle.node_sites.specs.NodeSites.{IsAddFault};

use crate::node_sites::{NamedSite, NodeSites};
use node_response::Site;
use node_site::SitesFault;
use std::alloc::{AllocError, Global};

// The end of the name of a site file.
const END: &[u8] = b".toml";

// The name of the file whose site is for all hosts that have none of their own.
const OTHERS: &str = "default";

/// A folder of site files: the names of its files, and on what their sites depend beside the bytes.
#[derive(Drop)]
pub struct SitesFolder {
    /// The version of the program.
    pub version: Vec<u8>,
    /// For how many seconds a cache may use a response without asking again; 0 if it always has to ask.
    pub max_age: u32,
    /// The names of the site files without their end, in the order in which they are read.
    pub names: Vec<String>,
}

/// The sites of the first files of a folder.
#[derive(Drop)]
pub(crate) struct SitesRead {
    pub(crate) folder: SitesFolder,
    /// How many files were read or refused.
    pub(crate) place: usize,
    pub(crate) sites: NodeSites,
    /// A file was refused.
    pub(crate) is_refused: bool,
}

fn is_for_others(name: &str) -> bool
    ensures { result ≡ is_for_others name.now }
{
    name == OTHERS
}

fn file_name(alloc: Global, name: &str) -> Result<Vec<u8>, AllocError>
    ensures { IfOk result (λ file. file.items ≡ file_name name.now) }
{
    let mut file = Vec::from_slice(alloc, name.as_bytes())?;
    file.extend_from_slice(END)?;
    Ok(file)
}

// Adds a site to others, for the host that its file is named after.
fn add_site(alloc: Global, sites: &mut NodeSites, name: &str, site: Site) -> Result<(), SitesFault>
    ensures added { OnOk result (AddsSiteOf sites.old name.now site sites.new) }
    ensures refused { IfErr result (IsAddFault sites.old name.now) }
{
    let named = match file_name(alloc, name) {
        Ok(name) => NamedSite { site, name },
        Err(_) => return Err(SitesFault::Memory),
    };
    if !is_for_others(name) {
        return sites.add(alloc, name.as_bytes(), named);
    }
    match sites.set_others(named) {
        Ok(()) => Ok(()),
        Err(_) => Err(SitesFault::Memory),
    }
}

impl SitesRead {
    /// Begins with the first file of a folder.
    pub(crate) fn new(alloc: Global, folder: SitesFolder) -> SitesRead
        ensures read { HasRead result [] }
        ensures folder { result.folder ≡ folder }
    {
        SitesRead {
            folder,
            place: 0,
            sites: NodeSites::new(alloc),
            is_refused: false,
        }
    }

    /// Returns the name of the next file, or none if each is read or refused.
    pub(crate) fn name(&self) -> Option<&str>
        ensures { option_map (λ n. n.now) result ≡ name_at self.now.folder self.now.place }
    {
        match self.folder.names.get(self.place) {
            Some(name) => Some(name.as_str()),
            None => None,
        }
    }

    /// Adds the site of the next file.
    ///
    /// # Errors
    ///
    /// All files are read, the name is not that of a host or is of one that has a site, there are 1,024 sites, or an
    /// allocation fails.
    pub(crate) fn add(&mut self, alloc: Global, site: Site) -> Result<(), SitesFault>
        ensures added { OnOk result (AddsNext self.old site self.new) }
        ensures refused { IfErr result (IsNextFault self.old) }
        ensures folder { self.new.folder ≡ self.old.folder }
        ensures kept { self.new.is_refused ≡ self.old.is_refused }
        ensures place { OnErr result (self.new.place ≡ self.old.place) }
    {
        let Some(name) = self.folder.names.get(self.place) else {
            return Err(SitesFault::NotHost);
        };
        match add_site(alloc, &mut self.sites, name.as_str(), site) {
            Ok(()) => {
                self.place += 1;
                Ok(())
            }
            Err(fault) => Err(fault),
        }
    }

    /// Refuses the next file, and with it the folder. The one behind it is the next.
    pub(crate) fn refuse(&mut self)
        ensures { RefusesNext self.old self.new }
    {
        self.is_refused = true;
        if self.place < self.folder.names.len() {
            self.place += 1;
        }
    }
}
