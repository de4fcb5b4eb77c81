//! The reading of the site files of a folder, with the holdings files that they name, in steps that are each bounded.
//! It opens no file itself: it says which one it needs, and gets its bytes.
ghost use Rattle.std.specs.Prelude.{◌≡◌, ◌<◌, ◌+◌, List, [], true, false, IfErr, IfNone, IfOk, IfSome, OnErr};
ghost use Rattle.std.specs.Prelude.{OnOk, length, max};
ghost use Rattle.node_sites.specs.SitesReadings.{FileText, folder_limit};
ghost use Rattle.node_sites.specs.SitesSteps.{AreSitesOfAll, IsAfterHoldings, IsAfterSite, IsAfterStep};
ghost use Rattle.node_sites.specs.SitesSteps.{IsHoldingsFileFault, IsNeed, IsReadingOf, IsSiteFileFault, IsSiteNext};
ghost use Rattle.node_sites.specs.SitesSteps.{IsSiteRefusal, IsStepFault, IsStepNext, IsStepRefusal, IsUnfinished};
ghost use Rattle.node_sites.specs.SitesSteps.{KeepsFolder, Refuses, WaitsForHoldings, folder_of, is_refused};
ghost use Rattle.node_sites.specs.SitesSteps.{room_of};

use crate::node_sites::NodeSites;
use crate::sites_read::{SitesFolder, SitesRead};
use node_response::{DigestedReading, DigestedStep, Site};
use node_site::{HoldingsFault, SiteFault, SitesFault};
use std::alloc::Global;
use std::mem::replace;

/// The most bytes of all files of a folder: 256 MiB.
pub const FOLDER_LIMIT: u64 = 268_435_456;

/// Why a file of a folder is refused.
#[derive(Drop)]
pub enum FileFault {
    /// The files of the folder have more than 256 MiB with it.
    TooLong,
    /// The site file is not accepted.
    Site(SiteFault),
    /// The holdings file is not accepted.
    Holdings(HoldingsFault),
    /// The site is not added for a host.
    Host(SitesFault),
}

/// The next need of a reading.
#[derive(Clone, Copy)]
pub enum Need<'a> {
    /// The site file of this name, without its end.
    Site(&'a str),
    /// The holdings file of this name.
    Holdings(&'a str),
    /// A step.
    Step,
    /// Nothing: each file is read or refused.
    Nothing,
}

/// The part of the next file that is read.
#[derive(Drop)]
pub(crate) enum FilePhase {
    // Nothing.
    Begin,
    // The site file, which names a holdings file.
    Named(Site),
    // The site file, and a part of its holdings file.
    Reading(Site, DigestedReading),
}

/// The sites of a folder that is being read.
#[derive(Drop)]
pub struct SitesReading {
    read: SitesRead,
    phase: FilePhase,
    // How many more bytes the files may have.
    room: u64,
}

// Reads a site file. Adds its site, unless it names a holdings file.
fn next_site(alloc: Global, read: &mut SitesRead, bytes: Vec<u8>) -> Result<FilePhase, FileFault>
    ensures next { IfOk result (IsSiteNext read.old bytes.items read.new) }
    ensures refused { IfErr result (IsSiteRefusal read.old bytes.items) }
    ensures folder { read.new.folder ≡ read.old.folder }
    ensures kept { read.new.is_refused ≡ read.old.is_refused }
    ensures place { OnErr result (read.new.place ≡ read.old.place) }
{
    let site = match Site::read(alloc, &read.folder.version, read.folder.max_age, bytes) {
        Ok(site) => site,
        Err(fault) => return Err(FileFault::Site(fault)),
    };
    if site.library().holdings().is_some() {
        return Ok(FilePhase::Named(site));
    }
    match read.add(alloc, site) {
        Ok(()) => Ok(FilePhase::Begin),
        Err(fault) => Err(FileFault::Host(fault)),
    }
}

// Reads a portion of the holdings file of a site, and adds the site with the last one.
fn next_step(
    alloc: Global,
    read: &mut SitesRead,
    mut site: Site,
    reading: DigestedReading,
) -> Result<FilePhase, FileFault>
    ensures next { IfOk result (IsStepNext read.old site reading read.new) }
    ensures refused { IfErr result (IsStepRefusal read.old reading.text) }
    ensures folder { read.new.folder ≡ read.old.folder }
    ensures kept { read.new.is_refused ≡ read.old.is_refused }
    ensures place { OnErr result (read.new.place ≡ read.old.place) }
{
    match reading.step(alloc) {
        Ok(DigestedStep::More(next)) => Ok(FilePhase::Reading(site, next)),
        Ok(DigestedStep::Done(holdings)) => {
            site.set_holdings(holdings);
            match read.add(alloc, site) {
                Ok(()) => Ok(FilePhase::Begin),
                Err(fault) => Err(FileFault::Host(fault)),
            }
        }
        Err(fault) => Err(FileFault::Holdings(fault)),
    }
}

impl SitesReading {
    /// Begins to read a folder.
    pub fn begin(alloc: Global, folder: SitesFolder) -> SitesReading
        ensures read { IsReadingOf result [] }
        ensures folder { folder_of result ≡ folder }
        ensures room { room_of result ≡ folder_limit }
    {
        SitesReading {
            read: SitesRead::new(alloc, folder),
            phase: FilePhase::Begin,
            room: FOLDER_LIMIT,
        }
    }

    /// Returns what the reading needs next.
    pub fn need(&self) -> Need<'_>
        ensures { IsNeed self.now result }
    {
        match &self.phase {
            FilePhase::Reading(_, _) => Need::Step,
            FilePhase::Named(site) => match site.library().holdings() {
                Some(name) => Need::Holdings(name),
                None => Need::Nothing,
            },
            FilePhase::Begin => match self.read.name() {
                Some(name) => Need::Site(name),
                None => Need::Nothing,
            },
        }
    }

    // Counts the bytes of a file of a size, which begins with these, and returns whether there is room for them.
    fn count(&mut self, size: u64, bytes: &[u8]) -> bool
        ensures read { self.new.read ≡ self.old.read }
        ensures phase { self.new.phase ≡ self.old.phase }
        ensures room { result ≡ true → self.new.room + max size (length bytes.now) ≡ self.old.room }
        ensures full { result ≡ false → self.old.room < max size (length bytes.now) }
    {
        match self.room.checked_sub(size.max(bytes.len() as u64)) {
            Some(room) => {
                self.room = room;
                true
            }
            None => false,
        }
    }

    /// Refuses the next file, such as one that cannot be opened. No sites come of the folder then.
    pub fn refuse(&mut self)
        ensures { Refuses self.old self.new }
    {
        self.phase = FilePhase::Begin;
        self.read.refuse();
    }

    /// Takes the site file that is needed: its size in bytes, and the first of them, which are all unless it is longer
    /// than `node_site::SITE_LIMIT`.
    ///
    /// # Errors
    ///
    /// The files have more than 256 MiB with it, it is not accepted, or its site is not added. It is refused then.
    pub fn take_site(&mut self, alloc: Global, size: u64, bytes: Vec<u8>) -> Result<(), FileFault>
        ensures taken { OnOk result ((files : List FileText) → IsReadingOf self.old files
            → IsAfterSite files bytes.items self.new) }
        ensures room { OnOk result (room_of self.new + max size (length bytes.items) ≡ room_of self.old) }
        ensures refuses { OnErr result (Refuses self.old self.new) }
        ensures refused { IfErr result (IsSiteFileFault self.old size bytes.items) }
        ensures folder { KeepsFolder self.old self.new }
    {
        self.phase = FilePhase::Begin;
        if !self.count(size, &bytes) {
            self.refuse();
            return Err(FileFault::TooLong);
        }
        match next_site(alloc, &mut self.read, bytes) {
            Ok(phase) => {
                self.phase = phase;
                Ok(())
            }
            Err(fault) => {
                self.refuse();
                Err(fault)
            }
        }
    }

    /// Takes the holdings file that is needed: its size in bytes, and the first of them, which are all unless it is
    /// longer than `node_site::HOLDINGS_LIMIT`. Does nothing if none is needed.
    ///
    /// # Errors
    ///
    /// The files have more than 256 MiB with it, or it is too long, is not UTF-8 or has another header. The site file
    /// is refused then.
    pub fn take_holdings(
        &mut self,
        alloc: Global,
        size: u64,
        bytes: Vec<u8>,
    ) -> Result<(), FileFault>
        ensures taken { OnOk result ((files : List FileText) → IsReadingOf self.old files
            → IsAfterHoldings files self.old bytes.items self.new) }
        ensures room { OnOk result (WaitsForHoldings self.old
            → room_of self.new + max size (length bytes.items) ≡ room_of self.old) }
        ensures refuses { OnErr result (Refuses self.old self.new) }
        ensures refused { IfErr result (IsHoldingsFileFault self.old size bytes.items) }
        ensures folder { KeepsFolder self.old self.new }
    {
        let site = match replace(&mut self.phase, FilePhase::Begin) {
            FilePhase::Named(site) => site,
            phase => {
                self.phase = phase;
                return Ok(());
            }
        };
        if !self.count(size, &bytes) {
            self.refuse();
            return Err(FileFault::TooLong);
        }
        match DigestedReading::begin(alloc, bytes) {
            Ok(reading) => {
                self.phase = FilePhase::Reading(site, reading);
                Ok(())
            }
            Err(fault) => {
                self.refuse();
                Err(FileFault::Holdings(fault))
            }
        }
    }

    /// Reads a bounded portion of the holdings file, and adds the site with the last one. Does nothing if no step is
    /// needed.
    ///
    /// # Errors
    ///
    /// The holdings file is not accepted, or the site is not added. The site file is refused then.
    pub fn step(&mut self, alloc: Global) -> Result<(), FileFault>
        ensures taken { OnOk result ((files : List FileText) → IsReadingOf self.old files
            → IsAfterStep files self.old self.new) }
        ensures refuses { OnErr result (Refuses self.old self.new) }
        ensures refused { IfErr result (IsStepFault self.old) }
        ensures folder { KeepsFolder self.old self.new }
    {
        let (site, reading) = match replace(&mut self.phase, FilePhase::Begin) {
            FilePhase::Reading(site, reading) => (site, reading),
            phase => {
                self.phase = phase;
                return Ok(());
            }
        };
        match next_step(alloc, &mut self.read, site, reading) {
            Ok(phase) => {
                self.phase = phase;
                Ok(())
            }
            Err(fault) => {
                self.refuse();
                Err(fault)
            }
        }
    }

    /// Returns the sites of all files, or none if a file was refused or is left.
    pub fn finish(self) -> Option<NodeSites>
        ensures sites { IfSome result (λ sites. (files : List FileText) → IsReadingOf self files
            → AreSitesOfAll (folder_of self) files sites) }
        ensures fine { IfSome result (λ sites. is_refused self ≡ false) }
        ensures none { IfNone result (IsUnfinished self) }
    {
        if self.read.is_refused || self.read.place < self.read.folder.names.len() {
            return None;
        }
        Some(self.read.sites)
    }
}
