//! The last fetch of each package, of a bounded number of packages.
use feed_keep::LARGE_CAPACITY;
use feed_names::ReleaseName;
use node_operator::LastFetch;
use std::alloc::{AllocError, Global};

// The most packages: as many as a node may record releases.
const MOST: usize = LARGE_CAPACITY;

/// The last fetch of each package, the latest one last.
#[derive(Drop)]
pub struct LastFetches {
    fetches: Vec<LastFetch>,
}

impl LastFetches {
    /// Begins without a fetch.
    pub fn new(alloc: Global) -> LastFetches {
        LastFetches {
            fetches: Vec::new(alloc),
        }
    }

    /// Returns the fetches.
    pub fn as_slice(&self) -> &[LastFetch] {
        &self.fetches
    }

    // Returns the place of the fetch that another replaces: that of its package, or the first if there are too many.
    // It is behind the last one if none is replaced.
    fn place_of(&self, name: &ReleaseName) -> usize {
        let package = name.package();
        match self
            .fetches
            .iter()
            .position(|it| it.name.package() == package)
        {
            Some(place) => place,
            None if self.fetches.len() >= MOST => 0,
            None => self.fetches.len(),
        }
    }

    /// Keeps a fetch in place of the one before of its package.
    pub fn put(&mut self, fetch: LastFetch) -> Result<(), AllocError> {
        let place = self.place_of(&fetch.name);
        if place < self.fetches.len() {
            let _ = self.fetches.remove(place);
        }
        Ok(self.fetches.push(fetch)?)
    }
}
