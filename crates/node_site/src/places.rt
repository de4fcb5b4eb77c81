//! Places of rows by their keys.
ghost use Rattle.std.specs.Prelude.{◌≡◌, List, ℕ, None, OnOk};
ghost use Rattle.node_site.specs.Indexes.{AddsPlace, place_at};

use std::alloc::{AllocError, Global};
use std::collections::BTreeMap;

/// A place for each key: that of the first row with the key.
#[derive(Drop)]
pub(crate) struct Places {
    pub(crate) places: BTreeMap<Vec<u8>, usize>,
}

impl Places {
    pub(crate) fn new(alloc: Global) -> Places
        ensures { (key : List ℕ) → place_at key result ≡ None }
    {
        Places {
            places: BTreeMap::new(alloc),
        }
    }

    /// Returns the place of a key.
    pub(crate) fn get(&self, key: &[u8]) -> Option<usize>
        ensures { result ≡ place_at key.now self.now }
    {
        match self.places.get(key) {
            Some(place) => Some(*place),
            None => None,
        }
    }

    /// Gives a key a place, unless it has one.
    pub(crate) fn put(&mut self, alloc: Global, key: &[u8], place: usize) -> Result<(), AllocError>
        ensures { OnOk result (AddsPlace self.old key.now place self.new) }
    {
        if !self.places.contains_key(key) {
            self.places.insert(Vec::from_slice(alloc, key)?, place)?;
        }
        Ok(())
    }
}
