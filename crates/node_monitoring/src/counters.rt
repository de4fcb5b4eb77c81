//! Counters by their places. A counter stops at 2^64 - 1.
ghost use Rattle.std.specs.Prelude.{◌≡◌, ◌<◌, IfOk, List, [], ◌∷◌, length, replicate, slice_index};
ghost use Rattle.node_monitoring.specs.Counts.{Added, HasCounted};

use std::alloc::{AllocError, Global};
use std::marker::Model;

/// Counters by their places.
#[derive(Drop)]
pub(crate) struct Counters {
    counts: Vec<u64>,
}

impl Model for Counters {
    ghost use Rattle.std.specs.Prelude.{List, ℕ};

    ghost Value = { List ℕ };

    ghost view = { λ counters. counters.counts.items };
}

impl Counters {
    /// Returns this number of counters, which have counted nothing.
    pub(crate) fn new(alloc: Global, size: usize) -> Result<Counters, AllocError>
        ensures size { IfOk result (λ counters. length counters ≡ size) }
        ensures counted { IfOk result (λ counters. HasCounted counters []) }
    {
        Ok(Counters {
            counts: Vec::from_elem(alloc, 0, size)?,
        })
    }

    /// Adds an amount to the counter at a place.
    pub(crate) fn add(&mut self, place: usize, amount: u64)
        requires { place < length self.now }
        ensures size { length self.new ≡ length self.old }
        ensures counted { (history : List Added) → HasCounted self.old history
            → HasCounted self.new (record { place = place; amount = amount } ∷ history) }
    {
        self.counts[place] = self.counts[place].saturating_add(amount);
    }

    /// Returns the value of the counter at a place, and 0 if there is none.
    pub(crate) fn get(&self, place: usize) -> u64
        ensures { result ≡ slice_index self.now place }
    {
        match self.counts.get(place) {
            Some(count) => *count,
            None => 0,
        }
    }
}
