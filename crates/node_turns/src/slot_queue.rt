//! The queue of the keys of one address.
ghost use Rattle.std.specs.Prelude.{◌≡◌, ◌++◌, ◌∷◌, [], true, false, ◌<◌, length, if◌then◌else◌};
ghost use Rattle.node_turns.specs.Flags.{without};

use std::alloc::Global;
use std::collections::VecDeque;

// The room that an empty queue keeps.
const ROOM: usize = 16;

/// The keys of one address, the one that waits longest first.
#[derive(Drop)]
pub(crate) struct SlotQueue {
    keys: VecDeque<usize>,
}

impl SlotQueue {
    /// Returns an empty queue.
    pub(crate) fn new(alloc: Global) -> SlotQueue
        ensures { result.keys.items ≡ [] }
    {
        SlotQueue {
            keys: VecDeque::new(alloc),
        }
    }

    /// Returns the number of keys.
    pub(crate) fn len(&self) -> usize
        ensures { result ≡ length self.now.keys.items }
    {
        self.keys.len()
    }

    /// Adds a key at the end. Returns whether there was memory for it.
    pub(crate) fn push(&mut self, key: usize) -> bool
        ensures { self.new.keys.items ≡ (if result then self.old.keys.items ++ key ∷ [] else self.old.keys.items) }
    {
        self.keys.push_back(key).is_ok()
    }

    /// Takes the key at the front.
    pub(crate) fn take(&mut self, alloc: Global) -> usize
        requires { 0 < length self.old.keys.items }
        ensures { self.old.keys.items ≡ result ∷ self.new.keys.items }
    {
        let key = self.keys[0];
        let _ = self.keys.pop_front();
        self.free_room(alloc);
        key
    }

    /// Removes a key, wherever it is.
    pub(crate) fn remove(&mut self, key: usize, alloc: Global)
        ensures { self.new.keys.items ≡ without key self.old.keys.items }
    {
        self.keys.retain(|other| *other != key);
        self.free_room(alloc);
    }

    /// Removes a key if it is at the end. Returns whether it was.
    pub(crate) fn drop_last(&mut self, key: usize, alloc: Global) -> bool
        ensures dropped { result ≡ true → self.old.keys.items ≡ self.new.keys.items ++ key ∷ [] }
        ensures kept { result ≡ false → self.new ≡ self.old }
    {
        let Some(last) = self.keys.back() else {
            return false;
        };
        if *last != key {
            return false;
        }
        let _ = self.keys.pop_back();
        self.free_room(alloc);
        true
    }

    // Frees the memory of an empty queue that was long.
    fn free_room(&mut self, alloc: Global)
        ensures { self.new.keys.items ≡ self.old.keys.items }
    {
        if self.keys.is_empty() && self.keys.capacity() > ROOM {
            self.keys = VecDeque::new(alloc);
        }
    }
}
