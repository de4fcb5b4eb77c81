//! A queue that has each key once at most, so that it never needs more room.
ghost use Rattle.std.specs.Prelude.{◌≡◌, ◌<◌, ◌≤◌, ◌++◌, [], true, length, vec_len};
ghost use Rattle.std.specs.Prelude.{IfOk, IfNone, IfSome, IsSome, option_to_list};
ghost use Rattle.std.specs.VecDeque.{deque_capacity};
ghost use Rattle.node_turns.specs.Flags.{has_key, without, AreAsMany, AreFlagged, IsAdded, IsDropped};

use crate::queue_rest::QueueRest;
use std::alloc::{AllocError, Global};
use std::collections::VecDeque;

/// A queue of keys below a number.
#[derive(Drop)]
pub(crate) struct KeyQueue {
    keys: VecDeque<usize>,
    /// Whether each key is in the queue.
    flags: Vec<bool>,
    ghost flagged: { AreFlagged keys.items flags.items },
    ghost as_many: { AreAsMany keys.items flags.items },
    ghost roomy: { vec_len flags ≤ deque_capacity keys },
}

impl KeyQueue {
    ghost use Rattle.node_turns.specs.Queues.{IsWhole, MayServe};

    /// Returns an empty queue of keys below this number, with room for all of them.
    pub(crate) fn new(alloc: Global, count: usize) -> Result<KeyQueue, AllocError>
        ensures empty { IfOk result (λ queue. queue.keys.items ≡ []) }
        ensures count { IfOk result (λ queue. vec_len queue.flags ≡ count) }
    {
        Ok(KeyQueue {
            keys: VecDeque::with_capacity(alloc, count)?,
            flags: Vec::from_elem(alloc, false, count)?,
        })
    }

    /// Returns the number of keys in the queue.
    pub(crate) fn len(&self) -> usize
        ensures { result ≡ length self.now.keys.items }
    {
        self.keys.len()
    }

    /// Returns whether a key is in the queue.
    pub(crate) fn has(&self, key: usize) -> bool
        ensures { result ≡ has_key key self.now.keys.items }
    {
        key < self.flags.len() && self.flags[key]
    }

    /// Adds a key at the end, unless it is in the queue.
    pub(crate) fn add(&mut self, key: usize)
        requires { key < vec_len self.old.flags }
        ensures added { IsAdded key self.old.keys.items self.new.keys.items }
        ensures count { vec_len self.new.flags ≡ vec_len self.old.flags }
    {
        if self.flags[key] {
            return;
        }
        self.flags[key] = true;
        self.keys.push_back_reserved(key);
    }

    /// Takes the key at the front.
    pub(crate) fn take(&mut self) -> Option<usize>
        ensures taken { self.old.keys.items ≡ option_to_list result ++ self.new.keys.items }
        ensures none { IfNone result (length self.old.keys.items ≡ 0) }
        ensures count { vec_len self.new.flags ≡ vec_len self.old.flags }
    {
        let key = self.keys.pop_front()?;
        self.flags[key] = false;
        Some(key)
    }

    /// Removes a key, wherever it is.
    pub(crate) fn remove(&mut self, key: usize)
        ensures removed { self.new.keys.items ≡ without key self.old.keys.items }
        ensures count { vec_len self.new.flags ≡ vec_len self.old.flags }
    {
        if !self.has(key) {
            return;
        }
        self.flags[key] = false;
        self.keys.retain(|other| *other != key);
    }

    /// Removes a key if it is at the end.
    pub(crate) fn drop_last(&mut self, key: usize)
        ensures dropped { IsDropped key self.old.keys.items self.new.keys.items }
        ensures count { vec_len self.new.flags ≡ vec_len self.old.flags }
    {
        let Some(last) = self.keys.back() else {
            return;
        };
        if *last != key {
            return;
        }
        let _ = self.keys.pop_back();
        self.flags[key] = false;
    }

    /// Begins a turn.
    pub(crate) fn begin_turn(&self) -> QueueRest
        ensures { IsWhole (length self.now.keys.items) result }
    {
        QueueRest::new(self.keys.len())
    }

    /// Takes the key at the front if the turn may serve it.
    pub(crate) fn next(&mut self, rest: &mut QueueRest, is_over: bool) -> Option<usize>
        ensures taken { self.old.keys.items ≡ option_to_list result ++ self.new.keys.items }
        ensures some { MayServe is_over rest.old self.old.keys.items → IsSome result }
        ensures served { IfSome result (λ _. (rest.new.has_served ≡ true) × (rest.new.left < rest.old.left)) }
        ensures none { IfNone result (rest.new ≡ rest.old) }
        ensures count { vec_len self.new.flags ≡ vec_len self.old.flags }
    {
        if !rest.may_serve(is_over) {
            return None;
        }
        match self.take() {
            Some(key) => {
                rest.serve();
                Some(key)
            }
            None => None,
        }
    }
}
