//! The queues of the addresses that have keys, of which each gives a key in its turn.
ghost use Rattle.std.specs.Prelude.{◌≡◌, ◌<◌, ◌++◌, [], true, false, length, vec_len};
ghost use Rattle.std.specs.Prelude.{ℕ, IfNone, IfOk, IfSome, IsSome, None, is_some, count_by, get_or};
ghost use Rattle.node_turns.specs.Flags.{times};
ghost use Rattle.node_turns.specs.Homes.{again, list_at, lists_of, ring_left, AreHomed, AreRinged};

use crate::key_queue::KeyQueue;
use crate::queue_rest::QueueRest;
use crate::slot_queue::SlotQueue;
use std::alloc::{AllocError, Global};

/// Keys below a number, each in the queue of a slot at most once. A slot stands for an address.
#[derive(Drop)]
pub(crate) struct RoundQueue {
    alloc: Global,
    /// The queue of each slot.
    queues: Vec<SlotQueue>,
    /// The slots that have keys, in the order in which they are served.
    ring: KeyQueue,
    /// The slot in whose queue each key is.
    homes: Vec<Option<usize>>,
    /// The number of keys in all queues.
    len: usize,
    ghost homed: { AreHomed (lists_of queues.items) homes.items },
    ghost ringed: { AreRinged ring.keys.items (lists_of queues.items) },
    ghost counted: { len ≡ count_by is_some homes.items },
    ghost as_many: { vec_len ring.flags ≡ vec_len queues },
}

impl RoundQueue {
    ghost use Rattle.node_turns.specs.Queues.{IsWhole, MayServe};
    ghost use Rattle.node_turns.specs.Rounds.{home_of, key_total, ring_of, slot_total};
    ghost use Rattle.node_turns.specs.Rounds.{IsAddedTo, IsSameRounds, IsTakenFrom, IsRemovedFrom, IsDroppedFrom};

    /// Returns empty queues of keys below one number for slots below another.
    pub(crate) fn new(alloc: Global, keys: usize, slots: usize) -> Result<RoundQueue, AllocError>
        ensures ring { IfOk result (λ queue. ring_of queue ≡ []) }
        ensures none { IfOk result (λ queue. key_total queue ≡ 0) }
        ensures free { IfOk result (λ queue. (key : ℕ) → home_of queue key ≡ None) }
        ensures keys { IfOk result (λ queue. vec_len queue.homes ≡ keys) }
        ensures slots { IfOk result (λ queue. slot_total queue ≡ slots) }
    {
        Ok(RoundQueue {
            alloc,
            queues: empty_queues(alloc, slots)?,
            ring: KeyQueue::new(alloc, slots)?,
            homes: no_homes(alloc, keys)?,
            len: 0,
        })
    }

    /// Returns the number of slots.
    pub(crate) fn slots(&self) -> usize
        ensures { result ≡ slot_total self.now }
    {
        self.queues.len()
    }

    /// Returns whether there is no key.
    pub(crate) fn is_empty(&self) -> bool
        ensures some { result ≡ false → 0 < length (ring_of self.now) }
        ensures none { result ≡ true → ring_of self.now ≡ [] }
    {
        self.ring.len() == 0
    }

    // Returns the slot in whose queue a key is.
    fn home(&self, key: usize) -> Option<usize>
        ensures { result ≡ home_of self.now key }
    {
        match self.homes.get(key) {
            Some(home) => *home,
            None => None,
        }
    }

    /// Returns whether a key is in a queue.
    pub(crate) fn has(&self, key: usize) -> bool
        ensures { result ≡ is_some (home_of self.now key) }
    {
        self.home(key).is_some()
    }

    /// Adds a key at the end of the queue of a slot, unless it is in a queue. A slot that had no key is served after
    /// those that have. Returns whether there was memory for it.
    pub(crate) fn add(&mut self, key: usize, slot: usize) -> bool
        requires key { key < vec_len self.old.homes }
        requires slot { slot < slot_total self.old }
        ensures added { result ≡ true → IsAddedTo slot key self.old self.new }
        ensures kept { result ≡ false → IsSameRounds self.old self.new }
        ensures keys { vec_len self.new.homes ≡ vec_len self.old.homes }
        ensures slots { slot_total self.new ≡ slot_total self.old }
    {
        if self.homes[key].is_some() {
            return true;
        }
        if !self.queues[slot].push(key) {
            return false;
        }
        self.homes[key] = Some(slot);
        self.ring.add(slot);
        self.len += 1;
        true
    }

    /// Takes the first key of the slot that is served next. A slot that has more keys is served again after the others.
    pub(crate) fn take(&mut self) -> Option<usize>
        ensures taken { IfSome result (λ key. IsTakenFrom key self.old self.new) }
        ensures kept { IfNone result (IsSameRounds self.old self.new) }
        ensures empty { IfNone result (ring_of self.old ≡ []) }
        ensures keys { vec_len self.new.homes ≡ vec_len self.old.homes }
        ensures slots { slot_total self.new ≡ slot_total self.old }
    {
        let slot = self.ring.take()?;
        let key = self.queues[slot].take(self.alloc);
        self.homes[key] = None;
        self.len -= 1;
        rejoin(&mut self.ring, slot, self.queues[slot].len());
        Some(key)
    }

    /// Begins a turn.
    pub(crate) fn begin_turn(&self) -> QueueRest
        ensures { IsWhole (key_total self.now) result }
    {
        QueueRest::new(self.len)
    }

    /// Takes the first key of the slot that is served next, if the turn may serve it.
    pub(crate) fn next(&mut self, rest: &mut QueueRest, is_over: bool) -> Option<usize>
        ensures taken { IfSome result (λ key. IsTakenFrom key self.old self.new) }
        ensures kept { IfNone result (IsSameRounds self.old self.new) }
        ensures some { MayServe is_over rest.old (ring_of self.old) → IsSome result }
        ensures served { IfSome result (λ _. (rest.new.has_served ≡ true) × (rest.new.left < rest.old.left)) }
        ensures none { IfNone result (rest.new ≡ rest.old) }
        ensures keys { vec_len self.new.homes ≡ vec_len self.old.homes }
        ensures slots { slot_total self.new ≡ slot_total self.old }
    {
        if !rest.may_serve(is_over) {
            return None;
        }
        match self.take() {
            Some(key) => {
                rest.serve();
                Some(key)
            }
            None => None,
        }
    }

    /// Removes a key, wherever it is.
    pub(crate) fn remove(&mut self, key: usize)
        ensures removed { IsRemovedFrom key self.old self.new }
        ensures keys { vec_len self.new.homes ≡ vec_len self.old.homes }
        ensures slots { slot_total self.new ≡ slot_total self.old }
    {
        let Some(slot) = self.home(key) else {
            return;
        };
        self.queues[slot].remove(key, self.alloc);
        self.homes[key] = None;
        self.len -= 1;
        leave(&mut self.ring, slot, self.queues[slot].len());
    }

    /// Removes a key if it is at the end of its queue.
    pub(crate) fn drop_last(&mut self, key: usize)
        ensures dropped { IsDroppedFrom key self.old self.new }
        ensures keys { vec_len self.new.homes ≡ vec_len self.old.homes }
        ensures slots { slot_total self.new ≡ slot_total self.old }
    {
        let Some(slot) = self.home(key) else {
            return;
        };
        if !self.queues[slot].drop_last(key, self.alloc) {
            return;
        }
        self.homes[key] = None;
        self.len -= 1;
        leave(&mut self.ring, slot, self.queues[slot].len());
    }
}

// Returns this many queues without a key.
fn empty_queues(alloc: Global, slots: usize) -> Result<Vec<SlotQueue>, AllocError>
    ensures empty { IfOk result (λ queues. (slot : ℕ) → list_at (lists_of queues.items) slot ≡ []) }
    ensures count { IfOk result (λ queues. vec_len queues ≡ slots) }
{
    let mut queues = Vec::with_capacity(alloc, slots)?;
    for _ in 0..slots {
        queues.push(SlotQueue::new(alloc))?;
    }
    Ok(queues)
}

// Returns this many keys that are in no queue.
fn no_homes(alloc: Global, keys: usize) -> Result<Vec<Option<usize>>, AllocError>
    ensures none { IfOk result (λ homes. (key : ℕ) → get_or homes.items key None ≡ None) }
    ensures zero { IfOk result (λ homes. count_by is_some homes.items ≡ 0) }
    ensures count { IfOk result (λ homes. vec_len homes ≡ keys) }
{
    let mut homes = Vec::with_capacity(alloc, keys)?;
    for _ in 0..keys {
        homes.push(None)?;
    }
    Ok(homes)
}

// Removes a slot from the ring if it has no keys.
fn leave(ring: &mut KeyQueue, slot: usize, len: usize)
    ensures ring { ring.new.keys.items ≡ ring_left slot len ring.old.keys.items }
    ensures count { vec_len ring.new.flags ≡ vec_len ring.old.flags }
{
    if len == 0 {
        ring.remove(slot);
    }
}

// Adds a slot at the end of the ring if it has keys.
fn rejoin(ring: &mut KeyQueue, slot: usize, len: usize)
    requires absent { times slot ring.old.keys.items ≡ 0 }
    requires within { slot < vec_len ring.old.flags }
    ensures ring { ring.new.keys.items ≡ ring.old.keys.items ++ again slot len }
    ensures count { vec_len ring.new.flags ≡ vec_len ring.old.flags }
{
    if len > 0 {
        ring.add(slot);
    }
}
