//! The connections that are ready, and the rest of them that a turn may serve.
ghost use Rattle.std.specs.Prelude.{◌≡◌, vec_len};

use crate::key_queue::KeyQueue;
use crate::queue_rest::QueueRest;
use crate::round_queue::RoundQueue;
use std::alloc::{AllocError, Global};

/// The keys of the connections that are ready, each below a number. Those of an address wait in its queues, and the
/// addresses are served in turn. A slot stands for an address.
#[derive(Drop)]
pub struct ReadyQueues {
    /// Those that were idle, or have their first request.
    fresh: RoundQueue,
    /// Those that have more requests, or a part of a response to send.
    behind: RoundQueue,
    /// Those for whose queue there was no memory.
    spare: KeyQueue,
    ghost keys_behind: { vec_len behind.homes ≡ vec_len fresh.homes },
    ghost keys_spare: { vec_len spare.flags ≡ vec_len fresh.homes },
    ghost slots_behind: { vec_len behind.queues ≡ vec_len fresh.queues },
}

/// The rest of the queues that a turn may serve.
#[derive(Clone, Copy)]
pub struct TurnRest {
    fresh: QueueRest,
    behind: QueueRest,
    spare: QueueRest,
}

impl ReadyQueues {
    ghost use Rattle.std.specs.Prelude.{◌≢◌, ◌<◌, ◌⊎◌, ◌+◌, ℕ, false, true, length};
    ghost use Rattle.std.specs.Prelude.{IfOk, IfSome, IsSome, IsSomeAnd};
    ghost use Rattle.node_turns.specs.Flags.{IsDropped};
    ghost use Rattle.node_turns.specs.Queues.{IsWhole, MayServe};
    ghost use Rattle.node_turns.specs.Rounds.{key_total, IsDroppedFrom};
    ghost use Rattle.node_turns.specs.Turns.{behind_ring, fresh_ring, key_count, slot_count, spare_keys, waiting_count};
    ghost use Rattle.node_turns.specs.Turns.{IsFromBehind, IsFromFresh, IsGone, IsMarked, IsReady, IsTaken, is_waiting};

    /// Returns empty queues of keys below one number for slots below another, with room for all of them.
    pub fn new(alloc: Global, count: usize, slots: usize) -> Result<ReadyQueues, AllocError>
        ensures none { IfOk result (λ queues. waiting_count queues ≡ 0) }
        ensures ready { IfOk result (λ queues. (key : ℕ) → ¬ (IsReady queues key)) }
        ensures count { IfOk result (λ queues. key_count queues ≡ count) }
        ensures slots { IfOk result (λ queues. slot_count queues ≡ slots) }
    {
        Ok(ReadyQueues {
            fresh: RoundQueue::new(alloc, count, slots)?,
            behind: RoundQueue::new(alloc, count, slots)?,
            spare: KeyQueue::new(alloc, count)?,
        })
    }

    /// Returns whether none is ready.
    pub fn is_empty(&self) -> bool
        ensures some { result ≡ false → 0 < waiting_count self.now }
        ensures none { result ≡ true → waiting_count self.now ≡ 0 }
    {
        self.fresh.is_empty() && self.behind.is_empty() && self.spare.len() == 0
    }

    /// Returns whether a key is not behind the others, and waits for its turn.
    pub fn is_waiting(&self, key: usize) -> bool
        ensures { result ≡ is_waiting self.now key }
    {
        self.fresh.has(key) || self.spare.has(key)
    }

    /// Marks a key of a slot as ready: behind the others, or among those that were idle. It is added at the end of its
    /// queue, unless it is in it.
    pub fn mark(&mut self, key: usize, slot: usize, is_behind: bool)
        requires key { key < key_count self.old }
        requires slot { slot < slot_count self.old }
        ensures marked { IsMarked is_behind slot key self.old self.new }
        ensures ready { (other : ℕ) → IsReady self.new other → IsReady self.old other ⊎ (other ≡ key) }
        ensures count { key_count self.new ≡ key_count self.old }
        ensures slots { slot_count self.new ≡ slot_count self.old }
    {
        let is_added = if is_behind {
            self.behind.add(key, slot)
        } else {
            self.fresh.add(key, slot)
        };
        if !is_added {
            self.spare.add(key);
        }
    }

    /// Removes a key from all queues.
    pub fn remove(&mut self, key: usize)
        ensures removed { IsGone key self.old self.new }
        ensures ready { (other : ℕ) → IsReady self.new other → IsReady self.old other × (other ≢ key) }
        ensures count { key_count self.new ≡ key_count self.old }
        ensures slots { slot_count self.new ≡ slot_count self.old }
    {
        self.fresh.remove(key);
        self.behind.remove(key);
        self.spare.remove(key);
    }

    /// Removes a key where it is at the end of a queue: it was added by the same step.
    pub fn drop_last(&mut self, key: usize)
        ensures fresh { IsDroppedFrom key self.old.fresh self.new.fresh }
        ensures behind { IsDroppedFrom key self.old.behind self.new.behind }
        ensures spare { IsDropped key (spare_keys self.old) (spare_keys self.new) }
        ensures ready { (other : ℕ) → IsReady self.new other → IsReady self.old other }
        ensures count { key_count self.new ≡ key_count self.old }
        ensures slots { slot_count self.new ≡ slot_count self.old }
    {
        self.fresh.drop_last(key);
        self.behind.drop_last(key);
        self.spare.drop_last(key);
    }

    /// Begins a turn: it serves as many as are ready now.
    pub fn begin_turn(&self) -> TurnRest
        ensures fresh { IsWhole (key_total self.now.fresh) result.fresh }
        ensures behind { IsWhole (key_total self.now.behind) result.behind }
        ensures spare { IsWhole (length (spare_keys self.now)) result.spare }
    {
        TurnRest {
            fresh: self.fresh.begin_turn(),
            behind: self.behind.begin_turn(),
            spare: self.spare.begin_turn(),
        }
    }

    /// Takes the one that the turn serves next. Those that were idle go first, one of each address in turn. Once the
    /// time of the turn is over, it still serves one of each kind, if it has served none. What the turn may serve of
    /// the other kind stays as it is.
    pub fn next(&mut self, rest: &mut TurnRest, is_over: bool) -> Option<usize>
        ensures taken { IsTaken result self.old self.new }
        ensures was { IfSome result (λ key. IsReady self.old key) }
        ensures ready { (other : ℕ) → IsReady self.new other → IsReady self.old other }
        ensures first { MayServe is_over rest.old.fresh (fresh_ring self.old)
            → IsSomeAnd result (λ key. IsFromFresh key self.old self.new) }
        ensures second { MayServe is_over rest.old.behind (behind_ring self.old)
            → IsSomeAnd result (λ key. IsFromFresh key self.old self.new ⊎ IsFromBehind key self.old self.new) }
        ensures some { MayServe is_over rest.old.spare (spare_keys self.old) → IsSome result }
        ensures less { IfSome result (λ _. rest.new.fresh.left + rest.new.behind.left + rest.new.spare.left
            < rest.old.fresh.left + rest.old.behind.left + rest.old.spare.left) }
        ensures served { rest.new.behind.has_served ≡ true → (rest.old.behind.has_served ≡ true)
            ⊎ IsSomeAnd result (λ key. IsFromBehind key self.old self.new) }
        ensures kept { ((rest.new.fresh ≡ rest.old.fresh) ⊎ IsSomeAnd result (λ key. IsFromFresh key self.old self.new))
            × ((rest.new.behind ≡ rest.old.behind) ⊎ IsSomeAnd result (λ key. IsFromBehind key self.old self.new)) }
        ensures count { key_count self.new ≡ key_count self.old }
        ensures slots { slot_count self.new ≡ slot_count self.old }
    {
        if let Some(key) = self.fresh.next(&mut rest.fresh, is_over) {
            return Some(key);
        }
        if let Some(key) = self.behind.next(&mut rest.behind, is_over) {
            return Some(key);
        }
        self.spare.next(&mut rest.spare, is_over)
    }
}
