//! The places of a table: how many connections can be added, and those that are closed for them.
ghost use Rattle.std.specs.Prelude.{◌≡◌, ◌≢◌, ◌+◌, ◌≤◌, ◌<◌, ◌⊎◌, ℕ, [], true, false};
ghost use Rattle.std.specs.Prelude.{IfErr, IfOk, IfSome, IsSome};
ghost use Rattle.std.specs.BinaryHeap.{IsHeap, heap_items, heap_len};
ghost use Rattle.node_table.specs.Places.{compare_entries};
ghost use Rattle.node_table.specs.Tables.{peer_at, size_of};

use crate::log::{CloseCause, Log};
use crate::peer::Stream;
use crate::table::Table;
use node_connection::Shortage;
use std::alloc::{AllocError, Global};
use std::collections::BinaryHeap;

/// An order of closing: the priority and the key of each connection, the one that is closed first on top.
type Order = BinaryHeap<(u128, usize)>;

impl<T: Stream> Table<T> {
    ghost use Rattle.node_table.specs.Places.{HasPlaces, HasRoomFor, AreEvictions, IsEviction};
    ghost use Rattle.node_table.specs.Places.{IsOrder, IsOrderBelow};
    ghost use Rattle.node_table.specs.Tables.{waits, IsFirstToClose, IsRemoved, KeepsConnections};

    /// Returns how many connections can be added, at most `most`: those for which there is a place, and those for which
    /// one is closed that does not wait for its share.
    pub fn places(&self, most: usize) -> usize
        ensures { HasPlaces self.now most result }
    {
        let mut count = self.free_places().min(most);
        for key in 0..self.peers.capacity() {
            if count == most {
                return count;
            }
            if self.is_closable(key) {
                count += 1;
            }
        }
        count
    }

    // Returns how many connections can be added without another one that is closed.
    fn free_places(&self) -> usize
        ensures { result + size_of self.now ≡ self.now.clients }
    {
        self.clients - self.peers.len()
    }

    // Returns whether there is a connection with this key, and it does not wait for its share.
    fn is_closable(&self, key: usize) -> bool
        ensures some { result ≡ true → IsSome (peer_at self.now key) × (waits Shortage.Places self.now key ≡ false) }
        ensures none { result ≡ false → IsSome (peer_at self.now key) → waits Shortage.Places self.now key ≡ true }
    {
        match self.peers.get(key) {
            Some(_) => !self.waits(Shortage::Places, key),
            None => false,
        }
    }

    // Adds the connection with this key to an order of closing, if it may be closed for a place.
    fn add_closable(&self, order: &mut Order, key: usize) -> Result<(), AllocError>
        requires heap { IsHeap compare_entries (heap_items order.old) }
        requires below { IsOrderBelow self.now key (heap_items order.old) }
        ensures heap { IsHeap compare_entries (heap_items order.new) }
        ensures below { IfOk result (λ _. IsOrderBelow self.now (key + 1) (heap_items order.new)) }
    {
        let Some(peer) = self.peers.get(key) else {
            return Ok(());
        };
        if self.waits(Shortage::Places, key) {
            return Ok(());
        }
        order.push((peer.closing_priority(), key))?;
        Ok(())
    }

    // Returns the order in which connections are closed for places.
    fn closing_order(&self, alloc: Global) -> Result<Order, AllocError>
        ensures heap { IfOk result (λ order. IsHeap compare_entries (heap_items order)) }
        ensures order { IfOk result (λ order. IsOrder self.now (heap_items order)) }
    {
        let mut order = BinaryHeap::with_capacity(alloc, self.peers.len())?;
        for key in 0..self.peers.capacity() {
            self.add_closable(&mut order, key)?;
        }
        Ok(order)
    }

    // Takes the first of an order of closing, and closes that connection.
    fn evict_next<L: Log>(&mut self, order: &mut Order, now: u64, log: &mut L)
        requires heap { IsHeap compare_entries (heap_items order.old) }
        requires order { IsOrder self.old (heap_items order.old) }
        ensures heap { IsHeap compare_entries (heap_items order.new) }
        ensures order { IsOrder self.new (heap_items order.new) }
        ensures less { 0 < heap_len order.old → heap_len order.new + 1 ≡ heap_len order.old }
        ensures evicted { ((self.new ≡ self.old) × (log.new ≡ log.old))
            ⊎ IsEviction L.records now self.old self.new log.old log.new }
    {
        if let Some((_, key)) = order.pop() {
            let _ = self.remove(key, CloseCause::Evicted, now, log);
        }
    }

    /// Closes connections until this many can be added, each time the one that is closed first for a place. None is
    /// closed that waits for its share.
    ///
    /// # Errors
    ///
    /// Running out of memory for the order of closing, if there are fewer free places. None is closed then. Memory may
    /// run out at any time, so the contract cannot say when it does.
    pub fn make_places<L: Log>(
        &mut self,
        alloc: Global,
        count: usize,
        now: u64,
        log: &mut L,
    ) -> Result<(), AllocError>
        ensures evicted { (number : ℕ) × AreEvictions L.records number now self.old self.new log.old log.new }
        ensures few { (size_of self.new ≡ size_of self.old) ⊎ (self.old.clients ≤ size_of self.new + count) }
        ensures enough { IfOk result (λ _. HasRoomFor count self.new) }
        ensures error { IfErr result (λ _. self.old.clients < size_of self.old + count) }
        ensures kept { IfErr result (λ _. (self.new ≡ self.old) × (log.new ≡ log.old)) }
        ensures connections { KeepsConnections self.old self.new }
    {
        if count <= self.free_places() {
            return Ok(());
        }
        let mut order = self.closing_order(alloc)?;
        let total = order.len();
        for _done in 0..total {
            if count <= self.free_places() {
                return Ok(());
            }
            self.evict_next(&mut order, now, log);
        }
        Ok(())
    }

    /// Closes the connection that is closed for a place, if there is any.
    pub fn make_room<L: Log>(&mut self, now: u64, log: &mut L)
        ensures removed { 0 < size_of self.old → (key : ℕ) × IsFirstToClose Shortage.Places self.old key
            × IsRemoved L.records key CloseCause.Evicted now self.old self.new log.old log.new }
        ensures empty { size_of self.old ≡ 0 → (self.new ≡ self.old) × (log.new ≡ log.old) }
    {
        let Some(key) = self.first_to_close(Shortage::Places) else {
            return;
        };
        let _ = self.remove(key, CloseCause::Evicted, now, log);
    }
}
