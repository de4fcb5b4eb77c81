//! Which of two connections is closed first, for its place or its memory.
ghost use Rattle.std.specs.Prelude.{◌≡◌};

use crate::connection::Connection;
use crate::phase::{ConnectionPhase, Shortage};

impl Connection {
    ghost use Rattle.node_connection.specs.States.{allocated_bytes, closing_class, closing_rank};
    ghost use Rattle.node_connection.specs.States.{is_closed_before};

    /// Returns the bytes that are allocated for the response, from when it is made until it is freed.
    pub fn allocated_bytes(&self) -> usize
        ensures { result ≡ allocated_bytes self.now }
    {
        self.reply.capacity()
    }

    pub(crate) fn closing_class(&self) -> usize
        ensures { result ≡ closing_class self.now.phase }
    {
        match self.phase {
            ConnectionPhase::Sending => 1,
            ConnectionPhase::Receiving => 0,
            ConnectionPhase::Parsing => 0,
            _ => 2,
        }
    }

    // Returns the rank of the connection among those that may be closed. The greatest is closed first.
    pub(crate) fn closing_rank(&self, shortage: Shortage) -> usize
        ensures { result ≡ closing_rank shortage self.now }
    {
        match shortage {
            Shortage::Places => self.closing_class(),
            Shortage::Memory => self.allocated_bytes(),
        }
    }

    /// Returns whether this connection is closed before the other one. For a place: a connection that has all its
    /// responses before one that reads its response, and this before one whose request is incomplete. For memory: the
    /// one whose response takes more. Of equals, in both cases: the one that made no progress for longer, so its timer
    /// was restarted earlier.
    pub fn is_closed_before(&self, other: &Connection, shortage: Shortage) -> bool
        ensures { result ≡ is_closed_before shortage self.now other.now }
    {
        let rank = self.closing_rank(shortage);
        let other_rank = other.closing_rank(shortage);
        other_rank < rank || (rank == other_rank && other.elapsed < self.elapsed)
    }
}
