//! The rest of a queue that a turn may serve.
ghost use Rattle.std.specs.Prelude.{◌≡◌, ◌+◌, ◌<◌, true};

/// The rest of a queue that a turn may serve.
#[derive(Clone, Copy)]
pub struct QueueRest {
    /// The number of keys that were ready when the turn began, and that it has not taken.
    left: usize,
    has_served: bool,
}

impl QueueRest {
    ghost use Rattle.node_turns.specs.Queues.{may_serve, IsWhole};

    /// Begins a turn, with this many keys that are ready.
    pub(crate) fn new(left: usize) -> QueueRest
        ensures { IsWhole left result }
    {
        QueueRest {
            left,
            has_served: false,
        }
    }

    /// Returns whether a turn serves another key: one that was ready when the turn began, while its time is not over,
    /// or if it has served none of this queue.
    pub(crate) fn may_serve(&self, is_over: bool) -> bool
        ensures { result ≡ may_serve is_over self.now }
    {
        self.left > 0 && (!is_over || !self.has_served)
    }

    /// Notes that a key was taken.
    pub(crate) fn serve(&mut self)
        requires { 0 < self.old.left }
        ensures left { self.new.left + 1 ≡ self.old.left }
        ensures served { self.new.has_served ≡ true }
    {
        self.left -= 1;
        self.has_served = true;
    }
}
