//! The clock of a connection, and what its time limits end.
ghost use Rattle.std.specs.Prelude.{◌≡◌, ◌+◌, ◌<◌, ◌≤◌};
ghost use Rattle.std.specs.Prelude.{List, ◌∷◌};
ghost use Rattle.node_connection.specs.Events.{Event, Elapsed};

use crate::connection::Connection;
use crate::phase::Wants;

impl Connection {
    ghost use Rattle.node_connection.specs.States.{HasState};
    ghost use Rattle.node_connection.specs.States.{is_idle_in, limit_in};
    ghost use Rattle.node_connection.specs.States.{wants_in};
    ghost use Rattle.node_connection.specs.States.{allocated_bytes};

    /// Returns the milliseconds since the timer was last restarted.
    pub fn elapsed(&self) -> u64
        ensures { result ≡ self.now.elapsed }
    {
        self.elapsed
    }

    pub(crate) fn time_limit(&self) -> u64
        ensures { result ≡ limit_in (is_idle_in self.now.phase) self.now.limits }
    {
        if self.is_idle() {
            self.limits.idle
        } else {
            self.limits.step
        }
    }

    /// Records that this many milliseconds have passed.
    pub fn advance_clock(&mut self, millis: u64)
        ensures state { (history : List Event) → HasState self.old history
            → HasState self.new (Elapsed millis ∷ history) }
        ensures kept { self.old.elapsed + millis < limit_in (is_idle_in self.old.phase) self.old.limits
            → self.new.phase ≡ self.old.phase }
        ensures late { limit_in (is_idle_in self.old.phase) self.old.limits ≤ self.old.elapsed + millis
            → wants_in self.new.phase ≡ Wants.Close }
        ensures limits { self.new.limits ≡ self.old.limits }
        ensures allocated { allocated_bytes self.new ≡ allocated_bytes self.old }
    {
        if self.wants() == Wants::Close {
            return;
        }
        if millis >= self.time_limit().saturating_sub(self.elapsed) {
            self.end();
        } else {
            self.elapsed += millis;
        }
    }
}
