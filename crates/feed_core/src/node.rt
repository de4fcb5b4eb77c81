//! The trait `Node`: a node of a replayed world.
ghost use Rattle.std.specs.Prelude.{◌≡◌, ◌≢◌, ◌∷◌, ℕ, Bool, true, Err, option_map};
ghost use Rattle.feed_model.specs.History.{History, Answer, Reports};
ghost use Rattle.feed_model.specs.Reply.{IsRight};
ghost use Rattle.feed_keep.specs.Cause.{HasCounted, IsCounted};
ghost use Rattle.feed_keep.specs.Loads.{one_more};
ghost use Rattle.feed_releases.specs.Events.{event_of};
ghost use Rattle.feed_world.specs.World.{IsAsked};
ghost use Rattle.feed_core.specs.Nodes.{IsReopened, shown_outcome};

use feed_model::{KeepFault, Refusal, Reply};
use feed_names::ReleaseName;
use feed_releases::Event;
use feed_world::Why;
use std::alloc::Global;

/// A node of a world, up or down. A clause about its history holds if it is `clean` at the end of the call.
pub trait Node {
    /// Its keeper's content is as promised.
    ghost clean: { Self → Type 0 };

    /// Whether it is up, and its history.
    ghost has_state: { Self → Bool → History → Type 0 };

    /// The number of failures of its keeper's device.
    ghost failed: { Self → ℕ };

    /// The number of loads of its keeper.
    ghost loads: { Self → ℕ };

    fn is_up(&self) -> bool
        ensures { (up : Bool) (h : History) → has_state self.now up h → result ≡ up };

    /// Returns the active release of a package.
    fn report(&self, package: &[u8]) -> Option<&ReleaseName>
        ensures { (h : History) → has_state self.now true h → Reports h «package».now
            (option_map (λ name. name.now) result) };

    /// Returns the text that answers a query about a package, or why there is none.
    fn ask(&self, alloc: Global, package: &[u8], query: &[u8]) -> Result<Vec<u8>, Why>
        ensures answered { (h : History) → has_state self.now true h
            → IsAsked h «package».now query.now (shown_outcome (λ text. text.items) result) }
        ensures device { result ≢ Err (Why.Feed Refusal.Device) };

    /// Handles an event.
    fn handle(&mut self, event: &Event<'_>) -> Result<Reply, Refusal>
        ensures clean { clean self.new → clean self.old }
        ensures right { (h : History) → has_state self.old true h → IsRight h (event_of event.now) result
            × has_state self.new true ((event_of event.now, result) ∷ h) }
        ensures device { IsCounted (result ≡ Err Refusal.Device) (failed self.old) (failed self.new) }
        ensures unloaded { loads self.new ≡ loads self.old };

    /// Opens the node again, as after a stop between two events or before the commit of one.
    fn restart(self, alloc: Global) -> (Self, Result<(), KeepFault>)
        ensures clean { clean result.0 → clean self }
        ensures same { (up : Bool) (h : History) → clean result.0 → has_state self up h
            → IsReopened (has_state result.0) h result.1 }
        ensures device { IsCounted (result.1 ≡ Err KeepFault.Device) (failed self) (failed result.0) }
        ensures loaded { loads result.0 ≡ one_more (loads self) };

    /// Stops the node after the commit of an event and before its answer, and opens it again.
    fn stop_after(self, alloc: Global, event: &Event<'_>) -> (Self, Result<(), KeepFault>)
        ensures clean { clean result.0 → clean self }
        ensures right { (h : History) → clean result.0 → has_state self true h → (answer : Answer)
            × IsRight h (event_of event.now) answer
            × IsReopened (has_state result.0) ((event_of event.now, answer) ∷ h) result.1 }
        ensures device { HasCounted (result.1 ≡ Err KeepFault.Device) (failed self) (failed result.0) }
        ensures loaded { loads result.0 ≡ one_more (loads self) };
}
