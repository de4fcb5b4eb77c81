//! A node over a keeper: a feed while it is up, or only its keeper while it is down.
ghost use Rattle.std.specs.Prelude.{◌≡◌, ◌≢◌, ◌≤◌, Bool, true, [], Err, IfOk, IfErr};
ghost use Rattle.feed_model.specs.History.{History};
ghost use Rattle.feed_model.specs.Content.{IsContent, within};
ghost use Rattle.feed_model.specs.Reply.{max_held};
ghost use Rattle.feed_keep.specs.Cause.{HasFailed, IsCounted};
ghost use Rattle.feed_keep.specs.Loads.{one_more};
ghost use Rattle.feed_releases.specs.Feeds.{recorded};
ghost use Rattle.feed_core.specs.Slots.{IsSlotClean, HasSlotState, slot_count};
ghost use Rattle.feed_world.specs.World.{IsAsked};
ghost use Rattle.feed_core.specs.Nodes.{IsReopened, IsStartRefused, shown_outcome};

use crate::node::Node;
use crate::text::Text;
use feed_answer::{Query, QueryFault};
use feed_keep::Keep;
use feed_model::{KeepFault, Refusal, Reply};
use feed_names::ReleaseName;
use feed_releases::{AnswerFault, Event, Feed, OpenFault, Point};
use feed_world::Why;
use std::alloc::Global;

// Most answers fit in this many bytes.
const TEXT_ROOM: usize = 256;

/// A node over a keeper.
#[derive(Drop)]
pub enum NodeSlot<K: Keep> {
    /// It is up: a feed.
    Up(Feed<K>),
    /// It is down: the keeper of a feed that could not be opened again.
    Down(K),
}

impl<K: Keep> NodeSlot<K> {
    /// Starts a node on an empty keeper. The error returns a keeper that is not empty.
    pub fn start(alloc: Global, keeper: K) -> Result<NodeSlot<K>, OpenFault<K>>
        ensures ok { IfOk result (λ s. HasSlotState K.content K.listed s true []) }
        ensures counted { IfOk result (λ s. slot_count K.failed s ≡ K.failed keeper) }
        ensures loaded { IfOk result (λ s. slot_count K.loads s ≡ one_more (K.loads keeper)) }
        ensures err { IfErr result (λ fault. fault.cause ≢ KeepFault.Memory
            → IsStartRefused (HasFailed (K.failed keeper) (K.failed fault.keeper)) (K.clean fault.keeper)
            ∥ K.listed keeper ∥₁ (K.content keeper)) }
        ensures kept { IfErr result (λ fault. K.clean fault.keeper → K.content fault.keeper ≡ K.content keeper) }
        ensures kept_clean { IfErr result (λ fault. K.clean fault.keeper → K.clean keeper) }
        ensures device { IfErr result (λ fault. IsCounted (fault.cause ≡ KeepFault.Device) (K.failed keeper)
            (K.failed fault.keeper)) }
        ensures kept_loaded { IfErr result (λ fault. K.loads fault.keeper ≡ one_more (K.loads keeper)) }
    {
        match Feed::open(alloc, keeper) {
            Ok(feed) => {
                if feed.is_empty() {
                    Ok(NodeSlot::Up(feed))
                } else {
                    Err(OpenFault {
                        cause: KeepFault::Damaged,
                        keeper: feed.restart(),
                    })
                }
            }
            Err(fault) => Err(fault),
        }
    }

    /// Returns the keeper of the node, up or down.
    pub fn into_keeper(self) -> K
        ensures clean { K.clean result → IsSlotClean K.clean self }
        ensures content { K.clean result → (up : Bool) (h : History) → HasSlotState K.content K.listed self up h
            → IsContent (within max_held (K.content result)) h × ∥ K.listed result ∥₁ }
        ensures failed { K.failed result ≡ slot_count K.failed self }
        ensures unloaded { K.loads result ≡ slot_count K.loads self }
    {
        match self {
            NodeSlot::Up(feed) => feed.restart(),
            NodeSlot::Down(keeper) => keeper,
        }
    }
}

// Opens a keeper, and returns why the node is down if this fails.
fn open_slot<K: Keep>(alloc: Global, keeper: K) -> (NodeSlot<K>, Result<(), KeepFault>)
    ensures clean { IsSlotClean K.clean result.0 → K.clean keeper }
    ensures same { (h : History) → IsSlotClean K.clean result.0 → IsContent (within max_held (K.content keeper)) h
        → ∥ K.listed keeper ∥₁ → IsReopened (HasSlotState K.content K.listed result.0) h result.1 }
    ensures device { IsCounted (result.1 ≡ Err KeepFault.Device) (K.failed keeper) (slot_count K.failed result.0) }
    ensures loaded { slot_count K.loads result.0 ≡ one_more (K.loads keeper) }
{
    match Feed::open(alloc, keeper) {
        Ok(feed) => (NodeSlot::Up(feed), Ok(())),
        Err(fault) => (NodeSlot::Down(fault.keeper), Err(fault.cause)),
    }
}

impl<K: Keep> Node for NodeSlot<K> {
    ghost clean = { IsSlotClean K.clean };

    ghost has_state = { HasSlotState K.content K.listed };

    ghost failed = { slot_count K.failed };

    ghost loads = { slot_count K.loads };

    fn is_up(&self) -> bool {
        match self {
            NodeSlot::Up(_) => true,
            NodeSlot::Down(_) => false,
        }
    }

    fn report(&self, package: &[u8]) -> Option<&ReleaseName> {
        match self {
            NodeSlot::Up(feed) => feed.report(package),
            NodeSlot::Down(_) => None,
        }
    }

    fn ask(&self, alloc: Global, package: &[u8], query: &[u8]) -> Result<Vec<u8>, Why> {
        match self {
            NodeSlot::Up(feed) => answer_text(alloc, feed, package, query),
            NodeSlot::Down(_) => Err(Why::Down),
        }
    }

    fn handle(&mut self, event: &Event<'_>) -> Result<Reply, Refusal> {
        match self {
            NodeSlot::Up(feed) => feed.handle(event),
            NodeSlot::Down(_) => Err(Refusal::Memory),
        }
    }

    fn restart(self, alloc: Global) -> (NodeSlot<K>, Result<(), KeepFault>) {
        open_slot(alloc, self.into_keeper())
    }

    fn stop_after(self, alloc: Global, event: &Event<'_>) -> (NodeSlot<K>, Result<(), KeepFault>) {
        match self {
            NodeSlot::Up(feed) => open_slot(alloc, feed.stop_at(event, Point::After)),
            NodeSlot::Down(keeper) => open_slot(alloc, keeper),
        }
    }
}

// Returns the text of a feed's answer. An error of the query takes precedence.
fn answer_text<K: Keep>(
    alloc: Global,
    feed: &Feed<K>,
    package: &[u8],
    query: &[u8],
) -> Result<Vec<u8>, Why>
    ensures answered { (h : History) → IsContent (recorded feed.now) h
        → IsAsked h «package».now query.now (shown_outcome (λ text. text.items) result) }
    ensures device { result ≢ Err (Why.Feed Refusal.Device) }
{
    let active = feed.report(package);
    let query = match Query::read(alloc, query) {
        Ok(query) => query,
        Err(QueryFault::Memory) => return Err(Why::Memory),
        Err(fault) => return Err(Why::Query(fault)),
    };
    let Some(name) = active else {
        return Err(Why::NoRelease);
    };
    let answer = match feed.answer(package, &query) {
        Ok(answer) => answer,
        Err(AnswerFault::NoRelease) => return Err(Why::NoRelease),
        Err(AnswerFault::Memory) => return Err(Why::Memory),
    };
    let Ok(mut text) = Text::with_capacity(alloc, TEXT_ROOM) else {
        return Err(Why::Memory);
    };
    match answer.write(&mut text, name) {
        Ok(()) => Ok(text.into_bytes()),
        Err(_) => Err(Why::Memory),
    }
}
