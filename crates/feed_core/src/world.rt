//! `replay`: runs a list of events over nodes, and shows each event by a line.
ghost use Rattle.std.specs.Prelude.{◌≡◌, ◌≢◌, ◌<◌, ◌≤◌, ◌+◌, ◌⊎◌, ◌↔◌, []};
ghost use Rattle.std.specs.Prelude.{ℕ, List, Bool, suc, length, map, IfOk, IfErr};
ghost use Rattle.std.specs.Prelude.{IsErrOf, vec_len, vec_capacity, slice_get, Some};
ghost use Rattle.feed_model.specs.History.{History};
ghost use Rattle.feed_model.specs.Content.{Content};
ghost use Rattle.feed_world.specs.World.{World, start, Shows};
ghost use Rattle.feed_world.specs.Shown.{shown_event, shown_line};
ghost use Rattle.feed_world.specs.Headline.{IsHeadline};
ghost use Rattle.feed_keep.specs.Cause.{HasFailed};
ghost use Rattle.feed_keep.specs.Loads.{one_more};
ghost use Rattle.feed_core.specs.Counts.{AreLoaded, AreReported, EachNode, HasConcealed, HasDeviceFailure};
ghost use Rattle.feed_core.specs.Counts.{IsAccountOf, loads_shown};
ghost use Rattle.feed_core.specs.Slots.{IsSlotClean, HasSlotState, slot_count};
ghost use Rattle.feed_core.specs.Transcripts.{keepers_of, lines_of};
ghost use Rattle.feed_core.specs.Chosen.{events_on, lines_on};
ghost use Rattle.feed_core.specs.Step.{AllClean, AreNodes, AreKept, IsWorldStep, IsStart};

use crate::node::Node;
use crate::shelf::Shelf;
use crate::slot::NodeSlot;
use crate::step::{ask_at, report_at, restart_at, stop_at, tell_at};
use crate::transcript::Transcript;
use feed_keep::Keep;
use feed_model::KeepFault;
use feed_releases::{OpenFault, Point};
use feed_world::{Line, NODE_LIMIT, WorldEvent, headline};
use std::alloc::{AllocError, Global};

/// Why a replay could not begin or continue.
#[derive(Drop)]
pub enum ReplayFault<K: Drop> {
    /// Memory ran out.
    Memory,
    /// There were no keepers, or more than 16.
    Nodes,
    /// The keeper of this node, counted from 1, was not empty or could not be loaded.
    Start { node: usize, keeper: K },
}

/// Replays events over nodes on these keepers, and shows each event by a line. Opens each keeper once, in order,
/// before the first event.
pub fn replay<K: Keep>(
    alloc: Global,
    keepers: Vec<K>,
    events: &[WorldEvent],
) -> Result<Transcript<K>, ReplayFault<K>>
    ensures shown { IfOk result (λ t. let shown = map shown_event events.now in let lines = map shown_line (lines_of t)
        in (chosen : ℕ → Bool) → AllClean chosen K.clean (keepers_of t) → (w : World)
        × Shows (start (vec_len keepers)) (events_on chosen shown) (lines_on chosen shown lines) w
        × AreKept chosen K.content K.listed (keepers_of t) w.nodes) }
    ensures headline { IfOk result (λ t. let shown = map shown_event events.now in
        let lines = map shown_line (lines_of t) in (chosen : ℕ → Bool) → AllClean chosen K.clean (keepers_of t)
        → IsHeadline (events_on chosen shown) (lines_on chosen shown lines)) }
    ensures count { IfOk result (λ t. length (lines_of t) ≡ length events.now) }
    ensures device { IfOk result (λ t. let shown = map shown_event events.now in let lines = map shown_line (lines_of t)
        in AreReported (HasDeviceFailure shown lines) (HasConcealed shown lines) K.failed K.failed keepers.items
        (keepers_of t)) }
    ensures loaded { IfOk result (λ t. AreLoaded (λ node. suc (loads_shown (map shown_event events.now)
        (map shown_line (lines_of t)) node)) K.loads K.loads keepers.items (keepers_of t)) }
    ensures nodes { ((vec_len keepers ≡ 0) ⊎ (16 < vec_len keepers)) ↔ IsErrOf result ReplayFault.Nodes }
    ensures start { IfErr result (λ fault. IsStart K.Keep keepers.items fault) }
{
    if keepers.is_empty() || keepers.len() > NODE_LIMIT {
        return Err(ReplayFault::Nodes);
    }
    let Ok(room) = Vec::with_capacity(alloc, keepers.len()) else {
        return Err(ReplayFault::Memory);
    };
    let nodes = start_all(alloc, keepers)?;
    match show_all(alloc, nodes, events) {
        Ok((lines, nodes)) => Ok(Transcript::of(lines, collect_keepers(room, nodes))),
        Err(_) => Err(ReplayFault::Memory),
    }
}

// Starts nodes on empty keepers.
fn start_all<K: Keep>(alloc: Global, keepers: Vec<K>) -> Result<Vec<NodeSlot<K>>, ReplayFault<K>>
    ensures count { IfOk result (λ nodes. length nodes.items ≡ vec_len keepers) }
    ensures started { IfOk result (λ nodes. (chosen : ℕ → Bool) → AreNodes chosen (HasSlotState K.content K.listed)
        nodes.items (start (length nodes.items)).nodes) }
    ensures loaded { IfOk result (λ nodes. EachNode (λ _ k s. (slot_count K.failed s ≡ K.failed k)
        × (slot_count K.loads s ≡ one_more (K.loads k))) 1 keepers.items nodes.items) }
    ensures nodes { ¬ (IsErrOf result ReplayFault.Nodes) }
    ensures start { IfErr result (λ fault. IsStart K.Keep keepers.items fault) }
{
    let Ok(mut nodes) = Vec::with_capacity(alloc, keepers.len()) else {
        return Err(ReplayFault::Memory);
    };
    for keeper in keepers {
        match NodeSlot::start(alloc, keeper) {
            Ok(slot) => {
                let Ok(()) = nodes.push(slot) else {
                    return Err(ReplayFault::Memory);
                };
            }
            Err(fault) => return Err(start_fault(fault, nodes.len() + 1)),
        }
    }
    Ok(nodes)
}

// Returns why the node with this number did not start.
fn start_fault<K: Keep>(fault: OpenFault<K>, node: usize) -> ReplayFault<K>
    ensures { ((fault.cause ≡ KeepFault.Memory) × (result ≡ ReplayFault.Memory))
        ⊎ ((fault.cause ≢ KeepFault.Memory) × (result ≡ ReplayFault.Start node fault.keeper)) }
{
    match fault.cause {
        KeepFault::Memory => ReplayFault::Memory,
        KeepFault::Device | KeepFault::Damaged => ReplayFault::Start {
            node,
            keeper: fault.keeper,
        },
    }
}

// Returns the keepers of the nodes, in their order, in the vector that was reserved for them.
fn collect_keepers<K: Keep>(room: Vec<K>, nodes: Vec<NodeSlot<K>>) -> Vec<K>
    requires empty { room.items ≡ [] }
    requires room { vec_len nodes ≤ vec_capacity room }
    ensures clean { (chosen : ℕ → Bool) → AllClean chosen K.clean result.items
        → AllClean chosen (IsSlotClean K.clean) nodes.items }
    ensures kept { (chosen : ℕ → Bool) → AllClean chosen K.clean result.items → (w : World)
        → AreNodes chosen (HasSlotState K.content K.listed) nodes.items w.nodes
        → AreKept chosen K.content K.listed result.items w.nodes }
    ensures unloaded { EachNode (λ _ s k. (K.failed k ≡ slot_count K.failed s)
        × (K.loads k ≡ slot_count K.loads s)) 1 nodes.items result.items }
{
    let mut keepers = room;
    for node in nodes {
        keepers.push_reserved(node.into_keeper());
    }
    keepers
}

// Shows each event by a line.
fn show_all<N: Node + Drop>(
    alloc: Global,
    nodes: Vec<N>,
    events: &[WorldEvent],
) -> Result<(Vec<Line>, Vec<N>), AllocError>
    requires { (chosen : ℕ → Bool) → AreNodes chosen N.has_state nodes.items (start (vec_len nodes)).nodes }
    ensures shown { IfOk result (λ t. let shown = map shown_event events.now in let lines = map shown_line t.0.items
        in (chosen : ℕ → Bool) → AllClean chosen N.clean t.1.items → (w : World)
        × Shows (start (vec_len nodes)) (events_on chosen shown) (lines_on chosen shown lines) w
        × AreNodes chosen N.has_state t.1.items w.nodes) }
    ensures headline { IfOk result (λ t. let shown = map shown_event events.now in let lines = map shown_line t.0.items
        in (chosen : ℕ → Bool) → AllClean chosen N.clean t.1.items
        → IsHeadline (events_on chosen shown) (lines_on chosen shown lines)) }
    ensures device { IfOk result (λ t. let shown = map shown_event events.now in let lines = map shown_line t.0.items
        in AreReported (HasDeviceFailure shown lines) (HasConcealed shown lines) N.failed N.failed nodes.items
        t.1.items) }
    ensures loaded { IfOk result (λ t. AreLoaded (loads_shown (map shown_event events.now) (map shown_line t.0.items))
        N.loads N.loads nodes.items t.1.items) }
    ensures lines { IfOk result (λ t. vec_len t.0 ≡ length events.now) }
    ensures count { IfOk result (λ t. length t.1.items ≡ vec_len nodes) }
{
    headline();
    let mut nodes = nodes;
    let mut shelf = Shelf::new(alloc);
    let mut lines = Vec::with_capacity(alloc, events.len())?;
    for event in events {
        let line = show(alloc, &mut shelf, &mut nodes, event)?;
        lines.push(line)?;
    }
    Ok((lines, nodes))
}

// Shows one event.
fn show<'a, N: Node + Drop>(
    alloc: Global,
    shelf: &mut Shelf<'a>,
    nodes: &mut Vec<N>,
    event: &'a WorldEvent,
) -> Result<Line, AllocError>
    ensures step { IfOk result (λ line. (chosen : ℕ → Bool) → IsWorldStep chosen N.Node
        (record { files = shelf.old.files.entries; nodes = nodes.old.items })
        (record { files = shelf.new.files.entries; nodes = nodes.new.items })
        (shown_event event.now) (shown_line line)) }
    ensures account { IfOk result (λ line. IsAccountOf N.failed N.loads (shown_event event.now) (shown_line line)
        nodes.old.items nodes.new.items) }
    ensures count { IfOk result (λ _. length nodes.new.items ≡ length nodes.old.items) }
{
    match event {
        WorldEvent::Publish { name, bytes } => Ok(shelf.publish(name, bytes)?),
        WorldEvent::Offer { node, name } => Ok(tell_at(nodes, *node, shelf.offer(name))),
        WorldEvent::Deliver {
            node,
            name,
            first,
            len,
        } => Ok(tell_at(nodes, *node, shelf.deliver(name, *first, *len))),
        WorldEvent::Lose { node, name } => Ok(tell_at(nodes, *node, shelf.lose(name))),
        WorldEvent::Restart { node } => Ok(restart_at(alloc, nodes, *node)),
        WorldEvent::StopBefore { node, what } => {
            Ok(stop_at(alloc, nodes, *node, shelf.send(what), Point::Before))
        }
        WorldEvent::StopAfter { node, what } => {
            Ok(stop_at(alloc, nodes, *node, shelf.send(what), Point::After))
        }
        WorldEvent::Report { node, package } => Ok(report_at(nodes, *node, package)?),
        WorldEvent::Ask {
            node,
            package,
            query,
        } => Ok(ask_at(alloc, nodes, *node, package, query)),
    }
}
