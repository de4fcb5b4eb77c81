//! The effect of one event at one node of a world.
ghost use Rattle.std.specs.Prelude.{◌≡◌, ◌≢◌, ◌+◌, ◌<◌, ◌≤◌, ◌⊎◌, ◌∷◌};
ghost use Rattle.std.specs.Prelude.{ℕ, Bool, true, Ok, Err, IfOk, IfErr, IfSome};
ghost use Rattle.std.specs.Prelude.{IfNone, insert, length, vec_len, vec_capacity};
ghost use Rattle.feed_model.specs.History.{History, Answer};
ghost use Rattle.feed_model.specs.Reply.{IsRight};
ghost use Rattle.feed_world.specs.World.{Sent, Tell, Restart, Report, Ask};
ghost use Rattle.feed_world.specs.Shown.{shown_line};
ghost use Rattle.feed_keep.specs.Loads.{one_more};
ghost use Rattle.feed_core.specs.Counts.{IsAccountOf, IsDeviceFailure, IsReported, loads_in};
ghost use Rattle.feed_releases.specs.Events.{event_of};
ghost use Rattle.feed_core.specs.Nodes.{HasStopped, IsReopened};
ghost use Rattle.feed_core.specs.Step.{IsAway, IsMessageStep, IsNodeStep, IsReady, IsReplaced, stop_event};

use crate::node::Node;
use feed_model::{KeepFault, Refusal};
use feed_releases::{Event, Point};
use feed_world::{Line, Why};
use std::alloc::{AllocError, Global};

// Returns the place of the node with this number.
fn place(count: usize, node: u64) -> Option<usize>
    ensures found { IfSome result (λ at. (node ≡ at + 1) × (at < count)) }
    ensures none { IfNone result ((node ≡ 0) ⊎ (count < node)) }
{
    let at = node.checked_sub(1)?;
    if at < count as u64 {
        Some(at as usize)
    } else {
        None
    }
}

// Returns the place of the node with this number, which is up, with what arrives at it; or why nothing happens there,
// in this order: no node has the number, nothing arrives, the node is down.
fn ready_at<N: Node, T: Drop>(
    nodes: &[N],
    node: u64,
    arrived: Result<T, Why>,
) -> Result<(usize, T), Why>
    ensures ready { IfOk result (λ ready. IsReady N.has_state nodes.now node ready.0 × (arrived ≡ Ok ready.1)) }
    ensures away { IfErr result (IsAway N.has_state nodes.now node arrived) }
{
    let Some(at) = place(nodes.len(), node) else {
        return Err(Why::NoNode);
    };
    let what = arrived?;
    if !nodes[at].is_up() {
        return Err(Why::Down);
    }
    Ok((at, what))
}

// Puts a node back at the place from which it was taken.
fn put_back<N: Node + Drop>(nodes: &mut Vec<N>, at: usize, node: N)
    requires within { at ≤ vec_len nodes.old }
    requires room { vec_len nodes.old < vec_capacity nodes.old }
    ensures { nodes.new.items ≡ insert nodes.old.items at node }
{
    match nodes.insert(at, node) {
        Ok(()) => {}
        Err(_) => unreachable!(),
    }
}

// Opens the node at a place again.
fn restart_node<N: Node + Drop>(
    alloc: Global,
    nodes: &mut Vec<N>,
    at: usize,
) -> Result<(), KeepFault>
    requires within { at < vec_len nodes.old }
    ensures { IsReplaced N.clean (λ x z. IsReported (result ≡ Err KeepFault.Device) ⊥ (N.failed x) (N.failed z)
        × (N.loads z ≡ one_more (N.loads x)) × ((up : Bool) (h : History) → N.clean z → N.has_state x up h
        → IsReopened (N.has_state z) h result)) nodes.old.items nodes.new.items at }
{
    let (node, outcome) = nodes.remove(at).restart(alloc);
    put_back(nodes, at, node);
    outcome
}

// Stops the node at a place after the commit of an event, and opens it again.
fn stop_node_after<N: Node + Drop>(
    alloc: Global,
    nodes: &mut Vec<N>,
    at: usize,
    event: &Event<'_>,
) -> Result<(), KeepFault>
    requires within { at < vec_len nodes.old }
    ensures { IsReplaced N.clean (λ x z. IsReported (result ≡ Err KeepFault.Device) (Unit {0}) (N.failed x) (N.failed z)
        × (N.loads z ≡ one_more (N.loads x)) × ((h : History) → N.clean z → N.has_state x true h
        → (answer : Answer) × IsRight h (event_of event.now) answer
        × IsReopened (N.has_state z) ((event_of event.now, answer) ∷ h) result)) nodes.old.items nodes.new.items at }
{
    let (node, outcome) = nodes.remove(at).stop_after(alloc, event);
    put_back(nodes, at, node);
    outcome
}

// Stops the node at a place before or after the commit of an event, and opens it again.
fn stop_node<N: Node + Drop>(
    alloc: Global,
    nodes: &mut Vec<N>,
    at: usize,
    event: &Event<'_>,
    point: Point,
) -> Result<(), KeepFault>
    requires within { at < vec_len nodes.old }
    ensures { IsReplaced N.clean (λ x z. IsReported (result ≡ Err KeepFault.Device) (point ≡ Point.After) (N.failed x)
        (N.failed z) × (N.loads z ≡ one_more (N.loads x)) × ((h : History) → N.clean z → N.has_state x true h
        → HasStopped (N.has_state z) point (event_of event.now) h result)) nodes.old.items nodes.new.items at }
{
    match point {
        Point::Before => restart_node(alloc, nodes, at),
        Point::After => stop_node_after(alloc, nodes, at, event),
    }
}

/// Opens a node again.
pub(crate) fn restart_at<N: Node + Drop>(alloc: Global, nodes: &mut Vec<N>, node: u64) -> Line
    ensures step { (chosen : ℕ → Bool) → IsNodeStep chosen N.Node (λ _. Unit {0})
        (record { old = nodes.old.items; new = nodes.new.items }) (Restart node) (shown_line result) }
    ensures count { length nodes.new.items ≡ length nodes.old.items }
    ensures account { IsAccountOf N.failed N.loads (Restart node) (shown_line result) nodes.old.items nodes.new.items }
{
    let Some(at) = place(nodes.len(), node) else {
        return Line::Refused(Why::NoNode);
    };
    match restart_node(alloc, nodes, at) {
        Ok(()) => Line::Restarted,
        Err(cause) => Line::Down(cause),
    }
}

/// Sends a node what arrives at it.
pub(crate) fn tell_at<N: Node>(
    nodes: &mut Vec<N>,
    node: u64,
    arrived: Result<Event<'_>, Why>,
) -> Line
    ensures step { (chosen : ℕ → Bool) → IsMessageStep chosen N.Node arrived.entry
        (record { old = nodes.old.items; new = nodes.new.items }) (Tell node) (shown_line result) }
    ensures count { length nodes.new.items ≡ length nodes.old.items }
    ensures account { arrived.entry ≢ Err (Why.Feed Refusal.Device) → (sent : Sent)
        → IsAccountOf N.failed N.loads (Tell node sent) (shown_line result) nodes.old.items nodes.new.items }
{
    let (at, event) = match ready_at(nodes, node, arrived) {
        Ok(ready) => ready,
        Err(why) => return Line::Refused(why),
    };
    match nodes[at].handle(&event) {
        Ok(reply) => Line::Replied(reply),
        Err(refusal) => Line::Refused(Why::Feed(refusal)),
    }
}

/// Stops a node before or after the commit of what arrives at it, and opens it again.
pub(crate) fn stop_at<N: Node + Drop>(
    alloc: Global,
    nodes: &mut Vec<N>,
    node: u64,
    arrived: Result<Event<'_>, Why>,
    point: Point,
) -> Line
    ensures step { (chosen : ℕ → Bool) → IsMessageStep chosen N.Node arrived.entry
        (record { old = nodes.old.items; new = nodes.new.items }) (stop_event point node) (shown_line result) }
    ensures count { length nodes.new.items ≡ length nodes.old.items }
    ensures account { arrived.entry ≢ Err (Why.Feed Refusal.Device) → (sent : Sent)
        → IsAccountOf N.failed N.loads (stop_event point node sent) (shown_line result) nodes.old.items
        nodes.new.items }
{
    let (at, event) = match ready_at(nodes, node, arrived) {
        Ok(ready) => ready,
        Err(why) => return Line::Refused(why),
    };
    match stop_node(alloc, nodes, at, &event, point) {
        Ok(()) => Line::Stopped,
        Err(cause) => Line::Down(cause),
    }
}

/// Reports the active release of a package at a node.
pub(crate) fn report_at<N: Node>(nodes: &[N], node: u64, package: &[u8]) -> Result<Line, AllocError>
    ensures step { IfOk result (λ line. (chosen : ℕ → Bool) → IsNodeStep chosen N.Node (λ _. Unit {0})
        (record { old = nodes.now; new = nodes.now }) (Report node «package».now) (shown_line line)) }
    ensures device { IfOk result (λ line. ¬ (IsDeviceFailure (shown_line line))) }
    ensures unloaded { IfOk result (λ line. loads_in (shown_line line) ≡ 0) }
{
    let (at, ()) = match ready_at(nodes, node, Ok(())) {
        Ok(ready) => ready,
        Err(why) => return Ok(Line::Refused(why)),
    };
    match nodes[at].report(package) {
        Some(name) => Ok(Line::Active(name.try_clone()?)),
        None => Ok(Line::Inactive),
    }
}

/// Answers a query about a package at a node.
pub(crate) fn ask_at<N: Node>(
    alloc: Global,
    nodes: &[N],
    node: u64,
    package: &[u8],
    query: &[u8],
) -> Line
    ensures step { (chosen : ℕ → Bool) → IsNodeStep chosen N.Node (λ _. Unit {0})
        (record { old = nodes.now; new = nodes.now }) (Ask node «package».now query.now) (shown_line result) }
    ensures device { ¬ (IsDeviceFailure (shown_line result)) }
    ensures unloaded { loads_in (shown_line result) ≡ 0 }
{
    let (at, ()) = match ready_at(nodes, node, Ok(())) {
        Ok(ready) => ready,
        Err(why) => return Line::Refused(why),
    };
    match nodes[at].ask(alloc, package, query) {
        Ok(text) => Line::Text(text),
        Err(why) => Line::Refused(why),
    }
}
