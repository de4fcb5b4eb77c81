//! The order in which the connections of a node are served: each address has a queue, and a turn goes round the
//! addresses.
#![tactic(auto)]

mod addresses;
mod key_queue;
mod laws;
mod queue_rest;
mod ready_queues;
mod round_queue;
mod slot_queue;

pub use addresses::{SLOTS, slot_of};
pub use laws::{each_address_is_served, each_is_served};
pub use queue_rest::QueueRest;
pub use ready_queues::{ReadyQueues, TurnRest};
