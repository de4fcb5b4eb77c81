//! The state of a node that runs, which its responses and its log share: its counts, its last fetches, the file that a
//! client expects, and the access log.
#![tactic(auto)]

mod access_log;
mod active_times;
mod clock;
mod counts;
mod fetch_outcome;
mod last_fetches;
mod node_log;
mod node_state;

pub use access_log::AccessLog;
pub use active_times::release_times;
pub use clock::{day_number, today, unix_seconds};
pub use fetch_outcome::FetchOutcome;
pub use node_log::NodeLog;
pub use node_state::{NodeState, TurnFacts};
