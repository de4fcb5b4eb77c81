//! The answers of a feed, its replies and refusals, and the model that defines the right answer to each event.
#![tactic(auto)]

mod keep_fault;
mod laws;
mod reply;
mod state;

pub use keep_fault::KeepFault;
pub use laws::{contents_move, contents_move_up, histories_move_up, releases_stay, reports_stay};
pub use reply::{Refusal, Reply};
pub use state::State;
