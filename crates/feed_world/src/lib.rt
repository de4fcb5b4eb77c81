//! A world of published files and of nodes that may stop and restart: its events, the lines that show them, and the
//! model that defines the right lines. The laws of the model are public functions with empty bodies.
#![tactic(auto)]

mod event;
mod laws;
mod line;

pub use event::{NODE_LIMIT, Sent, WorldEvent};
pub use laws::{headline, histories, latest_is_reported, order_is_free};
pub use line::{Line, Why};
