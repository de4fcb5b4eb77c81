//! A node without its sockets: its connections, its feed and the fetch that is under way, as one value. Its contracts
//! say which history it has after each step.
#![tactic(auto)]

mod exchange;
mod fetching;
mod laws;
mod machine;
mod occasion;
mod reloading;
mod stepping;

pub use exchange::{Arrival, Exchange};
pub use fetching::{Fetching, NextRequest};
pub use laws::{node_is_right, published_files_are_kept};
pub use machine::NodeMachine;
pub use occasion::{FeedRespond, Occasion};
