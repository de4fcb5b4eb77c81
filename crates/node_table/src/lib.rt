//! The connections of a node as a value, without their sockets and up to a limit. The table knows which of them are
//! ready, in which order they are served and how many bytes they hold. It finds the one that is closed for its place or
//! its memory.
#![tactic(auto)]

mod log;
mod peer;
mod table;

pub use log::{CloseCause, Log};
pub use peer::{NewConnection, Outcome, Stream, Turn};
pub use table::{HELD_LIMIT, Table};
