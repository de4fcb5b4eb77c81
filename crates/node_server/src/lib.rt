//! The event loop of a node over its sockets, on one thread: it accepts connections, advances each as far as its socket
//! allows, and closes those that are over or out of time.
#![tactic(auto)]

mod descriptors;
mod outgoing;
mod server;
mod socket;
mod streamed_response;

pub use node_connection::TimeLimits;
pub use node_table::{CloseCause, Log};
pub use outgoing::OutgoingRequest;
pub use server::{ServedNode, Server, Settings};
pub use socket::{Socket, is_local};
pub use streamed_response::StreamKind;
