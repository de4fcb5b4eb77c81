//! One connection of a node, without its socket. Its inputs are bytes received, bytes sent and time passed. It receives
//! requests, one after the other, and sends the response to each, until a request ends it (RFC 9112, section 9.3).
#![tactic(auto)]

mod connection;
mod head_state;
mod held_bytes;
mod laws;
mod phase;
mod respond;
mod sides;
mod streams;

pub use connection::{Connection, MIN_PROGRESS};
pub use head_state::AfterResponse;
pub use laws::{all_is_served, requests_are_unique, state_is_right};
pub use phase::{ConnectionPhase, Shortage, TimeLimits, Wants};
pub use respond::{
    BODY_LIMIT, CONTINUE, IncomingRequest, LoggedResponse, Respond, RespondFault, ResponseSummary,
    UNAVAILABLE,
};
pub use sides::{Reading, Receive, Sides, Transmit, Writing};
pub use streams::{Progress, Share, TURN_SHARE, run_connection};
