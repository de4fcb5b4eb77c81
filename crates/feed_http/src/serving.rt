//! The server end of an exchange.

pub(crate) mod memory_shelf;
pub(crate) mod request;
pub(crate) mod response_head;
pub(crate) mod send;
pub(crate) mod serve;
pub(crate) mod shelf;
