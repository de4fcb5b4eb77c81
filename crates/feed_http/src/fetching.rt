//! The client end of an exchange, which a node uses to fetch files.

pub(crate) mod body_machine;
pub(crate) mod chunk_machine;
pub(crate) mod chunk_parts;
pub(crate) mod got;
pub(crate) mod heads_machine;
pub(crate) mod length;
pub(crate) mod request_text;
pub(crate) mod response;
pub(crate) mod response_machine;
pub(crate) mod step;
pub(crate) mod validation;
