//! The heads of HTTP/1.1 messages (RFC 9112, sections 2 to 5): parsing them, however their bytes arrive, and reading
//! their fields. Clients and servers share this crate.
#![tactic(auto)]

mod fields;
mod head_ends;
mod http_fault;
mod limits;
mod options;
mod request;
mod request_head;
mod response_head;
mod target;

pub use fields::{Fields, is_named};
pub use head_ends::{HeadEnd, HeadFound, find_head, head_end};
pub use http_fault::HttpFault;
pub use limits::{FIELD_LIMIT, HEAD_LIMIT};
pub use request::Request;
pub use request_head::{RequestRead, read_request, read_some};
pub use response_head::is_interim;
pub use target::origin_form;
