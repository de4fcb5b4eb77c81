//! Byte ranges of HTTP (RFC 9110, section 14): the Range field of a request and the Content-Range field of a response.
//! Clients and servers share this crate. Nothing in it allocates.
#![tactic(auto)]

mod content;
mod range_ask;

pub use content::{ContentRange, RangeFault, content_range_reads_back, write_content_range};
pub use range_ask::{RangeAsk, ask_reads_back, asks_by_form, write_ask};
use thiserror::Error;

/// Why a value was not written.
#[derive(Clone, Copy, Debug, PartialEq, Eq, Error)]
pub enum WriteFault {
    /// The writer did not accept all bytes.
    #[error("Write")]
    Write,
}
