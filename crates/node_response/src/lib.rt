//! The responses of a link resolver, and how their bytes are written: the status line, the fields, and bodies as text,
//! JSON and HTML pages in which each text of a file is escaped. The entity tag of a response (RFC 9110, section 8.8.3)
//! is a digest of all that it depends on beside its request.
#![tactic(auto)]

mod day_digests;
mod digested;
mod digested_holdings;
mod digested_pieces;
mod escape;
mod fault;
mod fetch_responses;
mod fragment;
mod json_text;
mod laws;
mod response;
mod response_text;
mod site;
mod status;
mod utf8;

pub use digested_holdings::{DigestedHoldings, DigestedReading, DigestedStep};
pub use digested_pieces::DigestedPieces;
pub use escape::put;
pub use fault::{bad_head_response, put_fault, refusal};
pub use fetch_responses::{fetch_response, progress_response};
pub use fragment::Fragment;
pub use json_text::{put_comma, put_list_end, put_list_start};
pub use laws::{
    escaped_has_no_markup, escaped_reads_back, fault_is_json, json_reads_back,
    not_modified_is_head_of_good, pages_are_utf8, response_reads_back, same_inputs_same_tag,
    tag_is_visible,
};
pub use response::Response;
pub use response_text::ResponseText;
pub use site::Site;
pub use status::Status;
