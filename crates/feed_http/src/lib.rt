//! The two ends of an exchange over HTTP/1.1 (RFC 9110 and RFC 9112), over any reader, writer and
//! shelf of files.
#![tactic(auto)]

mod fetching;
mod laws;
mod limits;
mod serving;

pub use feed_http_heads::HttpFault;
pub use fetching::got::{Bytes, FilePart, Got, Method};
pub use fetching::request_text::{is_host, write_head_request, write_request};
pub use fetching::response::{Taken, read_reply};
pub use fetching::response_machine::{ResponseMachine, StreamEnd};
pub use fetching::step::Step;
pub use laws::{
    a_body_ends_in_one_place, a_response_has_one_result, an_arriving_part_is_of_the_file,
    fetch_gives_slice, head_gives_size, part_reads_back, size_reads_back,
};
pub use serving::memory_shelf::{MemoryShelf, NamedFile};
pub use serving::serve::serve_one;
pub use serving::shelf::{Shelf, ShelfFault};
