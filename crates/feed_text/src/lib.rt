//! The text of a holdings list: whether its bytes are UTF-8 within the size limit, and its records of fields.
//!
//! `check_text` reads a text to its end and checks it. `TextReader` checks a text while something else reads it, and
//! `TextCheck` one that arrives in pieces.
//! `record_reader` and `read_record` split a text into records.
#![tactic(auto)]

mod fault;
mod noted_reader;
mod records;
mod text_check;
mod text_reader;
mod utf8;

pub use fault::TextFault;
pub use records::{read_record, record_reader};
pub use text_check::TextCheck;
pub use text_reader::{Given, TextReader, check_text};
pub use utf8::Utf8Check;
