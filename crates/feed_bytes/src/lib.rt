//! The bytes of any text: trimmed of spaces, split at a byte, read as numbers, and written fragment by fragment. Each
//! kind of text has fragments of its own.
#![tactic(auto)]

mod fragments;
mod split;
mod trim;

pub use fragments::{PutFragment, hex_digit, put_all, put_number};
pub use split::{is_number, parse_number, read_capped, read_number, split_once, strip_prefix};
pub use trim::{next_character, trim_spaces, trim_spaces_end, trim_spaces_start};
