//! The fragments of a response, with the escaping that each needs.
use crate::escape::{put, put_escaped};
use crate::json_text::put_json_string;
use feed_bytes::{PutFragment, put_number};
use std::alloc::AllocError;

/// A fragment of a response.
#[derive(Clone, Copy)]
pub enum Fragment<'a> {
    /// These bytes.
    Plain(&'a [u8]),
    /// A text, escaped for a page.
    Escaped(&'a [u8]),
    /// A text, as a JSON string.
    Quoted(&'a [u8]),
    /// A number in decimal digits.
    Number(u64),
}

impl PutFragment for Fragment<'_> {
    ghost use Rattle.node_response.specs.Fragments.{fragment_text};

    ghost text = { fragment_text };

    fn put(&self, out: &mut Vec<u8>) -> Result<(), AllocError> {
        match self {
            Fragment::Plain(text) => put(out, text),
            Fragment::Escaped(text) => put_escaped(out, text),
            Fragment::Quoted(text) => put_json_string(out, text),
            Fragment::Number(number) => put_number(out, *number),
        }
    }
}
