//! The fragments of a document.
use crate::characters::put_text;
use crate::tags::{put_closed, put_leaf, put_opened};
use feed_bytes::PutFragment;
use std::alloc::AllocError;

/// A fragment of a document.
#[derive(Clone, Copy)]
pub enum XmlFragment<'a> {
    /// A start tag, by the text between `<` and `>`.
    Opened(&'a [u8]),
    /// An end tag.
    Closed(&'a [u8]),
    /// Character data.
    Text(&'a [u8]),
    /// An element with a text alone: its name, and the text.
    Leaf(&'a [u8], &'a [u8]),
}

impl PutFragment for XmlFragment<'_> {
    ghost use Rattle.feed_xml.specs.XmlFragments.{fragment_text};

    ghost text = { fragment_text };

    fn put(&self, out: &mut Vec<u8>) -> Result<(), AllocError> {
        match self {
            XmlFragment::Opened(tag) => put_opened(out, tag),
            XmlFragment::Closed(name) => put_closed(out, name),
            XmlFragment::Text(text) => put_text(out, text),
            XmlFragment::Leaf(name, text) => put_leaf(out, name, text),
        }
    }
}
