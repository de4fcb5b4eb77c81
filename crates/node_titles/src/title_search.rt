//! Reads the text that a query for titles asks for, and the place where its walk begins.
ghost use Rattle.std.specs.Prelude.{◌≡◌, IfOk};
ghost use Rattle.std.specs.Str.{is_utf8};
ghost use Rattle.node_titles.specs.TitleSearches.{ask_at, ask_by, ask_of, in_32_bits, place_in, value_at};

use feed_answer::{Pair, decode_pairs};
use feed_bytes::{read_number, trim_spaces};
use std::alloc::{AllocError, Global};
use std::marker::Model;

// The most bytes of the text. A browser counts the `maxlength` of a field in UTF-16 units, and 256 of them have at most
// that many bytes of UTF-8.
const TEXT_LIMIT: usize = 768;

/// Why no titles are looked up.
#[derive(Clone, Copy, Debug, PartialEq, Eq)]
pub enum TitleFault {
    /// There is no `q`, nothing but spaces in it, or it is not UTF-8.
    NoText,
    /// `q` without the spaces at both ends has more than 768 bytes.
    TooLong,
    /// `start` is not a number below 4,294,967,296.
    BadStart,
}

/// The text that a query for titles asks for, and the place where its walk begins.
#[derive(Drop)]
pub struct TitleSearch {
    text: Vec<u8>,
    start: u32,
}

impl Model for TitleSearch {
    ghost use Rattle.node_titles.specs.TitleSearches.{TitleSearchValue};

    ghost Value = { TitleSearchValue };

    ghost view = { λ a. record { text = a.text.items; start = a.start } };
}

// Returns the first value with a key, or nothing.
fn value_at<'p>(pairs: &'p [Pair<'_>], key: &str) -> &'p [u8]
    ensures { result.now ≡ value_at key.now pairs.now }
{
    match pairs.split_first() {
        Some((pair, more)) => {
            if pair.has_key(key) {
                pair.value()
            } else {
                value_at(more, key)
            }
        }
        None => b"",
    }
}

fn in_32_bits(number: u64) -> Option<u32>
    ensures { result ≡ in_32_bits number }
{
    if number < 4_294_967_296 {
        Some(number as u32)
    } else {
        None
    }
}

fn is_utf8(text: &[u8]) -> bool
    ensures { result ≡ is_utf8 text.now }
{
    str::from_utf8(text).is_ok()
}

// Returns the place that a text gives. Without one a walk begins at the first row.
fn place_in(text: &[u8]) -> Option<u32>
    ensures { result ≡ place_in text.now }
{
    if text.is_empty() {
        return Some(0);
    }
    in_32_bits(read_number(text)?)
}

impl TitleSearch {
    /// Returns the text, without spaces at both ends.
    pub fn text(&self) -> &[u8]
        ensures { result.now ≡ self.now.text }
    {
        &self.text
    }

    /// Returns the place where the walk begins.
    pub fn start(&self) -> u32
        ensures { result ≡ self.now.start }
    {
        self.start
    }

    fn at(
        alloc: Global,
        text: &[u8],
        start: Option<u32>,
    ) -> Result<Result<TitleSearch, TitleFault>, AllocError>
        ensures { IfOk result (λ asked. asked ≡ ask_at text.now start) }
    {
        if text.is_empty() || !is_utf8(text) {
            return Ok(Err(TitleFault::NoText));
        }
        if text.len() > TEXT_LIMIT {
            return Ok(Err(TitleFault::TooLong));
        }
        let Some(start) = start else {
            return Ok(Err(TitleFault::BadStart));
        };
        let text = Vec::from_slice(alloc, text)?;
        Ok(Ok(TitleSearch { text, start }))
    }

    /// Reads what a query asks for: the text of `q`, from the place `start` on.
    ///
    /// # Errors
    ///
    /// The inner error says why no titles are looked up. The outer one is running out of memory.
    #[tactic(auto, unfolding(crate::specs::TitleSearches::ask_of))]
    pub fn read(alloc: Global, query: &[u8]) -> Result<Result<TitleSearch, TitleFault>, AllocError>
        ensures { IfOk result (λ asked. asked ≡ ask_of query.now) }
    {
        let pairs = decode_pairs(alloc, query)?;
        let text = trim_spaces(value_at(&pairs, "q"));
        TitleSearch::at(alloc, text, place_in(value_at(&pairs, "start")))
    }
}
