//! The volume of a query as the core reads it, and the leading number of a value that has more.
ghost use Rattle.std.specs.Prelude.{◌≡◌, ◌≤◌, IfOk, length, option_copied};
ghost use Rattle.feed_openurl.specs.Fronts.{front_len};
ghost use Rattle.feed_openurl.specs.Volumes.{after_brackets, is_english_word, is_filler, is_other_word, is_volume_word};
ghost use Rattle.feed_openurl.specs.Volumes.{leading_volume, number_at_front, without_fillers, without_series};

use crate::digits::{begins_with_digit, is_letter, split_digits, split_letters};
use crate::key::{after, is_name};
use feed_kbart::read_volume;
use std::alloc::{AllocError, Global};
use std::marker::Model;

/// The digits of a volume, one to nine.
#[derive(Drop)]
pub(crate) struct VolumeText {
    digits: Vec<u8>,
}

impl Model for VolumeText {
    ghost use Rattle.std.specs.Prelude.{ℕ, List};
    ghost use Rattle.feed_openurl.specs.Texts.{IsVolumeText};

    ghost Value = { List ℕ };

    ghost view = { λ volume. volume.digits.items };

    ghost invariant = { λ volume. IsVolumeText volume.digits.items };
}

impl VolumeText {
    ghost use Rattle.feed_openurl.specs.Texts.{IsVolumeText, volume_text_of};

    /// Parses a volume of a query: one to nine digits. Does not trim.
    pub(crate) fn of_query(alloc: Global, text: &[u8]) -> Result<Option<VolumeText>, AllocError>
        ensures { IfOk result (λ volume. volume ≡ volume_text_of text.now) }
    {
        match read_volume(text) {
            Some(_) => {
                let digits = Vec::from_slice(alloc, text)?;
                Ok(Some(VolumeText { digits }))
            }
            None => Ok(None),
        }
    }

    /// Returns the digits.
    pub(crate) fn as_bytes(&self) -> &[u8]
        ensures value { result.now ≡ self.now }
        ensures volume { IsVolumeText self.now }
    {
        &self.digits
    }
}

fn is_english_word(word: &[u8]) -> bool
    ensures { result ≡ is_english_word word.now }
{
    is_name(word, "volume") || is_name(word, "vol") || is_name(word, "v") || is_name(word, "vols")
}

fn is_other_word(word: &[u8]) -> bool
    ensures { result ≡ is_other_word word.now }
{
    is_name(word, "band")
        || is_name(word, "bd")
        || is_name(word, "tome")
        || is_name(word, "tomo")
        || is_name(word, "t")
}

// Whether a word may come before the number of a volume; also none.
fn is_volume_word(word: &[u8]) -> bool
    ensures { result ≡ is_volume_word word.now }
{
    word.is_empty() || is_english_word(word) || is_other_word(word)
}

fn is_filler(byte: u8) -> bool
    ensures { result ≡ is_filler byte }
{
    byte == b' ' || byte == b'.' || byte == b':' || byte == b'[' || byte == b'('
}

// How many signs other than words and numbers are at the front of a text.
fn filler_count(text: &[u8]) -> usize
    ensures value { result ≡ front_len is_filler text.now }
    ensures bound { result ≤ length text.now }
{
    for place in 0..text.len() {
        if !is_filler(text[place]) {
            return place;
        }
    }
    text.len()
}

// The text from its first word or number on.
fn without_fillers(text: &[u8]) -> &[u8]
    ensures { result.now ≡ without_fillers text.now }
{
    &text[filler_count(text)..]
}

// The number of one to nine digits at the front of a text, with no letter behind it.
fn number_at_front(alloc: Global, text: &[u8]) -> Result<Option<VolumeText>, AllocError>
    ensures { IfOk result (λ volume. volume ≡ number_at_front text.now) }
{
    let (number, tail) = split_digits(text);
    match tail.first() {
        Some(next) if is_letter(*next) => Ok(None),
        _ => VolumeText::of_query(alloc, number),
    }
}

/// Returns the leading number of one to nine digits in a value in ASCII, with no letter beside it. Before it may be a
/// word for a volume.
pub(crate) fn leading_volume(alloc: Global, value: &[u8]) -> Result<Option<VolumeText>, AllocError>
    ensures { IfOk result (λ volume. volume ≡ leading_volume value.now) }
{
    let (word, rest) = split_letters(without_fillers(value));
    if !is_volume_word(word) {
        return Ok(None);
    }
    number_at_front(alloc, without_fillers(rest))
}

// Returns the text behind a number in brackets at the front, if there is one.
fn after_brackets(text: &[u8]) -> Option<&[u8]>
    ensures { option_copied result ≡ after_brackets text.now }
{
    let (_, rest) = split_digits(after(text, "(")?);
    after(rest, ")")
}

/// Returns a text behind a number in brackets, if it begins with a number itself, as `(2) 141` of a second series.
pub(crate) fn without_series(text: &[u8]) -> &[u8]
    ensures { result.now ≡ without_series text.now }
{
    match after_brackets(text) {
        Some(rest) if begins_with_digit(without_fillers(rest)) => rest,
        _ => text,
    }
}
