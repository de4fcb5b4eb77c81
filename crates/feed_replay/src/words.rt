//! The words of a line, and the split at a byte.
ghost use Rattle.std.specs.Prelude.{◌<◌, length, IfSome, option_copied, ◌≡◌};
ghost use Rattle.feed_replay.specs.Splits.{IsSplit};
ghost use Rattle.feed_replay.specs.Numbers.{read_number};

use crate::line_fault::LineFault;
use memchr::memchr;

/// The words of a line, each separated from the next by one space.
#[derive(Clone, Copy)]
pub struct Words<'a> {
    pub rest: Option<&'a [u8]>,
}

impl<'a> Words<'a> {
    pub fn of(line: &'a [u8]) -> Words<'a> {
        Words { rest: Some(line) }
    }

    /// Takes the next word.
    ///
    /// # Errors
    ///
    /// Returns `WrongWords` if there is none, or it is empty.
    pub fn word(&mut self) -> Result<&'a [u8], LineFault> {
        let Some(line) = self.rest else {
            return Err(LineFault::WrongWords);
        };
        let (word, rest) = split_word(line);
        self.rest = rest;
        if word.is_empty() {
            return Err(LineFault::WrongWords);
        }
        Ok(word)
    }

    /// Returns `WrongWords` if there are more words.
    pub fn end(self) -> Result<(), LineFault> {
        match self.rest {
            None => Ok(()),
            Some(_) => Err(LineFault::WrongWords),
        }
    }

    /// Returns the rest of the line.
    pub fn text(self) -> &'a [u8] {
        match self.rest {
            Some(rest) => rest,
            None => &[],
        }
    }
}

/// Splits a line at the first space. Without one, the second part is `None`.
pub fn split_word(line: &[u8]) -> (&[u8], Option<&[u8]>) {
    split_at(line, b' ')
}

/// Splits a text at the first of a byte. Without one, the second part is `None`.
pub fn split_at(text: &[u8], byte: u8) -> (&[u8], Option<&[u8]>)
    ensures parts { IsSplit byte text.now result.0.now (option_copied result.1) }
    ensures shorter { IfSome result.1 (λ rest. length rest.now < length text.now) }
{
    match memchr(byte, text) {
        Some(at) => (&text[..at], Some(&text[at + 1..])),
        None => (text, None),
    }
}

const LONGEST_NUMBER: usize = 20;

/// Parses a number: 1 to 20 digits that fit in 64 bits.
///
/// # Errors
///
/// Returns `BadNumber` if the word is not such a number.
pub fn read_number(word: &[u8]) -> Result<u64, LineFault>
    ensures { result ≡ read_number word.now }
{
    if word.len() > LONGEST_NUMBER {
        return Err(LineFault::BadNumber);
    }
    feed_bytes::read_number(word).ok_or(LineFault::BadNumber)
}
