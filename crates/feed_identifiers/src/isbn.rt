//! International Standard Book Numbers (ISO 2108): parsing, validation and the conversion of the ten-character form.
ghost use Rattle.std.specs.Prelude.{◌≡◌, ◌≤◌, ◌<◌, IfNone, IfSome, length, take};
ghost use Rattle.std.specs.List.{filter};
ghost use Rattle.feed_identifiers.specs.Isbn.{check_digit, has_prefix, is_isbn_10, is_isbn_13};
ghost use Rattle.feed_bytes.specs.Trim.{is_no_hyphen};
ghost use Rattle.feed_identifiers.specs.Isbn.{isbn_13_of, isbn_of, isbn_of_characters};

use crate::check::{are_digits, is_check_of, number_of_digits, weighted_sum};
use feed_bytes::{next_character, trim_spaces};
use std::marker::Model;

// The weights of the twelve digits before the check digit.
const WEIGHTS_OF_THIRTEEN: [u8; 12] = [1, 3, 1, 3, 1, 3, 1, 3, 1, 3, 1, 3];

// The weights of the nine digits before the check character of the older form.
const WEIGHTS_OF_TEN: [u8; 9] = [10, 9, 8, 7, 6, 5, 4, 3, 2];

/// An International Standard Book Number (ISO 2108) of thirteen digits, ordered by its digits. A number of the older
/// form, of ten characters, is stored as the equivalent one of thirteen digits.
#[derive(Clone, Copy, Debug, PartialEq, Eq, PartialOrd, Ord)]
pub struct Isbn {
    printed: [u8; 13],
}

impl Model for Isbn {
    ghost use Rattle.std.specs.Prelude.{ℕ, List};
    ghost use Rattle.feed_identifiers.specs.Isbn.{IsIsbn};

    ghost Value = { List ℕ };

    ghost view = { λ isbn. isbn.printed };

    ghost invariant = { λ isbn. IsIsbn isbn.printed };

    ghost inverse = { λ text. record { printed = text } };
}

impl Isbn {
    ghost use Rattle.feed_identifiers.specs.Isbn.{IsIsbn, isbn_of, number_of};

    /// Parses thirteen digits that begin with 978 or 979, or nine digits and a check character, which is a digit or an
    /// `X` of either case (ISO 2108). Trims spaces at both ends and drops all hyphens. Returns `None` for anything
    /// else, such as a wrong check character.
    pub fn parse(text: &[u8]) -> Option<Isbn>
        ensures { result ≡ isbn_of text.now }
    {
        let printed = isbn_digits(text)?;
        Some(Isbn { printed })
    }

    /// Returns the thirteen digits.
    pub fn text(&self) -> [u8; 13]
        ensures { result ≡ self.now }
    {
        self.printed
    }

    pub(crate) fn bytes(&self) -> &[u8]
        ensures { result.now ≡ self.now }
    {
        &self.printed
    }

    /// Returns the number formed by the third digit, counted from 8, and the nine digits after it. It is below
    /// 2,000,000,000. These digits determine the check digit.
    pub fn number(&self) -> u32
        ensures number { result ≡ number_of self.now }
        ensures small { result < 2000000000 }
        ensures printed { IsIsbn self.now }
    {
        let last = self.printed[2].saturating_sub(b'8') as u64;
        let number = 1_000_000_000 * last + number_of_digits(&self.printed[3..12]) as u64;
        number as u32
    }
}

// The characters other than hyphens and their number, if they are at most thirteen.
fn without_hyphens(text: &[u8]) -> Option<([u8; 13], usize)>
    ensures some { IfSome result (λ kept. (kept.1 ≤ 13) × (take kept.1 kept.0 ≡ filter is_no_hyphen text.now)) }
    ensures none { IfNone result (13 < length (filter is_no_hyphen text.now)) }
{
    let mut kept = [0; 13];
    let mut count = 0;
    let mut rest = text;
    while let Some((character, tail)) = next_character(rest) {
        if count == 13 {
            return None;
        }
        kept[count] = character;
        count += 1;
        rest = tail;
    }
    Some((kept, count))
}

// Parses a text into the thirteen digits of an ISBN.
fn isbn_digits(text: &[u8]) -> Option<[u8; 13]>
    ensures { result ≡ isbn_of text.now }
{
    let (kept, count) = without_hyphens(trim_spaces(text))?;
    digits_of(kept, count)
}

// Parses the first characters, which have no hyphens, into the thirteen digits of an ISBN.
fn digits_of(kept: [u8; 13], count: usize) -> Option<[u8; 13]>
    requires { count ≤ 13 }
    ensures { result ≡ isbn_of_characters (take count kept) }
{
    let characters = &kept[..count];
    if is_isbn_13(characters) {
        return Some(kept);
    }
    if is_isbn_10(characters) {
        return Some(isbn_13_of(&kept[..9]));
    }
    None
}

// Returns whether characters are thirteen digits that begin with 978 or 979 and end with their check digit.
fn is_isbn_13(characters: &[u8]) -> bool
    ensures { result ≡ is_isbn_13 characters.now }
{
    characters.len() == 13
        && are_digits(characters)
        && has_prefix(characters)
        && characters[12] == check_digit(&characters[..12])
}

// Returns whether digits begin with 978 or 979.
fn has_prefix(digits: &[u8]) -> bool
    ensures { result ≡ has_prefix digits.now }
{
    digits.starts_with(b"978") || digits.starts_with(b"979")
}

// Returns whether characters are the older form: nine digits and their check character.
fn is_isbn_10(characters: &[u8]) -> bool
    ensures { result ≡ is_isbn_10 characters.now }
{
    characters.len() == 10 && is_check_of(&WEIGHTS_OF_TEN, &characters[..9], characters[9])
}

// Converts nine digits of the older form: 978, the nine digits, and a check digit of all twelve.
fn isbn_13_of(nine: &[u8]) -> [u8; 13]
    requires { length nine.now ≡ 9 }
    ensures { result ≡ isbn_13_of nine.now }
{
    let mut digits = *b"9780000000000";
    digits[3..12].copy_from_slice(nine);
    digits[12] = check_digit(&digits[..12]);
    digits
}

// Returns the check digit of twelve digits: with it, and its weight 1, the weighted sum is divisible by 10.
fn check_digit(twelve: &[u8]) -> u8
    requires { length twelve.now ≡ 12 }
    ensures { result ≡ check_digit twelve.now }
{
    b'0' + ((10 - weighted_sum(&WEIGHTS_OF_THIRTEEN, twelve) % 10) % 10) as u8
}
