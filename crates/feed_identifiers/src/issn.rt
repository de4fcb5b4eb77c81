//! International Standard Serial Numbers (ISO 3297): parsing and validation.
ghost use Rattle.std.specs.Prelude.{◌≡◌, ◌<◌};

use crate::check::{capital, is_check_of, number_of_digits};
use feed_bytes::trim_spaces;
use std::marker::Model;

// The weights of the seven digits before the check character.
const WEIGHTS: [u8; 7] = [8, 7, 6, 5, 4, 3, 2];

/// An International Standard Serial Number (ISO 3297), ordered by its nine printed bytes.
#[derive(Clone, Copy, Debug, PartialEq, Eq, PartialOrd, Ord)]
pub struct Issn {
    printed: [u8; 9],
}

impl Model for Issn {
    ghost use Rattle.std.specs.Prelude.{ℕ, List};
    ghost use Rattle.feed_identifiers.specs.Issn.{IsIssn};

    ghost Value = { List ℕ };

    ghost view = { λ issn. issn.printed };

    ghost invariant = { λ issn. IsIssn issn.printed };

    ghost inverse = { λ text. record { printed = text } };
}

impl Issn {
    ghost use Rattle.feed_identifiers.specs.Issn.{IsIssn, issn_of, issn_of_digits, number_of};

    /// Parses seven digits and a check character, with or without a hyphen after the fourth digit (ISO 3297).
    /// Trims spaces at both ends, and accepts a check character `x` as `X`. Returns `None` for anything else, such as a
    /// wrong check character.
    pub fn parse(text: &[u8]) -> Option<Issn>
        ensures { result ≡ issn_of text.now }
    {
        let text = trim_spaces(text);
        // Most fields that are not an ISSN are empty.
        if text.is_empty() {
            return None;
        }
        match text {
            [a, b, c, d, e, f, g, check] => Issn::of_digits([*a, *b, *c, *d, *e, *f, *g], *check),
            [a, b, c, d, b'-', e, f, g, check] => Issn::of_digits(
                [*a, *b, *c, *d, *e, *f, *g],
                *check,
            ),
            _ => None,
        }
    }

    /// Returns the printed form, `dddd-dddc` with a capital `X`.
    pub fn text(&self) -> [u8; 9]
        ensures { result ≡ self.now }
    {
        self.printed
    }

    pub(crate) fn bytes(&self) -> &[u8]
        ensures { result.now ≡ self.now }
    {
        &self.printed
    }

    /// Returns the seven digits before the check character, as a number below 10,000,000. They determine the check
    /// character.
    pub fn number(&self) -> u32
        ensures number { result ≡ number_of self.now }
        ensures small { result < 10000000 }
        ensures printed { IsIssn self.now }
    {
        let front = number_of_digits(&self.printed[..4]) as u64;
        let number = 1_000 * front + number_of_digits(&self.printed[5..8]) as u64;
        number as u32
    }

    // The ISSN of seven digits and a check character, if the check character is right.
    fn of_digits(digits: [u8; 7], check: u8) -> Option<Issn>
        ensures { result ≡ issn_of_digits digits check }
    {
        let printed = Issn::printed_bytes(digits, check)?;
        Some(Issn { printed })
    }

    // The printed bytes of that ISSN.
    fn printed_bytes(digits: [u8; 7], check: u8) -> Option<[u8; 9]>
        ensures { result ≡ issn_of_digits digits check }
    {
        if !is_check_of(&WEIGHTS, &digits, check) {
            return None;
        }
        let [a, b, c, d, e, f, g] = digits;
        Some([a, b, c, d, b'-', e, f, g, capital(check)])
    }
}
