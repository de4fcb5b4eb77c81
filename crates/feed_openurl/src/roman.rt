//! Roman numerals, as they are written today: a digit in each place, from the thousands to the ones.
ghost use Rattle.std.specs.Prelude.{◌≡◌, ◌≤◌, IfOk, length};
ghost use Rattle.feed_openurl.specs.Fronts.{front_len};
ghost use Rattle.feed_openurl.specs.Romans.{below_nine, five_more, hundreds, is_section, is_zero, ones, roman_volume};
ghost use Rattle.feed_openurl.specs.Romans.{tens, thousands, units, volume_by, without_zeros};

use crate::key::{after, is_name};
use crate::volume::VolumeText;
use std::alloc::{AllocError, Global};
use std::marker::Model;

// A digit at the front of a text, and what follows it.
#[derive(Drop)]
struct Place<'a> {
    digit: u8,
    rest: &'a [u8],
}

impl<'a> Model for Place<'a> {
    ghost use Rattle.std.specs.Prelude.{◌≤◌};
    ghost use Rattle.feed_openurl.specs.Romans.{Place};

    ghost Value = { Place };

    ghost view = { λ place. record { digit = place.digit; rest = place.rest.now } };

    ghost invariant = { λ place. place.digit ≤ 9 };
}

// Up to three signs of one.
fn ones<'a>(text: &'a [u8], three: &str, two: &str, one: &str) -> Place<'a>
    ensures value { result ≡ ones three.now two.now one.now text.now }
    ensures bound { result.digit ≤ 3 }
{
    if let Some(rest) = after(text, three) {
        return Place { digit: 3, rest };
    }
    if let Some(rest) = after(text, two) {
        return Place { digit: 2, rest };
    }
    match after(text, one) {
        Some(rest) => Place { digit: 1, rest },
        None => Place {
            digit: 0,
            rest: text,
        },
    }
}

// A digit of five to eight, behind its sign of five.
fn five_more<'a>(text: &'a [u8], three: &str, two: &str, one: &str) -> Place<'a>
    ensures { result ≡ five_more (ones three.now two.now one.now text.now) }
{
    let found = ones(text, three, two, one);
    Place {
        digit: 5 + found.digit,
        rest: found.rest,
    }
}

// A digit below nine.
fn below_nine<'a>(
    text: &'a [u8],
    four: &str,
    five: &str,
    three: &str,
    two: &str,
    one: &str,
) -> Place<'a>
    ensures { result ≡ below_nine four.now five.now three.now two.now one.now text.now }
{
    if let Some(rest) = after(text, four) {
        return Place { digit: 4, rest };
    }
    match after(text, five) {
        Some(rest) => five_more(rest, three, two, one),
        None => ones(text, three, two, one),
    }
}

fn thousands(text: &[u8]) -> Place<'_>
    ensures { result ≡ thousands text.now }
{
    ones(text, "MMM", "MM", "M")
}

fn hundreds(text: &[u8]) -> Place<'_>
    ensures { result ≡ hundreds text.now }
{
    match after(text, "CM") {
        Some(rest) => Place { digit: 9, rest },
        None => below_nine(text, "CD", "D", "CCC", "CC", "C"),
    }
}

fn tens(text: &[u8]) -> Place<'_>
    ensures { result ≡ tens text.now }
{
    match after(text, "XC") {
        Some(rest) => Place { digit: 9, rest },
        None => below_nine(text, "XL", "L", "XXX", "XX", "X"),
    }
}

fn units(text: &[u8]) -> Place<'_>
    ensures { result ≡ units text.now }
{
    match after(text, "IX") {
        Some(rest) => Place { digit: 9, rest },
        None => below_nine(text, "IV", "V", "III", "II", "I"),
    }
}

fn is_section(text: &[u8]) -> bool
    ensures { result ≡ is_section text.now }
{
    is_name(text, "C") || is_name(text, "D") || is_name(text, "L") || is_name(text, "M")
}

// How many zeros are at the front of some digits.
fn zero_count(digits: &[u8]) -> usize
    ensures value { result ≡ front_len is_zero digits.now }
    ensures bound { result ≤ length digits.now }
{
    for place in 0..digits.len() {
        if digits[place] != b'0' {
            return place;
        }
    }
    digits.len()
}

fn without_zeros(digits: &[u8]) -> &[u8]
    ensures { result.now ≡ without_zeros digits.now }
{
    &digits[zero_count(digits)..]
}

// The volume of four digits, if nothing follows the numeral.
fn volume_by(
    alloc: Global,
    first: &Place<'_>,
    second: &Place<'_>,
    third: &Place<'_>,
    fourth: &Place<'_>,
) -> Result<Option<VolumeText>, AllocError>
    ensures { IfOk result (λ volume. volume ≡ volume_by first.now second.now third.now fourth.now) }
{
    if !fourth.rest.is_empty() {
        return Ok(None);
    }
    let digits = [
        b'0' + first.digit,
        b'0' + second.digit,
        b'0' + third.digit,
        b'0' + fourth.digit,
    ];
    VolumeText::of_query(alloc, without_zeros(&digits))
}

/// Returns the volume that a Roman numeral up to MMMCMXCIX is, in either case. A single C, D, L or M is none: it
/// names a section, as in "J. Phys. C".
pub(crate) fn roman_volume(alloc: Global, text: &[u8]) -> Result<Option<VolumeText>, AllocError>
    ensures { IfOk result (λ volume. volume ≡ roman_volume text.now) }
{
    if is_section(text) {
        return Ok(None);
    }
    let first = thousands(text);
    let second = hundreds(first.rest);
    let third = tens(second.rest);
    let fourth = units(third.rest);
    volume_by(alloc, &first, &second, &third, &fourth)
}
