//! The faults of a text that is neither an ISSN nor an ISBN.
ghost use Rattle.std.specs.Prelude.{◌≡◌, ◌++◌, ◌∷◌, [], IfOk, OnOk, filter};
ghost use Rattle.std.specs.Char.{is_ascii_digit};
ghost use Rattle.std.specs.List.{list_all};
ghost use Rattle.feed_identifiers.specs.Check.{is_check};
ghost use Rattle.node_pages.specs.NumberFaults.{fault_by, fault_of, fault_text, fault_words, front_of, has_digits};
ghost use Rattle.node_pages.specs.NumberFaults.{is_kept, is_number, length_fault, right_last, words_of};

use feed_identifiers::{Isbn, Issn};
use node_response::put;
use node_site::{SiteFile, Text, text_of};
use std::alloc::{AllocError, Global};

// The characters with which an ISSN or an ISBN may end.
const LAST: &[u8] = b"0123456789X";

/// The two kinds of numbers that a form has.
#[derive(Clone, Copy)]
pub(crate) enum NumberKind {
    Issn,
    Isbn,
}

/// The fault of a text that is not such a number.
#[derive(Clone, Copy)]
pub(crate) enum NumberFault {
    /// With this character in place of its last one it is a number.
    LastCharacter(u8),
    /// It has a character that no such number has there.
    OtherCharacter,
    /// It has too few or too many digits for an ISSN, and for an ISBN.
    IssnLength,
    IsbnLength,
    /// Its thirteen digits begin as no ISBN does.
    IsbnFront,
}

fn is_kept(byte: u8) -> bool
    ensures { result ≡ is_kept byte }
{
    byte != b'-' && byte != b' '
}

// Returns a text without its hyphens and spaces.
fn kept(alloc: Global, text: &[u8]) -> Result<Vec<u8>, AllocError>
    ensures { IfOk result (λ kept. kept.items ≡ filter is_kept text.now) }
{
    let mut kept = Vec::from_slice(alloc, text)?;
    kept.retain(
        |byte: &u8| -> bool
            ensures { result ≡ is_kept byte.now }
        { is_kept(*byte) },
    );
    Ok(kept)
}

fn is_number(kind: NumberKind, text: &[u8]) -> bool
    ensures { result ≡ is_number kind text.now }
{
    match kind {
        NumberKind::Issn => Issn::parse(text).is_some(),
        NumberKind::Isbn => Isbn::parse(text).is_some(),
    }
}

// Returns whether a text with one character more is a number.
fn is_number_with(
    alloc: Global,
    kind: NumberKind,
    front: &[u8],
    last: u8,
) -> Result<bool, AllocError>
    ensures { IfOk result (λ found. found ≡ is_number kind (front.now ++ last ∷ [])) }
{
    let mut text = Vec::from_slice(alloc, front)?;
    text.push(last)?;
    Ok(is_number(kind, &text))
}

// Returns the first of some characters with which a text is a number.
fn right_last(
    alloc: Global,
    kind: NumberKind,
    front: &[u8],
    choices: &[u8],
) -> Result<Option<u8>, AllocError>
    ensures { IfOk result (λ last. last ≡ right_last kind front.now choices.now) }
{
    match choices.split_first() {
        Some((last, more)) => {
            if is_number_with(alloc, kind, front, *last)? {
                Ok(Some(*last))
            } else {
                right_last(alloc, kind, front, more)
            }
        }
        None => Ok(None),
    }
}

fn front_of(text: &[u8]) -> &[u8]
    ensures { result.now ≡ front_of text.now }
{
    match text.split_last() {
        Some((_, front)) => front,
        None => text,
    }
}

fn is_check(byte: u8) -> bool
    ensures { result ≡ is_check byte }
{
    byte.is_ascii_digit() || byte == b'X' || byte == b'x'
}

fn are_digits(text: &[u8]) -> bool
    ensures { result ≡ list_all is_ascii_digit text.now }
{
    text.iter().all(|byte| byte.is_ascii_digit())
}

fn are_checks(text: &[u8]) -> bool
    ensures { result ≡ list_all is_check text.now }
{
    text.iter().all(|byte| is_check(*byte))
}

// Returns whether a text has digits, and a digit or an X at its end.
fn has_digits(text: &[u8]) -> bool
    ensures { result ≡ has_digits text.now }
{
    are_digits(front_of(text)) && are_checks(text)
}

fn length_fault(kind: NumberKind, text: &[u8]) -> NumberFault
    ensures { result ≡ length_fault kind text.now }
{
    match kind {
        NumberKind::Issn => NumberFault::IssnLength,
        NumberKind::Isbn if text.len() == 13 => NumberFault::IsbnFront,
        NumberKind::Isbn => NumberFault::IsbnLength,
    }
}

fn fault_by(kind: NumberKind, text: &[u8], last: Option<u8>) -> NumberFault
    ensures { result ≡ fault_by kind text.now last }
{
    match last {
        Some(last) => NumberFault::LastCharacter(last),
        None => {
            if has_digits(text) {
                length_fault(kind, text)
            } else {
                NumberFault::OtherCharacter
            }
        }
    }
}

// Returns what is wrong with a text, unless there is none or it is a number.
fn fault_of(alloc: Global, kind: NumberKind, text: &[u8]) -> Result<Option<NumberFault>, AllocError>
    ensures { IfOk result (λ fault. fault ≡ fault_of kind text.now) }
{
    if text.is_empty() || is_number(kind, text) {
        return Ok(None);
    }
    let last = right_last(alloc, kind, front_of(text), LAST)?;
    Ok(Some(fault_by(kind, text, last)))
}

fn fault_text(fault: NumberFault) -> Text
    ensures { result ≡ fault_text fault }
{
    match fault {
        NumberFault::LastCharacter(_) => Text::LastCharacter,
        NumberFault::OtherCharacter => Text::OtherCharacter,
        NumberFault::IssnLength => Text::IssnLength,
        NumberFault::IsbnLength => Text::IsbnLength,
        NumberFault::IsbnFront => Text::IsbnFront,
    }
}

fn put_words(out: &mut Vec<u8>, site: &SiteFile, fault: NumberFault) -> Result<(), AllocError>
    ensures { OnOk result (out.new.items ≡ out.old.items ++ words_of site.now fault) }
{
    put(out, text_of(site, fault_text(fault)))?;
    match fault {
        NumberFault::LastCharacter(last) => put(out, &[b' ', last]),
        _ => Ok(()),
    }
}

/// Returns what is wrong with an ISSN or an ISBN, in words, if anything is. Hyphens and spaces do not count.
pub(crate) fn fault_words(
    alloc: Global,
    site: &SiteFile,
    kind: NumberKind,
    text: &[u8],
) -> Result<Vec<u8>, AllocError>
    ensures { IfOk result (λ words. words.items ≡ fault_words site.now kind text.now) }
{
    let mut words = Vec::new(alloc);
    let characters = kept(alloc, text)?;
    if let Some(fault) = fault_of(alloc, kind, &characters)? {
        put_words(&mut words, site, fault)?;
    }
    Ok(words)
}
