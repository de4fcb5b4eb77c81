//! An ISSN or an ISBN at the front of some words.
ghost use Rattle.std.specs.Prelude.{◌≡◌, ◌++◌, IfOk};
ghost use Rattle.std.specs.List.{concat, list_any};
ghost use Rattle.feed_openurl.specs.Numbers.{are_halves, first_number, first_spaced_isbn, is_ismn, isbn_number};
ghost use Rattle.feed_openurl.specs.Numbers.{is_number, isbn_of_words, issn_of_halves, number_of_word};
ghost use Rattle.feed_openurl.specs.Numbers.{spaced_isbn, spaced_issn};

use crate::digits::begins_with_digit;
use crate::words::Word;
use feed_identifiers::{Identifier, Isbn, Issn};
use std::alloc::{AllocError, Global};

fn is_ismn(isbn: Isbn) -> bool
    ensures { result ≡ is_ismn isbn }
{
    let [a, b, c, d, ..] = isbn.text();
    a == b'9' && b == b'7' && c == b'9' && d == b'0'
}

// An ISBN as a number, unless it is an ISMN, which has the same form.
fn isbn_number(isbn: Option<Isbn>) -> Option<Identifier>
    ensures { result ≡ isbn_number isbn }
{
    match isbn {
        Some(isbn) if !is_ismn(isbn) => Some(Identifier::Isbn(isbn)),
        _ => None,
    }
}

// The number that a word is by itself.
#[tactic(auto, unfolding(crate::specs::Numbers::number_of_word))]
fn number_of_word(word: &[u8]) -> Option<Identifier>
    ensures { result ≡ number_of_word word.now }
{
    match Issn::parse(word) {
        Some(issn) => Some(Identifier::Issn(issn)),
        None => isbn_number(Isbn::parse(word)),
    }
}

fn is_number(word: &Word) -> bool
    ensures { result ≡ is_number word.now }
{
    number_of_word(word.text()).is_some()
}

// Whether one of some words is a number by itself.
fn has_number(words: &[Word]) -> bool
    ensures { result ≡ list_any is_number words.now }
{
    for word in words {
        if is_number(word) {
            return true;
        }
    }
    false
}

// Whether two words have the lengths of the halves of an ISSN. The first may end in the hyphen.
fn are_halves(front: &[u8], back: &[u8]) -> bool
    ensures { result ≡ are_halves front.now back.now }
{
    back.len() == 4 && (front.len() == 4 || front.len() == 5)
}

// The text of two words together.
fn joined_halves(alloc: Global, front: &[u8], back: &[u8]) -> Result<Vec<u8>, AllocError>
    ensures { IfOk result (λ text. text.items ≡ front.now ++ back.now) }
{
    let mut text = Vec::from_slice(alloc, front)?;
    text.extend_from_slice(back)?;
    Ok(text)
}

// The ISSN of two words, if a space appears in place of its hyphen, or behind it.
#[tactic(auto, unfolding(crate::specs::Numbers::issn_of_halves))]
fn issn_of_halves(alloc: Global, front: &[u8], back: &[u8]) -> Result<Option<Issn>, AllocError>
    ensures { IfOk result (λ issn. issn ≡ issn_of_halves front.now back.now) }
{
    if !are_halves(front, back) {
        return Ok(None);
    }
    let text = joined_halves(alloc, front, back)?;
    Ok(Issn::parse(&text))
}

// The ISSN of the first two words.
fn spaced_issn(alloc: Global, words: &[Word]) -> Result<Option<Issn>, AllocError>
    ensures { IfOk result (λ issn. issn ≡ spaced_issn words.now) }
{
    match words {
        [front, back, ..] => issn_of_halves(alloc, front.text(), back.text()),
        _ => Ok(None),
    }
}

// The text of some words together.
fn joined(alloc: Global, words: &[Word]) -> Result<Vec<u8>, AllocError>
    ensures { IfOk result (λ text. text.items ≡ concat words.now) }
{
    let mut text = Vec::new(alloc);
    for word in words {
        text.extend_from_slice(word.text())?;
    }
    Ok(text)
}

// The ISBN of words together, if none of them is a number by itself.
#[tactic(auto, unfolding(crate::specs::Numbers::isbn_of_words))]
fn isbn_of_words(alloc: Global, words: &[Word]) -> Result<Option<Isbn>, AllocError>
    ensures { IfOk result (λ isbn. isbn ≡ isbn_of_words words.now) }
{
    if has_number(words) {
        return Ok(None);
    }
    let text = joined(alloc, words)?;
    Ok(Isbn::parse(&text))
}

// The ISBN of the first words together, if spaces appear in place of its hyphens.
fn spaced_isbn(
    alloc: Global,
    words: &[Word],
    count: usize,
) -> Result<Option<Identifier>, AllocError>
    ensures { IfOk result (λ number. number ≡ isbn_number (spaced_isbn count words.now)) }
{
    let front = match words.split_at_checked(count) {
        Some((front, _)) => front,
        None => words,
    };
    Ok(isbn_number(isbn_of_words(alloc, front)?))
}

// The ISBN of two to five words, with the number of words after the first. The longest one counts.
#[tactic(auto, unfolding(crate::specs::Numbers::first_spaced_isbn))]
fn first_spaced_isbn(
    alloc: Global,
    words: &[Word],
) -> Result<Option<(Identifier, usize)>, AllocError>
    ensures { IfOk result (λ found. found ≡ first_spaced_isbn words.now) }
{
    if let Some(number) = spaced_isbn(alloc, words, 5)? {
        return Ok(Some((number, 4)));
    }
    if let Some(number) = spaced_isbn(alloc, words, 4)? {
        return Ok(Some((number, 3)));
    }
    if let Some(number) = spaced_isbn(alloc, words, 3)? {
        return Ok(Some((number, 2)));
    }
    match spaced_isbn(alloc, words, 2)? {
        Some(number) => Ok(Some((number, 1))),
        None => Ok(None),
    }
}

/// Returns the number at the front of some words, and how many words after the first it takes.
pub(crate) fn first_number(
    alloc: Global,
    words: &[Word],
) -> Result<Option<(Identifier, usize)>, AllocError>
    ensures { IfOk result (λ found. found ≡ first_number words.now) }
{
    let [first, ..] = words else {
        return Ok(None);
    };
    if let Some(number) = number_of_word(first.text()) {
        return Ok(Some((number, 0)));
    }
    if let Some(issn) = spaced_issn(alloc, words)? {
        return Ok(Some((Identifier::Issn(issn), 1)));
    }
    // Each ISBN begins with a digit.
    if !begins_with_digit(first.text()) {
        return Ok(None);
    }
    first_spaced_isbn(alloc, words)
}
