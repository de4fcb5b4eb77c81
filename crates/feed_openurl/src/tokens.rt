//! The tokens of a date as it is written: numbers, names of months, words and marks.
ghost use Rattle.std.specs.Prelude.{◌≡◌, ◌++◌, ◌∷◌, ℕ, List, [], IfOk, OnOk};
ghost use Rattle.std.specs.List.{cons_option};
ghost use Rattle.feed_openurl.specs.Dates.{is_one, is_ordinal, joins};
ghost use Rattle.feed_openurl.specs.Dates.{late_month_of, month_of, names_season, number_of_two};
ghost use Rattle.feed_openurl.specs.Dates.{number_token, token_of, tokens_from, word_token};

use crate::digits::is_letter;
use crate::key::is_name;
use std::alloc::{AllocError, Global};

/// A part of a date.
#[derive(Clone, Copy)]
pub(crate) enum Token {
    /// One or two digits, as a number.
    Small(u8),
    /// Four digits.
    Year([u8; 4]),
    /// Six or eight digits: a year, a month, and a day or 0.
    Packed([u8; 4], u8, u8),
    /// The name of a month, 1 to 12.
    Month(u8),
    /// The name of a season.
    Season,
    /// Any other run of letters or of digits.
    Word,
    /// Another byte. Spaces are none.
    Mark(u8),
}

fn is_one(word: &[u8], short: &str, long: &str) -> bool
    ensures { result ≡ is_one word.now short.now long.now }
{
    is_name(word, short) || is_name(word, long)
}

// The month of the second half of a year that a word names.
fn late_month_of(word: &[u8]) -> Option<u8>
    ensures { result ≡ late_month_of word.now }
{
    if is_one(word, "jul", "july") {
        Some(7)
    } else if is_one(word, "aug", "august") {
        Some(8)
    } else if is_one(word, "sep", "september") || is_name(word, "sept") {
        Some(9)
    } else if is_one(word, "oct", "october") {
        Some(10)
    } else if is_one(word, "nov", "november") {
        Some(11)
    } else if is_one(word, "dec", "december") {
        Some(12)
    } else {
        None
    }
}

// The month that a word names: its name in English, or the first three letters of it.
fn month_of(word: &[u8]) -> Option<u8>
    ensures { result ≡ month_of word.now }
{
    if is_one(word, "jan", "january") {
        Some(1)
    } else if is_one(word, "feb", "february") {
        Some(2)
    } else if is_one(word, "mar", "march") {
        Some(3)
    } else if is_one(word, "apr", "april") {
        Some(4)
    } else if is_one(word, "may", "may") {
        Some(5)
    } else if is_one(word, "jun", "june") {
        Some(6)
    } else {
        late_month_of(word)
    }
}

// Whether a word makes an ordinal of the number before it.
fn is_ordinal(word: &[u8]) -> bool
    ensures { result ≡ is_ordinal word.now }
{
    is_one(word, "st", "nd") || is_one(word, "rd", "th")
}

fn number_of_two(a: u8, b: u8) -> u8
    ensures { result ≡ number_of_two a b }
{
    10 * a.saturating_sub(b'0').min(9) + b.saturating_sub(b'0').min(9)
}

fn number_token(digits: &[u8]) -> Token
    ensures { result ≡ number_token digits.now }
{
    match digits {
        [a] => Token::Small(number_of_two(b'0', *a)),
        [a, b] => Token::Small(number_of_two(*a, *b)),
        [a, b, c, d] => Token::Year([*a, *b, *c, *d]),
        [a, b, c, d, e, f] => Token::Packed([*a, *b, *c, *d], number_of_two(*e, *f), 0),
        [a, b, c, d, e, f, g, h] => {
            Token::Packed(
                [*a, *b, *c, *d],
                number_of_two(*e, *f),
                number_of_two(*g, *h),
            )
        }
        _ => Token::Word,
    }
}

// Whether a word names a season: its name in English, or the first three letters of it.
fn names_season(word: &[u8]) -> bool
    ensures { result ≡ names_season word.now }
{
    is_one(word, "spr", "spring")
        || is_one(word, "sum", "summer")
        || is_one(word, "aut", "autumn")
        || is_one(word, "fal", "fall")
        || is_one(word, "win", "winter")
}

fn word_token(word: &[u8]) -> Token
    ensures { result ≡ word_token word.now (month_of word.now) }
{
    match month_of(word) {
        Some(month) => Token::Month(month),
        None => {
            if names_season(word) {
                Token::Season
            } else {
                Token::Word
            }
        }
    }
}

// A run of digits, of letters, or one other byte, as a token. A space is none.
fn token_of(run: &[u8]) -> Option<Token>
    ensures { result ≡ token_of run.now }
{
    let first = *run.first()?;
    if first.is_ascii_digit() {
        Some(number_token(run))
    } else if is_letter(first) {
        if is_ordinal(run) {
            None
        } else {
            Some(word_token(run))
        }
    } else if first > 32 {
        Some(Token::Mark(first))
    } else {
        None
    }
}

// Whether a byte belongs to a run.
fn joins(run: &[u8], byte: u8) -> bool
    ensures { result ≡ joins run.now byte }
{
    match run.first() {
        Some(first) => {
            (first.is_ascii_digit() && byte.is_ascii_digit())
                || (is_letter(*first) && is_letter(byte))
        }
        None => false,
    }
}

// Appends the token of a run, if it is one.
fn push_token(tokens: &mut Vec<Token>, run: &[u8]) -> Result<(), AllocError>
    ensures { OnOk result (tokens.new.items ≡ tokens.old.items ++ cons_option (token_of run.now) []) }
{
    if let Some(token) = token_of(run) {
        tokens.push(token)?;
    }
    Ok(())
}

// Takes a byte: onto the run, or as the first of another run, after the token of the run.
fn take_byte(tokens: &mut Vec<Token>, run: &mut Vec<u8>, byte: u8) -> Result<(), AllocError>
    ensures { OnOk result ((rest : List ℕ) →
        tokens.new.items ++ tokens_from run.new.items rest
        ≡ tokens.old.items ++ tokens_from run.old.items (byte ∷ rest)) }
{
    if joins(run, byte) {
        run.push(byte)?;
        return Ok(());
    }
    push_token(tokens, run)?;
    run.clear();
    run.push(byte)?;
    Ok(())
}

/// Returns the tokens of a text in ASCII.
pub(crate) fn tokens(alloc: Global, text: &[u8]) -> Result<Vec<Token>, AllocError>
    ensures { IfOk result (λ tokens. tokens.items ≡ tokens_from [] text.now) }
{
    let mut tokens = Vec::new(alloc);
    let mut run = Vec::new(alloc);
    for byte in text {
        take_byte(&mut tokens, &mut run, *byte)?;
    }
    push_token(&mut tokens, &run)?;
    Ok(tokens)
}
