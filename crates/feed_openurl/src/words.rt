//! The words of a value, among which ISSNs and ISBNs are found.
ghost use Rattle.std.specs.Prelude.{◌≡◌, ◌==◌, ◌&&◌, ◌++◌, ◌∷◌, ℕ, List, [], IfOk, OnOk};
ghost use Rattle.feed_answer.specs.Pairs.{is_empty};
ghost use Rattle.feed_openurl.specs.Numbers.{is_word_byte, onto, sign_onto, unlabelled, without, without_letters};
ghost use Rattle.feed_openurl.specs.Numbers.{words_from};

use crate::digits::split_letters;
use crate::key::after;
use std::alloc::{AllocError, Global};
use std::marker::Model;

/// A word, or a sign between words.
#[derive(Drop)]
pub(crate) struct Word {
    text: Vec<u8>,
}

impl Model for Word {
    ghost use Rattle.std.specs.Prelude.{ℕ, List};

    ghost Value = { List ℕ };

    ghost view = { λ word. word.text.items };
}

impl Word {
    /// Returns the bytes.
    pub(crate) fn text(&self) -> &[u8]
        ensures { result.now ≡ self.now }
    {
        &self.text
    }
}

// Whether a byte is part of a word: a letter, a digit, a hyphen or `_`, which is a letter beyond ASCII.
fn is_word_byte(byte: u8) -> bool
    ensures { result ≡ is_word_byte byte }
{
    byte.is_ascii_alphanumeric() || byte == b'-' || byte == b'_'
}

// The text without a prefix, if it has it.
fn without<'a>(text: &'a [u8], prefix: &str) -> &'a [u8]
    ensures { result.now ≡ without prefix.now text.now }
{
    match after(text, prefix) {
        Some(rest) => rest,
        None => text,
    }
}

// The word without letters and a hyphen at its front, as in `EISSN-1935-102X`.
fn without_letters(word: &[u8]) -> &[u8]
    ensures { result.now ≡ without_letters word.now }
{
    let (_, rest) = split_letters(word);
    match after(rest, "-") {
        Some(number) => number,
        None => word,
    }
}

// The word without a label that is written onto it, as in `ISSN2434-561X`.
#[tactic(auto, unfolding(crate::specs::Numbers::unlabelled))]
fn unlabelled(word: &[u8]) -> &[u8]
    ensures { result.now ≡ unlabelled word.now }
{
    without_letters(without(without(word, "ISBN"), "ISSN"))
}

// Appends a word, unless nothing is left of it.
fn push_word(alloc: Global, words: &mut Vec<Word>, word: &[u8]) -> Result<(), AllocError>
    ensures { OnOk result (words.new.items ≡ words.old.items ++ onto (unlabelled word.now) []) }
{
    let text = unlabelled(word);
    if !text.is_empty() {
        let text = Vec::from_slice(alloc, text)?;
        words.push(Word { text })?;
    }
    Ok(())
}

// Appends a sign that ends a word, unless it is a space.
fn push_sign(alloc: Global, words: &mut Vec<Word>, byte: u8) -> Result<(), AllocError>
    ensures { OnOk result (words.new.items ≡ words.old.items ++ sign_onto byte []) }
{
    if byte != b' ' {
        let text = Vec::from_slice(alloc, &[byte])?;
        words.push(Word { text })?;
    }
    Ok(())
}

// Appends a word and the sign that ends it.
fn push_both(alloc: Global, words: &mut Vec<Word>, word: &[u8], byte: u8) -> Result<(), AllocError>
    ensures { OnOk result (words.new.items ≡ words.old.items ++ onto (unlabelled word.now) (sign_onto byte [])) }
{
    push_word(alloc, words, word)?;
    push_sign(alloc, words, byte)
}

// Whether a byte is a hyphen that would begin a word.
fn is_skipped(begun: &[u8], byte: u8) -> bool
    ensures { result ≡ (is_empty begun.now && (byte == 45)) }
{
    begun.is_empty() && byte == b'-'
}

// Takes a byte: onto the word, or as the sign that ends it.
fn take_byte(
    alloc: Global,
    words: &mut Vec<Word>,
    begun: &mut Vec<u8>,
    byte: u8,
) -> Result<(), AllocError>
    ensures { OnOk result ((rest : List ℕ) →
        words.new.items ++ words_from begun.new.items rest
        ≡ words.old.items ++ words_from begun.old.items (byte ∷ rest)) }
{
    if is_skipped(begun, byte) {
        return Ok(());
    }
    if is_word_byte(byte) {
        begun.push(byte)?;
        return Ok(());
    }
    push_both(alloc, words, begun, byte)?;
    begun.clear();
    Ok(())
}

/// Returns the words of a value in ASCII, and the signs other than spaces between them.
pub(crate) fn words(alloc: Global, value: &[u8]) -> Result<Vec<Word>, AllocError>
    ensures { IfOk result (λ words. words.items ≡ words_from [] value.now) }
{
    let mut words = Vec::new(alloc);
    let mut begun = Vec::new(alloc);
    for byte in value {
        take_byte(alloc, &mut words, &mut begun, *byte)?;
    }
    push_word(alloc, &mut words, &begun)?;
    Ok(words)
}
