//! The ISSNs and the ISBNs of pairs, also in values that have several, or words and spaces around them.
ghost use Rattle.std.specs.Prelude.{◌≡◌, ◌++◌, [], IfOk, OnOk, option_copied};
ghost use Rattle.std.specs.List.{flat_map};
ghost use Rattle.feed_openurl.specs.Numbers.{first_number, number_onto, numbers_after, numbers_in, taken};
ghost use Rattle.feed_openurl.specs.Identifiers.{numbers_in_text, numbers_of_pair};

use crate::number::first_number;
use crate::plain::plain;
use crate::value::value_of;
use crate::words::{Word, words};
use feed_answer::Pair;
use feed_identifiers::Identifier;
use std::alloc::{AllocError, Global};

// Appends the number at the front of some words, and returns how many words after the first it takes.
fn push_first(
    alloc: Global,
    words: &[Word],
    numbers: &mut Vec<Identifier>,
) -> Result<usize, AllocError>
    ensures number { OnOk result (numbers.new.items ≡ numbers.old.items ++ number_onto (first_number words.now) []) }
    ensures more { IfOk result (λ more. more ≡ taken (first_number words.now)) }
{
    match first_number(alloc, words)? {
        Some((number, more)) => {
            numbers.push(number)?;
            Ok(more)
        }
        None => Ok(0),
    }
}

// Appends the numbers of some words.
fn push_numbers(
    alloc: Global,
    words: &[Word],
    numbers: &mut Vec<Identifier>,
) -> Result<(), AllocError>
    ensures { OnOk result (numbers.new.items ≡ numbers.old.items ++ numbers_after 0 words.now) }
{
    let mut skipped = 0;
    for place in 0..words.len() {
        if skipped > 0 {
            skipped -= 1;
            continue;
        }
        skipped = push_first(alloc, &words[place..], numbers)?;
    }
    Ok(())
}

// Appends the numbers in a value.
#[tactic(auto, unfolding(crate::specs::Numbers::numbers_in))]
fn push_value(alloc: Global, value: &[u8], numbers: &mut Vec<Identifier>) -> Result<(), AllocError>
    ensures { OnOk result (numbers.new.items ≡ numbers.old.items ++ numbers_in value.now) }
{
    let text = plain(alloc, value)?;
    let words = words(alloc, text.as_slice())?;
    push_numbers(alloc, &words, numbers)
}

// Appends the numbers in a text, if there is one.
fn push_text(
    alloc: Global,
    text: Option<&[u8]>,
    numbers: &mut Vec<Identifier>,
) -> Result<(), AllocError>
    ensures { OnOk result (numbers.new.items ≡ numbers.old.items ++ numbers_in_text (option_copied text.entry)) }
{
    match text {
        Some(text) => push_value(alloc, text, numbers),
        None => Ok(()),
    }
}

// Appends the numbers of a pair: the one that the core reads, or else those in its value.
#[tactic(auto, unfolding(crate::specs::Identifiers::numbers_of_pair))]
fn push_pair(
    alloc: Global,
    pair: &Pair<'_>,
    numbers: &mut Vec<Identifier>,
) -> Result<(), AllocError>
    ensures { OnOk result (numbers.new.items ≡ numbers.old.items ++ numbers_of_pair pair.now) }
{
    match pair.identifier() {
        Some(number) => {
            numbers.push(number)?;
            Ok(())
        }
        None => push_text(alloc, value_of(pair).number_text(), numbers),
    }
}

/// Returns the numbers of the pairs. In a value they are found by their form and their check character, with no letter
/// or digit beside them.
pub(crate) fn numbers_of(alloc: Global, pairs: &[Pair<'_>]) -> Result<Vec<Identifier>, AllocError>
    ensures { IfOk result (λ numbers. numbers.items ≡ flat_map numbers_of_pair pairs.now) }
{
    let mut numbers = Vec::new(alloc);
    for pair in pairs {
        push_pair(alloc, pair, &mut numbers)?;
    }
    Ok(numbers)
}
