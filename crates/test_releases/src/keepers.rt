//! The keepers that arguments name.
use feed_keep::{ListKeep, Record};
use feed_model::State;
use feed_parts::Part;
use std::alloc::Global;
use std::slice;
use std::test::Fail;
use test_support::{Failing, name_of};

/// Returns the keepers of the arguments.
pub fn keepers_of(alloc: Global, words: &[String]) -> Result<Vec<Failing>, Fail> {
    let mut keepers = Vec::new(alloc);
    let mut left = words.iter();
    for _ in 0..words.len() {
        let Some(word) = left.next() else {
            break;
        };
        keepers.push(keeper_of(alloc, word.as_str(), &mut left)?)?;
    }
    Ok(keepers)
}

fn keeper_of(
    alloc: Global,
    word: &str,
    left: &mut slice::Iter<'_, String>,
) -> Result<Failing, Fail> {
    match word {
        "sound" | "empty" => Ok(Failing::over(ListKeep::new(alloc))),
        "load" => Ok(failing_load(alloc, next_number(left)?)),
        "commits" => Ok(failing_commits(alloc, next_number(left)?)),
        "record" => Ok(Failing::over(keeper_of_record(alloc, left)?)),
        _ => Err(Fail::new(format_args!("{word}: unknown keeper"))),
    }
}

// Returns a keeper whose load after `before` others fails.
fn failing_load(alloc: Global, before: u64) -> Failing {
    let mut keeper = Failing::over(ListKeep::new(alloc));
    keeper.fail_load(before);
    keeper
}

// Returns a keeper whose commits fail after the first `before`.
fn failing_commits(alloc: Global, before: u64) -> Failing {
    let mut keeper = Failing::over(ListKeep::new(alloc));
    keeper.fail_commits(before, u64::MAX);
    keeper
}

// `NAME SIZE STATE FIRST TEXT`
fn keeper_of_record(alloc: Global, left: &mut slice::Iter<'_, String>) -> Result<ListKeep, Fail> {
    let records = [record_of(alloc, left)?];
    Ok(ListKeep::of(alloc, Vec::from_array(alloc, records)?))
}

fn record_of(alloc: Global, left: &mut slice::Iter<'_, String>) -> Result<Record, Fail> {
    let name = next_word(left)?;
    let size = next_number(left)?;
    let state = state_of(next_word(left)?)?;
    let first = next_number(left)?;
    let bytes = next_word(left)?.as_bytes();
    Ok(Record {
        name: name_of(alloc, name)?,
        size,
        state,
        reason: None,
        parts: parts_of(alloc, first, bytes)?,
    })
}

fn state_of(word: &str) -> Result<State, Fail> {
    match word {
        "Staged" => Ok(State::Staged),
        "Active" => Ok(State::Active),
        _ => Err(Fail::new(format_args!("{word}: Staged or Active expected"))),
    }
}

fn parts_of(alloc: Global, first: u64, bytes: &[u8]) -> Result<Vec<Part>, Fail> {
    let mut parts = Vec::new(alloc);
    if !bytes.is_empty() {
        let bytes = Vec::from_slice(alloc, bytes)?;
        parts.push(Part { first, bytes })?;
    }
    Ok(parts)
}

fn next_word<'a>(left: &mut slice::Iter<'a, String>) -> Result<&'a str, Fail> {
    match left.next() {
        Some(word) => Ok(word.as_str()),
        None => Err(Fail::new("a word is missing")),
    }
}

fn next_number(left: &mut slice::Iter<'_, String>) -> Result<u64, Fail> {
    let word = next_word(left)?;
    match word.parse::<u64>() {
        Ok(number) => Ok(number),
        Err(_) => Err(Fail::new(format_args!("{word}: a number expected"))),
    }
}
