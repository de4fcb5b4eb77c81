//! Parses the words of a command.
use feed_kbart::{BadFile, Label};
use feed_model::State;
use feed_names::ReleaseName;
use feed_parts::Part;
use std::alloc::{AllocError, Global};
use std::fs;
use test_support::Fault;

/// Returns the words of a line.
pub fn words_of(alloc: Global, line: &str) -> Result<Vec<&str>, AllocError> {
    let mut words = Vec::new(alloc);
    for word in line.split_whitespace() {
        words.push(word)?;
    }
    Ok(words)
}

/// Parses a number of 64 bits.
pub fn number_of(word: &str) -> Result<u64, Fault> {
    match word.parse::<u64>() {
        Ok(number) => Ok(number),
        Err(_) => Err(Fault("a number is wrong")),
    }
}

/// Parses the name of a release.
pub fn name_of(alloc: Global, word: &str) -> Result<ReleaseName, Fault> {
    match ReleaseName::parse(alloc, word.as_bytes()) {
        Ok(name) => Ok(name),
        Err(_) => Err(Fault("a name is wrong")),
    }
}

/// Bytes of a file from a place on, and the size of the file if the word names it.
#[derive(Drop)]
pub struct FilePiece {
    pub first: u64,
    pub total: Option<u64>,
    pub bytes: Vec<u8>,
}

/// Parses `FIRST:BYTES` or `FIRST/TOTAL:BYTES`.
pub fn piece_of(rt: &HostRuntime, word: &str) -> Result<FilePiece, Fault> {
    let Some((places, text)) = word.split_once(':') else {
        return Err(Fault("a part is FIRST:BYTES"));
    };
    let (first, total) = places_of(places)?;
    let bytes = bytes_of(rt, text)?;
    Ok(FilePiece {
        first,
        total,
        bytes,
    })
}

fn places_of(word: &str) -> Result<(u64, Option<u64>), Fault> {
    match word.split_once('/') {
        Some((first, total)) => Ok((number_of(first)?, Some(number_of(total)?))),
        None => Ok((number_of(word)?, None)),
    }
}

// Returns the bytes of a text, `@FILE` or `@FILE,FROM,COUNT`.
fn bytes_of(rt: &HostRuntime, text: &str) -> Result<Vec<u8>, Fault> {
    match text.strip_prefix('@') {
        Some(file) => bytes_in_file(rt, file),
        None => copy_of(rt.alloc(), text.as_bytes()),
    }
}

fn copy_of(alloc: Global, bytes: &[u8]) -> Result<Vec<u8>, Fault> {
    Ok(Vec::from_slice(alloc, bytes)?)
}

fn bytes_in_file(rt: &HostRuntime, file: &str) -> Result<Vec<u8>, Fault> {
    let Some((path, places)) = file.split_once(',') else {
        return file_of(rt, file);
    };
    let (from, count) = range_of(places)?;
    let bytes = file_of(rt, path)?;
    copy_of(rt.alloc(), cut(&bytes, from, count))
}

// `FROM,COUNT`
fn range_of(word: &str) -> Result<(u64, u64), Fault> {
    match word.split_once(',') {
        Some((from, count)) => Ok((number_of(from)?, number_of(count)?)),
        None => Err(Fault("a file is @FILE or @FILE,FROM,COUNT")),
    }
}

/// Returns the bytes of a file.
pub fn file_of(rt: &HostRuntime, path: &str) -> Result<Vec<u8>, Fault> {
    match fs::read(rt, path) {
        Ok(bytes) => Ok(bytes),
        Err(_) => Err(Fault("a file is not readable")),
    }
}

// Returns at most `count` of the bytes from a place on.
fn cut(bytes: &[u8], from: u64, count: u64) -> &[u8] {
    let rest = match bytes.get(from as usize..) {
        Some(rest) => rest,
        None => &[],
    };
    match rest.get(..count as usize) {
        Some(bytes) => bytes,
        None => rest,
    }
}

/// Parses parts, in the order of the words.
pub fn parts_of(rt: &HostRuntime, words: &[&str]) -> Result<Vec<Part>, Fault> {
    let mut parts = Vec::new(rt.alloc());
    for word in words {
        let FilePiece {
            first,
            total: _,
            bytes,
        } = piece_of(rt, word)?;
        parts.push(Part { first, bytes })?;
    }
    Ok(parts)
}

/// Parses a state, and the reason after it.
pub fn state_of(word: &str) -> Result<(State, Option<BadFile>), Fault> {
    let (state, reason) = match word.split_once(':') {
        Some((state, reason)) => (state, Some(reason_of(reason)?)),
        None => (word, None),
    };
    match state {
        "Staged" => Ok((State::Staged, reason)),
        "Broken" => Ok((State::Broken, reason)),
        "Active" => Ok((State::Active, reason)),
        _ => Err(Fault("a state is Staged, Broken or Active")),
    }
}

fn reason_of(word: &str) -> Result<BadFile, Fault> {
    match word {
        "NotUtf8" => Ok(BadFile::NotUtf8),
        "TwoMarks" => Ok(BadFile::TwoMarks),
        "NoHeader" => Ok(BadFile::NoHeader),
        "MissingLabel:publication_title" => Ok(BadFile::MissingLabel(Label::PublicationTitle)),
        "MissingLabel:print_identifier" => Ok(BadFile::MissingLabel(Label::PrintIdentifier)),
        "MissingLabel:title_url" => Ok(BadFile::MissingLabel(Label::TitleUrl)),
        _ => Err(Fault("no such reason")),
    }
}
