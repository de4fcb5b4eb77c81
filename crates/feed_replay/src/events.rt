//! The parsers of a script's lines, a function for each kind of event.
use crate::disk::Files;
use crate::escapes::unescape;
use crate::line_fault::LineFault;
use crate::words::{Words, read_number, split_word};
use feed_names::{NameFault, ReleaseName};
use feed_world::{NODE_LIMIT, Sent, WorldEvent};
use std::alloc::Global;

/// Parses the first line, `nodes N`.
pub fn read_nodes(line: &[u8]) -> Result<usize, LineFault> {
    let mut words = Words::of(line);
    if words.word() != Ok(b"nodes".as_slice()) {
        return Err(LineFault::NodesExpected);
    }
    let count = words.word()?;
    words.end()?;
    match read_number(count) {
        Ok(count) if 1 <= count && count <= NODE_LIMIT as u64 => Ok(count as usize),
        _ => Err(LineFault::BadNumber),
    }
}

/// Parses the line of an event.
pub fn read_event<P: Files>(
    alloc: Global,
    line: &[u8],
    files: &mut P,
) -> Result<WorldEvent, LineFault> {
    let (command, rest) = split_word(line);
    let words = Words { rest };
    match command {
        b"publish" => read_publish(alloc, words),
        b"publish-file" => read_publish_file(alloc, words, files),
        b"offer" => read_offer(alloc, words),
        b"deliver" => read_deliver(alloc, words),
        b"lose" => read_lose(alloc, words),
        b"restart" => read_restart(words),
        b"stop-before" => read_stop_before(alloc, words),
        b"stop-after" => read_stop_after(alloc, words),
        b"report" => read_report(alloc, words),
        b"ask" => read_ask(alloc, words),
        _ => Err(LineFault::UnknownCommand),
    }
}

// `NAME TEXT`
fn read_publish(alloc: Global, mut words: Words<'_>) -> Result<WorldEvent, LineFault> {
    let name = words.word()?;
    let text = words.text();
    let name = read_name(alloc, name)?;
    let bytes = unescape(alloc, text)?;
    Ok(WorldEvent::Publish { name, bytes })
}

// `NAME PATH`
fn read_publish_file<P: Files>(
    alloc: Global,
    mut words: Words<'_>,
    files: &mut P,
) -> Result<WorldEvent, LineFault> {
    let name = words.word()?;
    let path = words.text();
    if path.is_empty() {
        return Err(LineFault::WrongWords);
    }
    let name = read_name(alloc, name)?;
    let bytes = files.bytes_of(alloc, path)?;
    Ok(WorldEvent::Publish { name, bytes })
}

// `NODE NAME`
fn read_offer(alloc: Global, mut words: Words<'_>) -> Result<WorldEvent, LineFault> {
    let node = words.word()?;
    let (node, name) = read_name_at(alloc, node, words)?;
    Ok(WorldEvent::Offer { node, name })
}

// `NODE NAME FIRST LEN`
fn read_deliver(alloc: Global, mut words: Words<'_>) -> Result<WorldEvent, LineFault> {
    let node = words.word()?;
    let (node, Slice { name, first, len }) = read_slice_at(alloc, node, words)?;
    Ok(WorldEvent::Deliver {
        node,
        name,
        first,
        len,
    })
}

// `NODE NAME`
fn read_lose(alloc: Global, mut words: Words<'_>) -> Result<WorldEvent, LineFault> {
    let node = words.word()?;
    let (node, name) = read_name_at(alloc, node, words)?;
    Ok(WorldEvent::Lose { node, name })
}

// `NODE`
fn read_restart(mut words: Words<'_>) -> Result<WorldEvent, LineFault> {
    let node = words.word()?;
    words.end()?;
    let node = read_number(node)?;
    Ok(WorldEvent::Restart { node })
}

fn read_stop_before(alloc: Global, words: Words<'_>) -> Result<WorldEvent, LineFault> {
    let (node, what) = read_stop(alloc, words)?;
    Ok(WorldEvent::StopBefore { node, what })
}

fn read_stop_after(alloc: Global, words: Words<'_>) -> Result<WorldEvent, LineFault> {
    let (node, what) = read_stop(alloc, words)?;
    Ok(WorldEvent::StopAfter { node, what })
}

// `NODE offer NAME` or `NODE deliver NAME FIRST LEN`
fn read_stop(alloc: Global, mut words: Words<'_>) -> Result<(u64, Sent), LineFault> {
    let node = words.word()?;
    match words.word()? {
        b"offer" => {
            let (node, name) = read_name_at(alloc, node, words)?;
            Ok((node, Sent::Offer { name }))
        }
        b"deliver" => {
            let (node, Slice { name, first, len }) = read_slice_at(alloc, node, words)?;
            Ok((node, Sent::Deliver { name, first, len }))
        }
        _ => Err(LineFault::WrongWords),
    }
}

// A slice of the file that is published under a name: `len` bytes from the place `first`.
#[derive(Drop)]
struct Slice {
    name: ReleaseName,
    first: u64,
    len: u64,
}

// `NAME` as the last word. The word of the node is parsed after it is there.
fn read_name_at(
    alloc: Global,
    node: &[u8],
    mut words: Words<'_>,
) -> Result<(u64, ReleaseName), LineFault> {
    let name = words.word()?;
    words.end()?;
    let node = read_number(node)?;
    let name = read_name(alloc, name)?;
    Ok((node, name))
}

// `NAME FIRST LEN` as the last words. The word of the node is parsed after they are there.
fn read_slice_at(
    alloc: Global,
    node: &[u8],
    mut words: Words<'_>,
) -> Result<(u64, Slice), LineFault> {
    let name = words.word()?;
    let first = words.word()?;
    let len = words.word()?;
    words.end()?;
    let node = read_number(node)?;
    let first = read_number(first)?;
    let len = read_number(len)?;
    let name = read_name(alloc, name)?;
    Ok((node, Slice { name, first, len }))
}

// `NODE PACKAGE`
fn read_report(alloc: Global, mut words: Words<'_>) -> Result<WorldEvent, LineFault> {
    let node = words.word()?;
    let package = words.word()?;
    words.end()?;
    let node = read_number(node)?;
    let package = Vec::from_slice(alloc, package)?;
    Ok(WorldEvent::Report { node, package })
}

// `NODE PACKAGE QUERY`
fn read_ask(alloc: Global, mut words: Words<'_>) -> Result<WorldEvent, LineFault> {
    let node = words.word()?;
    let package = words.word()?;
    let query = words.text();
    let node = read_number(node)?;
    let package = Vec::from_slice(alloc, package)?;
    let query = Vec::from_slice(alloc, query)?;
    Ok(WorldEvent::Ask {
        node,
        package,
        query,
    })
}

fn read_name(alloc: Global, word: &[u8]) -> Result<ReleaseName, LineFault> {
    match ReleaseName::parse(alloc, word) {
        Ok(name) => Ok(name),
        Err(NameFault::Memory) => Err(LineFault::Memory),
        Err(_) => Err(LineFault::BadName),
    }
}
