//! The parser of a whole script, within its limits of bytes and lines.
use crate::disk::Files;
use crate::events::{read_event, read_nodes};
use crate::faults::ScriptFault;
use crate::line_fault::LineFault;
use crate::words::split_at;
use feed_world::WorldEvent;
use memchr::memchr_iter;
use std::alloc::Global;
use std::str;

/// The most bytes that a script may have.
pub const SCRIPT_LIMIT: usize = 16_777_216;

const LINE_LIMIT: usize = 100_000;

// The most bytes of a line that are shown with its fault.
const EXCERPT_LENGTH: usize = 80;

/// A parsed script: how many nodes there are, and the events in order.
#[derive(Drop)]
pub struct Script {
    pub nodes: usize,
    pub events: Vec<WorldEvent>,
}

/// Parses a script.
///
/// # Errors
///
/// Returns `TooLong` past `SCRIPT_LIMIT` bytes or 100,000 lines, and otherwise the error of the first bad line.
pub fn read_script<P: Files>(
    alloc: Global,
    script: &[u8],
    files: &mut P,
) -> Result<Script, ScriptFault> {
    if script.len() > SCRIPT_LIMIT {
        return Err(ScriptFault::TooLong);
    }
    match read_lines(alloc, script, files) {
        Ok(script) => Ok(script),
        // Too many lines are reported before an error in one of them.
        Err(_) if line_count(script) > LINE_LIMIT => Err(ScriptFault::TooLong),
        Err(fault) => Err(fault),
    }
}

// The contents of the lines parsed so far.
#[derive(Drop)]
struct Reading {
    nodes: Option<usize>,
    events: Vec<WorldEvent>,
}

fn read_lines<P: Files>(
    alloc: Global,
    script: &[u8],
    files: &mut P,
) -> Result<Script, ScriptFault> {
    let mut reading = Reading {
        nodes: None,
        events: Vec::new(alloc),
    };
    read_each(alloc, script, files, &mut reading)?;
    let Reading { nodes, events } = reading;
    match nodes {
        Some(nodes) => Ok(Script { nodes, events }),
        None => {
            let behind = line_count(script).saturating_add(1);
            Err(ScriptFault::at(behind, LineFault::NodesExpected))
        }
    }
}

fn read_each<P: Files>(
    alloc: Global,
    script: &[u8],
    files: &mut P,
    reading: &mut Reading,
) -> Result<(), ScriptFault> {
    let mut rest = Some(script);
    for before in 0..LINE_LIMIT {
        let Some(text) = rest else {
            return Ok(());
        };
        let (line, after) = split_at(text, b'\n');
        rest = after;
        if let Err(fault) = read_line(alloc, line, files, reading) {
            return Err(ScriptFault::at(before + 1, fault));
        }
    }
    if rest.is_some_and(|text| !text.is_empty()) {
        return Err(ScriptFault::TooLong);
    }
    Ok(())
}

// Parses a line, unless it is empty or a comment: first the number of nodes, then an event.
fn read_line<P: Files>(
    alloc: Global,
    line: &[u8],
    files: &mut P,
    reading: &mut Reading,
) -> Result<(), LineFault> {
    if line.is_empty() || line.first() == Some(&b'#') {
        return Ok(());
    }
    if reading.nodes.is_none() {
        reading.nodes = Some(read_nodes(line)?);
        return Ok(());
    }
    let event = read_event(alloc, line, files)?;
    reading.events.push(event)?;
    Ok(())
}

/// Returns the first 80 bytes of a line, without an incomplete character at their end. Returns the empty text if there
/// is no such line, or they are not UTF-8.
pub fn line_excerpt(script: &[u8], line: usize) -> &str {
    let mut rest = script;
    for _ in 1..line {
        match split_at(rest, b'\n') {
            (_, Some(after)) => rest = after,
            (_, None) => return "",
        }
    }
    let (text, _) = split_at(rest, b'\n');
    whole_characters(text.get(..EXCERPT_LENGTH).unwrap_or(text))
}

// Returns a text without an incomplete character at its end, or the empty text if it is not UTF-8.
fn whole_characters(text: &[u8]) -> &str {
    match str::from_utf8(text) {
        Ok(text) => text,
        Err(error) if error.error_len().is_none() => {
            let front = text.get(..error.valid_up_to()).unwrap_or(&[]);
            str::from_utf8(front).unwrap_or("")
        }
        Err(_) => "",
    }
}

// Counts the lines. Bytes after the last LF are a line too.
fn line_count(script: &[u8]) -> usize {
    let ended = memchr_iter(b'\n', script).count();
    match script.last() {
        None | Some(b'\n') => ended,
        Some(_) => ended + 1,
    }
}
