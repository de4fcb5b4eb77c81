//! Prints the results of commands.
use feed_kbart::BadFile;
use feed_parts::Part;
use std::io;
use std::io::Write;
use test_support::{Fault, write_parts};

/// Prints bytes as they are.
pub fn print_bytes(rt: &HostRuntime, bytes: &[u8]) -> Result<(), Fault> {
    Ok(io::writer(rt).write_all(bytes)?)
}

/// Prints a line of one word.
pub fn print_word(rt: &HostRuntime, word: &str) -> Result<(), Fault> {
    Ok(println!(rt; "{word}")?)
}

/// Prints `true` or `false`.
pub fn print_flag(rt: &HostRuntime, flag: bool) -> Result<(), Fault> {
    print_word(rt, if flag { "true" } else { "false" })
}

/// Prints a word and a number.
pub fn print_count(rt: &HostRuntime, word: &str, count: u64) -> Result<(), Fault> {
    Ok(println!(rt; "{word} {count}")?)
}

/// Prints why a file is bad, or `none`.
pub fn print_reason(rt: &HostRuntime, reason: Option<BadFile>) -> Result<(), Fault> {
    match reason {
        Some(why) => Ok(println!(rt; "{why}")?),
        None => print_word(rt, "none"),
    }
}

/// Prints a line of parts, as `0:01 4:45`.
pub fn print_parts(rt: &HostRuntime, parts: &[Part]) -> Result<(), Fault> {
    let mut text = Vec::new(rt.alloc());
    write_parts(&mut text, parts)?;
    text.push(b'\n')?;
    match text.as_slice() {
        [b' ', rest @ ..] => print_bytes(rt, rest),
        text => print_bytes(rt, text),
    }
}
