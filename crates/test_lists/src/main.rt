//! A program that runs the parsers of identifiers, dates, names, queries and holdings lists on the lines of its input,
//! for `tests/sessions/lists`.
//!
//! Each line of standard input is a command, and prints what the call returns. An absent value is printed as `none`.
//! TEXT is the rest of the line as it is, spaces included; other words are separated by one space.
//!
//!     issn TEXT               the ISSN, its number, and whether its text parses to an equal one
//!     isbn TEXT               the same of an ISBN
//!     less WORD WORD          whether the first of two ISSNs, or of two ISBNs, is less than the second
//!     trim TEXT               the text without the spaces at its ends, in brackets
//!     volume TEXT             the number of a volume
//!     date TEXT               the day that it names, and the days that it names in a list and in a query
//!     name TEXT               the package, the day and the text of a release's name, and the text of a copy
//!     name-earlier NAME NAME  whether the first release is an earlier one of the same package
//!     query TEXT              the identifiers, the days and the volume that a query asks for
//!     utf8 FILE               whether the file is UTF-8 as a whole and byte by byte, and how many of all its cuts into
//!                             two and into three pieces are accepted
//!     read STEP CALLS FILE    the list in a file, by a reader that returns at most STEP bytes at a call and fails at
//!                             each call after the first CALLS
//!     count STEP CALLS FILE   the counts of the same list, by `count_file`
//!     parts STEP CALLS CALLS FILE
//!                             the same list, by `read_parts`, with a number of calls for each of its two readers
//!     windows SIZE FILE       the same list, by `read_windows`, in windows of at most SIZE bytes
//!     rows FILE WORD          the places, from 0, of the rows that have an ISSN or an ISBN
//!     places SIZE FILE WORD.. the same for each word, of a list that `read_windows` reads in windows of at most SIZE
//!                             bytes
//!     write ROOM NAME TEXT    whether the answer to a query is written, from the list in the file NAME, to a writer
//!                             that accepts ROOM bytes and then fails
//!     embargo TODAY FIRST LAST DATE TEXT
//!                             the first and the last of the covered days that an embargo leaves open on a day, and
//!                             how the days of a date lie in them; a date of no form is absent
//!     values ENUM             each value of an enum, with its place, its name in the source and its printed text
//!
//! With a `+` at the end of CALLS, the reader fails once, at the call after the first CALLS, and then continues.
//!
//! At a line that it cannot run, the program prints the line's number and what is wrong, and exits with 2.
#![tactic(auto)]

mod cuts;
mod embargoes;
mod fault;
mod lists;
mod print;
mod slow;
mod texts;
mod values;
mod words;

use crate::fault::ListsDriverFault;
use crate::print::finish;
use crate::words::CommandWords;
use std::io;
use std::process::ExitCode;
use test_support::Out;

fn main(rt: HostRuntime) -> io::Result<ExitCode> {
    let mut number = 0u64;
    for line in rt.lines(rt.alloc()) {
        number = number.saturating_add(1);
        if let Err(ListsDriverFault(why)) = take_line(&rt, line) {
            eprintln!(rt; "line {number}: {why}")?;
            return Ok(ExitCode::from(2));
        }
    }
    Ok(ExitCode::SUCCESS)
}

fn take_line(rt: &HostRuntime, line: io::Result<String>) -> Result<(), ListsDriverFault> {
    let line = line?;
    let (command, rest) = words::split_word(line.as_str());
    let mut out = Out::new(rt);
    run(&mut out, command, rest)?;
    finish(&out)
}

fn run(out: &mut Out<'_>, command: &str, rest: &str) -> Result<(), ListsDriverFault> {
    match command {
        "issn" => texts::issn(out, rest),
        "isbn" => texts::isbn(out, rest),
        "trim" => texts::trim(out, rest),
        "volume" => texts::volume(out, rest),
        "date" => texts::date(out, rest),
        "query" => texts::query(out, rest),
        _ => return run_words(out, command, CommandWords::new(rest)),
    }
    Ok(())
}

fn run_words(
    out: &mut Out<'_>,
    command: &str,
    words: CommandWords<'_>,
) -> Result<(), ListsDriverFault> {
    match command {
        "name" => texts::name(out, words.rest),
        "utf8" => cuts::utf8(out, words.rest),
        "values" => values::values(out, words.rest),
        "less" => texts::less(out, words),
        "name-earlier" => texts::name_earlier(out, words),
        "embargo" => embargoes::embargo(out, words),
        _ => run_lists(out, command, words),
    }
}

fn run_lists(
    out: &mut Out<'_>,
    command: &str,
    words: CommandWords<'_>,
) -> Result<(), ListsDriverFault> {
    match command {
        "read" => lists::read(out, words),
        "count" => lists::count(out, words),
        "parts" => lists::parts(out, words),
        "windows" => lists::windows(out, words),
        "rows" => lists::rows(out, words),
        "places" => lists::places(out, words),
        "write" => lists::write(out, words),
        _ => Err(ListsDriverFault("unknown command")),
    }
}
