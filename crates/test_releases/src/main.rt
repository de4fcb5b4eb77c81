//! A program for the sessions of tests/. It runs commands from its standard input on a feed over a keeper in memory, on
//! the kept parts of a file or on fetches, or replays a script over such keepers.
//!
//!     test_releases                          commands on a feed and its keeper
//!     test_releases segments                 commands on the kept parts of one file
//!     test_releases fetches                  commands on fetches
//!     test_releases failing KEEPER..         replays a script
//!     test_releases holding KEEPER..         the same
//!     test_releases again KEEPER..           the same, twice
//!     test_releases full KEEPER..            replays it, and writes the transcript into short buffers
//!     test_releases names                    prints names
//!
//! If an argument, a command or the script is wrong, the last line says so, and the status is 2.
//!
//! # Commands
//!
//! A line has one command, its words separated by spaces; an empty line has none. An invalid command ends the program
//! with status 2, after it has printed the number of the line and the error on standard error. A line `segments` or
//! `fetches` has the effect of that argument. `fetches.rt` lists the commands on fetches.
//!
//! BYTES is a text, `@FILE` for the bytes of a file, or `@FILE,FROM,COUNT` for at most COUNT of them from the place
//! FROM on. A PART is `FIRST:BYTES`, and in an event also `FIRST/TOTAL:BYTES`. A STATE is `Staged`, `Active` or
//! `Broken`, with a reason as in `Broken:NoHeader` or `Broken:MissingLabel:title_url`.
//!
//! Commands that make a keeper:
//!
//!     record NAME SIZE STATE PART..   lists a record
//!     split                           cuts the parts of the listed records into parts of one byte
//!     bad                             prints why the file of each listed record is bad, and forgets these records
//!     keep                            replaces the keeper by one of the listed records, and forgets these
//!
//! Commands on the keeper, while no feed is open over it; it begins without records:
//!
//!     records              prints the records
//!     failures             prints how often the device has failed
//!     fail-load N          the load after N others fails
//!     fail-commit N        the commit after N others fails
//!     fail-commits N       every commit after N others fails
//!     open                 opens a feed
//!
//! Commands on the feed:
//!
//!     offer NAME SIZE      submits an event and prints the reply or the refusal; so do the next two
//!     piece NAME PART
//!     lost NAME
//!     retry                from now on, an event that is refused with Device is submitted once more
//!     queue EVENT..        queues an event, such as `queue offer NAME SIZE`
//!     run                  submits the queued events in one call
//!     stop-before EVENT..  stops the feed in the middle of an event, before its commit
//!     stop-after EVENT..   the same, after its commit
//!     close                stops the feed between two events, if one is open
//!     next NAME MAX        prints the first missing places, at most MAX of them
//!     report PACKAGE       prints the active release
//!     reason NAME          prints why a release is broken
//!     answer PACKAGE QUERY prints the rows that match
//!     is-empty             prints whether no release is recorded
//!
//! Commands on the kept parts of one file, none at the beginning:
//!
//!     parts PART..         replaces them, or prints `no segments` if these parts are not valid
//!     piece PART           keeps what is new in a piece
//!     new PART             prints the parts that a piece would add
//!     whole PART SIZE      prints the file, if no place of it is missing with the piece
//!     conflicts PART       prints whether a kept byte differs from the piece's
//!     covers PART          prints whether each place of the piece is kept
//!     within SIZE          prints whether no part extends past the size
//!     list, copy           print the parts, and a copy of them
//!     count                prints how many bytes are kept
//!     gap SIZE             prints the first gap: its first place, and the place after its last one
//!     read                 prints the kept bytes
//!     read-with PART ROOM..  reads the kept bytes and the piece's new ones into buffers of up to 16 bytes
//!     find PLACE           prints the index of the last part that begins at a place or before it, and the probes
//!     in-order PART..      prints a copy of the parts, in the order of their first places
//!
//! # Replays
//!
//! The script is one of `kbfeed replay`. There is a node for each KEEPER, whatever number the script names, and a
//! script publishes no files by their paths. A KEEPER is one of
//!
//!     sound, empty                          a keeper without records, which does not fail
//!     load N                                one without records, which fails at the load after N others
//!     commits N                             one without records, which fails at every commit after the first N
//!     record NAME SIZE STATE FIRST TEXT     one with a record, which does not fail. The record is Staged or Active,
//!                                           with these bytes, or none, at its place FIRST
//!
//! `failing` and `holding` print the transcript, or why there is none, and then each keeper that the replay returns:
//! its number, how often it failed, and its records. `again` does this twice, each time over new keepers, and prints
//! `again` between. `full` writes the transcript into each buffer that is shorter than it, and prints how many refuse
//! it. `names` reads no script: it prints each fault, refusal, reply and line of a transcript with its text.
#![tactic(auto)]

mod feeds;
mod fetches;
mod keepers;
mod names;
mod printing;
mod replays;
mod segments;
mod server;
mod sink;
mod words;

use crate::feeds::Feeds;
use crate::fetches::Fetches;
use crate::names::show_names;
use crate::replays::{show_again, show_full_over, show_over};
use crate::segments::Kept;
use crate::words::words_of;
use std::alloc::Global;
use std::process::{ExitCode, Termination};
use std::test::Fail;
use std::{env, io};
use test_support::{Fault, read_events};

fn main(rt: HostRuntime) -> ExitCode {
    let done = run(&rt);
    let is_done = done.is_ok();
    let status = done.report(&rt);
    if is_done { status } else { ExitCode::from(2) }
}

fn run(rt: &HostRuntime) -> Result<(), Fail> {
    let mut words = Vec::new(rt.alloc());
    for word in env::args(rt)? {
        words.push(word)?;
    }
    match words.as_slice() {
        [_, command, keepers @ ..] => run_command(rt, command.as_str(), keepers),
        _ => run_lines(rt, &[]),
    }
}

fn run_command(rt: &HostRuntime, command: &str, keepers: &[String]) -> Result<(), Fail> {
    match command {
        "segments" | "fetches" => run_lines(rt, &[command]),
        "failing" | "holding" => show_over(rt, keepers, &read_events(rt)?),
        "again" => show_again(rt, keepers, &read_events(rt)?),
        "full" => show_full_over(rt, keepers, &read_events(rt)?),
        "names" => show_names(rt),
        _ => Err(Fail::new(format_args!("{command}: unknown command"))),
    }
}

fn run_lines(rt: &HostRuntime, words: &[&str]) -> Result<(), Fail> {
    match take_lines(rt, words) {
        Ok(()) => Ok(()),
        Err(Fault(why)) => Err(Fail::new(format_args!("test_releases: {why}"))),
    }
}

// Runs the words as a command, and then each line. Before the error of a line, prints it with its number.
fn take_lines(rt: &HostRuntime, words: &[&str]) -> Result<(), Fault> {
    let text = io::read_to_string(rt.alloc(), rt.reader())?;
    let mut subjects = Subjects::new(rt.alloc())?;
    subjects.run_command(rt, words)?;
    for (at, line) in text.lines().enumerate() {
        if let Err(why) = take_line(rt, &mut subjects, line) {
            let number = at.saturating_add(1);
            eprintln!(rt; "line {number}: {line}")?;
            return Err(why);
        }
    }
    Ok(())
}

fn take_line(rt: &HostRuntime, subjects: &mut Subjects, line: &str) -> Result<(), Fault> {
    let words = words_of(rt.alloc(), line)?;
    subjects.run_command(rt, words.as_slice())
}

#[derive(Clone, Copy)]
enum Subject {
    Feeds,
    Segments,
    Fetches,
}

// The objects that commands work on, and which of them the commands of the next lines work on.
#[derive(Drop)]
struct Subjects {
    feeds: Feeds,
    segments: Kept,
    fetches: Fetches,
    chosen: Subject,
}

impl Subjects {
    fn new(alloc: Global) -> Result<Subjects, Fault> {
        let fetches = Fetches::new(alloc)?;
        Ok(Subjects {
            feeds: Feeds::new(alloc),
            segments: Kept::new(alloc),
            fetches,
            chosen: Subject::Feeds,
        })
    }

    fn run_command(&mut self, rt: &HostRuntime, words: &[&str]) -> Result<(), Fault> {
        match words {
            ["segments"] => self.chosen = Subject::Segments,
            ["fetches"] => self.chosen = Subject::Fetches,
            _ => return self.run_chosen(rt, words),
        }
        Ok(())
    }

    fn run_chosen(&mut self, rt: &HostRuntime, words: &[&str]) -> Result<(), Fault> {
        match self.chosen {
            Subject::Feeds => self.feeds.run_command(rt, words),
            Subject::Segments => self.segments.run_command(rt, words),
            Subject::Fetches => self.fetches.run_command(rt, words),
        }
    }
}
