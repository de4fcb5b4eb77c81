//! Both ends of HTTP, the resolver and the connections of a node, driven by the lines of standard input.
//!
//!     test_http STEP < LINES
//!
//! A line is a command and its words, separated by one space; the last word is the rest of the line. In a TEXT `\r`,
//! `\n`, `\t` and `\xHH` are bytes, as they are in what is printed. Each reader gives at most STEP bytes at a call,
//! and each writer accepts at most STEP.
//!
//! Values of Range and Content-Range:
//!
//!     range LENGTH TEXT               the places of a file of LENGTH bytes that a Range value asks for
//!     content-range TEXT              what a Content-Range value says, or its fault and the number of the fault
//!     number TEXT                     the number that a text is
//!     write-range ROOM FIRST LAST     writes the Range value for these places, in ROOM bytes
//!     write-content-range ROOM TEXT   parses a Content-Range value and writes it again, in ROOM bytes
//!     laws                            calls the laws of both crates, which do nothing; prints nothing
//!
//! Exchanges:
//!
//!     host TEXT                       whether a node takes the text as a host
//!     get HOST NAME FIRST LAST        the GET that a node writes; after a fault, the bytes that it wrote before
//!     head HOST NAME                  the HEAD, in the same way
//!     reply get|head TEXT             what a node reads from a reply
//!     arriving get|head TEXT          the same, if STEP bytes arrive at a time
//!     reply-end get|head TEXT         after how many of them a node needs no more
//!     file NAME TEXT                  puts a file on the server's shelf; prints nothing
//!     request TEXT                    the status of the server's reply to a request, or its fault, and the reply
//!     serve TEXT                      the same, from a shelf in memory whose calls are not counted
//!     counts                          the calls of the last exchange's reader and writer, the longest block that was
//!                                     asked of the shelf, and how often the shelf failed
//!     faults                          every fault of the HTTP crates, with its text
//!
//! These hold for the next exchange, and print nothing:
//!
//!     front N                         only the first N bytes of the TEXT arrive
//!     fail-read N                     the reader fails at its call N, counted from 1
//!     fail-write N                    so does the writer
//!     fail-shelf N                    so does the shelf
//!
//! A node, with the releases that it received:
//!
//!     release NAME TEXT               offers a release to the node, and sends its whole file
//!     site VERSION MAX-AGE TEXT       the version, the seconds and the site file that tags and replies are made of;
//!                                     prints nothing. Without TEXT the site file is left out
//!     holdings TEXT                   the holdings file of that site, which is the only one then; prints nothing
//!     host-site HOST TEXT             the site file of a host, for respond-as-node; prints nothing. All others have
//!                                     the site of the line `site`
//!     today YYYY-MM-DD                the day of the node; prints nothing. It begins as 1970-01-01
//!     keep-releases                   keeps the digest of the active releases, as a node does; prints nothing
//!     respond keep|close TEXT         the resolver's reply to a request, on a connection that is kept or closed
//!     respond-to-form keep|close BODY TEXT    the length of a request's form, and the reply to this body
//!     respond-as-node TOKEN free|busy keep|close TEXT    the node's reply, if TOKEN authorizes a fetch; `-` for none
//!     fetch-asked TOKEN TEXT          the release that a request asks the node to fetch, `no name`, or `none`
//!     head-end TEXT                   whether a text begins with the head of a request, and where the head ends
//!
//! A connection to it, which responds with the head and the body of the request, after a head that says whether the
//! connection persists. Each command prints what the connection waits for, and how many bytes of the response are left:
//!
//!     connection STEP IDLE            opens a new one, with these limits in milliseconds
//!     want N                          requests have bodies of N bytes, if they say so; prints nothing
//!     receive TEXT                    bytes arrive
//!     resume                          turns to the next request, once a reply was sent
//!     mark-sent N                     the peer takes so many bytes
//!     advance-clock N                 so many milliseconds pass
//!     converse ends|waits short|serves TEXT    moves a new one on 200 times, over a reader that then ends or waits,
//!                                     short of memory for the reply or not; prints what it waits for, whether it
//!                                     lingers, and what was written
//!
//! Any other line ends the program with status 2, and prints its number and what is wrong.
#![tactic(auto)]

mod connections;
mod driver;
mod ends;
mod escapes;
mod exchanges;
mod fault;
mod faults;
mod line;
mod node;
mod ranges;
mod shelf;

use crate::driver::Driver;
use crate::escapes::finish;
use crate::fault::{HttpDriverFault, NO_STEP};
use std::env;
use std::io::Read;
use std::process::ExitCode;
use test_support::Out;

fn main(rt: HostRuntime) -> ExitCode {
    let mut line = 0usize;
    match run(&rt, &mut line) {
        Ok(()) => ExitCode::SUCCESS,
        Err(HttpDriverFault(why)) => {
            print_end(&rt, line, why);
            ExitCode::from(2)
        }
    }
}

// Prints what is wrong, and the number of its line, unless it is 0.
fn print_end(rt: &HostRuntime, line: usize, why: &str) {
    let _printed = if line == 0 {
        rt.eprintln(why)
    } else {
        eprintln!(rt; "line {line}: {why}")
    };
}

fn run(rt: &HostRuntime, at: &mut usize) -> Result<(), HttpDriverFault> {
    let step = step_of(rt)?;
    let text = input_of(rt)?;
    let mut driver = Driver::new(rt, step)?;
    run_lines(rt, &mut driver, text.as_str(), at)
}

// Runs each line, and counts it in `at` before.
fn run_lines(
    rt: &HostRuntime,
    driver: &mut Driver<'_>,
    text: &str,
    at: &mut usize,
) -> Result<(), HttpDriverFault> {
    for line in text.lines() {
        *at = at.saturating_add(1);
        run_line(rt, driver, line)?;
    }
    Ok(())
}

fn run_line(rt: &HostRuntime, driver: &mut Driver<'_>, line: &str) -> Result<(), HttpDriverFault> {
    let mut out = Out::new(rt);
    driver.take(&mut out, line)?;
    finish(&out)
}

fn step_of(rt: &HostRuntime) -> Result<usize, HttpDriverFault> {
    let mut words = env::args(rt)?;
    let Some(word) = words.nth(1) else {
        return Err(NO_STEP);
    };
    match word.as_str().parse::<usize>() {
        Ok(step) => Ok(step),
        Err(_) => Err(NO_STEP),
    }
}

fn input_of(rt: &HostRuntime) -> Result<String, HttpDriverFault> {
    let mut text = String::new(rt.alloc());
    rt.reader().read_to_string(&mut text)?;
    Ok(text)
}
