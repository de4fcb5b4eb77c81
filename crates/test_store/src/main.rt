//! Takes steps with a feed over a database file, as its arguments say, for the tests and the measurement of the keeper
//! over SQL.
//!
//!     test_store DATABASE STEP..
//!     test_store load DATABASE
//!     test_store replay DATABASE.. < SCRIPT
//!     test_store replay-in-memory WORD.. < SCRIPT
//!     test_store faults
//!
//! The steps:
//!
//!     offer NAME SIZE          offers a release
//!     piece NAME FIRST FILE    submits the bytes of a file as a piece of it
//!     pieces NAME FILE LEN     submits the bytes of a file as pieces of LEN bytes, and prints how many were stored
//!     report PACKAGE           prints the package's active release
//!     restart                  opens the feed again over its keeper
//!     close                    closes the keeper, and opens the file again
//!     records                  prints the records of the keeper
//!
//! `load` prints how many records the keeper loads, and whether a feed opens over it, or why not. `replay` replays a
//! script of `kbfeed replay` with a node over each database, and `replay-in-memory` with one over a new database in
//! memory for each word. They print the transcript, and then each keeper: its number, how often it failed, and its
//! records. `faults` prints the name of each fault of an open beside its text.
#![tactic(auto)]

mod database;
mod steps;
mod work;
mod worlds;

use crate::database::{DriverDatabaseFile, NewDatabase};
use crate::work::{Work, do_work};
use crate::worlds::replay_over;
use feed_store::StoreFault;
use sqlite::MemStore;
use std::env;
use std::marker::PhantomData;
use std::test::Fail;

fn main(rt: HostRuntime) -> Result<(), Fail> {
    let mut arguments = Vec::new(rt.alloc());
    for argument in env::args(&rt)? {
        arguments.push(argument)?;
    }
    let [_, first, others @ ..] = arguments.as_slice() else {
        return Err(Fail::new("test_store DATABASE STEP.."));
    };
    match first.as_str() {
        "load" => work_in_files(&rt, others, &Work::Load),
        "replay" => work_in_files(&rt, others, &Work::Replay),
        "replay-in-memory" => replay_in_memory(&rt, others),
        "faults" => print_faults(&rt),
        path => work_in(
            &rt,
            &[DriverDatabaseFile { rt: &rt, path }],
            &Work::Steps(others),
        ),
    }
}

fn work_in_files(rt: &HostRuntime, paths: &[String], work: &Work<'_>) -> Result<(), Fail> {
    let mut databases = Vec::new(rt.alloc());
    for path in paths {
        let path = path.as_str();
        databases.push(DriverDatabaseFile { rt, path })?;
    }
    work_in(rt, &databases, work)
}

// Does the work with databases in files. The generic function is called for them here alone, because each call at their
// type is dear to prove.
fn work_in(
    rt: &HostRuntime,
    databases: &[DriverDatabaseFile<'_>],
    work: &Work<'_>,
) -> Result<(), Fail> {
    do_work(rt, databases, work)
}

fn replay_in_memory(rt: &HostRuntime, words: &[String]) -> Result<(), Fail> {
    let mut databases = Vec::new(rt.alloc());
    for _ in words {
        databases.push(NewDatabase::<MemStore> {
            alloc: rt.alloc(),
            of: PhantomData,
        })?;
    }
    replay_over(rt, &databases)
}

fn print_faults(rt: &HostRuntime) -> Result<(), Fail> {
    for fault in [StoreFault::Memory, StoreFault::Device, StoreFault::NotOurs] {
        println!(rt; "{fault:?} {fault}")?;
    }
    Ok(())
}
