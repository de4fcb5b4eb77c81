//! Commands on fetches from a server in memory.
//!
//! Each fetch is of the release Acme_Global_All_2024-01-01.txt, from the host `h`. FILE names a file of the folder.
//!
//! Commands that make a feed; at the beginning there is one that `new` makes:
//!
//!     new                a feed over a keeper without records
//!     active FILE        the same, in which FILE is the active release Acme_Global_All_2024-02-01.txt
//!     fail-commits N     the same as new, where every commit after N others fails
//!     restart            stops the feed, and opens it again
//!     mend               the same, over a keeper with the same records that does not fail
//!
//! Commands that list connections, for the next ones of the server; the last of them counts for all that follow:
//!
//!     serve              serves no file
//!     serve FILE         serves the release with this file
//!     serve-as FILE      the same, as if a request had no field Range
//!     serve-as FILE TEXT the same, as if a request had the line `Range: TEXT`
//!     cut FILE N         serves FILE, and ends N bytes before the end of the reply
//!     say FILE           replies with `HTTP/1.1 ` and the bytes of FILE
//!     fail-read FILE N   serves FILE, and fails at the Nth read
//!     fail-write N       fails at the Nth write
//!     refuse FAULT       refuses the connection: the fault is `Connect` or `Memory`
//!     hang-up            forgets the connections
//!
//! Commands that fetch:
//!
//!     fetch PIECE        fetches by requests for PIECE bytes; prints what the fetch prints, its fault and its status
//!     fetch-by-law PIECE [FILE]  the same, from a server in memory over FILE or no file
//!     fail-print N       in the fetches that follow, the Nth write or flush of what is printed fails; 0: none fails
//!     calls              prints how many writes and flushes the last fetch made
//!     requests           prints the requests of the last fetch, each after a line `connection`
//!     rows               prints the rows of the package that have the ISSN 2434-561X
use crate::server::{ScriptedServer, ServerTurn};
use crate::sink::CountingSink;
use crate::words::{file_of, name_of, number_of};
use feed_answer::Query;
use feed_dial::DialFault;
use feed_fetch::{Order, Printer, fetch_from_memory, fetch_with, header_is_fetchable};
use feed_http::{NamedFile, is_host};
use feed_keep::{Keep, ListKeep, Record};
use feed_limits::PIECE_LIMIT;
use feed_model::State;
use feed_parts::Part;
use feed_releases::Feed;
use std::alloc::Global;
use std::cell::{Cell, RefCell};
use std::io::Write;
use std::{io, mem};
use test_support::{Failing, Fault};

const JANUARY: &str = "Acme_Global_All_2024-01-01.txt";

const FEBRUARY: &str = "Acme_Global_All_2024-02-01.txt";

const PACKAGE: &[u8] = b"Acme_Global_All";

const HOST: &[u8] = b"h";

const UNKNOWN: Fault = Fault("no such command");

const WORDS: Fault = Fault("the command takes other words");

/// The feed, the turns of the server for its next connections, and the calls and requests of the last fetch.
#[derive(Drop)]
pub struct Fetches {
    feed: Feed<Failing>,
    turns: Vec<ServerTurn>,
    fails_at: usize,
    calls: usize,
    requests: Vec<u8>,
}

impl Fetches {
    /// Returns a feed over a keeper without records, and no connections.
    pub fn new(alloc: Global) -> Result<Fetches, Fault> {
        Ok(Fetches {
            feed: open(alloc, Failing::over(ListKeep::new(alloc)))?,
            turns: Vec::new(alloc),
            fails_at: 0,
            calls: 0,
            requests: Vec::new(alloc),
        })
    }

    /// Runs the command of a line.
    pub fn run_command(&mut self, rt: &HostRuntime, words: &[&str]) -> Result<(), Fault> {
        match words {
            [] => Ok(()),
            [command] => self.run_word(rt, command),
            [command, rest @ ..] => self.run_words(rt, command, rest),
        }
    }

    // Runs a command of one word.
    fn run_word(&mut self, rt: &HostRuntime, command: &str) -> Result<(), Fault> {
        match command {
            "new" => self.replace(rt.alloc(), ListKeep::new(rt.alloc())),
            "restart" => self.restart(rt.alloc()),
            "mend" => self.mend(rt.alloc()),
            "serve" => self.add_turn(ServerTurn::Serve(Vec::new(rt.alloc()))),
            "hang-up" => {
                self.turns = Vec::new(rt.alloc());
                Ok(())
            }
            "calls" => Ok(println!(rt; "calls {}", self.calls)?),
            "requests" => Ok(io::writer(rt).write_all(&self.requests)?),
            "rows" => print_rows(rt, &self.feed),
            _ => Err(UNKNOWN),
        }
    }

    // Runs a command of several words: the first, and the rest.
    fn run_words(&mut self, rt: &HostRuntime, command: &str, rest: &[&str]) -> Result<(), Fault> {
        match command {
            "active" => self.replace(rt.alloc(), active_list(rt, rest)?),
            "fail-commits" => self.fail_commits(rt.alloc(), number_in(rest)?),
            "fetch" => self.fetch(rt, number_in(rest)?),
            "fetch-by-law" => self.fetch_by_law(rt, rest),
            "fail-print" => {
                self.fails_at = number_in(rest)? as usize;
                Ok(())
            }
            _ => self.add_turn(turn_of(rt, command, rest)?),
        }
    }

    fn add_turn(&mut self, turn: ServerTurn) -> Result<(), Fault> {
        self.turns.push(turn)?;
        Ok(())
    }

    fn restart(&mut self, alloc: Global) -> Result<(), Fault> {
        let keeper = self.stop(alloc)?;
        self.feed = open(alloc, keeper)?;
        Ok(())
    }

    fn replace(&mut self, alloc: Global, list: ListKeep) -> Result<(), Fault> {
        self.feed = open(alloc, Failing::over(list))?;
        Ok(())
    }

    // Makes all commits of a new feed fail, after this many.
    fn fail_commits(&mut self, alloc: Global, commits_before: u64) -> Result<(), Fault> {
        let mut keeper = Failing::over(ListKeep::new(alloc));
        keeper.fail_commits(commits_before, u64::MAX);
        self.feed = open(alloc, keeper)?;
        Ok(())
    }

    // Stops the feed and returns its keeper. An empty feed takes its place.
    fn stop(&mut self, alloc: Global) -> Result<Failing, Fault> {
        let empty = open(alloc, Failing::over(ListKeep::new(alloc)))?;
        Ok(mem::replace(&mut self.feed, empty).restart())
    }

    fn mend(&mut self, alloc: Global) -> Result<(), Fault> {
        let mut keeper = self.stop(alloc)?;
        let Ok(records) = keeper.load(alloc) else {
            return Err(Fault("the keeper does not load"));
        };
        self.replace(alloc, ListKeep::of(alloc, records))
    }

    fn fetch(&mut self, rt: &HostRuntime, piece: u64) -> Result<(), Fault> {
        let outcome = fetch_outcome(
            rt.alloc(),
            &self.turns,
            &mut self.feed,
            piece,
            self.fails_at,
        )?;
        self.calls = outcome.calls;
        print_outcome(rt, &outcome)?;
        self.requests = outcome.requests;
        Ok(())
    }

    fn fetch_by_law(&mut self, rt: &HostRuntime, words: &[&str]) -> Result<(), Fault> {
        header_is_fetchable();
        let [piece, files @ ..] = words else {
            return Err(WORDS);
        };
        let piece = number_of(piece)?;
        let files = files_of(rt, files)?;
        let outcome = law_outcome(rt.alloc(), &files, &mut self.feed, piece)?;
        print_outcome(rt, &outcome)
    }
}

// The result of a fetch: its output, its exit status, and its requests.
#[derive(Drop)]
struct Outcome {
    printed: Vec<u8>,
    faults: Vec<u8>,
    status: u8,
    calls: usize,
    requests: Vec<u8>,
}

fn fetch_outcome(
    alloc: Global,
    turns: &[ServerTurn],
    feed: &mut Feed<Failing>,
    piece: u64,
    fails_at: usize,
) -> Result<Outcome, Fault> {
    let name = name_of(alloc, JANUARY)?;
    if !is_host(HOST) || piece < 1 || piece > PIECE_LIMIT as u64 {
        return Err(Fault("a piece has 1 to 1048576 bytes"));
    }
    let requests = RefCell::new(Vec::new(alloc));
    let calls = Cell::new(0);
    let mut out = Printer::new(CountingSink::new(alloc, &calls, fails_at));
    let mut faults = Printer::new(CountingSink::new(alloc, &calls, fails_at));
    let mut server = ScriptedServer::new(alloc, turns, &requests);
    let status = fetch_with(
        alloc,
        &mut server,
        feed,
        HOST,
        &name,
        piece,
        &mut out,
        &mut faults,
    );
    drop(server);
    Ok(Outcome {
        printed: out.into_writer().text,
        faults: faults.into_writer().text,
        status,
        calls: calls.get(),
        requests: requests.into_inner(),
    })
}

fn law_outcome(
    alloc: Global,
    files: &[NamedFile],
    feed: &mut Feed<Failing>,
    piece: u64,
) -> Result<Outcome, Fault> {
    let name = name_of(alloc, JANUARY)?;
    if !is_host(HOST) || piece < 1 || piece > PIECE_LIMIT as u64 {
        return Err(Fault("a piece has 1 to 1048576 bytes"));
    }
    let calls = Cell::new(0);
    let mut out = Printer::new(CountingSink::new(alloc, &calls, 0));
    let mut faults = Printer::new(CountingSink::new(alloc, &calls, 0));
    let order = Order {
        host: HOST,
        name: &name,
        piece,
    };
    let status = fetch_from_memory(alloc, files, feed, &order, &mut out, &mut faults);
    Ok(Outcome {
        printed: out.into_writer().text,
        faults: faults.into_writer().text,
        status,
        calls: calls.get(),
        requests: Vec::new(alloc),
    })
}

fn print_outcome(rt: &HostRuntime, outcome: &Outcome) -> Result<(), Fault> {
    print_lines(rt, &outcome.printed)?;
    if !outcome.faults.is_empty() {
        print!(rt; "fault ")?;
        print_lines(rt, &outcome.faults)?;
    }
    Ok(println!(rt; "status {}", outcome.status)?)
}

// Prints lines. An incomplete line ends in `...`.
fn print_lines(rt: &HostRuntime, lines: &[u8]) -> Result<(), Fault> {
    let mut out = io::writer(rt);
    out.write_all(lines)?;
    match lines.last() {
        None | Some(b'\n') => Ok(()),
        Some(_) => Ok(out.write_all(b"...\n")?),
    }
}

fn print_rows(rt: &HostRuntime, feed: &Feed<Failing>) -> Result<(), Fault> {
    let Ok(query) = Query::read(rt.alloc(), b"rft.issn=2434561x") else {
        return Err(Fault("no memory"));
    };
    let Some(name) = feed.report(PACKAGE) else {
        return Ok(println!(rt; "none")?);
    };
    let Ok(answer) = feed.answer(PACKAGE, &query) else {
        return Err(Fault("no memory"));
    };
    match answer.write(&mut io::writer(rt), name) {
        Ok(()) => Ok(()),
        Err(_) => Err(Fault("a print failed")),
    }
}

fn open(alloc: Global, keeper: Failing) -> Result<Feed<Failing>, Fault> {
    match Feed::open(alloc, keeper) {
        Ok(feed) => Ok(feed),
        Err(_) => Err(Fault("the feed does not open")),
    }
}

// Returns a keeper of one record: the active release of February with this file.
fn active_list(rt: &HostRuntime, words: &[&str]) -> Result<ListKeep, Fault> {
    let bytes = file_in(rt, words)?;
    let size = bytes.len() as u64;
    let mut parts = Vec::new(rt.alloc());
    parts.push(Part { first: 0, bytes })?;
    let record = Record {
        name: name_of(rt.alloc(), FEBRUARY)?,
        size,
        state: State::Active,
        reason: None,
        parts,
    };
    let mut records = Vec::new(rt.alloc());
    records.push(record)?;
    Ok(ListKeep::of(rt.alloc(), records))
}

// Returns how the server treats a connection.
fn turn_of(rt: &HostRuntime, command: &str, words: &[&str]) -> Result<ServerTurn, Fault> {
    match command {
        "serve" => Ok(ServerTurn::Serve(files_of(rt, words)?)),
        "serve-as" => serve_as_turn(rt, words),
        "cut" => {
            let (files, count) = files_and_number(rt, words)?;
            Ok(ServerTurn::Cut(files, count))
        }
        "say" => Ok(ServerTurn::Say(file_in(rt, words)?)),
        "fail-read" => {
            let (files, number) = files_and_number(rt, words)?;
            Ok(ServerTurn::FailRead(files, number))
        }
        "fail-write" => Ok(ServerTurn::FailWrite(number_in(words)? as usize)),
        "refuse" => Ok(ServerTurn::Refuse(refusal_in(words)?)),
        _ => Err(UNKNOWN),
    }
}

// Parses `FILE` or `FILE RANGE`.
fn serve_as_turn(rt: &HostRuntime, words: &[&str]) -> Result<ServerTurn, Fault> {
    let [file, range @ ..] = words else {
        return Err(WORDS);
    };
    let line = range_line(rt.alloc(), range)?;
    Ok(ServerTurn::ServeAs(files_of(rt, &[*file])?, line))
}

// Parses `FILE N`.
fn files_and_number(rt: &HostRuntime, words: &[&str]) -> Result<(Vec<NamedFile>, usize), Fault> {
    let [file, number] = words else {
        return Err(WORDS);
    };
    let number = number_of(number)? as usize;
    Ok((files_of(rt, &[*file])?, number))
}

fn refusal_in(words: &[&str]) -> Result<DialFault, Fault> {
    match words {
        ["Connect"] => Ok(DialFault::Connect),
        ["Memory"] => Ok(DialFault::Memory),
        _ => Err(WORDS),
    }
}

// Returns the line of a Range field, or nothing.
fn range_line(alloc: Global, words: &[&str]) -> Result<Vec<u8>, Fault> {
    let mut line = Vec::new(alloc);
    match words {
        [] => {}
        [range] => write!(line, "Range: {range}\r\n")?,
        _ => return Err(WORDS),
    }
    Ok(line)
}

// Returns the release of January with the file that the words name, if they name one.
fn files_of(rt: &HostRuntime, words: &[&str]) -> Result<Vec<NamedFile>, Fault> {
    let mut files = Vec::new(rt.alloc());
    match words {
        [] => {}
        [file] => {
            let name = name_of(rt.alloc(), JANUARY)?;
            let bytes = file_of(rt, file)?;
            files.push(NamedFile { name, bytes })?;
        }
        _ => return Err(WORDS),
    }
    Ok(files)
}

// Reads the file that the one word names.
fn file_in(rt: &HostRuntime, words: &[&str]) -> Result<Vec<u8>, Fault> {
    match words {
        [path] => file_of(rt, path),
        _ => Err(WORDS),
    }
}

// Parses the one word as a number.
fn number_in(words: &[&str]) -> Result<u64, Fault> {
    match words {
        [word] => number_of(word),
        _ => Err(WORDS),
    }
}
