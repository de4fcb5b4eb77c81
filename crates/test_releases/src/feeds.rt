//! Commands on a feed and its keeper.
use crate::printing::{print_bytes, print_count, print_flag, print_reason, print_word};
use crate::words::{FilePiece, name_of, number_of, parts_of, piece_of, state_of};
use feed_answer::Query;
use feed_keep::{Keep, ListKeep, Record, bad_of};
use feed_model::{KeepFault, Refusal, Reply};
use feed_names::ReleaseName;
use feed_parts::Part;
use feed_releases::{Event, Feed, OpenFault, Point};
use std::alloc::Global;
use std::{io, mem};
use test_support::{Failing, Fault, records_text};

/// The feed or its keeper, and the records and events that commands listed for them.
#[derive(Drop)]
pub struct Feeds {
    records: Vec<Record>,
    keeper: Option<Failing>,
    feed: Option<Feed<Failing>>,
    queue: Vec<Sent>,
    retries: bool,
}

// An event that owns what it names.
#[derive(Drop)]
enum Sent {
    Offered { name: ReleaseName, size: u64 },
    Piece { name: ReleaseName, piece: FilePiece },
    Lost { name: ReleaseName },
}

impl Sent {
    fn event(&self) -> Event<'_> {
        match self {
            Sent::Offered { name, size } => Event::Offered { name, size: *size },
            Sent::Piece { name, piece } => Event::Piece {
                name,
                first: piece.first,
                total: piece.total,
                bytes: &piece.bytes,
            },
            Sent::Lost { name } => Event::Lost { name },
        }
    }
}

// A question of a command to a feed.
#[derive(Clone, Copy)]
enum FeedCommand {
    Next,
    Reason,
    Report,
    Answer,
}

fn feed_command_of(command: &str) -> Result<FeedCommand, Fault> {
    match command {
        "next" => Ok(FeedCommand::Next),
        "reason" => Ok(FeedCommand::Reason),
        "report" => Ok(FeedCommand::Report),
        "answer" => Ok(FeedCommand::Answer),
        _ => Err(UNKNOWN),
    }
}

const CLOSED: Fault = Fault("no feed is open");

const OPEN: Fault = Fault("a feed is open");

const UNKNOWN: Fault = Fault("no such command");

const WORDS: Fault = Fault("the command takes other words");

impl Feeds {
    /// Returns a keeper without records, and no feed.
    pub fn new(alloc: Global) -> Feeds {
        Feeds {
            records: Vec::new(alloc),
            keeper: Some(Failing::over(ListKeep::new(alloc))),
            feed: None,
            queue: Vec::new(alloc),
            retries: false,
        }
    }

    /// Runs the command of a line.
    pub fn run_command(&mut self, rt: &HostRuntime, words: &[&str]) -> Result<(), Fault> {
        match words {
            [] => Ok(()),
            [command] => self.run_word(rt, command),
            [command, rest @ ..] => self.run_words(rt, command, rest, words),
        }
    }

    // Runs a command of one word.
    fn run_word(&mut self, rt: &HostRuntime, command: &str) -> Result<(), Fault> {
        match command {
            "split" => self.split(rt.alloc()),
            "bad" => self.print_bad(rt),
            "keep" => self.keep(rt.alloc()),
            "records" => self.print_records(rt),
            "failures" => self.print_failures(rt),
            "open" => self.open(rt),
            "close" => {
                self.close();
                Ok(())
            }
            "retry" => {
                self.retries = true;
                Ok(())
            }
            "run" => self.run_queue(rt),
            "is-empty" => print_flag(rt, self.open_feed()?.is_empty()),
            _ => Err(UNKNOWN),
        }
    }

    // Runs a command of several words. `rest` has all but the first.
    fn run_words(
        &mut self,
        rt: &HostRuntime,
        command: &str,
        rest: &[&str],
        words: &[&str],
    ) -> Result<(), Fault> {
        match command {
            "record" => self.record(rt, rest),
            "fail-load" | "fail-commit" | "fail-commits" => self.fail(words),
            "offer" | "piece" | "lost" => self.submit(rt, words),
            "queue" => self.queue(rt, rest),
            "stop-before" => self.stop(rt, Point::Before, rest),
            "stop-after" => self.stop(rt, Point::After, rest),
            _ => self.ask(rt, feed_command_of(command)?, rest),
        }
    }

    fn ask(&self, rt: &HostRuntime, question: FeedCommand, words: &[&str]) -> Result<(), Fault> {
        let feed = self.open_feed()?;
        match question {
            FeedCommand::Next => print_next(rt, feed, words),
            FeedCommand::Reason => print_reason_of(rt, feed, words),
            FeedCommand::Report => print_report(rt, feed, words),
            FeedCommand::Answer => print_rows(rt, feed, words),
        }
    }

    fn open_feed(&self) -> Result<&Feed<Failing>, Fault> {
        match &self.feed {
            Some(feed) => Ok(feed),
            None => Err(CLOSED),
        }
    }

    fn record(&mut self, rt: &HostRuntime, words: &[&str]) -> Result<(), Fault> {
        self.records.push(record_of(rt, words)?)?;
        Ok(())
    }

    fn split(&mut self, alloc: Global) -> Result<(), Fault> {
        for record in self.records.iter_mut() {
            record.parts = split_parts(alloc, &record.parts)?;
        }
        Ok(())
    }

    fn print_bad(&mut self, rt: &HostRuntime) -> Result<(), Fault> {
        for record in &self.records {
            print_reason(rt, bad_of(rt.alloc(), record)?)?;
        }
        self.records = Vec::new(rt.alloc());
        Ok(())
    }

    fn keep(&mut self, alloc: Global) -> Result<(), Fault> {
        if self.feed.is_some() {
            return Err(OPEN);
        }
        let records = mem::replace(&mut self.records, Vec::new(alloc));
        self.keeper = Some(Failing::over(ListKeep::of(alloc, records)));
        Ok(())
    }

    fn print_records(&mut self, rt: &HostRuntime) -> Result<(), Fault> {
        match &mut self.keeper {
            Some(keeper) => match keeper.load(rt.alloc()) {
                Ok(records) => print_all(rt, &records),
                Err(cause) => print_refused(rt, cause),
            },
            None => Err(OPEN),
        }
    }

    fn print_failures(&self, rt: &HostRuntime) -> Result<(), Fault> {
        match &self.keeper {
            Some(keeper) => print_count(rt, "failures", keeper.failures()),
            None => Err(OPEN),
        }
    }

    fn fail(&mut self, words: &[&str]) -> Result<(), Fault> {
        let [command, count] = words else {
            return Err(WORDS);
        };
        let count = number_of(count)?;
        let Some(keeper) = &mut self.keeper else {
            return Err(OPEN);
        };
        match *command {
            "fail-load" => keeper.fail_load(count),
            "fail-commit" => keeper.fail_commits(count, 1),
            _ => keeper.fail_commits(count, u64::MAX),
        }
        Ok(())
    }

    fn open(&mut self, rt: &HostRuntime) -> Result<(), Fault> {
        let Some(keeper) = self.keeper.take() else {
            return Err(OPEN);
        };
        match Feed::open(rt.alloc(), keeper) {
            Ok(feed) => {
                self.feed = Some(feed);
                print_word(rt, "opened")
            }
            Err(OpenFault { cause, keeper }) => {
                self.keeper = Some(keeper);
                print_refused(rt, cause)
            }
        }
    }

    fn close(&mut self) {
        if let Some(feed) = self.feed.take() {
            self.keeper = Some(feed.restart());
        }
    }

    fn stop(&mut self, rt: &HostRuntime, point: Point, words: &[&str]) -> Result<(), Fault> {
        let sent = parse_sent(rt, words)?;
        let Some(feed) = self.feed.take() else {
            return Err(CLOSED);
        };
        self.keeper = Some(feed.stop_at(&sent.event(), point));
        Ok(())
    }

    fn submit(&mut self, rt: &HostRuntime, words: &[&str]) -> Result<(), Fault> {
        let sent = parse_sent(rt, words)?;
        match &mut self.feed {
            Some(feed) => submit_to(rt, feed, &sent.event(), self.retries),
            None => Err(CLOSED),
        }
    }

    fn queue(&mut self, rt: &HostRuntime, words: &[&str]) -> Result<(), Fault> {
        let sent = parse_sent(rt, words)?;
        self.queue.push(sent)?;
        Ok(())
    }

    fn run_queue(&mut self, rt: &HostRuntime) -> Result<(), Fault> {
        let Some(feed) = &mut self.feed else {
            return Err(CLOSED);
        };
        let answers = answers_of(rt.alloc(), feed, &self.queue)?;
        self.queue = Vec::new(rt.alloc());
        for answer in answers {
            print_answer(rt, answer)?;
        }
        Ok(())
    }
}

// `NAME SIZE STATE PART..`
fn record_of(rt: &HostRuntime, words: &[&str]) -> Result<Record, Fault> {
    let [name, size, state, parts @ ..] = words else {
        return Err(WORDS);
    };
    let size = number_of(size)?;
    let (state, reason) = state_of(state)?;
    Ok(Record {
        name: name_of(rt.alloc(), name)?,
        size,
        state,
        reason,
        parts: parts_of(rt, parts)?,
    })
}

// Returns the parts with each byte as a part of its own.
fn split_parts(alloc: Global, parts: &[Part]) -> Result<Vec<Part>, Fault> {
    let mut bytes = Vec::new(alloc);
    for part in parts {
        split_part(alloc, part, &mut bytes)?;
    }
    Ok(bytes)
}

fn split_part(alloc: Global, part: &Part, to: &mut Vec<Part>) -> Result<(), Fault> {
    let mut first = part.first;
    for byte in &part.bytes {
        let bytes = Vec::from_slice(alloc, &[*byte])?;
        to.push(Part { first, bytes })?;
        first = first.saturating_add(1);
    }
    Ok(())
}

fn events_of(alloc: Global, queue: &[Sent]) -> Result<Vec<Event<'_>>, Fault> {
    let mut events = Vec::new(alloc);
    for sent in queue {
        events.push(sent.event())?;
    }
    Ok(events)
}

fn answers_of(
    alloc: Global,
    feed: &mut Feed<Failing>,
    queue: &[Sent],
) -> Result<Vec<Result<Reply, Refusal>>, Fault> {
    let events = events_of(alloc, queue)?;
    Ok(feed.run(&events)?)
}

fn parse_sent(rt: &HostRuntime, words: &[&str]) -> Result<Sent, Fault> {
    match words {
        ["offer", name, size] => parse_offer(rt, name, size),
        ["piece", name, part] => parse_piece(rt, name, part),
        ["lost", name] => Ok(Sent::Lost {
            name: name_of(rt.alloc(), name)?,
        }),
        _ => Err(Fault("an event is offer NAME SIZE, piece NAME PART or lost NAME")),
    }
}

fn parse_offer(rt: &HostRuntime, name: &str, size: &str) -> Result<Sent, Fault> {
    let size = number_of(size)?;
    let name = name_of(rt.alloc(), name)?;
    Ok(Sent::Offered { name, size })
}

fn parse_piece(rt: &HostRuntime, name: &str, part: &str) -> Result<Sent, Fault> {
    let name = name_of(rt.alloc(), name)?;
    let piece = piece_of(rt, part)?;
    Ok(Sent::Piece { name, piece })
}

// Submits an event, and once more if the device failed and it is retried.
fn submit_to(
    rt: &HostRuntime,
    feed: &mut Feed<Failing>,
    event: &Event<'_>,
    retries: bool,
) -> Result<(), Fault> {
    let answer = feed.handle(event);
    print_answer(rt, answer)?;
    if retries && answer == Err(Refusal::Device) {
        return print_answer(rt, feed.handle(event));
    }
    Ok(())
}

fn print_answer(rt: &HostRuntime, answer: Result<Reply, Refusal>) -> Result<(), Fault> {
    match answer {
        Ok(reply) => Ok(println!(rt; "{reply}")?),
        Err(refusal) => Ok(println!(rt; "refused {refusal}")?),
    }
}

fn print_refused(rt: &HostRuntime, cause: KeepFault) -> Result<(), Fault> {
    Ok(println!(rt; "refused {cause}")?)
}

fn print_all(rt: &HostRuntime, records: &[Record]) -> Result<(), Fault> {
    print_bytes(rt, &records_text(rt.alloc(), records)?)
}

// `NAME MAX`
fn print_next(rt: &HostRuntime, feed: &Feed<Failing>, words: &[&str]) -> Result<(), Fault> {
    let [name, max] = words else {
        return Err(WORDS);
    };
    let max = number_of(max)?;
    let name = name_of(rt.alloc(), name)?;
    print_range(rt, feed.next_range(&name, max))
}

fn print_range(rt: &HostRuntime, range: Option<(u64, u64)>) -> Result<(), Fault> {
    match range {
        Some((first, last)) => Ok(println!(rt; "missing {first}-{last}")?),
        None => print_word(rt, "none"),
    }
}

// `NAME`
fn print_reason_of(rt: &HostRuntime, feed: &Feed<Failing>, words: &[&str]) -> Result<(), Fault> {
    let [name] = words else {
        return Err(WORDS);
    };
    let name = name_of(rt.alloc(), name)?;
    print_reason(rt, feed.reason(&name))
}

// `PACKAGE`
fn print_report(rt: &HostRuntime, feed: &Feed<Failing>, words: &[&str]) -> Result<(), Fault> {
    let [package] = words else {
        return Err(WORDS);
    };
    let Some(name) = feed.report(package.as_bytes()) else {
        return print_word(rt, "none");
    };
    print!(rt; "active ")?;
    print_bytes(rt, name.text())?;
    print_word(rt, "")
}

// `PACKAGE QUERY`
fn print_rows(rt: &HostRuntime, feed: &Feed<Failing>, words: &[&str]) -> Result<(), Fault> {
    let [package, query] = words else {
        return Err(WORDS);
    };
    let Ok(query) = Query::read(rt.alloc(), query.as_bytes()) else {
        return Err(Fault("a query is wrong"));
    };
    print_matches(rt, feed, package.as_bytes(), &query)
}

fn print_matches(
    rt: &HostRuntime,
    feed: &Feed<Failing>,
    package: &[u8],
    query: &Query,
) -> Result<(), Fault> {
    let Some(name) = feed.report(package) else {
        return print_word(rt, "none");
    };
    let Ok(answer) = feed.answer(package, query) else {
        return Err(Fault("no memory"));
    };
    match answer.write(&mut io::writer(rt), name) {
        Ok(()) => Ok(()),
        Err(_) => Err(Fault("a print failed")),
    }
}
