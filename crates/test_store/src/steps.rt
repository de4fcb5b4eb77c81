//! The steps of a feed over a database.
use crate::database::DriverDatabase;
use feed_keep::Keep;
use feed_model::{Refusal, Reply};
use feed_names::ReleaseName;
use feed_releases::{Event, Feed};
use std::test::Fail;
use std::{fs, slice};
use test_support::{name_of, print_content};

// The arguments that were not read yet.
#[derive(Drop)]
struct Arguments<'a> {
    left: slice::Iter<'a, String>,
}

impl<'a> Arguments<'a> {
    fn next_argument(&mut self) -> Result<&'a str, Fail> {
        match self.left.next() {
            Some(argument) => Ok(argument.as_str()),
            None => Err(Fail::new("an argument is missing")),
        }
    }

    fn next_number(&mut self) -> Result<u64, Fail> {
        Ok(self.next_argument()?.parse::<u64>()?)
    }
}

/// Takes the steps in the arguments with a feed over the database.
pub fn take_steps<D: DriverDatabase>(
    rt: &HostRuntime,
    database: &D,
    arguments: &[String],
) -> Result<(), Fail> {
    let mut arguments = Arguments {
        left: arguments.iter(),
    };
    let mut feed = open_feed(rt, database.open()?)?;
    for _ in 0..arguments.left.len() {
        let Some(step) = arguments.left.next() else {
            break;
        };
        feed = take_step(rt, database, feed, step.as_str(), &mut arguments)?;
    }
    D::close(feed.restart())
}

fn open_feed<K: Keep>(rt: &HostRuntime, keeper: K) -> Result<Feed<K>, Fail> {
    match Feed::open(rt.alloc(), keeper) {
        Ok(feed) => Ok(feed),
        Err(fault) => Err(Fail::new(fault.cause)),
    }
}

fn take_step<D: DriverDatabase>(
    rt: &HostRuntime,
    database: &D,
    feed: Feed<D::Keeper>,
    step: &str,
    arguments: &mut Arguments<'_>,
) -> Result<Feed<D::Keeper>, Fail> {
    match step {
        "restart" => open_feed(rt, feed.restart()),
        "close" => {
            D::close(feed.restart())?;
            open_feed(rt, database.open()?)
        }
        "records" => print_records(rt, feed),
        _ => handle_step(rt, feed, step, arguments),
    }
}

fn print_records<K: Keep>(rt: &HostRuntime, feed: Feed<K>) -> Result<Feed<K>, Fail> {
    let mut keeper = feed.restart();
    print_content(rt, &mut keeper)?;
    open_feed(rt, keeper)
}

fn handle_step<K: Keep>(
    rt: &HostRuntime,
    mut feed: Feed<K>,
    step: &str,
    arguments: &mut Arguments<'_>,
) -> Result<Feed<K>, Fail> {
    match step {
        "offer" => offer(rt, &mut feed, arguments)?,
        "piece" => piece(rt, &mut feed, arguments)?,
        "pieces" => pieces(rt, &mut feed, arguments)?,
        "report" => report(rt, &feed, arguments)?,
        _ => return Err(Fail::new("no such step")),
    }
    Ok(feed)
}

fn offer<K: Keep>(
    rt: &HostRuntime,
    feed: &mut Feed<K>,
    arguments: &mut Arguments<'_>,
) -> Result<(), Fail> {
    let name = name_of(rt.alloc(), arguments.next_argument()?)?;
    let size = arguments.next_number()?;
    print_answer(rt, feed.handle(&Event::Offered { name: &name, size }))
}

fn piece<K: Keep>(
    rt: &HostRuntime,
    feed: &mut Feed<K>,
    arguments: &mut Arguments<'_>,
) -> Result<(), Fail> {
    let name = name_of(rt.alloc(), arguments.next_argument()?)?;
    let first = arguments.next_number()?;
    let bytes = fs::read(rt, arguments.next_argument()?)?;
    print_answer(rt, give(feed, &name, first, &bytes))
}

fn pieces<K: Keep>(
    rt: &HostRuntime,
    feed: &mut Feed<K>,
    arguments: &mut Arguments<'_>,
) -> Result<(), Fail> {
    let name = name_of(rt.alloc(), arguments.next_argument()?)?;
    let bytes = fs::read(rt, arguments.next_argument()?)?;
    let len = arguments.next_number()?.max(1);
    let mut first = 0_u64;
    for block in bytes.chunks(usize::try_from(len)?) {
        give(feed, &name, first, block)?;
        first = first.saturating_add(len);
    }
    println!(rt; "stored {}", bytes.len())?;
    Ok(())
}

fn give<K: Keep>(
    feed: &mut Feed<K>,
    name: &ReleaseName,
    first: u64,
    bytes: &[u8],
) -> Result<Reply, Refusal> {
    feed.handle(&Event::Piece {
        name,
        first,
        total: None,
        bytes,
    })
}

fn report<K: Keep>(
    rt: &HostRuntime,
    feed: &Feed<K>,
    arguments: &mut Arguments<'_>,
) -> Result<(), Fail> {
    match feed.report(arguments.next_argument()?.as_bytes()) {
        Some(name) => println!(rt; "active {}", str::from_utf8(name.text())?)?,
        None => println!(rt; "none")?,
    }
    Ok(())
}

fn print_answer(rt: &HostRuntime, answer: Result<Reply, Refusal>) -> Result<(), Fail> {
    match answer {
        Ok(reply) => println!(rt; "{reply}")?,
        Err(refusal) => println!(rt; "refused {refusal}")?,
    }
    Ok(())
}
