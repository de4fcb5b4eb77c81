//! Worlds of nodes over databases, and what a keeper and a feed each say of a database.
use crate::database::DriverDatabase;
use feed_core::{ReplayFault, Transcript, replay};
use feed_keep::Keep;
use feed_releases::Feed;
use std::alloc::Global;
use std::test::Fail;
use test_support::{print_content, print_text, read_events};

/// Replays the script on standard input, with a node over each database. Prints the transcript, and then the
/// records of each keeper.
pub fn replay_over<D: DriverDatabase>(rt: &HostRuntime, databases: &[D]) -> Result<(), Fail> {
    let events = read_events(rt)?;
    let mut keepers = Vec::new(rt.alloc());
    for database in databases {
        keepers.push(database.open()?)?;
    }
    match replay(rt.alloc(), keepers, &events) {
        Ok(transcript) => show_transcript::<D>(rt, transcript),
        Err(ReplayFault::Start { node, keeper }) => {
            println!(rt; "refused Start")?;
            show_keeper::<D>(rt, node, keeper)
        }
        Err(ReplayFault::Nodes) => Ok(println!(rt; "refused Nodes")?),
        Err(ReplayFault::Memory) => Ok(println!(rt; "refused Memory")?),
    }
}

fn show_transcript<D: DriverDatabase>(
    rt: &HostRuntime,
    transcript: Transcript<D::Keeper>,
) -> Result<(), Fail> {
    print_text(rt, &text_of(rt.alloc(), &transcript)?)?;
    let mut node = 0_usize;
    for keeper in transcript.into_keepers() {
        node = node.saturating_add(1);
        show_keeper::<D>(rt, node, keeper)?;
    }
    Ok(())
}

fn text_of<K: Keep>(alloc: Global, transcript: &Transcript<K>) -> Result<Vec<u8>, Fail> {
    let mut text = Vec::new(alloc);
    transcript.write(&mut text)?;
    Ok(text)
}

fn show_keeper<D: DriverDatabase>(
    rt: &HostRuntime,
    node: usize,
    keeper: D::Keeper,
) -> Result<(), Fail> {
    let mut keeper = keeper;
    println!(rt; "keeper {node}, failures {}", keeper.failures())?;
    print_content(rt, &mut keeper)?;
    D::close(keeper)
}

/// Prints how many records the keeper of a database loads, or why it loads none, and then whether a feed opens over it.
pub fn load<D: DriverDatabase>(rt: &HostRuntime, database: &D) -> Result<(), Fail> {
    let mut keeper = database.open()?;
    match keeper.load(rt.alloc()) {
        Ok(records) => println!(rt; "loaded {}", records.len())?,
        Err(fault) => println!(rt; "not loaded: {fault}")?,
    }
    match Feed::open(rt.alloc(), keeper) {
        Ok(feed) => {
            println!(rt; "opened")?;
            D::close(feed.restart())
        }
        Err(fault) => {
            println!(rt; "not opened: {}", fault.cause)?;
            D::close(fault.keeper)
        }
    }
}
