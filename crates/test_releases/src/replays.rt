//! Prints the transcript of a replay, and the records of its keepers at the end.
use crate::keepers::keepers_of;
use feed_answer::WriteFault;
use feed_core::{ReplayFault, Transcript, replay};
use feed_keep::Keep;
use feed_world::WorldEvent;
use std::alloc::Global;
use std::test::Fail;
use test_support::{Failing, print_content, print_text};

/// Replays the events over new keepers.
pub fn show_over(rt: &HostRuntime, keepers: &[String], events: &[WorldEvent]) -> Result<(), Fail> {
    show(rt, keepers_of(rt.alloc(), keepers)?, events)
}

/// Replays them, and writes the transcript into buffers that are too short.
pub fn show_full_over(
    rt: &HostRuntime,
    keepers: &[String],
    events: &[WorldEvent],
) -> Result<(), Fail> {
    show_full(rt, keepers_of(rt.alloc(), keepers)?, events)
}

/// Replays the events twice, over new keepers each time.
pub fn show_again(rt: &HostRuntime, keepers: &[String], events: &[WorldEvent]) -> Result<(), Fail> {
    show_over(rt, keepers, events)?;
    println!(rt; "again")?;
    show_over(rt, keepers, events)
}

// Replays events over nodes on these keepers, and prints the transcript and the keepers that the replay returns.
fn show(rt: &HostRuntime, keepers: Vec<Failing>, events: &[WorldEvent]) -> Result<(), Fail> {
    match run_replay(rt.alloc(), keepers, events) {
        Ok(transcript) => show_transcript(rt, transcript),
        Err(ReplayFault::Start { node, keeper }) => {
            println!(rt; "refused Start")?;
            show_keeper(rt, node, keeper)
        }
        Err(ReplayFault::Nodes) => Ok(println!(rt; "refused Nodes")?),
        Err(ReplayFault::Memory) => Ok(println!(rt; "refused Memory")?),
    }
}

// Replays events. The generic function is instantiated here once, because each instance is dear to prove.
fn run_replay(
    alloc: Global,
    keepers: Vec<Failing>,
    events: &[WorldEvent],
) -> Result<Transcript<Failing>, ReplayFault<Failing>> {
    replay(alloc, keepers, events)
}

fn show_transcript(rt: &HostRuntime, transcript: Transcript<Failing>) -> Result<(), Fail> {
    print_text(rt, &text_of(rt.alloc(), &transcript)?)?;
    let mut node = 0_usize;
    for keeper in transcript.into_keepers() {
        node = node.saturating_add(1);
        show_keeper(rt, node, keeper)?;
    }
    Ok(())
}

fn text_of(alloc: Global, transcript: &Transcript<Failing>) -> Result<Vec<u8>, Fail> {
    let mut text = Vec::new(alloc);
    transcript.write(&mut text)?;
    Ok(text)
}

fn show_keeper(rt: &HostRuntime, node: usize, keeper: Failing) -> Result<(), Fail> {
    let mut keeper = keeper;
    println!(rt; "keeper {node}, failures {}", keeper.failures())?;
    print_content(rt, &mut keeper)
}

// Writes the transcript into each buffer that is shorter than it, and prints how many refuse it.
fn show_full(rt: &HostRuntime, keepers: Vec<Failing>, events: &[WorldEvent]) -> Result<(), Fail> {
    let Ok(transcript) = run_replay(rt.alloc(), keepers, events) else {
        return Err(Fail::new("the replay does not begin"));
    };
    let len = text_of(rt.alloc(), &transcript)?.len();
    let mut count = 0_usize;
    for room in 0..len {
        if is_too_long(rt, &transcript, room)? {
            count = count.saturating_add(1);
        }
    }
    println!(rt; "{count} of {len} are full")?;
    Ok(())
}

// Returns whether the transcript is too long for this many bytes.
fn is_too_long(
    rt: &HostRuntime,
    transcript: &Transcript<Failing>,
    room: usize,
) -> Result<bool, Fail> {
    let mut bytes = vec![in rt.alloc(); 0_u8; room]?;
    let mut writer = bytes.as_mut_slice();
    Ok(transcript.write(&mut writer) == Err(WriteFault::Write))
}
