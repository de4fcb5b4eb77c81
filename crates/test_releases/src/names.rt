//! Prints the values of the faults, refusals and replies that scripts rely on, each beside its printed text.
use feed_answer::QueryFault;
use feed_kbart::BadFile;
use feed_model::{KeepFault, Refusal, Reply};
use feed_replay::{LineFault, ScriptFault};
use feed_world::{Line, Why};
use std::alloc::Global;
use std::fmt::{Debug, Display};
use std::io;
use std::test::Fail;
use test_support::print_text;

const LINE_FAULTS: [LineFault; 8] = [
    LineFault::NodesExpected,
    LineFault::UnknownCommand,
    LineFault::WrongWords,
    LineFault::BadNumber,
    LineFault::BadName,
    LineFault::BadText,
    LineFault::BadFile,
    LineFault::Memory,
];

const SCRIPT_FAULTS: [ScriptFault; 3] = [
    ScriptFault::TooLong,
    ScriptFault::Line {
        line: 7,
        fault: LineFault::BadName,
    },
    ScriptFault::Memory,
];

const REPLIES: [Reply; 8] = [
    Reply::Noted,
    Reply::Known,
    Reply::Stored { missing: 105 },
    Reply::Repeated,
    Reply::Activated,
    Reply::Broken(BadFile::NoHeader),
    Reply::Older,
    Reply::Nothing,
];

const REFUSALS: [Refusal; 9] = [
    Refusal::TooLarge,
    Refusal::WrongSize,
    Refusal::Full,
    Refusal::BadPiece,
    Refusal::Unknown,
    Refusal::Outside,
    Refusal::Conflict,
    Refusal::Memory,
    Refusal::Device,
];

const KEEP_FAULTS: [KeepFault; 3] = [KeepFault::Memory, KeepFault::Device, KeepFault::Damaged];

const QUERY_FAULTS: [QueryFault; 6] = [
    QueryFault::TooLong,
    QueryFault::Version,
    QueryFault::OtherFormat,
    QueryFault::NoIssn,
    QueryFault::NoIsbn,
    QueryFault::Memory,
];

const WHYS: [Why; 7] = [
    Why::Republished,
    Why::NoNode,
    Why::Unpublished,
    Why::NoSlice,
    Why::Down,
    Why::NoRelease,
    Why::Memory,
];

/// Prints each value, in the form of the code, with its text behind it. A line of a transcript comes in its own form.
pub fn show_names(rt: &HostRuntime) -> Result<(), Fail> {
    show_each(rt, &LINE_FAULTS)?;
    show_each(rt, &SCRIPT_FAULTS)?;
    show_each(rt, &REPLIES)?;
    show_each(rt, &REFUSALS)?;
    show_each(rt, &KEEP_FAULTS)?;
    show_each(rt, &WHYS)?;
    show_lines(rt)
}

fn show_each<T: Debug + Display>(rt: &HostRuntime, values: &[T]) -> io::Result<()> {
    for value in values {
        println!(rt; "{value:?}: {value}")?;
    }
    Ok(())
}

// Prints each line of a transcript that needs no release.
fn show_lines(rt: &HostRuntime) -> Result<(), Fail> {
    for reply in REPLIES {
        show_line(rt, Line::Replied(reply))?;
    }
    for fault in KEEP_FAULTS {
        show_line(rt, Line::Down(fault))?;
    }
    for why in WHYS {
        show_line(rt, Line::Refused(why))?;
    }
    for refusal in REFUSALS {
        show_line(rt, Line::Refused(Why::Feed(refusal)))?;
    }
    for fault in QUERY_FAULTS {
        show_line(rt, Line::Refused(Why::Query(fault)))?;
    }
    for line in [
        Line::Published,
        Line::Restarted,
        Line::Stopped,
        Line::Inactive,
    ] {
        show_line(rt, line)?;
    }
    Ok(())
}

fn show_line(rt: &HostRuntime, line: Line) -> Result<(), Fail> {
    print!(rt; "{line:?}: ")?;
    print_text(rt, &text_of(rt.alloc(), &line)?)
}

fn text_of(alloc: Global, line: &Line) -> Result<Vec<u8>, Fail> {
    let mut text = Vec::new(alloc);
    line.write(&mut text)?;
    Ok(text)
}
