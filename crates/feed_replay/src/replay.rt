//! Reads a script, replays it, and prints the transcript or the first fault.
use crate::disk::Disk;
use crate::faults::{LONG_SCRIPT, ScriptFault, cause_of_line};
use crate::line_fault::LineFault;
use crate::script::{SCRIPT_LIMIT, Script, line_excerpt, read_script};
use feed_console::{Console, DONE, FAILED, REFUSED, read_front};
use feed_core::{ReplayFault, Transcript, replay};
use feed_keep::ListKeep;
use feed_model::{KeepFault, Refusal};
use feed_world::{Line, Why};
use std::alloc::{AllocError, Global};
use std::io::Write;

// Where a script comes from.
const INPUT: &str = "standard input";

/// Replays the script on standard input over nodes with keepers in memory, and prints the transcript to `out`. The
/// script may publish files of this machine by their paths. A fault is reported, and then nothing is printed to `out`.
/// Returns the exit status: 0 whatever the lines of the transcript are, 1 for an invalid script, 3 for a failing read
/// or print and for running out of memory.
pub fn replay_input<O: Write, F: Write + Drop>(console: &mut Console<'_, O, F>) -> u8 {
    let Script { nodes, events } = match read_input(console) {
        Ok(script) => script,
        Err(status) => return status,
    };
    let Ok(keepers) = keepers_for(console.rt.alloc(), nodes) else {
        return console.faults.report("Memory", FAILED);
    };
    match replay(console.rt.alloc(), keepers, &events) {
        Ok(transcript) => print_transcript(&transcript, console),
        Err(ReplayFault::Memory) => console.faults.report("Memory", FAILED),
        Err(ReplayFault::Nodes) => console.faults.report("Nodes", FAILED),
        Err(ReplayFault::Start { node: _, keeper: _ }) => console.faults.report("Start", FAILED),
    }
}

// Reads and parses the script. Otherwise it reports the fault and returns the exit status.
fn read_input<O: Write, F: Write + Drop>(console: &mut Console<'_, O, F>) -> Result<Script, u8> {
    let rt = console.rt;
    let bytes = match read_front(rt.alloc(), &mut rt.reader(), SCRIPT_LIMIT + 1) {
        Ok(bytes) => bytes,
        Err(error) => return Err(console.faults.report_read(INPUT, error)),
    };
    let mut files = Disk::new(rt);
    match read_script(rt.alloc(), &bytes, &mut files) {
        Ok(script) => Ok(script),
        Err(ScriptFault::Memory) => Err(console.faults.report("Memory", FAILED)),
        Err(fault) => Err(report_script(fault, &bytes, &files, console)),
    }
}

// Prints a transcript, and explains how many of its lines are about memory.
fn print_transcript<O: Write, F: Write + Drop>(
    transcript: &Transcript<ListKeep>,
    console: &mut Console<'_, O, F>,
) -> u8 {
    let lines = transcript.lines().iter();
    let lacking = lines.filter(|line| lacks_memory(line)).count();
    let status = match transcript.write(&mut console.out) {
        Ok(()) => console.faults.check_print(console.out.flush(), DONE),
        Err(_) => console.faults.report_unprinted(&mut console.out),
    };
    if lacking == 0 {
        return status;
    }
    console
        .faults
        .explain("lines of want of memory", lacking, status)
}

// Returns whether a line of a transcript says that memory ran out.
fn lacks_memory(line: &Line) -> bool {
    matches!(
        line,
        Line::Refused(Why::Memory)
            | Line::Refused(Why::Feed(Refusal::Memory))
            | Line::Down(KeepFault::Memory)
    )
}

// Reports why a script is invalid, and shows the beginning of the line.
fn report_script<O: Write, F: Write + Drop>(
    fault: ScriptFault,
    script: &[u8],
    files: &Disk<'_>,
    console: &mut Console<'_, O, F>,
) -> u8 {
    match fault {
        ScriptFault::Line { line, fault: why } => {
            let shown = line_excerpt(script, line);
            match (why, files.cause()) {
                (LineFault::BadFile, Some(cause)) => {
                    console.faults.report_with(fault, shown, cause, REFUSED)
                }
                _ => console
                    .faults
                    .report_with(fault, shown, cause_of_line(why), REFUSED),
            }
        }
        _ => console
            .faults
            .report_with(fault, INPUT, LONG_SCRIPT, REFUSED),
    }
}

fn keepers_for(alloc: Global, nodes: usize) -> Result<Vec<ListKeep>, AllocError> {
    let mut keepers = Vec::with_capacity(alloc, nodes)?;
    for _ in 0..nodes {
        keepers.push(ListKeep::new(alloc))?;
    }
    Ok(keepers)
}
