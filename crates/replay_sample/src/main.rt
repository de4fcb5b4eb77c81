//! Replays the script on standard input as `kbfeed replay` does: small enough to be compiled without proof in a minute.
#![tactic(auto)]

use feed_console::{Console, FAILED, Faults};
use feed_replay::replay_input;
use std::io;
use std::io::BufWriter;
use std::process::ExitCode;

fn main(rt: HostRuntime) -> ExitCode {
    let mut faults = Faults::new(rt.stderr(), false);
    let status = match BufWriter::new(rt.alloc(), io::writer(&rt)) {
        Ok(out) => replay_input(&mut Console {
            rt: &rt,
            out,
            faults,
        }),
        Err(_) => faults.report("Memory", FAILED),
    };
    ExitCode::from(status)
}
