//! kbfeed: a feed of holdings lists of serials and books (KBART files) for a fleet of OpenURL link resolvers.
#![tactic(auto)]

mod database_file;

use crate::database_file::run_at;
use cmd_files::{answer_file, check_files, compare_files, explain_query, serve_folder};
use cmd_line::{name_help, parse};
use feed_console::{Console, FAILED, Faults, MISUSED, take_stack};
use feed_options::Command;
use feed_replay::replay_input;
use std::io;
use std::io::{BufWriter, ErrorKind, IsTerminal, Write};
use std::process::ExitCode;

fn main(rt: HostRuntime) -> ExitCode {
    ExitCode::from(run(&rt))
}

// Reads the arguments, runs the command and returns the exit status.
fn run(rt: &HostRuntime) -> u8 {
    let mut faults = Faults::new(rt.stderr(), false);
    match read_arguments(rt) {
        Ok(arguments) => run_arguments(rt, &arguments, &mut faults),
        Err(error) if error.kind() == ErrorKind::InvalidData => {
            faults.report("an argument is not UTF-8", MISUSED)
        }
        Err(_) => faults.report("Memory", FAILED),
    }
}

fn read_arguments(rt: &HostRuntime) -> io::Result<Vec<String>> {
    let mut arguments: Vec<String> = std::env::args(rt)?.collect(rt.alloc())?;
    name_help(&mut arguments)?;
    Ok(arguments)
}

fn run_arguments<F: Write + Drop>(
    rt: &HostRuntime,
    arguments: &[String],
    faults: &mut Faults<F>,
) -> u8 {
    if !take_stack(arguments.len()) {
        return faults.report("Memory", FAILED);
    }
    match parse(rt.alloc(), arguments) {
        Ok((is_verbose, command)) => match BufWriter::new(rt.alloc(), io::writer(rt)) {
            Ok(out) => {
                let is_verbose = is_verbose || rt.stderr().is_terminal();
                let faults = Faults::new(rt.stderr(), is_verbose);
                run_command(command, &mut Console { rt, out, faults })
            }
            Err(_) => faults.report("Memory", FAILED),
        },
        Err(usage) if usage.is_out_of_memory() => faults.report("Memory", FAILED),
        Err(usage) => faults.check_print(usage.print(rt), usage.status()),
    }
}

fn run_command<O: Write, F: Write + Drop>(
    command: Command<'_>,
    console: &mut Console<'_, O, F>,
) -> u8 {
    match command {
        Command::Replay => replay_input(console),
        Command::Check { files, options } => check_files(&files, options, console),
        Command::Diff { old, options } => compare_files(old, options, console),
        Command::Answer { file, query } => answer_file(file, query, console),
        Command::Openurl { query, is_json } => explain_query(query, is_json, console),
        Command::Serve(options) => serve_folder(options, console),
        Command::Node { db, command } => run_at(db, command, console),
    }
}
