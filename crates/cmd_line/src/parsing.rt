//! The command that the arguments of the command line name.
use crate::commands::program;
use crate::node::node_options;
use clap::error::ErrorKind;
use clap::{ArgMatches, Error};
use feed_options::{
    CheckOptions, Command, ComparisonForm, DatabaseCommand, DiffOptions, FetchOptions, Form,
    NodeCommand, ServeOptions,
};
use std::alloc::{AllocError, Global};
use std::io;
use std::time::Duration;

/// The text to print in place of a command: the help, the version, or what is wrong with the arguments.
#[derive(Drop)]
pub struct Usage {
    error: Error,
}

impl Usage {
    /// Returns whether an allocation failed, so that there is nothing to print.
    pub fn is_out_of_memory(&self) -> bool {
        self.error.kind() == ErrorKind::OutOfMemory
    }

    /// Prints the help or the version to standard output, and an error to standard error.
    pub fn print(&self, rt: &HostRuntime) -> io::Result<()> {
        self.error.print(rt)
    }

    /// Returns the exit status: 0 for the help and the version, 2 for an error.
    pub fn status(&self) -> u8 {
        self.error.exit_code() as u8
    }
}

/// Replaces the last word of `help --help` and `help -h` by `help`, which asks for the same. In their place clap
/// expects the name of a command.
pub fn name_help(arguments: &mut [String]) -> Result<(), AllocError> {
    if arguments.len() != 3 || arguments[1].as_str() != "help" {
        return Ok(());
    }
    if arguments[2].as_str() == "--help" || arguments[2].as_str() == "-h" {
        arguments[2] = arguments[1].clone()?;
    }
    Ok(())
}

/// Parses the arguments of the program, with its name first: whether `--verbose` is given, and the command.
///
/// # Errors
///
/// Returns what to print if the arguments are invalid or ask for help or the version, or if an allocation fails.
pub fn parse<'a>(alloc: Global, arguments: &'a [String]) -> Result<(bool, Command<'a>), Usage> {
    match parse_by_clap(alloc, arguments) {
        Ok(parsed) => Ok(parsed),
        Err(error) => Err(Usage { error }),
    }
}

fn parse_by_clap<'a>(alloc: Global, arguments: &'a [String]) -> Result<(bool, Command<'a>), Error> {
    let matches = program(alloc)?.try_get_matches_from(arguments)?;
    let command = command_of(alloc, &matches)?;
    Ok((matches.get_flag("verbose"), command))
}

fn command_of<'a>(alloc: Global, matches: &ArgMatches<'a>) -> Result<Command<'a>, AllocError> {
    let Some((name, given)) = matches.subcommand() else {
        return Ok(Command::Replay);
    };
    match name {
        "check" => check(alloc, given),
        "diff" => Ok(diff(given)),
        "answer" => Ok(Command::Answer {
            file: text(given, "FILE"),
            query: text(given, "QUERY"),
        }),
        "openurl" => Ok(Command::Openurl {
            query: text(given, "QUERY"),
            is_json: given.get_flag("json"),
        }),
        "serve" => Ok(Command::Serve(ServeOptions {
            dir: text(given, "DIR"),
            addr: text(given, "ADDR"),
            count: number(given, "count"),
            time: timeout(given),
        })),
        "node" => Ok(Command::Node {
            db: text(given, "DB"),
            command: NodeCommand::Run(node_options(given)),
        }),
        "fetch" => Ok(on_database(text(given, "DB"), fetch(given))),
        "ask" => Ok(on_database(
            text(given, "DB"),
            DatabaseCommand::Ask {
                package: text(given, "PACKAGE"),
                query: text(given, "QUERY"),
            },
        )),
        "export" => Ok(on_database(text(given, "scholar"), DatabaseCommand::Export)),
        "status" => Ok(on_database(text(given, "DB"), DatabaseCommand::Status)),
        "why" => Ok(on_database(
            text(given, "DB"),
            DatabaseCommand::Why {
                name: text(given, "NAME"),
            },
        )),
        _ => Ok(Command::Replay),
    }
}

fn on_database<'a>(db: &'a str, command: DatabaseCommand<'a>) -> Command<'a> {
    Command::Node {
        db,
        command: NodeCommand::Database(command),
    }
}

fn fetch<'a>(given: &ArgMatches<'a>) -> DatabaseCommand<'a> {
    DatabaseCommand::Fetch(FetchOptions {
        addr: text(given, "ADDR"),
        name: text(given, "NAME"),
        piece: number(given, "piece"),
        time: timeout(given),
    })
}

fn check<'a>(alloc: Global, given: &ArgMatches<'a>) -> Result<Command<'a>, AllocError> {
    Ok(Command::Check {
        files: Vec::from_slice(alloc, given.get_strs("FILE").unwrap_or(&[]))?,
        options: CheckOptions {
            name: text(given, "name"),
            form: form(given),
            is_strict: given.get_flag("strict"),
            lists_all: given.get_flag("all"),
        },
    })
}

fn form(check: &ArgMatches<'_>) -> Form {
    if check.get_flag("summary") {
        Form::Summary
    } else if check.get_flag("explain") {
        Form::Explained
    } else if check.get_flag("json") {
        Form::Json
    } else {
        Form::Lines
    }
}

// Returns the comparison with a file, or with the active release of a package in the database of a node.
fn diff<'a>(given: &ArgMatches<'a>) -> Command<'a> {
    let old = text(given, "OLD");
    let options = DiffOptions {
        new: text(given, "NEW"),
        form: ComparisonForm {
            is_json: given.get_flag("json"),
            is_summary: given.get_flag("summary"),
        },
        max_removed: given.get_one::<u64>("max-removed"),
        max_changed: given.get_one::<u64>("max-changed"),
    };
    match given.get_str("db") {
        Some(db) => on_database(
            db,
            DatabaseCommand::Diff {
                package: old,
                options,
            },
        ),
        None => Command::Diff { old, options },
    }
}

/// Returns the text of an argument, or an empty one if it is not given.
pub fn text<'a>(given: &ArgMatches<'a>, id: &str) -> &'a str {
    given.get_str(id).unwrap_or("")
}

/// Returns the number of an option, which is there, since each has a default.
pub fn number(given: &ArgMatches<'_>, id: &str) -> u64 {
    given.get_one::<u64>(id).unwrap_or(1)
}

/// Returns the seconds of `--timeout`.
pub fn timeout(given: &ArgMatches<'_>) -> Duration {
    Duration::from_secs(number(given, "timeout"))
}
