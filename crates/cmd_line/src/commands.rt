//! The commands of the program with their arguments: a table, and the loop that builds clap's command from it.
use crate::argument::{
    Argument, ArgumentKind, CLIENT_TIMEOUT, DATABASE, LISTENING_ADDRESS, PIECE, QUERY, RELEASE,
    arg_of,
};
use crate::helps::{
    ANSWER_HELP, ASK_HELP, CHECK_HELP, DIFF_HELP, EXPORT_HELP, FETCH_HELP, NODE_HELP, OPENURL_HELP,
    REPLAY_HELP, SERVE_HELP, STATUS_HELP, WHY_HELP,
};
use crate::node::{NODE, token_uses};
use clap::{Arg, ArgAction, Command};
use std::alloc::{AllocError, Global};

// The version of the program, and the logic in which it is proved, as the end of `rt version` names it. Kits of the
// toolchain that have the same logic accept the same proofs.
const VERSION: &str = "0.1.0\nlogic dac8208d650f15bf\nproved";

/// Returns the version of the program, as `--version` prints it.
pub fn version() -> &'static str {
    VERSION
}

/// A command of the program.
#[derive(Clone, Copy)]
enum Subcommand {
    Replay,
    Check,
    Diff,
    Answer,
    Openurl,
    Serve,
    Node,
    Fetch,
    Ask,
    Export,
    Status,
    Why,
}

static CHECK: [Argument; 7] = [
    Argument {
        id: "FILE",
        kind: ArgumentKind::Positionals,
        help: "The paths of the files, or - for standard input",
    },
    Argument {
        id: "name",
        kind: ArgumentKind::Text {
            value: "NAME",
            needs: &[],
        },
        help: "The release name of standard input",
    },
    Argument {
        id: "strict",
        kind: ArgumentKind::Flag { excludes: &[] },
        help: "Exits with 1 if a record is skipped",
    },
    Argument {
        id: "summary",
        kind: ArgumentKind::Flag {
            excludes: &["explain", "json"],
        },
        help: "Prints one line for each file",
    },
    Argument {
        id: "explain",
        kind: ArgumentKind::Flag {
            excludes: &["json"],
        },
        help: "Prints the line, the title and the reason of each skipped record",
    },
    Argument {
        id: "json",
        kind: ArgumentKind::Flag { excludes: &[] },
        help: "Prints a JSON object for each file",
    },
    Argument {
        id: "all",
        kind: ArgumentKind::Flag { excludes: &[] },
        help: "Lists all skipped records in JSON, and not only the first 10,000",
    },
];

static DIFF: [Argument; 7] = [
    Argument {
        id: "OLD",
        kind: ArgumentKind::Positional,
        help: "The path of the old list, or with --db the package",
    },
    Argument {
        id: "NEW",
        kind: ArgumentKind::Positional,
        help: "The path of the new list",
    },
    Argument {
        id: "db",
        kind: ArgumentKind::Text {
            value: "DB",
            needs: &[],
        },
        help: "The database of a node, whose active release is the old list",
    },
    Argument {
        id: "summary",
        kind: ArgumentKind::Flag { excludes: &[] },
        help: "Prints the counts alone",
    },
    Argument {
        id: "json",
        kind: ArgumentKind::Flag { excludes: &[] },
        help: "Prints a JSON object",
    },
    Argument {
        id: "max-removed",
        kind: ArgumentKind::Percent,
        help: "Exits with 1 if more rows are removed, 0 to 100 percent of the old list",
    },
    Argument {
        id: "max-changed",
        kind: ArgumentKind::Percent,
        help: "Exits with 1 if more rows are changed, 0 to 100 percent of the old list",
    },
];

static ANSWER: [Argument; 2] = [
    Argument {
        id: "FILE",
        kind: ArgumentKind::Positional,
        help: "The path of the file",
    },
    QUERY,
];

static OPENURL: [Argument; 2] = [
    Argument {
        id: "QUERY",
        kind: ArgumentKind::Positional,
        help: "An OpenURL query of any form, as issn=2434561x&date=20010315",
    },
    Argument {
        id: "json",
        kind: ArgumentKind::Flag { excludes: &[] },
        help: "Prints a JSON object",
    },
];

static SERVE: [Argument; 4] = [
    Argument {
        id: "DIR",
        kind: ArgumentKind::Positional,
        help: "The folder of the lists",
    },
    LISTENING_ADDRESS,
    Argument {
        id: "count",
        kind: ArgumentKind::Number {
            value: "N",
            limit: 1_000_000,
            default: "1000000",
        },
        help: "How many connections to serve, 1 to 1000000",
    },
    CLIENT_TIMEOUT,
];

static FETCH: [Argument; 5] = [
    DATABASE,
    Argument {
        id: "ADDR",
        kind: ArgumentKind::Positional,
        help: "The address of the server, as 127.0.0.1:8080",
    },
    RELEASE,
    PIECE,
    Argument {
        id: "timeout",
        kind: ArgumentKind::Number {
            value: "SECONDS",
            limit: 3_600,
            default: "30",
        },
        help: "How long a connection may pause, 1 to 3600",
    },
];

static ASK: [Argument; 3] = [
    DATABASE,
    Argument {
        id: "PACKAGE",
        kind: ArgumentKind::Positional,
        help: "The package, as Acme_Global_All",
    },
    QUERY,
];

static EXPORT: [Argument; 1] = [Argument {
    id: "scholar",
    kind: ArgumentKind::RequiredText { value: "DB" },
    help: "The path of the node's database, for Google Scholar's library links",
}];

static STATUS: [Argument; 1] = [DATABASE];

static WHY: [Argument; 2] = [DATABASE, RELEASE];

// The commands with their names, in the order of the help.
const SUBCOMMANDS: [(&str, Subcommand); 12] = [
    ("replay", Subcommand::Replay),
    ("check", Subcommand::Check),
    ("diff", Subcommand::Diff),
    ("answer", Subcommand::Answer),
    ("openurl", Subcommand::Openurl),
    ("serve", Subcommand::Serve),
    ("node", Subcommand::Node),
    ("fetch", Subcommand::Fetch),
    ("ask", Subcommand::Ask),
    ("export", Subcommand::Export),
    ("status", Subcommand::Status),
    ("why", Subcommand::Why),
];

impl Subcommand {
    fn about(self) -> &'static str {
        match self {
            Subcommand::Replay => "Replays a script of published files and nodes",
            Subcommand::Check => "Checks holdings lists",
            Subcommand::Diff => "Prints what a new holdings list changes",
            Subcommand::Answer => "Answers a query from a holdings list",
            Subcommand::Openurl => "Prints how an OpenURL query is understood",
            Subcommand::Serve => "Serves a folder of releases over HTTP",
            Subcommand::Node => "Answers readers over HTTP from the database of a node",
            Subcommand::Fetch => "Fetches a release into the database of a node",
            Subcommand::Ask => "Answers a query from the database of a node",
            Subcommand::Export => "Prints the holdings of a node for Google Scholar",
            Subcommand::Status => "Prints the releases that a node has recorded",
            Subcommand::Why => "Prints why a release of a node is broken",
        }
    }

    fn help(self) -> &'static str {
        match self {
            Subcommand::Replay => REPLAY_HELP,
            Subcommand::Check => CHECK_HELP,
            Subcommand::Diff => DIFF_HELP,
            Subcommand::Answer => ANSWER_HELP,
            Subcommand::Openurl => OPENURL_HELP,
            Subcommand::Serve => SERVE_HELP,
            Subcommand::Node => NODE_HELP,
            Subcommand::Fetch => FETCH_HELP,
            Subcommand::Ask => ASK_HELP,
            Subcommand::Export => EXPORT_HELP,
            Subcommand::Status => STATUS_HELP,
            Subcommand::Why => WHY_HELP,
        }
    }

    fn arguments(self) -> &'static [Argument] {
        match self {
            Subcommand::Replay => &[],
            Subcommand::Check => &CHECK,
            Subcommand::Diff => &DIFF,
            Subcommand::Answer => &ANSWER,
            Subcommand::Openurl => &OPENURL,
            Subcommand::Serve => &SERVE,
            Subcommand::Node => &NODE,
            Subcommand::Fetch => &FETCH,
            Subcommand::Ask => &ASK,
            Subcommand::Export => &EXPORT,
            Subcommand::Status => &STATUS,
            Subcommand::Why => &WHY,
        }
    }
}

/// Returns the program's command, with all of its commands.
pub fn program<'a>(alloc: Global) -> Result<Command<'a>, AllocError> {
    let mut program = Command::new(alloc, "kbfeed")
        .about("A feed of holdings lists for OpenURL link resolvers")
        .version(VERSION)
        .subcommand_required(true)
        .arg(verbose(alloc))?;
    for (name, subcommand) in SUBCOMMANDS {
        program = program.subcommand(command_of(alloc, name, subcommand)?)?;
    }
    Ok(program)
}

fn verbose<'a>(alloc: Global) -> Arg<'a> {
    Arg::new(alloc, "verbose")
        .short('v')
        .long("verbose")
        .global(true)
        .action(ArgAction::SetTrue)
        .help("Prints what a fault is about, and its cause, on a second line")
}

fn command_of<'a>(
    alloc: Global,
    name: &'static str,
    subcommand: Subcommand,
) -> Result<Command<'a>, AllocError> {
    let mut command = Command::new(alloc, name)
        .about(subcommand.about())
        .long_about(subcommand.help());
    for argument in subcommand.arguments() {
        command = command.arg(arg_of(alloc, argument)?)?;
    }
    match subcommand {
        Subcommand::Node => command.group(token_uses(alloc)?),
        _ => Ok(command),
    }
}
