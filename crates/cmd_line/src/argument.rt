//! An argument of a command, and those that several commands have.
use clap::builder::ValueParser;
use clap::{Arg, ArgAction};
use std::alloc::{AllocError, Global};

/// An argument of a command.
#[derive(Clone, Copy)]
pub struct Argument {
    /// The name by which its value is looked up, and the long name of an option.
    pub id: &'static str,
    pub kind: ArgumentKind,
    pub help: &'static str,
}

/// How an argument is given on the command line.
#[derive(Clone, Copy)]
pub enum ArgumentKind {
    /// By its position. It is required.
    Positional,
    /// By its position, once or more often.
    Positionals,
    /// As an option without a value, which excludes other options.
    Flag {
        excludes: &'static [&'static str],
    },
    /// As an option with a text, which requires other options.
    Text {
        value: &'static str,
        needs: &'static [&'static str],
    },
    /// As an option with a text, which excludes other options.
    SoleText {
        value: &'static str,
        excludes: &'static [&'static str],
    },
    /// As an option with a text. It is required.
    RequiredText {
        value: &'static str,
    },
    /// As an option with a number from 1 to a limit, and a default.
    Number {
        value: &'static str,
        limit: u64,
        default: &'static str,
    },
    /// As an option with a number from 1 to a limit, without a default.
    OptionalNumber {
        value: &'static str,
        limit: u64,
    },
    /// As an option with one of several words.
    Choice {
        value: &'static str,
        words: &'static [&'static str],
        default: &'static str,
    },
    /// As an option with a number from 0 to 100, without a default.
    Percent,
}

pub const DATABASE: Argument = Argument {
    id: "DB",
    kind: ArgumentKind::Positional,
    help: "The path of the node's database",
};

pub const LISTENING_ADDRESS: Argument = Argument {
    id: "ADDR",
    kind: ArgumentKind::Positional,
    help: "The address to listen at, as 127.0.0.1:8080",
};

pub const QUERY: Argument = Argument {
    id: "QUERY",
    kind: ArgumentKind::Positional,
    help: "An OpenURL query, as rft.issn=2434561x or rft.isbn=9780306406157",
};

pub const RELEASE: Argument = Argument {
    id: "NAME",
    kind: ArgumentKind::Positional,
    help: "The name of the release, as Acme_Global_All_2024-01-01.txt",
};

pub const PIECE: Argument = Argument {
    id: "piece",
    kind: ArgumentKind::Number {
        value: "N",
        limit: 1_048_576,
        default: "262144",
    },
    help: "The most bytes in one request, 1 to 1048576",
};

pub const CLIENT_TIMEOUT: Argument = Argument {
    id: "timeout",
    kind: ArgumentKind::Number {
        value: "SECONDS",
        limit: 3_600,
        default: "30",
    },
    help: "How long a client may take, 1 to 3600",
};

/// Returns clap's form of an argument.
pub fn arg_of<'a>(alloc: Global, argument: &'static Argument) -> Result<Arg<'a>, AllocError> {
    let Argument { id, kind, help } = *argument;
    let arg = Arg::new(alloc, id).help(help);
    match kind {
        ArgumentKind::Positional => Ok(arg.required(true)),
        ArgumentKind::Positionals => Ok(repeat(arg)),
        ArgumentKind::Flag { excludes } => flag(arg.long(id), excludes),
        ArgumentKind::Text { value, needs } => text(arg.long(id), value, needs),
        ArgumentKind::SoleText { value, excludes } => sole_text(arg.long(id), value, excludes),
        ArgumentKind::RequiredText { value } => Ok(required_text(arg.long(id), value)),
        ArgumentKind::Number {
            value,
            limit,
            default,
        } => Ok(number(arg.long(id), value, limit, default)),
        ArgumentKind::OptionalNumber { value, limit } => Ok(optional_number(
            arg.long(id),
            value,
            limit,
        )),
        ArgumentKind::Choice {
            value,
            words,
            default,
        } => Ok(choice(arg.long(id), value, words, default)),
        ArgumentKind::Percent => Ok(percent(arg.long(id))),
    }
}

fn repeat(arg: Arg<'_>) -> Arg<'_> {
    arg.required(true).action(ArgAction::Append).num_args(1..)
}

fn flag<'a>(arg: Arg<'a>, excludes: &[&'static str]) -> Result<Arg<'a>, AllocError> {
    arg.action(ArgAction::SetTrue).conflicts_with_all(excludes)
}

fn text<'a>(
    arg: Arg<'a>,
    value: &'static str,
    needs: &[&'static str],
) -> Result<Arg<'a>, AllocError> {
    arg.value_name(value).requires_all(needs)
}

fn sole_text<'a>(
    arg: Arg<'a>,
    value: &'static str,
    excludes: &[&'static str],
) -> Result<Arg<'a>, AllocError> {
    arg.value_name(value).conflicts_with_all(excludes)
}

fn required_text<'a>(arg: Arg<'a>, value: &'static str) -> Arg<'a> {
    arg.value_name(value).required(true)
}

fn optional_number<'a>(arg: Arg<'a>, value: &'static str, limit: u64) -> Arg<'a> {
    arg.value_name(value)
        .value_parser(ValueParser::unsigned(1, limit))
}

fn percent(arg: Arg<'_>) -> Arg<'_> {
    arg.value_name("PERCENT")
        .value_parser(ValueParser::unsigned(0, 100))
}

fn number<'a>(arg: Arg<'a>, value: &'static str, limit: u64, default: &'static str) -> Arg<'a> {
    arg.value_name(value)
        .value_parser(ValueParser::unsigned(1, limit))
        .default_value(default)
}

fn choice<'a>(
    arg: Arg<'a>,
    value: &'static str,
    words: &'static [&'static str],
    default: &'static str,
) -> Arg<'a> {
    arg.value_name(value)
        .value_parser(ValueParser::from(words))
        .default_value(default)
}
