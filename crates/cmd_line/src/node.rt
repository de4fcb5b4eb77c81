//! The arguments of `node`, and the options that they make.
use crate::argument::{Argument, ArgumentKind, CLIENT_TIMEOUT, DATABASE, LISTENING_ADDRESS, PIECE};
use crate::commands::version;
use crate::parsing::{number, text};
use clap::{ArgGroup, ArgMatches};
use feed_options::{LogOptions, NodeOptions, SitePath, Source};
use std::alloc::{AllocError, Global};

// The name of the group of options that a token needs one of.
const TOKEN_USES: &str = "from or sites";

/// The arguments of `node`.
pub static NODE: [Argument; 20] = [
    DATABASE,
    LISTENING_ADDRESS,
    Argument {
        id: "check",
        kind: ArgumentKind::Flag { excludes: &[] },
        help: "Opens all that the node needs, prints ok, and ends",
    },
    Argument {
        id: "from",
        kind: ArgumentKind::Text {
            value: "HOST:PORT",
            needs: &["token"],
        },
        help: "The server to fetch releases from, as 127.0.0.1:8080",
    },
    Argument {
        id: "token",
        kind: ArgumentKind::Text {
            value: "FILE",
            needs: &[TOKEN_USES],
        },
        help: "The file whose first line is the token for a fetch or a reload of DIR",
    },
    Argument {
        id: "site",
        kind: ArgumentKind::SoleText {
            value: "FILE",
            excludes: &["sites"],
        },
        help: "The site file of the library: its page, its proxy and what it has",
    },
    Argument {
        id: "sites",
        kind: ArgumentKind::SoleText {
            value: "DIR",
            excludes: &["site"],
        },
        help: "The folder with the site file of each library: HOST.toml, and default.toml",
    },
    Argument {
        id: "wanted",
        kind: ArgumentKind::Text {
            value: "FILE",
            needs: &[],
        },
        help: "The file with the packages that readers wait for",
    },
    PIECE,
    Argument {
        id: "fetch-timeout",
        kind: ArgumentKind::Number {
            value: "SECONDS",
            limit: 86_400,
            default: "3600",
        },
        help: "How long a fetch may take, 1 to 86400",
    },
    Argument {
        id: "any-type",
        kind: ArgumentKind::Flag { excludes: &[] },
        help: "Fetches lists that the server calls HTML, XML, JSON, PDF or images, too",
    },
    Argument {
        id: "max-shrink",
        kind: ArgumentKind::Percent,
        help: "Holds a list that lacks more of the active one's rows, 0 to 100 percent",
    },
    Argument {
        id: "clients",
        kind: ArgumentKind::Number {
            value: "N",
            limit: 65_536,
            default: "1024",
        },
        help: "The most connections at a time, 1 to 65536",
    },
    CLIENT_TIMEOUT,
    Argument {
        id: "idle",
        kind: ArgumentKind::Number {
            value: "SECONDS",
            limit: 3_600,
            default: "15",
        },
        help: "How long a connection may wait between two requests, 1 to 3600",
    },
    Argument {
        id: "max-age",
        kind: ArgumentKind::OptionalNumber {
            value: "SECONDS",
            limit: 31_536_000,
        },
        help: "How long a cache may use an answer without asking again, 1 to 31536000",
    },
    Argument {
        id: "metrics",
        kind: ArgumentKind::Choice {
            value: "CLIENTS",
            words: &["local", "any"],
            default: "local",
        },
        help: "Which clients may get /metrics and /health",
    },
    Argument {
        id: "metrics-packages",
        kind: ArgumentKind::Flag { excludes: &[] },
        help: "Has /metrics name each package, even if there are more than 256",
    },
    Argument {
        id: "forwarded",
        kind: ArgumentKind::Flag { excludes: &[] },
        help: "Logs the address in X-Forwarded-For of a client on this machine",
    },
    Argument {
        id: "log-queries",
        kind: ArgumentKind::Choice {
            value: "WHETHER",
            words: &["yes", "no"],
            default: "yes",
        },
        help: "Whether the log has the queries of readers",
    },
];

/// Returns the group of options that a token needs one of: a source of releases, or a folder of site files.
pub fn token_uses<'a>(alloc: Global) -> Result<ArgGroup<'a>, AllocError> {
    let uses = ArgGroup::new(alloc, TOKEN_USES).arg("from")?.arg("sites")?;
    Ok(uses.multiple(true))
}

/// Returns the options of `node`.
pub fn node_options<'a>(given: &ArgMatches<'a>) -> NodeOptions<'a> {
    NodeOptions {
        addr: text(given, "ADDR"),
        clients: number(given, "clients") as usize,
        limit: millis(given, "timeout"),
        idle: millis(given, "idle"),
        max_age: max_age(given),
        version: version(),
        log: LogOptions {
            is_forwarded: given.get_flag("forwarded"),
            has_queries: text(given, "log-queries") != "no",
            has_open_reports: text(given, "metrics") == "any",
            has_all_series: given.get_flag("metrics-packages"),
        },
        is_check: given.get_flag("check"),
        site: site_path(given),
        token_file: given.get_str("token"),
        wanted: given.get_str("wanted"),
        source: source(given),
    }
}

// Returns the milliseconds of an option with a number of seconds.
fn millis(node: &ArgMatches<'_>, id: &str) -> u64 {
    number(node, id).saturating_mul(1_000)
}

// Returns the seconds, or 0 if there are none.
fn max_age(node: &ArgMatches<'_>) -> u32 {
    let seconds = node.get_one::<u64>("max-age").unwrap_or(0);
    seconds.min(u64::from(u32::MAX)) as u32
}

fn site_path<'a>(node: &ArgMatches<'a>) -> SitePath<'a> {
    match (node.get_str("site"), node.get_str("sites")) {
        (Some(file), _) => SitePath::File(file),
        (None, Some(folder)) => SitePath::Folder(folder),
        (None, None) => SitePath::None,
    }
}

fn source<'a>(node: &ArgMatches<'a>) -> Option<Source<'a>> {
    Some(Source {
        addr: node.get_str("from")?,
        piece: number(node, "piece"),
        fetch_limit: number(node, "fetch-timeout"),
        has_any_type: node.get_flag("any-type"),
        max_shrink: node.get_one::<u64>("max-shrink"),
    })
}
