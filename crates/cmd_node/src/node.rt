//! `kbfeed node`: a link resolver that answers readers over HTTP from the database of a node, and fetches releases.
ghost use Rattle.std.specs.Prelude.{◌≡◌, option_copied};

use crate::site::{note_doubts, read_sites};
use crate::token::Token;
use crate::wanted::{note_missing, read_wanted};
use cmd_database::{Database, begin_feed, close_keeper, open_feed, report_keeper};
use cmd_files::{note_address, note_listener};
use feed_bytes::read_number;
use feed_console::{Console, DONE, FAILED, MISUSED, REFUSED, open_plain_file};
use feed_http::is_host;
use feed_keep::Keep;
use feed_options::{NodeOptions, SitePath, Source};
use feed_releases::{Feed, Opening};
use node_connection::TimeLimits;
use node_server::{Server, Settings};
use node_service::{
    End, NodeSetup, SourceAddrs, StartFault, WantedPackage, WatchedFile, run, start,
};
use node_sites::NodeSites;
use node_state::{NodeLog, NodeState};
use std::alloc::{AllocError, Global};
use std::io;
use std::io::Write;
use std::net::ToSocketAddrs;

// The fewest clients with which a node starts if it may open too few descriptors for all.
const MIN_CLIENTS: usize = 16;

/// Runs a node: opens the feed of a database and answers readers at an address, without end. It listens once the
/// records of the database are loaded. Until their lists are checked, readers get 503, and while a package of the file
/// of wanted ones has no active release, which is reported (`NoRelease`). If the node has a source, a client that has
/// the token can make it fetch a release from there. It prints a line for each request, at once. The first fault is
/// reported: of the source (`Host`), of the token (`Read`, `Token`), of the site files (`Read`, `Site`, `Holdings`,
/// `Sites`), of the file of wanted packages (`Read`, `Wanted`), of the database, of the address (`Bind`), of a list
/// (`Damaged`), of the sockets (`Poll`), and of a database whose file is gone (`Device`). Of a folder of site files,
/// what is wrong with each is reported. Lines of the log that cannot be written are dropped and counted, and that is
/// reported. A host that has no address yet is reported too (`Resolve`), and the node runs. If there are too few
/// descriptors for all clients, that is reported (`Descriptors`), and the node answers fewer at a time, or does not
/// start with fewer than 16.
///
/// A check answers no reader, and prints `ok` if all is well, with the number of sites if there is a folder of them. It
/// also reports a prefix of a proxy behind which a list can add parameters (`Prefix`), which is not a fault.
///
/// # Errors
///
/// The exit status of a fault before the node runs.
pub fn run_node<D: Database, O: Write, F: Write + Drop>(
    database: &D,
    options: NodeOptions<'_>,
    console: &mut Console<'_, O, F>,
) -> Result<u8, u8> {
    if let Some(source) = options.source {
        check_source(source.addr, console)?;
    }
    let token = match options.token_file {
        Some(path) => Some(token_of(path, console)?),
        None => None,
    };
    let addrs = addrs_of(options.source, console);
    run_server(database, options, token.as_ref(), addrs, console)
}

// Reports an address that is not one of a source, and returns the exit status.
fn check_source<O: Write, F: Write + Drop>(
    addr: &str,
    console: &mut Console<'_, O, F>,
) -> Result<(), u8> {
    if is_host(addr.as_bytes()) && has_port(addr.as_bytes()) {
        return Ok(());
    }
    Err(report_source(addr, console))
}

// Returns the addresses of a source, if there is one. Reports a name that has none yet.
fn addrs_of<O: Write, F: Write + Drop>(
    source: Option<Source<'_>>,
    console: &mut Console<'_, O, F>,
) -> SourceAddrs {
    let mut addrs = SourceAddrs::new(console.rt);
    let Some(source) = source else {
        return addrs;
    };
    if let Err(error) = addrs.resolve(console.rt, source.addr) {
        let _ = console
            .faults
            .report_with("Resolve", source.addr, error, DONE);
    }
    addrs
}

// Reports that an address is not one of a source, and returns the exit status.
fn report_source<O: Write, F: Write + Drop>(addr: &str, console: &mut Console<'_, O, F>) -> u8 {
    let status = console.faults.report_with(
        "Host",
        addr,
        "it is no host and port, as 127.0.0.1:8080",
        MISUSED,
    );
    note_address(addr, console);
    status
}

// Returns whether a host ends with a colon and a port from 1 to 65,535.
fn has_port(host: &[u8]) -> bool {
    let Some(place) = host.iter().rposition(|byte| *byte == b':') else {
        return false;
    };
    read_number(&host[place.saturating_add(1)..]).is_some_and(|port| 0 < port && port <= 65_535)
}

// Reads the token of a file, or reports the fault and returns the exit status.
fn token_of<O: Write, F: Write + Drop>(
    path: &str,
    console: &mut Console<'_, O, F>,
) -> Result<Token, u8> {
    let mut file = open_plain_file(path, console)?;
    match Token::read(console.rt.alloc(), &mut file) {
        Ok(Some(token)) => Ok(token),
        Ok(None) => Err(
            console.faults.report_with(
                "Token",
                path,
                "its first line is no token: 16 bytes at least, of visible ASCII",
                REFUSED,
            ),
        ),
        Err(error) => Err(console.faults.report_read(path, error)),
    }
}

// Opens the feed and answers readers, until the sockets fail, or the file of the database is gone.
fn run_server<D: Database, O: Write, F: Write + Drop>(
    database: &D,
    options: NodeOptions<'_>,
    token: Option<&Token>,
    addrs: SourceAddrs,
    console: &mut Console<'_, O, F>,
) -> Result<u8, u8> {
    let sites = read_sites(options, console)?;
    let wanted = read_wanted(options.wanted, console)?;
    if options.is_check {
        note_doubts(&sites, console);
        return check_server(database, options, &wanted, sites.list().len(), console);
    }
    let Ok(state) = state_of(console.rt.alloc(), options.site, &sites) else {
        return Err(report_end(End::Memory, database.name(), console));
    };
    let (opening, server, file) = begin(database, options, console)?;
    let setup = setup_of(options, token, sites, addrs, &wanted, &state, file);
    Ok(serve(database, opening, server, setup, console))
}

// Returns the state of a node, whose log and metrics have the names of a folder's site files.
fn state_of(alloc: Global, path: SitePath<'_>, sites: &NodeSites) -> Result<NodeState, AllocError> {
    let state = NodeState::new(alloc)?;
    if let SitePath::Folder(_) = path {
        state.name_sites(alloc, sites.list())?;
    }
    Ok(state)
}

// Returns the setup of a node that has this token and these sites.
fn setup_of<'a>(
    options: NodeOptions<'a>,
    token: Option<&'a Token>,
    sites: NodeSites,
    addrs: SourceAddrs,
    wanted: &'a [WantedPackage],
    state: &'a NodeState,
    file: WatchedFile<'a>,
) -> NodeSetup<'a>
    ensures token { option_copied result.token ≡ option_copied token.entry }
    ensures sites { result.sites ≡ sites }
{
    NodeSetup {
        options,
        token: token.map(|token| token.text()),
        addrs,
        sites,
        wanted,
        state,
        file,
    }
}

// Opens the feed, listens at the address, closes both, and reports that all is well.
fn check_server<D: Database, O: Write, F: Write + Drop>(
    database: &D,
    options: NodeOptions<'_>,
    wanted: &[WantedPackage],
    sites: usize,
    console: &mut Console<'_, O, F>,
) -> Result<u8, u8> {
    let feed = open_feed(database, console)?;
    note_missing(&feed, wanted, console);
    let listening = listen(options, console);
    close_keeper(database, feed.restart(), console);
    let _server = listening?;
    let printed = print_ok(options.site, sites, &mut console.out);
    Ok(console.faults.check_print(printed, DONE))
}

// Loads the records of a database, listens at the address, and watches the file of the database.
fn begin<'c: 'd, 'd, D: Database, O: Write, F: Write + Drop>(
    database: &'d D,
    options: NodeOptions<'_>,
    console: &mut Console<'c, O, F>,
) -> Result<(Opening<D::Keeper>, Server, WatchedFile<'d>), u8> {
    let opening = begin_feed(database, console)?;
    match listen(options, console) {
        Ok(server) => match WatchedFile::new(console.rt, database.name()) {
            Ok(file) => Ok((opening, server, file)),
            Err(_) => Err(report_end(End::FileGone, database.name(), console)),
        },
        Err(status) => {
            close_keeper(database, opening.into_keeper(), console);
            Err(status)
        }
    }
}

// Answers readers from the feed of a database. Reports why the node ends, and returns the exit status.
fn serve<D: Database, O: Write, F: Write + Drop>(
    database: &D,
    opening: Opening<D::Keeper>,
    mut server: Server,
    setup: NodeSetup<'_>,
    console: &mut Console<'_, O, F>,
) -> u8 {
    match run_with_log(opening, &mut server, setup, console) {
        Ok((end, keeper)) => end_node(database, keeper, end, console),
        Err(StartFault::Ended(end)) => report_end(end, database.name(), console),
        Err(StartFault::Keeper(cause)) => report_keeper(cause, database.name(), console),
    }
}

// Opens a feed, with a log on standard output. This is without a buffer, so a line is dropped exactly if it cannot be
// written.
fn start_with_log<K: Keep, F: Write>(
    rt: &HostRuntime,
    opening: Opening<K>,
    server: &mut Server,
    setup: &NodeSetup<'_>,
    notes: &mut F,
) -> Result<Feed<K>, StartFault> {
    let mut log = NodeLog::new(io::writer(rt), notes);
    setup.state.drop_lines(log.write_lines(b"listening\n"));
    start(rt, opening, server, setup, &mut log)
}

// Opens a feed, reports which wanted packages it lacks, and answers readers from it until the node ends.
fn run_with_log<K: Keep, O: Write, F: Write + Drop>(
    opening: Opening<K>,
    server: &mut Server,
    setup: NodeSetup<'_>,
    console: &mut Console<'_, O, F>,
) -> Result<(End, K), StartFault> {
    let rt = console.rt;
    let feed = start_with_log(rt, opening, server, &setup, console.faults.out())?;
    note_missing(&feed, setup.wanted, console);
    let mut log = NodeLog::new(io::writer(rt), console.faults.out());
    Ok(run(rt, feed, server, setup, &mut log))
}

// Closes the database and reports why a node ended. A file that is gone is left alone: another database may be in its
// place, with its log beside it.
fn end_node<D: Database, O: Write, F: Write + Drop>(
    database: &D,
    keeper: D::Keeper,
    end: End,
    console: &mut Console<'_, O, F>,
) -> u8 {
    match &end {
        End::FileGone => {}
        _ => close_keeper(database, keeper, console),
    }
    report_end(end, database.name(), console)
}

// Reports that the process may open fewer descriptors than all clients need, and returns whether these are too few for
// a node.
fn has_too_few_descriptors<O: Write, F: Write + Drop>(
    server: &Server,
    options: NodeOptions<'_>,
    console: &mut Console<'_, O, F>,
) -> bool {
    if server.clients() >= options.clients {
        return false;
    }
    let _ = console.faults.report_with(
        "Descriptors",
        options.addr,
        "the process may open fewer than --clients needs",
        DONE,
    );
    server.clients() < MIN_CLIENTS
}

// Listens at the address, or reports the fault and returns the exit status.
fn listen<O: Write, F: Write + Drop>(
    options: NodeOptions<'_>,
    console: &mut Console<'_, O, F>,
) -> Result<Server, u8> {
    let server = match bind(console.rt, options) {
        Ok(server) => server,
        Err(error) => {
            let kind = error.kind();
            let status = console
                .faults
                .report_with("Bind", options.addr, error, FAILED);
            note_address(options.addr, console);
            note_listener(options.addr, kind, console);
            return Err(status);
        }
    };
    if has_too_few_descriptors(&server, options, console) {
        return Err(FAILED);
    }
    Ok(server)
}

fn bind(rt: &HostRuntime, options: NodeOptions<'_>) -> io::Result<Server> {
    let mut last = io::Error::from(io::ErrorKind::NotFound);
    let settings = Settings {
        clients: options.clients.max(1),
        limits: TimeLimits {
            step: options.limit.max(1),
            idle: options.idle.max(1),
        },
        is_forwarded: options.log.is_forwarded,
    };
    for addr in options.addr.to_socket_addrs(rt)? {
        match Server::bind(rt, addr, settings) {
            Ok(server) => return Ok(server),
            Err(error) => last = error,
        }
    }
    Err(last)
}

// Prints that all is open, and how many sites a folder has.
fn print_ok<O: Write>(path: SitePath<'_>, sites: usize, out: &mut O) -> io::Result<()> {
    match path {
        SitePath::Folder(_) => writeln!(out, "ok {sites} sites")?,
        SitePath::File(_) | SitePath::None => writeln!(out, "ok")?,
    }
    out.flush()
}

// Reports why a node ended, and returns the status.
fn report_end<O: Write, F: Write + Drop>(
    end: End,
    path: &str,
    console: &mut Console<'_, O, F>,
) -> u8 {
    match end {
        End::Memory => console.faults.report("Memory", FAILED),
        End::Sockets(fault) => console
            .faults
            .report_with("Poll", "the sockets", fault, FAILED),
        End::FileGone => console.faults.report_with(
            "Device",
            path,
            "the file was removed or replaced while the node ran",
            FAILED,
        ),
    }
}
