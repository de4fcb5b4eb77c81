//! `kbfeed serve`: a folder of releases for any HTTP client.
use crate::address_hints::{note_address, note_listener};
use crate::folder::Folder;
use feed_console::{Console, DONE, FAILED};
use feed_dial::{TimedReader, TimedWriter};
use feed_http::{Shelf, serve_one};
use feed_http_heads::HttpFault;
use feed_options::ServeOptions;
use std::io;
use std::io::{ErrorKind, Read, Write};
use std::net::{Shutdown, TcpListener, TcpStream};
use std::time::Duration;

// The statuses of the responses to a request that was not read to its end.
const BAD_REQUEST: u16 = 400;

const NOT_IMPLEMENTED: u16 = 501;

// The most reads of a lingering close, and the milliseconds that each may wait.
const LINGERING_READS: u32 = 16;

const LINGERING_WAIT: u64 = 100;

/// Serves the releases of a folder at an address. It prints `listening` and then serves connections one after another.
/// A line on standard error says that the folder is missing; one that is not printed changes no status.
/// Each may take the time of the options for its request, and as long for its response. For each it prints `served
/// STATUS` or `fault NAME` at once. Returns the exit status: 0 once all were served, 3 if the address cannot be bound,
/// a connection cannot be accepted or a line cannot be printed, which is reported.
pub fn serve_folder<O: Write, F: Write + Drop>(
    options: ServeOptions<'_>,
    console: &mut Console<'_, O, F>,
) -> u8 {
    let ServeOptions { dir, addr, .. } = options;
    let listener = match TcpListener::bind(console.rt, addr) {
        Ok(listener) => listener,
        Err(error) => {
            let kind = error.kind();
            let status = console.faults.report_with("Bind", addr, error, FAILED);
            note_address(addr, console);
            note_listener(addr, kind, console);
            return status;
        }
    };
    let mut folder = Folder::new(console.rt, dir);
    if !folder.is_there() {
        let _ = writeln!(
            console.faults.out(),
            "{dir}: no such folder, so each name is answered by 404"
        );
    }
    let announced = print_listening(&mut console.out);
    if let Err(error) = announced {
        return console.faults.check_print(Err(error), FAILED);
    }
    serve_connections(&listener, &mut folder, options, console)
}

fn print_listening<O: Write>(out: &mut O) -> io::Result<()> {
    writeln!(out, "listening")?;
    out.flush()
}

// Serves connections from a shelf, one after another.
fn serve_connections<S: Shelf, O: Write, F: Write + Drop>(
    listener: &TcpListener,
    shelf: &mut S,
    options: ServeOptions<'_>,
    console: &mut Console<'_, O, F>,
) -> u8 {
    for _ in 0..options.count {
        let stream = match accept(listener) {
            Ok(stream) => stream,
            Err(error) => return console
                .faults
                .report_with("Accept", "the next connection", error, FAILED),
        };
        let outcome = serve_connection(console.rt, &stream, shelf, options.time);
        if let Err(error) = print_outcome(&mut console.out, outcome) {
            return console.faults.check_print(Err(error), FAILED);
        }
    }
    DONE
}

// Accepts the next connection. It waits for another one if a client leaves before it is accepted, and if a signal
// comes. The loop has an end that it does not reach, since each function must return.
fn accept(listener: &TcpListener) -> io::Result<TcpStream> {
    for _ in 0..u64::MAX {
        match listener.accept() {
            Ok((stream, _)) => return Ok(stream),
            Err(error) if is_passing(error.kind()) => {}
            Err(error) => return Err(error),
        }
    }
    Err(io::Error::from(ErrorKind::Interrupted))
}

fn is_passing(kind: ErrorKind) -> bool {
    kind == ErrorKind::ConnectionAborted || kind == ErrorKind::Interrupted
}

// Serves one request of a connection, and returns the status of the response.
fn serve_connection<S: Shelf>(
    rt: &HostRuntime,
    stream: &TcpStream,
    shelf: &mut S,
    time: Duration,
) -> Result<u16, HttpFault> {
    let Ok(mut reader) = TimedReader::new(rt, stream, time) else {
        return Err(HttpFault::Read);
    };
    let Ok(mut writer) = TimedWriter::new(rt, stream, time) else {
        return Err(HttpFault::Write);
    };
    let status = serve_one(rt.alloc(), &mut reader, &mut writer, shelf)?;
    if status == BAD_REQUEST || status == NOT_IMPLEMENTED {
        end_response(stream);
    }
    Ok(status)
}

// Ends the response to a request that was not read to its end, by a lingering close. A connection that is closed over
// unread bytes is reset, and the client may lose the response. So this ends our side first, and then reads some of
// them.
fn end_response(stream: &TcpStream) {
    let _ = stream.shutdown(Shutdown::Write);
    let _ = stream.set_read_timeout(Some(Duration::from_millis(LINGERING_WAIT)));
    let mut unread = [0u8; 4_096];
    let mut reader = stream;
    for _ in 0..LINGERING_READS {
        match reader.read(&mut unread) {
            Ok(0) => break,
            Ok(_) => {}
            Err(_) => break,
        }
    }
}

fn print_outcome<O: Write>(out: &mut O, outcome: Result<u16, HttpFault>) -> io::Result<()> {
    match outcome {
        Ok(status) => writeln!(out, "served {status}")?,
        Err(fault) => writeln!(out, "fault {fault}")?,
    }
    out.flush()
}
