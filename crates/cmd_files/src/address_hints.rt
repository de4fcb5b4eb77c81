//! Hints below the fault of an address: what it lacks or has too much, and what may be the cause of an error there.
use feed_console::Console;
use feed_http::is_host;
use std::io::{ErrorKind, Write};

/// Notes what an address lacks or has too much of an IP address or a host, and a port.
pub fn note_address<O: Write, F: Write + Drop>(addr: &str, console: &mut Console<'_, O, F>) {
    if is_number(addr) {
        let hint = format_args!("add an address, as 127.0.0.1:{addr}");
        console.faults.note(addr, hint);
    } else if is_host(addr.as_bytes()) && lacks_port(addr) {
        let hint = format_args!("add a port, as {addr}:8080");
        console.faults.note(addr, hint);
    } else if let Some(host) = host_in(addr) {
        let hint = format_args!("leave http:// and the path out: {host}");
        console.faults.note(addr, hint);
    } else if has_large_port(addr) {
        console
            .faults
            .note(addr, "a port is a number from 1 to 65535");
    }
}

/// Notes what may be the cause of an error at an address: that nobody or another program listens there.
pub fn note_listener<O: Write, F: Write + Drop>(
    addr: &str,
    kind: ErrorKind,
    console: &mut Console<'_, O, F>,
) {
    match kind {
        ErrorKind::AddrInUse => {
            let hint = "another program listens there: choose another port";
            console.faults.note(addr, hint);
        }
        ErrorKind::ConnectionRefused => {
            let hint = "nobody listens there: is a knowledge base running at this address?";
            console.faults.note(addr, hint);
        }
        _ => {}
    }
}

fn is_number(text: &str) -> bool {
    !text.is_empty() && text.as_bytes().iter().all(|byte| byte.is_ascii_digit())
}

// Returns whether an address is a host without a port: a name or an IPv4 address without a colon, or an IPv6 address in
// brackets.
fn lacks_port(addr: &str) -> bool {
    let bytes = addr.as_bytes();
    match bytes
        .iter()
        .rposition(|byte| *byte == b':' || *byte == b']')
    {
        Some(place) => bytes[place] == b']',
        None => !bytes.is_empty(),
    }
}

// Returns the host and the port of an http URL.
fn host_in(url: &str) -> Option<&str> {
    let rest = url.strip_prefix("http://")?;
    let host = match rest.split_once('/') {
        Some((host, _)) => host,
        None => rest,
    };
    if is_host(host.as_bytes()) {
        Some(host)
    } else {
        None
    }
}

// Returns whether an address ends with a colon and a number that is not a port.
fn has_large_port(addr: &str) -> bool {
    match addr.rsplit_once(':') {
        Some((_, port)) => is_number(port) && port.parse::<u16>().is_err(),
        None => false,
    }
}
