//! How many descriptors the process may still open.
use mio::Poll;
use std::alloc::AllocGlobal;
use std::net::Net;

// The descriptors that stay free of clients: for the poll and the listener, the database, the connection of a fetch,
// and a client that is accepted before another one is closed.
const RESERVE: usize = 16;

/// Returns for how many clients there are descriptors, up to a number. Opens them to find out, and closes them again.
pub(crate) fn available_clients<R: Net + AllocGlobal>(rt: &R, wanted: usize) -> usize {
    let mut polls = Vec::new(rt.alloc());
    for _ in 0..wanted.saturating_add(RESERVE) {
        match Poll::new(rt) {
            Ok(poll) => {
                if polls.push(poll).is_err() {
                    break;
                }
            }
            Err(_) => break,
        }
    }
    polls.len().saturating_sub(RESERVE)
}
