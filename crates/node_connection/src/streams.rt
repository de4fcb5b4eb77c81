//! Runs a connection over the two sides of a stream that does not block, one bounded turn after the other.
ghost use Rattle.std.specs.Prelude.{◌≡◌, ◌≢◌, ◌⊎◌, ℕ, List, Option};
ghost use Rattle.node_connection.specs.Events.{Event};
ghost use Rattle.node_connection.specs.States.{HasState, wants_in};
ghost use Rattle.node_connection.specs.Streams.{IsAdvanced, HasAdvanced, HasRead, HasWritten, IsStopped, WaitsFor};

use crate::connection::Connection;
use crate::phase::Wants;
use crate::respond::Respond;
use crate::sides::{Receive, Sides, Transmit};
use std::alloc::Global;
use std::io::ErrorKind;

/// The work that is left to a connection in a turn.
#[derive(Clone, Copy, Debug)]
pub struct Share {
    /// The bytes that it may receive.
    pub bytes: usize,
    /// The responses that it may make.
    pub responses: usize,
}

/// The work that one connection may do in a turn.
pub const TURN_SHARE: Share = Share {
    bytes: 16_384,
    responses: 1,
};

/// Why a connection stops.
#[derive(Clone, Copy, Debug, PartialEq, Eq)]
pub enum Progress {
    /// It does not: there may be more to do.
    Moved,
    /// It waits for its socket, for `resume` or to be closed.
    Blocked,
    /// Its share of the turn is used.
    Spent,
}

/// Receives, responses and sends until the reader or the writer would block, a response was sent, or the share is used.
pub fn run_connection<S: Respond, R: Receive, W: Transmit>(
    connection: &mut Connection,
    alloc: Global,
    responder: &S,
    sides: &mut Sides<R, W>,
    buffer: &mut [u8],
    share: &mut Share,
) -> Progress
    requires may_read { R.may_read sides.old.reader }
    requires may_write { W.may_write sides.old.writer }
    ensures advanced { IsAdvanced (S.wanted responder.now, S.responses responder.now) share.old share.new
        connection.old connection.new (R.remaining sides.old.reader) (R.remaining sides.new.reader)
        (W.contents sides.old.writer) (W.contents sides.new.writer) }
    ensures still { result ≢ Progress.Moved }
    ensures stopped { IsStopped result share.new connection.new }
    ensures receives { result ≡ Progress.Blocked → wants_in connection.new.phase ≡ Wants.Bytes
        → R.has_blocked sides.new.reader }
    ensures sends { result ≡ Progress.Blocked → wants_in connection.new.phase ≡ Wants.Room
        → W.has_blocked sides.new.writer }
{
    for _ in 0..u64::MAX {
        let progress = step(connection, alloc, responder, sides, buffer, share);
        if progress != Progress::Moved {
            return progress;
        }
    }
    connection.end();
    Progress::Blocked
}

// Does the next thing that the connection wants.
fn step<S: Respond, R: Receive, W: Transmit>(
    connection: &mut Connection,
    alloc: Global,
    responder: &S,
    sides: &mut Sides<R, W>,
    buffer: &mut [u8],
    share: &mut Share,
) -> Progress
    requires may_read { R.may_read sides.old.reader }
    requires may_write { W.may_write sides.old.writer }
    ensures advanced { IsAdvanced (S.wanted responder.now, S.responses responder.now) share.old share.new
        connection.old connection.new (R.remaining sides.old.reader) (R.remaining sides.new.reader)
        (W.contents sides.old.writer) (W.contents sides.new.writer) }
    ensures stopped { IsStopped result share.new connection.new }
    ensures receives { result ≡ Progress.Blocked → wants_in connection.new.phase ≡ Wants.Bytes
        → R.has_blocked sides.new.reader }
    ensures sends { result ≡ Progress.Blocked → wants_in connection.new.phase ≡ Wants.Room
        → W.has_blocked sides.new.writer }
    ensures may_read { result ≡ Progress.Moved → R.may_read sides.new.reader }
    ensures may_write { result ≡ Progress.Moved → W.may_write sides.new.writer }
{
    match connection.wants() {
        Wants::Bytes => receive_once(connection, &mut sides.reader, buffer, share),
        Wants::Parse => parse_once(connection, alloc, responder, share),
        Wants::Room => send_once(connection, alloc, &mut sides.writer),
        Wants::Next => Progress::Blocked,
        Wants::Close => Progress::Blocked,
    }
}

fn parse_once<S: Respond>(
    connection: &mut Connection,
    alloc: Global,
    responder: &S,
    share: &mut Share,
) -> Progress
    requires { wants_in connection.old.phase ≡ Wants.Parse }
    ensures advanced { (history : List Event) (unread unwritten : Option (List ℕ)) → HasState connection.old history
        → HasAdvanced (S.wanted responder.now, S.responses responder.now) share.old share.new connection.new history
        unread unread unwritten unwritten }
    ensures stopped { IsStopped result share.new connection.new }
    ensures parsed { result ≢ Progress.Blocked }
{
    if share.responses == 0 {
        return Progress::Spent;
    }
    if connection.parse_request(alloc, responder) {
        share.responses -= 1;
    }
    Progress::Moved
}

// Reads no more than there is room for, and than the share allows.
fn receive_once<R: Receive>(
    connection: &mut Connection,
    reader: &mut R,
    buffer: &mut [u8],
    share: &mut Share,
) -> Progress
    requires waiting { wants_in connection.old.phase ≡ Wants.Bytes }
    requires may_read { R.may_read reader.old }
    ensures read { (history : List Event) → HasState connection.old history
        → HasRead share.old share.new connection.new history (R.remaining reader.old) (R.remaining reader.new) }
    ensures stopped { IsStopped result share.new connection.new }
    ensures blocked { result ≡ Progress.Blocked → WaitsFor Wants.Bytes (R.has_blocked reader.new) connection.new }
    ensures may_read { result ≡ Progress.Moved → R.may_read reader.new }
{
    if share.bytes == 0 {
        return Progress::Spent;
    }
    let room = connection.room().min(buffer.len()).min(share.bytes);
    let (space, _) = buffer.split_at_mut(room);
    match reader.read(space) {
        Ok(0) => {
            connection.end();
            Progress::Blocked
        }
        Ok(count) => {
            let (bytes, _) = space.split_at(count);
            connection.receive(bytes);
            share.bytes -= count;
            Progress::Moved
        }
        Err(fault) => handle_error(connection, fault.kind()),
    }
}

fn send_once<W: Transmit>(connection: &mut Connection, alloc: Global, writer: &mut W) -> Progress
    requires waiting { wants_in connection.old.phase ≡ Wants.Room }
    requires may_write { W.may_write writer.old }
    ensures written { (history : List Event) → HasState connection.old history
        → HasWritten connection.new history (W.contents writer.old) (W.contents writer.new) }
    ensures stopped { (share : Share) → IsStopped result share connection.new }
    ensures blocked { result ≡ Progress.Blocked → WaitsFor Wants.Room (W.has_blocked writer.new) connection.new }
    ensures may_write { result ≡ Progress.Moved → W.may_write writer.new }
{
    match writer.write(connection.pending_response()) {
        Ok(0) => {
            connection.end();
            Progress::Blocked
        }
        Ok(count) => {
            connection.mark_sent(alloc, count);
            Progress::Moved
        }
        Err(fault) => handle_error(connection, fault.kind()),
    }
}

// An error other than `WouldBlock` or `Interrupted` ends the connection.
fn handle_error(connection: &mut Connection, fault: ErrorKind) -> Progress
    requires { wants_in connection.old.phase ≢ Wants.Parse }
    ensures state { (history : List Event) → HasState connection.old history
        → HasState connection.new history }
    ensures stopped { (share : Share) → IsStopped result share connection.new }
    ensures blocked { result ≡ Progress.Blocked
        → (fault ≡ ErrorKind.WouldBlock) ⊎ (wants_in connection.new.phase ≡ Wants.Close) }
    ensures moved { result ≡ Progress.Moved → fault ≡ ErrorKind.Interrupted }
    ensures phase { fault ≡ ErrorKind.WouldBlock → connection.new.phase ≡ connection.old.phase }
{
    match fault {
        ErrorKind::WouldBlock => Progress::Blocked,
        ErrorKind::Interrupted => Progress::Moved,
        _ => {
            connection.end();
            Progress::Blocked
        }
    }
}
