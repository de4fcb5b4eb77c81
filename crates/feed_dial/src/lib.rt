//! The trait `Dial`, which makes the connections of a fetch, and TCP connections with a deadline for each exchange.
#![tactic(auto)]

mod tcp_dial;
mod timed;

use std::io::{Read, Write};
pub use tcp_dial::TcpDial;
use thiserror::Error;
pub use timed::{Cause, TimedReader, TimedStream, TimedWriter};

/// Why a connection could not be made.
#[derive(Clone, Copy, Debug, PartialEq, Eq, Error)]
pub enum DialFault {
    /// The peer did not accept the connection.
    #[error("Connect")]
    Connect,
    /// Memory ran out.
    #[error("Memory")]
    Memory,
}

/// Makes the connections of a fetch, one for each request.
pub trait Dial {
    type Conn: Read + Write + Drop;

    ghost use Rattle.std.specs.Prelude.{◌≡◌, [], List, ℕ, Option, Some, None, IfOk, OnOk, IfErr, IsSomeAnd};
    ghost use Rattle.feed_dial.specs.Responses.{Responses, IfKnown};
    ghost use Rattle.feed_dial.specs.declared.DialFault.{DialFault};

    /// The responses that can be read from a connection after a request, if they are known for all connections.
    ghost responses: { Responses };

    /// Why the last call made no connection, or nothing if it made one.
    ghost last_fault: { Self → Option DialFault };

    /// Makes a connection. Nothing has been written to it.
    fn dial(&mut self) -> Result<Self::Conn, DialFault>
        ensures fresh { IfOk result (λ conn. IfKnown responses (λ IsResponseTo. Self.Conn.contents conn ≡ Some [])) }
        ensures made { OnOk result (last_fault self.new ≡ None) }
        ensures refused { IfErr result (λ fault. last_fault self.new ≡ Some fault) };

    /// If the contracts of a connection name what was written to it, they also name what is left to be read, which is a
    /// response to it.
    ghost answers: { (conn : Self.Conn) (text : List ℕ) → IfKnown responses (λ IsResponseTo.
        Self.Conn.contents conn ≡ Some text → IsSomeAnd (Self.Conn.remaining conn) (IsResponseTo text)) };
}
