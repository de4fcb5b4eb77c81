//! Makes TCP connections with a deadline, one for each request of a fetch.
use crate::timed::{Cause, TimedStream};
use crate::{Dial, DialFault};
use std::io;
use std::io::ErrorKind;
use std::net::{TcpStream, ToSocketAddrs};
use std::time::Duration;

/// Connects, for each request, to the first address of a host and port that accepts. Connecting may take the given
/// time, and the exchange has a deadline. Stores the system's error if a connection fails.
#[derive(Drop)]
pub struct TcpDial<'a> {
    rt: &'a HostRuntime,
    addr: &'a str,
    time: Duration,
    cause: &'a Cause,
    last_fault: Option<DialFault>,
}

impl<'a> TcpDial<'a> {
    pub fn new(
        rt: &'a HostRuntime,
        addr: &'a str,
        time: Duration,
        cause: &'a Cause,
    ) -> TcpDial<'a> {
        TcpDial {
            rt,
            addr,
            time,
            cause,
            last_fault: None,
        }
    }

    // Returns why a connection was not made, and keeps the system's error.
    fn fault_of(&self, error: io::Error) -> DialFault {
        if error.kind() == ErrorKind::OutOfMemory {
            return DialFault::Memory;
        }
        let _ = self.cause.keep(error);
        DialFault::Connect
    }

    // Returns a connection to the first address that accepts.
    fn connect(&self) -> io::Result<TimedStream<'a>> {
        let mut last = io::Error::from(ErrorKind::NotFound);
        for addr in self.addr.to_socket_addrs(self.rt)? {
            match TcpStream::connect_timeout(self.rt, &addr, self.time) {
                Ok(stream) => return TimedStream::new(self.rt, stream, self.time, self.cause),
                Err(fault) => last = fault,
            }
        }
        Err(last)
    }
}

impl<'a> Dial for TcpDial<'a> {
    ghost use Rattle.feed_dial.specs.Responses.{Unknown};

    type Conn = TimedStream<'a>;

    ghost responses = { Unknown };

    ghost last_fault = { λ dial. dial.last_fault };

    fn dial(&mut self) -> Result<TimedStream<'a>, DialFault> {
        let outcome = match self.connect() {
            Ok(stream) => Ok(stream),
            Err(error) => Err(self.fault_of(error)),
        };
        self.last_fault = outcome.as_ref().err().copied();
        outcome
    }

    ghost answers = { λ _ _. tt };
}
