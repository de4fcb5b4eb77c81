//! TCP streams with a deadline for each exchange, so that a slow peer cannot keep one open.
ghost use Rattle.std.specs.Prelude.{◌≤◌, length, IfOk};
ghost use Rattle.std.specs.Counts.{IsPrefixLen};

use std::cell::RefCell;
use std::io;
use std::io::{ErrorKind, Read, Write};
use std::net::TcpStream;
use std::time::{Duration, Instant};

// The bytes that have to move per second, on average, once the time is over.
const PACE: u64 = 65_536;

// The deadline of an exchange, the most that one call may wait, when the socket's timeout was last set, and the bytes
// moved since the deadline was last extended.
#[derive(Clone, Copy)]
struct Deadline {
    ends: Instant,
    time: Duration,
    set: Instant,
    moved: u64,
}

impl Deadline {
    fn new(rt: &HostRuntime, time: Duration) -> io::Result<Deadline> {
        let now = Instant::now(rt)?;
        let Some(ends) = now.checked_add(time) else {
            return Err(io::Error::from(ErrorKind::InvalidInput));
        };
        Ok(Deadline {
            ends,
            time,
            set: now,
            moved: 0,
        })
    }

    // Returns the most that the next call may wait, or `None` if the socket's timeout is recent enough. It is set at
    // most once a second, because setting it is a system call.
    fn next_timeout(&mut self, rt: &HostRuntime) -> io::Result<Option<Duration>> {
        let now = Instant::now(rt)?;
        let left = self.ends.saturating_duration_since(now);
        if left.is_zero() {
            return Err(io::Error::from(ErrorKind::TimedOut));
        }
        if now.saturating_duration_since(self.set).as_secs() == 0 {
            return Ok(None);
        }
        self.set = now;
        Ok(Some(left.min(self.time)))
    }

    // Extends the deadline by a second for each `PACE` bytes moved.
    fn extend(&mut self, count: usize) {
        self.moved = self.moved.saturating_add(count as u64);
        if self.moved >= PACE {
            let more = Duration::from_secs(self.moved / PACE);
            if let Some(ends) = self.ends.checked_add(more) {
                self.ends = ends;
            }
            self.moved %= PACE;
        }
    }

    // Reads before the deadline.
    fn read(
        &mut self,
        rt: &HostRuntime,
        mut stream: &TcpStream,
        buf: &mut [u8],
    ) -> io::Result<usize>
        ensures { IfOk result (λ count. IsPrefixLen count buf.new) }
    {
        if let Some(timeout) = self.next_timeout(rt)? {
            stream.set_read_timeout(Some(timeout))?;
        }
        stream.read(buf)
    }

    // Writes before the deadline, and extends it by the bytes written.
    fn write(&mut self, rt: &HostRuntime, mut stream: &TcpStream, buf: &[u8]) -> io::Result<usize>
        ensures { IfOk result (λ count. count ≤ length buf.now) }
    {
        if let Some(timeout) = self.next_timeout(rt)? {
            stream.set_write_timeout(Some(timeout))?;
        }
        let count = stream.write(buf)?;
        self.extend(count);
        Ok(count)
    }
}

/// The receiving side of a connection. All bytes have to arrive within the time.
#[derive(Drop)]
pub struct TimedReader<'a> {
    rt: &'a HostRuntime,
    stream: &'a TcpStream,
    deadline: Deadline,
}

impl<'a> TimedReader<'a> {
    pub fn new(
        rt: &'a HostRuntime,
        stream: &'a TcpStream,
        time: Duration,
    ) -> io::Result<TimedReader<'a>> {
        stream.set_read_timeout(Some(time))?;
        let deadline = Deadline::new(rt, time)?;
        Ok(TimedReader {
            rt,
            stream,
            deadline,
        })
    }
}

impl Read for TimedReader<'_> {
    ghost use Rattle.std.specs.Prelude.{None};

    ghost remaining = { λ _. None };

    fn read(&mut self, buf: &mut [u8]) -> io::Result<usize> {
        self.deadline.read(self.rt, self.stream, buf)
    }
}

/// The sending side of a connection. No write waits longer than the time, and all bytes have to be sent within the time
/// plus a second for each 65,536 bytes sent.
#[derive(Drop)]
pub struct TimedWriter<'a> {
    rt: &'a HostRuntime,
    stream: &'a TcpStream,
    deadline: Deadline,
}

impl<'a> TimedWriter<'a> {
    pub fn new(
        rt: &'a HostRuntime,
        stream: &'a TcpStream,
        time: Duration,
    ) -> io::Result<TimedWriter<'a>> {
        stream.set_write_timeout(Some(time))?;
        let deadline = Deadline::new(rt, time)?;
        Ok(TimedWriter {
            rt,
            stream,
            deadline,
        })
    }
}

impl Write for TimedWriter<'_> {
    fn write(&mut self, buf: &[u8]) -> io::Result<usize> {
        self.deadline.write(self.rt, self.stream, buf)
    }

    fn flush(&mut self) -> io::Result<()> {
        self.stream.flush()
    }
}

/// The last error of the system about a connection.
#[derive(Drop)]
pub struct Cause {
    kept: RefCell<Option<io::Error>>,
}

impl Cause {
    pub fn new() -> Cause {
        Cause {
            kept: RefCell::new(None),
        }
    }

    /// Stores an error, and returns another one of the same kind.
    pub fn keep(&self, fault: io::Error) -> io::Error {
        let kind = fault.kind();
        if let Ok(mut kept) = self.kept.try_borrow_mut() {
            *kept = Some(fault);
        }
        io::Error::from(kind)
    }

    pub fn into_inner(self) -> Option<io::Error> {
        self.kept.into_inner()
    }
}

/// A connection with a deadline. Neither a read nor a write waits longer than the time, and the exchange has to end
/// within the time plus a second for each 65,536 bytes moved. Stores the error of a failed call.
#[derive(Drop)]
pub struct TimedStream<'a> {
    rt: &'a HostRuntime,
    stream: TcpStream,
    deadline: Deadline,
    cause: &'a Cause,
}

impl<'a> TimedStream<'a> {
    pub fn new(
        rt: &'a HostRuntime,
        stream: TcpStream,
        time: Duration,
        cause: &'a Cause,
    ) -> io::Result<TimedStream<'a>> {
        stream.set_read_timeout(Some(time))?;
        stream.set_write_timeout(Some(time))?;
        let deadline = Deadline::new(rt, time)?;
        Ok(TimedStream {
            rt,
            stream,
            deadline,
            cause,
        })
    }

    // Stores the error. A call that waited too long fails with `TimedOut`, which says more than `WouldBlock`.
    fn keep(&self, fault: io::Error) -> io::Error {
        match fault.kind() {
            ErrorKind::WouldBlock => self.cause.keep(io::Error::from(ErrorKind::TimedOut)),
            _ => self.cause.keep(fault),
        }
    }
}

impl Read for TimedStream<'_> {
    ghost use Rattle.std.specs.Prelude.{None};

    ghost remaining = { λ _. None };

    fn read(&mut self, buf: &mut [u8]) -> io::Result<usize> {
        match self.deadline.read(self.rt, &self.stream, buf) {
            Ok(count) => {
                self.deadline.extend(count);
                Ok(count)
            }
            Err(fault) => Err(self.keep(fault)),
        }
    }
}

impl Write for TimedStream<'_> {
    fn write(&mut self, buf: &[u8]) -> io::Result<usize> {
        match self.deadline.write(self.rt, &self.stream, buf) {
            Ok(count) => Ok(count),
            Err(fault) => Err(self.keep(fault)),
        }
    }

    fn flush(&mut self) -> io::Result<()> {
        self.stream.flush()
    }
}
