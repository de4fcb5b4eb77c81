//! The two sides of a stream that does not block.
use std::io;
use std::io::{ErrorKind, Read, Write};

/// The side of a stream that receives.
pub trait Receive {
    ghost use Rattle.std.specs.Prelude.{◌≡◌, List, ℕ, Option, None, IfOk, IfErr};
    ghost use Rattle.std.specs.Io.{ReadsAtMost};
    ghost use Rattle.std.specs.Io.KnownBytes.{ReadConsumes};
    ghost use Rattle.std.specs.IoError.{error_kind};

    /// The bytes that it returns from here on, if they are known.
    ghost remaining: { Self → Option (List ℕ) } = { λ _. None };

    /// It may be read: it has not blocked.
    ghost may_read: { Self → Type 0 } = { λ _. Unit {0} };

    /// The last read blocked: there were no bytes.
    ghost has_blocked: { Self → Type 0 } = { λ _. Unit {0} };

    /// Receives bytes, as `Read::read` does. After `WouldBlock` it may not be read again.
    fn read(&mut self, buffer: &mut [u8]) -> io::Result<usize>
        requires { may_read self.old }
        ensures bound { ReadsAtMost result buffer.new }
        ensures bytes { ReadConsumes (remaining self.old) (remaining self.new) result buffer.new }
        ensures ready { IfOk result (λ _. may_read self.new) }
        ensures again { IfErr result (λ fault. error_kind fault ≡ ErrorKind.Interrupted → may_read self.new) }
        ensures blocked { IfErr result (λ fault. error_kind fault ≡ ErrorKind.WouldBlock → has_blocked self.new) };
}

/// The side of a stream that sends.
pub trait Transmit {
    ghost use Rattle.std.specs.Prelude.{◌≡◌, List, ℕ, Option, None, IfOk, IfErr};
    ghost use Rattle.std.specs.Io.{WritesAtMost};
    ghost use Rattle.std.specs.Io.KnownBytes.{WriteAppends};
    ghost use Rattle.std.specs.IoError.{error_kind};

    /// The bytes that it sent, if they are known.
    ghost contents: { Self → Option (List ℕ) } = { λ _. None };

    /// It may be written: it has not blocked.
    ghost may_write: { Self → Type 0 } = { λ _. Unit {0} };

    /// The last write blocked: there was no room.
    ghost has_blocked: { Self → Type 0 } = { λ _. Unit {0} };

    /// Sends bytes, as `Write::write` does. After `WouldBlock` it may not be written again.
    fn write(&mut self, bytes: &[u8]) -> io::Result<usize>
        requires { may_write self.old }
        ensures bound { WritesAtMost result bytes.now }
        ensures bytes { WriteAppends (contents self.old) (contents self.new) result bytes.now }
        ensures ready { IfOk result (λ _. may_write self.new) }
        ensures again { IfErr result (λ fault. error_kind fault ≡ ErrorKind.Interrupted → may_write self.new) }
        ensures blocked { IfErr result (λ fault. error_kind fault ≡ ErrorKind.WouldBlock → has_blocked self.new) };
}

/// A reader as the receiving side of a stream.
#[derive(Drop)]
pub struct Reading<R> {
    pub reader: R,
}

impl<R: Read> Receive for Reading<R> {
    ghost remaining = { λ side. R.remaining side.reader };

    fn read(&mut self, buffer: &mut [u8]) -> io::Result<usize> {
        self.reader.read(buffer)
    }
}

/// A writer as the sending side of a stream.
#[derive(Drop)]
pub struct Writing<W> {
    pub writer: W,
}

impl<W: Write> Transmit for Writing<W> {
    ghost contents = { λ side. W.contents side.writer };

    fn write(&mut self, bytes: &[u8]) -> io::Result<usize> {
        self.writer.write(bytes)
    }
}

/// Both sides of a stream.
#[derive(Drop)]
pub struct Sides<R, W> {
    pub reader: R,
    pub writer: W,
}
