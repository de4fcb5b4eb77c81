//! Connections to a server over files in memory.
ghost use Rattle.std.specs.Prelude.{◌≡◌, false, ◌++◌, IfOk};
ghost use Rattle.feed_http.specs.MemoryShelves.{file_named};
ghost use Rattle.feed_http.specs.Shelves.{Files};
ghost use Rattle.feed_fetch.specs.Servers.{IsServed};

use feed_dial::{Dial, DialFault};
use feed_http::{MemoryShelf, NamedFile, serve_one};
use feed_http_heads::HttpFault;
use std::alloc::{AllocError, Global};
use std::collections::VecDeque;
use std::io;
use std::io::{ErrorKind, Read, Write};
use std::marker::{Brand, PhantomData};

/// A type that represents a list of files, so that the responses of a dial are a constant of its type.
pub(crate) trait Archive: Drop {
    // The file of each release, if there is one.
    ghost files: { Files };
}

impl Archive for Brand {
    ghost use Rattle.std.specs.Prelude.{None};

    ghost files = { λ _. None };
}

/// Makes connections to a server over the files of the archive.
#[derive(Drop)]
pub(crate) struct MemoryDial<'a, A: Archive> {
    alloc: Global,
    files: &'a [NamedFile],
    archive: PhantomData<A>,
    ghost archived: { file_named files.now ≡ A.files },
}

impl<'a, A: Archive> MemoryDial<'a, A> {
    pub(crate) fn new(alloc: Global, files: &'a [NamedFile]) -> Self
        requires { file_named files.now ≡ A.files }
    {
        MemoryDial {
            alloc,
            files,
            archive: PhantomData,
        }
    }
}

/// A connection to the server. It responds at once to what is written, and the response can then be read.
#[derive(Drop)]
pub(crate) struct MemoryConn<'a, A: Archive> {
    alloc: Global,
    files: &'a [NamedFile],
    archive: PhantomData<A>,
    written: Vec<u8>,
    reply: VecDeque<u8>,
    is_read: bool,
    ghost archived: { file_named files.now ≡ A.files },
    ghost replied: { is_read ≡ false → IsServed A.files written.items reply.items },
}

impl<A: Archive> Read for MemoryConn<'_, A> {
    ghost use Rattle.std.specs.Prelude.{Some};

    ghost remaining = { λ conn. Some conn.reply.items };

    fn read(&mut self, buf: &mut [u8]) -> io::Result<usize> {
        self.is_read = true;
        self.reply.read(buf)
    }
}

/// Its contracts name what was written until something is read. A write that fails changes nothing.
impl<A: Archive> Write for MemoryConn<'_, A> {
    ghost use Rattle.feed_fetch.specs.MemoryConns.{unless_read};

    ghost contents = { λ conn. unless_read conn.is_read conn.written.items };

    fn write(&mut self, buf: &[u8]) -> io::Result<usize> {
        let written = concat(self.alloc, &self.written, buf)?;
        self.reply = response_to(self.alloc, self.files, &written)?;
        self.written = written;
        Ok(buf.len())
    }

    fn flush(&mut self) -> io::Result<()> {
        Ok(())
    }
}

impl<'a, A: Archive> Dial for MemoryDial<'a, A> {
    ghost use Rattle.std.specs.Prelude.{None};
    ghost use Rattle.feed_dial.specs.Responses.{Known};
    ghost use Rattle.feed_fetch.specs.Servers.{IsServed};
    ghost use Rattle.feed_fetch.specs.MemoryConns.{IsSomeAnd-unless_read};

    type Conn = MemoryConn<'a, A>;

    ghost responses = { Known (IsServed A.files) };

    ghost last_fault = { λ _. None };

    fn dial(&mut self) -> Result<MemoryConn<'a, A>, DialFault> {
        Ok(MemoryConn {
            alloc: self.alloc,
            files: self.files,
            archive: PhantomData,
            written: Vec::new(self.alloc),
            reply: VecDeque::new(self.alloc),
            is_read: false,
        })
    }

    ghost answers = { λ conn text is.
        IsSomeAnd-unless_read conn.is_read conn.written.items conn.reply.items text A.files conn.replied is };
}

/// Appends more bytes to a copy of what was written.
pub(crate) fn concat(alloc: Global, written: &[u8], more: &[u8]) -> Result<Vec<u8>, AllocError>
    ensures { IfOk result (λ text. text.items ≡ written.now ++ more.now) }
{
    let mut text = Vec::from_slice(alloc, written)?;
    text.extend_from_slice(more)?;
    Ok(text)
}

/// Returns the response to a text. It is empty if the text ends inside the head of a request.
pub(crate) fn response_to(
    alloc: Global,
    files: &[NamedFile],
    text: &[u8],
) -> io::Result<VecDeque<u8>>
    ensures { IfOk result (λ reply. IsServed (file_named files.now) text.now reply.items) }
{
    let mut left = text;
    let mut reply = VecDeque::new(alloc);
    match serve_one(alloc, &mut left, &mut reply, &mut MemoryShelf { files }) {
        Ok(_) => Ok(reply),
        Err(HttpFault::Short) => Ok(reply),
        Err(HttpFault::Memory) => Err(io::Error::from(ErrorKind::OutOfMemory)),
        Err(_) => Err(io::Error::from(ErrorKind::ConnectionAborted)),
    }
}
