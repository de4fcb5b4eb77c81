//! Writes the heads of responses (RFC 9112, section 4).
ghost use Rattle.std.specs.Prelude.{◌≡◌, OnOk, IfOk, IsOkUnless};
ghost use Rattle.std.specs.Io.KnownBytes.{Appends};
ghost use Rattle.feed_http.specs.Responses.{status_of, head_text, refusal_text, IsPartInside};

use arrayvec::ArrayVec;
use feed_http_heads::HttpFault;
use std::io;
use std::io::Write;

const LONGEST_HEAD: usize = 512;

/// The head of a response. Lengths are in bytes, and places count from 0.
#[derive(Clone, Copy)]
pub(crate) enum ServerHead {
    /// The complete file follows, unless the request is a HEAD.
    Whole { length: u64 },
    /// The range from the first to the last place follows, both included.
    Part { first: u64, last: u64, length: u64 },
    BadRequest,
    NotFound,
    /// The file has no byte of the requested range.
    Unsatisfied { length: u64 },
    NotImplemented,
}

impl ServerHead {
    /// Returns the status code (RFC 9110, section 15).
    pub(crate) fn status(self) -> u16
        ensures { result ≡ status_of self }
    {
        match self {
            ServerHead::Whole { .. } => 200,
            ServerHead::Part { .. } => 206,
            ServerHead::BadRequest => 400,
            ServerHead::NotFound => 404,
            ServerHead::Unsatisfied { .. } => 416,
            ServerHead::NotImplemented => 501,
        }
    }

    /// Writes the head, all of it at once, and returns its status.
    pub(crate) fn write<W: Write>(self, writer: &mut W) -> Result<u16, HttpFault>
        requires { IsPartInside self }
        ensures status { IfOk result (λ status. status ≡ status_of self) }
        ensures head { OnOk result
            (Appends (W.contents writer.old) (W.contents writer.new) (head_text self)) }
        ensures faults { IsOkUnless result HttpFault.Write }
    {
        let mut text = ArrayVec::<u8, LONGEST_HEAD>::new();
        let Ok(()) = self.format(&mut text) else {
            return Err(HttpFault::Write);
        };
        let Ok(()) = writer.write_all(text.as_slice()) else {
            return Err(HttpFault::Write);
        };
        Ok(self.status())
    }

    fn format<W: Write>(self, out: &mut W) -> io::Result<()>
        requires { IsPartInside self }
        ensures { OnOk result (Appends (W.contents out.old) (W.contents out.new) (head_text self)) }
    {
        match self {
            ServerHead::Whole { length } => format_whole(out, length),
            ServerHead::Part {
                first,
                last,
                length,
            } => format_part(out, first, last, length),
            ServerHead::BadRequest => format_refusal(out, "400 Bad Request"),
            ServerHead::NotFound => format_refusal(out, "404 Not Found"),
            ServerHead::Unsatisfied { length } => format_unsatisfied(out, length),
            ServerHead::NotImplemented => format_refusal(out, "501 Not Implemented"),
        }
    }
}

fn format_whole<W: Write>(out: &mut W, length: u64) -> io::Result<()>
    ensures { OnOk result
        (Appends (W.contents out.old) (W.contents out.new) (head_text (ServerHead.Whole length))) }
{
    write!(
        out,
        "HTTP/1.1 200 OK\r\n\
         Content-Type: application/octet-stream\r\n\
         Accept-Ranges: bytes\r\n\
         Content-Length: {length}\r\n\
         Connection: close\r\n\r\n"
    )
}

fn format_part<W: Write>(out: &mut W, first: u64, last: u64, length: u64) -> io::Result<()>
    requires { IsPartInside (ServerHead.Part first last length) }
    ensures { OnOk result (Appends (W.contents out.old) (W.contents out.new)
        (head_text (ServerHead.Part first last length))) }
{
    let count = last - first + 1;
    write!(
        out,
        "HTTP/1.1 206 Partial Content\r\n\
         Content-Type: application/octet-stream\r\n\
         Accept-Ranges: bytes\r\n\
         Content-Range: bytes {first}-{last}/{length}\r\n\
         Content-Length: {count}\r\n\
         Connection: close\r\n\r\n"
    )
}

fn format_unsatisfied<W: Write>(out: &mut W, length: u64) -> io::Result<()>
    ensures { OnOk result (Appends (W.contents out.old) (W.contents out.new)
        (head_text (ServerHead.Unsatisfied length))) }
{
    write!(
        out,
        "HTTP/1.1 416 Range Not Satisfiable\r\n\
         Accept-Ranges: bytes\r\n\
         Content-Range: bytes */{length}\r\n\
         Content-Length: 0\r\n\
         Connection: close\r\n\r\n"
    )
}

fn format_refusal<W: Write>(out: &mut W, status: &str) -> io::Result<()>
    ensures { OnOk result
        (Appends (W.contents out.old) (W.contents out.new) (refusal_text status.now)) }
{
    write!(
        out,
        "HTTP/1.1 {status}\r\n\
         Content-Length: 0\r\n\
         Connection: close\r\n\r\n"
    )
}
