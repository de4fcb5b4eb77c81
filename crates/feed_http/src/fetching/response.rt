//! Reads one response at the client end: from bytes at hand, or from a reader.
ghost use Rattle.std.specs.Prelude.{◌≡◌, ◌≤◌, ◌-◌, ◌++◌, ℕ, List, length, take, drop};
ghost use Rattle.std.specs.Prelude.{IfOk, IfErr, IfSome, OnOk, Some, Err};
ghost use Rattle.feed_http.specs.ArrivingChunks.{IsKept, IsTakingFault};
ghost use Rattle.feed_http.specs.Got.{IsResultOf, IsReadingFault};
ghost use Rattle.feed_http.specs.ArrivingResponses.{HasPassedResponse, IsResponseTaken, file_length};

use crate::fetching::got::{Got, Method};
use crate::fetching::response_machine::{ResponseMachine, StreamEnd};
use crate::fetching::step::Step;
use feed_http_heads::{HEAD_LIMIT, HttpFault, read_some};
use feed_limits::FILE_LIMIT;
use std::alloc::{AllocError, Global};
use std::io::Read;

/// How many of the bytes at hand were taken.
#[derive(Clone, Copy, Debug)]
pub struct Taken {
    /// Their number. The caller keeps the others until more have arrived.
    pub count: usize,
    /// Whether the response is complete.
    pub is_over: bool,
}

// Appends the bytes to the body, and takes memory for this many more.
fn append(body: &mut Vec<u8>, bytes: &[u8], ahead: usize) -> Result<(), AllocError>
    ensures items { OnOk result (body.new.items ≡ body.old.items ++ bytes.now) }
{
    body.reserve(bytes.len().saturating_add(ahead))?;
    body.extend_from_slice(bytes)
}

impl ResponseMachine {
    /// Takes as many of the bytes at hand as it can, and appends those of the body. The caller may have removed earlier
    /// ones of the body. Takes memory for at most `ahead` bytes of the body that are still to come.
    ///
    /// # Errors
    ///
    /// The fault of the response, whatever follows; `Memory` if the body cannot be extended.
    pub fn take(
        &mut self,
        bytes: &[u8],
        body: &mut Vec<u8>,
        ahead: usize,
    ) -> Result<Taken, HttpFault>
        ensures method { self.new.method ≡ self.old.method }
        ensures stated { IfSome (file_length self.old.place) (λ size. file_length self.new.place ≡ Some size) }
        ensures within { IfOk result (λ taken. taken.count ≤ length bytes.now) }
        ensures kept { IfOk result (λ taken. IsKept taken.is_over (length bytes.now - taken.count)) }
        ensures taken { (text before : List ℕ) → HasPassedResponse self.old text (before ++ body.old.items)
            → IfOk result (λ taken. IsResponseTaken self.new (text ++ take taken.count bytes.now)
            (before ++ body.new.items) (drop taken.count bytes.now) taken.is_over) }
        ensures faults { (text before : List ℕ) → HasPassedResponse self.old text (before ++ body.old.items)
            → IfErr result (λ fault. (more : List ℕ)
            → IsResultOf self.old.method (text ++ (bytes.now ++ more)) (Err fault)) }
        ensures shown { IfErr result IsTakingFault }
    {
        let mut count = 0usize;
        'steps: loop {
            match self.step(&bytes[count..]) {
                Step::Wait => {
                    return Ok(Taken {
                        count,
                        is_over: false,
                    });
                }
                Step::Skip(passed) => count += passed,
                Step::Body(passed) => {
                    let ahead = self.missing().min(ahead);
                    let Ok(()) = append(body, &bytes[count..count + passed], ahead) else {
                        return Err(HttpFault::Memory);
                    };
                    count += passed;
                }
                Step::Done => {
                    return Ok(Taken {
                        count,
                        is_over: true,
                    });
                }
                Step::Fault(fault) => return Err(fault),
            }
        }
    }
}

/// Reads one response to a request with this method: its heads, and its body if the head announces one. Skips heads
/// with a status from 100 to 199. May read past the response.
///
/// Returns a `Piece` or a `Whole` only if all of their bytes have arrived.
///
/// # Errors
///
/// The first that applies. For the heads: `Read`, `Short`, `HeadTooLong`, `BadHead`. `Status` if the status is neither
/// 200 nor 404 nor, for GET, 206 or 416. `Coding` for a content coding other than `identity` or, for GET, a transfer
/// coding other than `chunked`. `Range` if a 206 does not have exactly one Content-Range with a range, or if a 416 has
/// a Content-Range without the length. `BodyTooLong` for a range of more than 1,048,576 bytes, or a file of more than
/// 268,435,456 bytes. `Length` if Content-Length does not state one length (that of the range for a 206), or if the
/// body has another one. For the body: `Read`, `Short`, `Coding` and `Memory`.
pub fn read_reply<R: Read>(alloc: Global, reader: &mut R, method: Method) -> Result<Got, HttpFault>
    ensures reply { IfSome (R.remaining reader.old) (λ text. IsResultOf method text result) }
    ensures faults { IfErr result IsReadingFault }
{
    let mut machine = ResponseMachine::new(method);
    let mut body = Vec::new(alloc);
    let mut buffer = [0u8; HEAD_LIMIT];
    let mut filled = 0usize;
    'reads: for _ in 0..u64::MAX {
        let taken = machine.take(&buffer[..filled], &mut body, FILE_LIMIT)?;
        if taken.is_over {
            match machine.finish(body) {
                Some(got) => return Ok(got),
                None => return Err(HttpFault::Read),
            }
        }
        buffer.copy_within(taken.count..filled, 0);
        filled -= taken.count;
        match read_some(reader, &mut buffer[filled..]) {
            Ok(count) => filled += count,
            Err(HttpFault::Short) => return machine.end(StreamEnd::Closed, body),
            Err(_) => return machine.end(StreamEnd::Failed, body),
        }
    }
    Err(HttpFault::Read)
}
