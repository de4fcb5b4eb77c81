//! Serves one request: reads its head and writes one response.
ghost use Rattle.std.specs.Prelude.{◌≡◌, ◌≤◌, ◌+◌, ◌⊎◌};
ghost use Rattle.std.specs.Prelude.{IfSome, IsSomeAnd, IfErr, IsErrOf, Option, length, slice_range};
ghost use Rattle.std.specs.Io.KnownBytes.{Keeps};
ghost use Rattle.httparse.specs.Grammar.{RequestHead};
ghost use Rattle.feed_range.specs.RangeAsk.{IsInside};
ghost use Rattle.feed_names.specs.ReleaseName.{Name};
ghost use Rattle.feed_http_heads.specs.Limits.{head_limit, field_limit};
ghost use Rattle.feed_http_heads.specs.RequestHeads.{BeginsWithHead};
ghost use Rattle.feed_http_heads.specs.Requests.{IsInBuffer, HasHead};
ghost use Rattle.feed_http.specs.Requests.{IsNamedBy};
ghost use Rattle.feed_http.specs.Responses.{IsPartInside};
ghost use Rattle.feed_http.specs.Shelves.{IsCounted, IsShelfKept};
ghost use Rattle.feed_http.specs.ServerResponses.{server_response, response_without_file, part_response, file_response};
ghost use Rattle.feed_http.specs.ServerResponses.{IsOutcomeOf};
ghost use Rattle.feed_http.specs.ServerResponses.{IsRefusalOf};
ghost use Rattle.feed_http.specs.ServerResponses.{IsResponseFault, IsServingFault, with_body};

use crate::serving::request;
use crate::serving::response_head::ServerHead;
use crate::serving::send::send;
use crate::serving::shelf::Shelf;
use feed_http_heads::{FIELD_LIMIT, HEAD_LIMIT, HttpFault, Request, read_request};
use feed_names::ReleaseName;
use feed_range::RangeAsk;
use httparse::spans::EMPTY_HEADER_SPAN;
use std::alloc::Global;
use std::io::{Read, Write};
use std::ops::Range;

fn response_with<W: Write, S: Shelf>(
    alloc: Global,
    writer: &mut W,
    shelf: &mut S,
    name: &ReleaseName,
    head: ServerHead,
    places: Range<u64>,
) -> Result<u16, HttpFault>
    requires part { IsPartInside head }
    requires ordered { places.start ≤ places.end }
    requires inside { IfSome (S.files shelf.old) (λ files.
        IsSomeAnd (files name.now) (λ file. places.end ≤ length file)) }
    ensures reply { IfSome (S.files shelf.old) (λ files. IfSome (files name.now) (λ file.
        IsOutcomeOf (with_body head (slice_range file places.start places.end)) result
        (W.contents writer.old) (W.contents writer.new))) }
    ensures faults { IfErr result IsResponseFault }
    ensures shelf { IsShelfKept (S.files shelf.old) (S.files shelf.new) (S.failed shelf.old) (S.failed shelf.new)
        result }
{
    let status = head.write(writer)?;
    send(alloc, writer, shelf, name, places.start, places.end)?;
    Ok(status)
}

fn serve_part<W: Write, S: Shelf>(
    alloc: Global,
    writer: &mut W,
    shelf: &mut S,
    name: &ReleaseName,
    size: u64,
    ask: RangeAsk,
) -> Result<u16, HttpFault>
    requires asked { IsInside size ask }
    requires there { IfSome (S.files shelf.old) (λ files.
        IsSomeAnd (files name.now) (λ file. length file ≡ size)) }
    ensures reply { IfSome (S.files shelf.old) (λ files. IfSome (files name.now) (λ file.
        IsOutcomeOf (part_response ask file) result (W.contents writer.old) (W.contents writer.new))) }
    ensures faults { IfErr result IsResponseFault }
    ensures shelf { IsShelfKept (S.files shelf.old) (S.files shelf.new) (S.failed shelf.old) (S.failed shelf.new)
        result }
{
    match ask {
        RangeAsk::Whole => {
            let head = ServerHead::Whole { length: size };
            response_with(alloc, writer, shelf, name, head, 0..size)
        }
        RangeAsk::Part(first, last) => {
            let head = ServerHead::Part {
                first,
                last,
                length: size,
            };
            response_with(alloc, writer, shelf, name, head, first..last + 1)
        }
        RangeAsk::Unsatisfied => ServerHead::Unsatisfied { length: size }.write(writer),
    }
}

fn serve_file<W: Write, S: Shelf>(
    alloc: Global,
    writer: &mut W,
    shelf: &mut S,
    request: &Request<'_>,
    name: &ReleaseName,
) -> Result<u16, HttpFault>
    requires { IsInBuffer request.now }
    ensures reply { IfSome (S.files shelf.old) (λ files. (head : RequestHead) → HasHead request.now head
        → IsOutcomeOf (file_response head (files name.now)) result (W.contents writer.old) (W.contents writer.new)) }
    ensures faults { IfErr result IsResponseFault }
    ensures shelf { IsShelfKept (S.files shelf.old) (S.files shelf.new) (S.failed shelf.old) (S.failed shelf.new)
        result }
{
    let Some(size) = shelf.size(name)? else {
        return ServerHead::NotFound.write(writer);
    };
    if request.is_head() {
        return ServerHead::Whole { length: size }.write(writer);
    }
    serve_part(
        alloc,
        writer,
        shelf,
        name,
        size,
        request::ask(request, size),
    )
}

fn respond<W: Write, S: Shelf>(
    alloc: Global,
    writer: &mut W,
    shelf: &mut S,
    request: &Request<'_>,
) -> Result<u16, HttpFault>
    requires { IsInBuffer request.now }
    ensures reply { IfSome (S.files shelf.old) (λ files.
        (head : RequestHead) → HasHead request.now head
        → (named : Option Name) → IsNamedBy head.target named
        → IsOutcomeOf (server_response files head named) result (W.contents writer.old) (W.contents writer.new)) }
    ensures response_without_file { (head : RequestHead) → HasHead request.now head
        → (named : Option Name) → IsNamedBy head.target named → IfSome (response_without_file head named) (λ reply.
        IsOutcomeOf reply result (W.contents writer.old) (W.contents writer.new)) }
    ensures faults { IfErr result IsResponseFault }
    ensures shelf { IsShelfKept (S.files shelf.old) (S.files shelf.new) (S.failed shelf.old) (S.failed shelf.new)
        result }
{
    if request.lacks_host() {
        return ServerHead::BadRequest.write(writer);
    }
    if request::is_unsupported(request) {
        return ServerHead::NotImplemented.write(writer);
    }
    let Some(name) = request::name(alloc, request)? else {
        return ServerHead::NotFound.write(writer);
    };
    serve_file(alloc, writer, shelf, request, &name)
}

/// Reads the head of one request, writes one response, and returns its status. May read past the head, and does not
/// read a body.
///
/// The response is 400 if the head is invalid, longer than 8,192 bytes or has more than 64 fields, or if a request of
/// HTTP/1.1 does not have exactly one Host field; 501 if the method is neither GET nor HEAD, or there is a
/// Transfer-Encoding field; and 404 if the target does not name a file of the shelf.
///
/// # Errors
///
/// `Read` if the reader fails and `Short` if it ends inside the head; then nothing is written. `Shelf` or `Memory` if
/// the shelf fails or memory for a name runs out; then nothing is written, or the head of the response and some of its
/// body. `Write` if the writer refuses bytes.
pub fn serve_one<R: Read, W: Write, S: Shelf>(
    alloc: Global,
    reader: &mut R,
    writer: &mut W,
    shelf: &mut S,
) -> Result<u16, HttpFault>
    // If the bytes begin with a head within the limits, and the contracts of the shelf name its files.
    ensures reply { IfSome (R.remaining reader.old) (λ text. IfSome (S.files shelf.old) (λ files.
        (head : RequestHead) → BeginsWithHead head_limit field_limit text head
        → (named : Option Name) → IsNamedBy head.target named
        → IsOutcomeOf (server_response files head named) result (W.contents writer.old) (W.contents writer.new))) }

    // The same for any shelf, if the response does not need a file.
    ensures response_without_file { IfSome (R.remaining reader.old) (λ text.
        (head : RequestHead) → BeginsWithHead head_limit field_limit text head
        → (named : Option Name) → IsNamedBy head.target named → IfSome (response_without_file head named) (λ reply.
        IsOutcomeOf reply result (W.contents writer.old) (W.contents writer.new))) }

    // If the bytes do not begin with such a head.
    ensures refused { IfSome (R.remaining reader.old) (λ text.
        ((head : RequestHead) → ¬ (BeginsWithHead head_limit field_limit text head))
        → IsRefusalOf head_limit field_limit text result (W.contents writer.old) (W.contents writer.new)) }

    ensures faults { IfErr result IsServingFault }
    ensures unread { IsErrOf result HttpFault.Read → Keeps (W.contents writer.old) (W.contents writer.new) }
    ensures short { IsErrOf result HttpFault.Short → Keeps (W.contents writer.old) (W.contents writer.new) }

    // The shelf keeps its files, and the exchange reports `Shelf` exactly if the shelf counted a failure.
    ensures kept { S.files shelf.new ≡ S.files shelf.old }
    ensures device { IsCounted (IsErrOf result HttpFault.Shelf) (S.failed shelf.old) (S.failed shelf.new) }
{
    let mut buffer = [0u8; HEAD_LIMIT];
    let mut headers = [EMPTY_HEADER_SPAN; FIELD_LIMIT];
    match read_request(reader, &mut buffer, &mut headers) {
        Ok(read) => {
            let request = Request {
                buffer: &buffer[..read.filled],
                headers: &headers,
                spans: read.spans,
            };
            respond(alloc, writer, shelf, &request)
        }
        Err(HttpFault::BadHead) => ServerHead::BadRequest.write(writer),
        Err(HttpFault::HeadTooLong) => ServerHead::BadRequest.write(writer),
        Err(fault) => Err(fault),
    }
}
