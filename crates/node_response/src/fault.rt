//! Error responses, whose bodies are the name of the error.
ghost use Rattle.std.specs.Prelude.{◌≡◌, ◌++◌, IfOk, OnOk, false};
ghost use Rattle.node_response.specs.Pages.{fault_body, fault_representation};
ghost use Rattle.node_response.specs.Responses.{refusal, response_of, bad_head_response};
ghost use Rattle.node_response.specs.Messages.{IsMessageFor};

use crate::fragment::Fragment;
use crate::response::Response;
use crate::response_text::ResponseText;
use crate::status::Status;
use feed_bytes::put_all;
use node_request::Representation;
use std::alloc::{AllocError, Global};

fn fault_representation(representation: Representation) -> Representation
    ensures { result ≡ fault_representation representation }
{
    match representation {
        Representation::Json => Representation::Json,
        _ => Representation::Text,
    }
}

/// Writes the body of an error response: an object of JSON, or else a line of text.
#[tactic(auto, unfolding(crate::specs::Pages::fault_body))]
pub fn put_fault(
    out: &mut Vec<u8>,
    representation: Representation,
    name: &[u8],
) -> Result<(), AllocError>
    ensures { OnOk result (out.new.items ≡ out.old.items ++ fault_body representation name.now) }
{
    match representation {
        Representation::Json => put_all(
            out,
            &[
                Fragment::Plain(b"{\"fault\":"),
                Fragment::Quoted(name),
                Fragment::Plain(b"}\n"),
            ],
        ),
        _ => put_all(out, &[Fragment::Plain(name), Fragment::Plain(b"\n")]),
    }
}

/// Returns an error response, in JSON or else as text. The pages of errors are those of a library.
pub fn refusal(
    alloc: Global,
    status: Status,
    representation: Representation,
    name: &[u8],
) -> Result<Response, AllocError>
    ensures { IfOk result (λ reply. reply ≡ refusal status representation name.now) }
{
    let mut body = Vec::new(alloc);
    put_fault(&mut body, representation, name)?;
    Ok(Response::new(status, fault_representation(representation), body))
}

/// Returns the response with an error response.
pub(crate) fn refusal_response(
    alloc: Global,
    keeps: bool,
    status: Status,
    representation: Representation,
    name: &[u8],
) -> Result<ResponseText, AllocError>
    ensures value { IfOk result (λ response. response
        ≡ response_of keeps false (refusal status representation name.now)) }
    ensures message { IfOk result (IsMessageFor keeps false) }
{
    refusal(alloc, status, representation, name)?.response(alloc, keeps, false)
}

/// Returns the response to bytes that do not begin with a valid head.
pub fn bad_head_response(alloc: Global, keeps: bool) -> Result<ResponseText, AllocError>
    ensures value { IfOk result (λ response. response ≡ bad_head_response keeps) }
    ensures message { IfOk result (IsMessageFor keeps false) }
{
    refusal_response(
        alloc,
        keeps,
        Status::BadRequest,
        Representation::Text,
        b"BadHead",
    )
}
