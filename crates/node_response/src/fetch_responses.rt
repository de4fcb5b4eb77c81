//! The response to a request that a node fetch a release.
ghost use Rattle.std.specs.Prelude.{◌≡◌, IfOk};
ghost use Rattle.httparse.specs.Grammar.{RequestHead};
ghost use Rattle.feed_http_heads.specs.Requests.{IsInBuffer, HasHead};
ghost use Rattle.node_response.specs.FetchResponses.{progress_head, progress_response, authorized_response};
ghost use Rattle.node_response.specs.FetchResponses.{fetch_response, IsFetchMessage};
ghost use Rattle.node_response.specs.Messages.{BeginsStream};

use crate::fault::refusal_response;
use crate::response_text::ResponseText;
use crate::status::Status;
use feed_http_heads::Request;
use node_request::{FetchPolicy, Representation, is_authorized};
use std::alloc::{AllocError, Global};

const PROGRESS_HEAD: &[u8] =
    b"HTTP/1.1 200 OK\r\nContent-Type: text/plain; charset=utf-8\r\nX-Content-Type-Options: nosniff\r\n\
    Connection: close\r\n\r\n";

#[tactic(auto, unfolding(crate::specs::FetchResponses::progress_head))]
fn progress_head(alloc: Global) -> Result<Vec<u8>, AllocError>
    ensures { IfOk result (λ text. text.items ≡ progress_head) }
{
    Vec::from_slice(alloc, PROGRESS_HEAD)
}

/// Returns the head of a response whose body reports the progress of a work of the node, as text. It states no length,
/// and the connection is closed behind it.
pub fn progress_response(alloc: Global) -> Result<ResponseText, AllocError>
    ensures value { IfOk result (λ response. response ≡ progress_response) }
    ensures message { IfOk result BeginsStream }
{
    Ok(ResponseText {
        bytes: progress_head(alloc)?,
        status: 200,
        body_length: 0,
    })
}

fn authorized_response(
    alloc: Global,
    keeps: bool,
    is_busy: bool,
) -> Result<ResponseText, AllocError>
    ensures value { IfOk result (λ response. response ≡ authorized_response keeps is_busy) }
    ensures message { IfOk result (IsFetchMessage keeps) }
{
    if is_busy {
        refusal_response(
            alloc,
            keeps,
            Status::Conflict,
            Representation::Text,
            b"Busy",
        )
    } else {
        progress_response(alloc)
    }
}

/// Returns the response to a fetch request: the head of a response whose body reports the progress of the fetch, or an
/// error. A response that reports progress ends with the connection, which is not kept.
pub fn fetch_response(
    alloc: Global,
    policy: &FetchPolicy<'_>,
    keeps: bool,
    request: &Request<'_>,
) -> Result<ResponseText, AllocError>
    requires { IsInBuffer request.now }
    ensures value { IfOk result (λ response. (head : RequestHead) → HasHead request.now head
        → response ≡ fetch_response policy.now keeps head) }
    ensures message { IfOk result (IsFetchMessage keeps) }
{
    let Some(token) = policy.token else {
        return refusal_response(
            alloc,
            keeps,
            Status::NotFound,
            Representation::Text,
            b"NoTarget",
        );
    };
    if is_authorized(token, request) {
        authorized_response(alloc, keeps, policy.is_busy)
    } else {
        refusal_response(
            alloc,
            keeps,
            Status::Unauthorized,
            Representation::Text,
            b"Unauthorized",
        )
    }
}
