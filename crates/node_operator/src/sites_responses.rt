//! The responses of a node to requests of `/sites`, by which it reads its folder of site files again.
ghost use Rattle.std.specs.Prelude.{◌≡◌, IfOk, IfSome};
ghost use Rattle.httparse.specs.Grammar.{RequestHead};
ghost use Rattle.feed_http_heads.specs.Requests.{HasHead};
ghost use Rattle.node_operator.specs.SitesResponses.{is_for_sites, is_sites_route, sites_refusal, sites_response};
ghost use Rattle.node_operator.specs.SitesResponses.{IsSitesMessage, IsSitesResponse, SaysOfSites};

use feed_http_heads::origin_form;
use node_request::{
    FetchPolicy, ParsedRequest, ReceivedRequest, Representation, Route, is_authorized, query_in,
    sites_query,
};
use node_response::{Response, ResponseText, Status, progress_response, refusal};
use std::alloc::{AllocError, Global};

fn is_sites_route(route: Route) -> bool
    ensures { result ≡ is_sites_route route }
{
    matches!(route, Route::Sites)
}

fn is_for_sites(parsed: &ParsedRequest<'_>) -> bool
    ensures { (head : RequestHead) → HasHead parsed.now.request head → result ≡ is_for_sites head }
{
    !parsed.request.lacks_host() && is_sites_route(parsed.route)
}

// Returns why a request is refused, if it is.
fn sites_refusal(
    alloc: Global,
    token: &[u8],
    has_folder: bool,
    is_reloading: bool,
    parsed: &ParsedRequest<'_>,
) -> Result<Option<Response>, AllocError>
    ensures { IfOk result (λ refused. (head : RequestHead) → HasHead parsed.now.request head
        → refused ≡ sites_refusal token.now has_folder is_reloading head) }
{
    let text = Representation::Text;
    let request = &parsed.request;
    if request.method() != b"POST".as_slice() {
        return Ok(Some(refusal(alloc, Status::PostOnly, text, b"Method")?));
    }
    if !is_authorized(token, request) {
        return Ok(Some(refusal(alloc, Status::Unauthorized, text, b"Unauthorized")?));
    }
    if !has_folder {
        return Ok(Some(refusal(alloc, Status::NotFound, text, b"NoSites")?));
    }
    if sites_query(query_in(origin_form(request.target()))).is_none() {
        return Ok(Some(refusal(alloc, Status::BadRequest, text, b"Query")?));
    }
    if is_reloading {
        return Ok(Some(refusal(alloc, Status::Conflict, text, b"Reloading")?));
    }
    Ok(None)
}

fn sites_response(
    alloc: Global,
    token: &[u8],
    has_folder: bool,
    is_reloading: bool,
    keeps: bool,
    parsed: &ParsedRequest<'_>,
) -> Result<ResponseText, AllocError>
    ensures value { IfOk result (λ response. (head : RequestHead) → HasHead parsed.now.request head
        → response ≡ sites_response token.now has_folder is_reloading keeps head) }
    ensures message { IfOk result (λ response. (head : RequestHead) → HasHead parsed.now.request head
        → IsSitesMessage keeps head response) }
{
    match sites_refusal(alloc, token, has_folder, is_reloading, parsed)? {
        Some(refused) => refused.response(alloc, keeps, parsed.request.is_head()),
        None => progress_response(alloc),
    }
}

fn is_reloading(policy: &FetchPolicy<'_>) -> bool
    ensures { result ≡ policy.now.is_reloading }
{
    policy.is_reloading
}

/// Returns the response of a node to a request of `/sites`: to a POST of a client that has the token the head of a
/// response whose body says what is read, and else an error: 404 if the node has no folder, and 409 while the folder is
/// being read.
/// Returns none for any other request, and for a node without a token. `keeps` is whether the connection persists after
/// the response; one whose body says what is read ends with the connection.
///
/// # Errors
///
/// Running out of memory.
pub fn respond_about_sites(
    alloc: Global,
    received: &ReceivedRequest<'_>,
    keeps: bool,
    policy: &FetchPolicy<'_>,
    has_folder: bool,
) -> Result<Option<ResponseText>, AllocError>
    ensures value { IfOk result (IsSitesResponse has_folder policy.now received.now.bytes.now keeps) }
    ensures says { IfOk result (λ found. IfSome found (SaysOfSites received.now.bytes.now keeps)) }
{
    let Some(token) = policy.token else {
        return Ok(None);
    };
    let Some(parsed) = received.parsed() else {
        return Ok(None);
    };
    if !is_for_sites(&parsed) {
        return Ok(None);
    }
    let response = sites_response(
        alloc,
        token,
        has_folder,
        is_reloading(policy),
        keeps,
        &parsed,
    )?;
    Ok(Some(response))
}
