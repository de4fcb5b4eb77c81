//! Entity tags, responses to clients that have the representation, and preflights (RFC 9110, sections 8.8.3 and 13.1.2;
//! Fetch standard, section 3.3).
ghost use Rattle.std.specs.Prelude.{◌≡◌, IfOk, true, false, Ok};
ghost use Rattle.std.specs.List.{flat_map};
ghost use Rattle.httparse.specs.Grammar.{RequestHead};
ghost use Rattle.feed_http_heads.specs.Requests.{HasHead};
ghost use Rattle.node_hits.specs.Searches.{SearchValue};
ghost use Rattle.node_hits.specs.Lookups.{asked_of};
ghost use Rattle.node_response.specs.Tags.{entity_tag, inputs_of};
ghost use Rattle.node_resolver.specs.Status.{active_line};
ghost use Rattle.node_resolver.specs.Validators.{has_validator, is_tagged, tag_of, tag_to, validated_by, validated};
ghost use Rattle.node_resolver.specs.Validators.{preflight_of, preflight_status};
ghost use Rattle.feed_answer.specs.Today.{TodayValue};
ghost use Rattle.node_resolver.specs.Answers.{dated, sited_by, sited_in};
ghost use Rattle.node_resolver.specs.Answered.{IsAnswered, IsAnsweredTo};
ghost use Rattle.node_resolver.specs.Responses.{untagged_response};

use crate::context::Context;
use crate::request::ReaderRequest;
use crate::responses::{position_of, untagged_response};
use crate::status::put_lines;
use feed_answer::Today;
use feed_keep::Keep;
use feed_releases::{ActiveRelease, Feed};
use node_hits::ReceivedOpenUrl;
use node_request::{ParsedRequest, Representation, Route, has_tag, package_in};
use node_response::{DigestedPieces, Response, Site, Status};
use node_site::SiteFile;
use node_sites::NodeSites;
use std::alloc::{AllocError, Global};

fn has_validator(route: Route) -> bool
    ensures { result ≡ has_validator route }
{
    matches!(
        route,
        Route::Status | Route::Resolve | Route::Package | Route::Titles
    )
}

fn is_tagged(parsed: &ParsedRequest<'_>) -> bool
    ensures { (head : RequestHead) → HasHead parsed.now.request head → result ≡ is_tagged head }
{
    (parsed.request.is_get() || parsed.request.is_head()) && has_validator(parsed.route)
}

fn lines_of(alloc: Global, actives: &[ActiveRelease<'_>]) -> Result<Vec<u8>, AllocError>
    ensures { IfOk result (λ text. text.items ≡ flat_map active_line actives.now) }
{
    let mut text = Vec::new(alloc);
    put_lines(&mut text, actives)?;
    Ok(text)
}

// Returns the tag by a text about the releases. Computes its digest only if that of another text is known.
fn tag_by(
    alloc: Global,
    site: &Site,
    today: &Today,
    known: Option<&DigestedPieces>,
    text: Vec<u8>,
    representation: Representation,
) -> Result<Vec<u8>, AllocError>
    ensures { IfOk result (λ tag. tag.items
        ≡ entity_tag (inputs_of site.now today.now text.items representation)) }
{
    match known {
        Some(known) if known.is_of(&text) => site.tag(alloc, today, known, representation),
        _ => {
            let releases = DigestedPieces::new(alloc).renewed(alloc, &text)?;
            site.tag(alloc, today, &releases, representation)
        }
    }
}

fn tag_of(
    alloc: Global,
    context: &Context<'_>,
    representation: Representation,
) -> Result<Vec<u8>, AllocError>
    ensures { IfOk result (λ tag. tag.items ≡ tag_of context.now.site context.now.actives representation) }
{
    let lines = lines_of(alloc, context.actives)?;
    tag_by(
        alloc,
        context.site,
        context.today,
        context.releases,
        lines,
        representation,
    )
}

/// Returns the entity tag of what a request asks for on a day. It is empty if there is none. Computes the digest of the
/// active releases only if that of others is known.
pub(crate) fn tag_to(
    alloc: Global,
    request: &ReaderRequest<'_>,
    context: &Context<'_>,
) -> Result<Vec<u8>, AllocError>
    ensures { IfOk result (λ tag. (head : RequestHead) → HasHead request.now.parsed.request head
        → tag.items ≡ tag_to context.now.site context.now.actives head) }
{
    if is_tagged(&request.parsed) {
        tag_of(alloc, context, request.representation)
    } else {
        Ok(Vec::new(alloc))
    }
}

fn is_query(alloc: Global, text: &[u8]) -> Result<bool, AllocError>
    ensures { IfOk result (λ is. is ≡ true → (search : SearchValue) × (asked_of text.now ≡ Ok search)) }
{
    let query = ReceivedOpenUrl::read(alloc, text, Representation::Text)?;
    match query.lookup(alloc)? {
        Ok(_) => Ok(true),
        Err(_) => Ok(false),
    }
}

// Returns whether the response to a query shows its hits, without looking at any: a library that redirects browsers to
// a sole hit has to count them first.
fn shows_hits(alloc: Global, library: &SiteFile, text: &[u8]) -> Result<bool, AllocError>
    ensures { IfOk result (λ is. is ≡ true
        → (library.now.redirects_sole_hit ≡ false) × ((search : SearchValue) × (asked_of text.now ≡ Ok search))) }
{
    if library.redirects_sole_hit() {
        return Ok(false);
    }
    is_query(alloc, text)
}

// Returns whether the response to a request is a 200 if its host and its method are right, without looking at any
// holdings. `/titles` and a target without a tag are left to `untagged_response`.
fn is_answered(
    alloc: Global,
    request: &ReaderRequest<'_>,
    library: &SiteFile,
    actives: &[ActiveRelease<'_>],
) -> Result<bool, AllocError>
    ensures { IfOk result (λ is. is ≡ true → (today : TodayValue)
        → IsAnswered request.now.parsed.route request.now.path.now request.now.query.now
        (sited_by library.now today actives.now)) }
{
    match request.parsed.route {
        Route::Status => Ok(true),
        Route::Resolve => shows_hits(alloc, library, request.query),
        Route::Package => {
            if position_of(actives, package_in(request.path)).is_some() {
                shows_hits(alloc, library, request.query)
            } else {
                Ok(false)
            }
        }
        _ => Ok(false),
    }
}

// The same for a request with a tag.
fn is_answered_to(
    alloc: Global,
    request: &ReaderRequest<'_>,
    library: &SiteFile,
    actives: &[ActiveRelease<'_>],
) -> Result<bool, AllocError>
    ensures { IfOk result (λ is. is ≡ true → (head : RequestHead) → HasHead request.now.parsed.request head
        → is_tagged head ≡ true → (today : TodayValue) → IsAnsweredTo head (sited_by library.now today actives.now)) }
{
    let head = &request.parsed.request;
    if head.lacks_host() || head.fields().has_field(b"transfer-encoding") {
        return Ok(false);
    }
    is_answered(alloc, request, library, actives)
}

fn validated_by(alloc: Global, reply: Response, has: bool, tag: Vec<u8>, max_age: u32) -> Response
    ensures { result ≡ validated_by has tag.items max_age reply }
{
    if !reply.is_good() {
        return reply;
    }
    if has {
        Response::not_modified(alloc, tag, max_age, reply.representation())
    } else {
        reply.with_tag(tag, max_age)
    }
}

/// Returns the response to a request, with its tag. A client that has the tag gets a 304 where it would get a 200.
pub(crate) fn validated_response(
    alloc: Global,
    request: &ReaderRequest<'_>,
    body: &[u8],
    tag: Vec<u8>,
    context: &Context<'_>,
) -> Result<Response, AllocError>
    ensures { IfOk result (λ reply. (head : RequestHead) → HasHead request.now.parsed.request head
        → reply ≡ validated head tag.items context.now.site.max_age
        (untagged_response head body.now (sited_in context.now))) }
{
    if !is_tagged(&request.parsed) {
        return untagged_response(alloc, request, body, context);
    }
    let max_age = context.site.max_age();
    let has = has_tag(&tag, &request.parsed.request.fields());
    if has && is_answered_to(alloc, request, context.library(), context.actives)? {
        return Ok(Response::not_modified(alloc, tag, max_age, request.representation));
    }
    let reply = untagged_response(alloc, request, body, context)?;
    Ok(validated_by(alloc, reply, has, tag, max_age))
}

fn preflight_of(route: Route) -> Option<Status>
    ensures { result ≡ preflight_of route }
{
    match route {
        Route::Home | Route::Status | Route::Titles => Some(Status::Preflight),
        Route::Resolve | Route::Package | Route::Go => Some(Status::QueryPreflight),
        _ => None,
    }
}

/// Returns the status of the response to a preflight. Returns none for any other request, and for a target that no
/// script of another site may request.
pub(crate) fn preflight_status(parsed: &ParsedRequest<'_>) -> Option<Status>
    ensures { (head : RequestHead) → HasHead parsed.now.request head → result ≡ preflight_status head }
{
    if parsed.request.lacks_host() || parsed.request.method() != b"OPTIONS".as_slice() {
        return None;
    }
    preflight_of(parsed.route)
}

/// Prepares the tags of all sites for the active releases and for a day. Returns whether other releases are active than
/// before.
///
/// # Errors
///
/// Running out of memory, after which some responses compute their digests themselves.
pub fn keep_releases<K: Keep>(
    alloc: Global,
    sites: &mut NodeSites,
    today: &Today,
    feed: &Feed<K>,
) -> Result<bool, AllocError>
    ensures { sites.new ≡ sites.old }
{
    let actives = feed.actives()?;
    let text = lines_of(alloc, &actives)?;
    sites.prepare(alloc, today, &text)
}
