//! Computes the response to the head of a request and to its body, which only a form has.
ghost use Rattle.std.specs.Prelude.{◌≡◌, ◌≤◌, IfOk, position};
ghost use Rattle.std.specs.Option.{option_map_or};
ghost use Rattle.httparse.specs.Grammar.{AllPass, RequestHead, is_uri_byte};
ghost use Rattle.feed_http_heads.specs.Options.{SaysWhetherItKeeps};
ghost use Rattle.feed_http_heads.specs.Requests.{IsInBuffer, HasHead, is_head};
ghost use Rattle.feed_releases.specs.Actives.{actives_of};
ghost use Rattle.feed_model.specs.History.{History};
ghost use Rattle.feed_model.specs.Content.{IsContent};
ghost use Rattle.feed_releases.specs.Feeds.{recorded, releases_of};
ghost use Rattle.node_request.specs.Representations.{accepted_representation, representation_of};
ghost use Rattle.node_request.specs.Routes.{route_of};
ghost use Rattle.node_hits.specs.Tallies.{sole_link};
ghost use Rattle.node_pages.specs.TitlesPage.{titles_response};
ghost use Rattle.node_response.specs.Responses.{of_site, redirect_to, response_with, response_of};
ghost use Rattle.node_response.specs.Messages.{IsLocation, IsMessageFor};
ghost use Rattle.node_response.specs.declared.status.Status.TheVariants as status;
ghost use Rattle.node_resolver.specs.Answers.{dated, found_among, is_of, shares_in, sited_in, tally_among};
ghost use Rattle.node_hits.specs.Tallying.{no_hits, with_releases};
ghost use Rattle.node_resolver.specs.Responses.{IsResponse, IsResponseAt, hits_response, go_response, resolve_response};
ghost use Rattle.node_resolver.specs.Responses.{found_response, package_response, redirect_response};
ghost use Rattle.node_resolver.specs.Responses.{status_without, target_response};
ghost use Rattle.node_resolver.specs.Responses.{method_refusal, plain_response, form_refusal, form_response};
ghost use Rattle.node_resolver.specs.Responses.{untagged_response, response_to};
ghost use Rattle.node_resolver.specs.Validators.{unless_preflight};
ghost use Rattle.node_resolver.specs.Messages.{IsMessageTo};
ghost use Rattle.node_resolver.specs.Status.{status_body};
ghost use Rattle.node_pages.specs.HomePage.{home_page};

use crate::answers::{put_answer, put_counted, tally_among};
use crate::context::Context;
use crate::request::ReaderRequest;
use crate::shares::shares_among;
use crate::status::put_status;
use crate::targets::{owned, target_in};
use crate::validators::{preflight_status, tag_to, validated_response};
use feed_answer::Today;
use feed_http_heads::Request;
use feed_keep::Keep;
use feed_releases::{ActiveRelease, Feed};
use node_hits::{Lookup, ReceivedOpenUrl, Shares, Tally};
use node_pages::{OpenUrlText, error_response, put_home_page, unasked_response};
use node_request::{
    FormFault, ParsedRequest, ReceivedRequest, Representation, Route, accepted_representation,
    form_of, is_unsupported_method, package_in, representation_of, takes_form,
};
use node_response::{Response, ResponseText, Site, Status, bad_head_response, refusal};
use node_site::{SiteFile, Text};
use std::alloc::{AllocError, Global};

fn hits_response(
    alloc: Global,
    status: Status,
    query: &ReceivedOpenUrl<'_>,
    context: &Context<'_>,
    lookup: &Lookup<'_>,
) -> Result<Response, AllocError>
    ensures { IfOk result (λ reply. reply
        ≡ hits_response status query.now.representation query.now.text.now (sited_in context.now) lookup.now) }
{
    let mut body = Vec::new(alloc);
    put_answer(alloc, &mut body, query, context, lookup)?;
    Ok(Response::new(status, query.representation, body))
}

// Returns the same from the tally of the hits.
fn counted_response<'a>(
    alloc: Global,
    status: Status,
    query: &ReceivedOpenUrl<'_>,
    context: &Context<'a>,
    lookup: &'a Lookup<'a>,
    shares: Shares,
    hits: Tally<'a>,
) -> Result<Response, AllocError>
    requires shares { shares ≡ shares_in lookup.now (sited_in context.now) }
    requires small { shares.rows ≤ 10000 }
    requires hits { hits ≡ with_releases no_hits (found_among lookup.now (sited_in context.now)) }
    ensures { IfOk result (λ reply. reply
        ≡ hits_response status query.now.representation query.now.text.now (sited_in context.now) lookup.now) }
{
    let mut body = Vec::new(alloc);
    put_counted(alloc, &mut body, query, context, lookup, shares, hits)?;
    Ok(Response::new(status, query.representation, body))
}

// Returns a redirect to the sole hit, or the hits. They are counted once.
fn sole_response(
    alloc: Global,
    query: &ReceivedOpenUrl<'_>,
    context: &Context<'_>,
    lookup: &Lookup<'_>,
) -> Result<Response, AllocError>
    ensures { IfOk result (λ reply. reply
        ≡ option_map_or redirect_to (sole_link (tally_among lookup.now (sited_in context.now)))
        (hits_response status.Good query.now.representation query.now.text.now (sited_in context.now) lookup.now)) }
{
    let shares = shares_among(alloc, context, lookup)?;
    let hits = tally_among(alloc, context, lookup, shares)?;
    let sole = hits.sole_link(alloc)?;
    match owned(alloc, sole)? {
        Some(link) => Ok(Response::redirect(alloc, link)),
        None => counted_response(alloc, Status::Good, query, context, lookup, shares, hits),
    }
}

fn found_response(
    alloc: Global,
    query: &ReceivedOpenUrl<'_>,
    context: &Context<'_>,
    lookup: &Lookup<'_>,
) -> Result<Response, AllocError>
    ensures { IfOk result (λ reply. reply
        ≡ found_response query.now.representation query.now.text.now (sited_in context.now) lookup.now) }
{
    match query.representation {
        Representation::Html if context.library().redirects_sole_hit() => {
            sole_response(alloc, query, context, lookup)
        }
        _ => hits_response(alloc, Status::Good, query, context, lookup),
    }
}

fn resolve_response(
    alloc: Global,
    asked: &OpenUrlText<'_>,
    context: &Context<'_>,
) -> Result<Response, AllocError>
    ensures { IfOk result (λ reply. reply
        ≡ resolve_response asked.now.representation asked.now.text (sited_in context.now)) }
{
    let query = ReceivedOpenUrl::read(alloc, asked.text, asked.representation)?;
    match query.lookup(alloc)? {
        Ok(lookup) => found_response(alloc, &query, context, &lookup),
        Err(reason) => unasked_response(alloc, context.library(), &query, Status::Good, reason),
    }
}

pub(crate) fn position_of(actives: &[ActiveRelease<'_>], package: &[u8]) -> Option<usize>
    ensures { result ≡ position (is_of «package».now) actives.now }
{
    actives
        .iter()
        .position(|active| active.name().package() == package)
}

fn package_response(
    alloc: Global,
    package: &[u8],
    asked: &OpenUrlText<'_>,
    context: &Context<'_>,
) -> Result<Response, AllocError>
    ensures { IfOk result (λ reply. reply
        ≡ package_response asked.now.representation «package».now asked.now.text (sited_in context.now)) }
{
    match position_of(context.actives, package) {
        Some(place) => resolve_response(alloc, asked, &context.only(place)),
        None => error_response(
            alloc,
            context.library(),
            asked,
            Status::NotFound,
            Text::NoList,
            b"NoRelease",
        ),
    }
}

fn status_without(is_whole: bool) -> Status
    ensures { result ≡ status_without is_whole }
{
    if is_whole {
        Status::NotFound
    } else {
        Status::Good
    }
}

// Returns a redirect to the address that follows from the hits, or the hits. They are counted once.
fn redirect_response(
    alloc: Global,
    query: &ReceivedOpenUrl<'_>,
    context: &Context<'_>,
    lookup: &Lookup<'_>,
) -> Result<Response, AllocError>
    ensures { IfOk result (λ reply. reply
        ≡ redirect_response query.now.representation query.now.text.now (sited_in context.now) lookup.now) }
{
    let shares = shares_among(alloc, context, lookup)?;
    let hits = tally_among(alloc, context, lookup, shares)?;
    let status = status_without(hits.is_whole());
    match target_in(alloc, context.library(), lookup, &hits)? {
        Some(link) => Ok(Response::redirect(alloc, link)),
        None => counted_response(alloc, status, query, context, lookup, shares, hits),
    }
}

fn go_response(
    alloc: Global,
    asked: &OpenUrlText<'_>,
    context: &Context<'_>,
) -> Result<Response, AllocError>
    ensures { IfOk result (λ reply. reply
        ≡ go_response asked.now.representation asked.now.text (sited_in context.now)) }
{
    let query = ReceivedOpenUrl::read(alloc, asked.text, asked.representation)?;
    match query.lookup(alloc)? {
        Ok(lookup) => redirect_response(alloc, &query, context, &lookup),
        Err(reason) => unasked_response(alloc, context.library(), &query, Status::NotFound, reason),
    }
}

fn titles_response(
    alloc: Global,
    asked: &OpenUrlText<'_>,
    context: &Context<'_>,
) -> Result<Response, AllocError>
    ensures { IfOk result (λ reply. reply
        ≡ titles_response context.now.site.library asked.now.representation asked.now.text
        context.now.actives.actives) }
{
    node_pages::titles_response(alloc, context.library(), asked, context.actives)
}

fn home_response(
    alloc: Global,
    site: &SiteFile,
    actives: &[ActiveRelease<'_>],
) -> Result<Response, AllocError>
    ensures { IfOk result (λ reply. reply
        ≡ response_with status.Good Representation.Html (home_page site.now actives.now)) }
{
    let mut body = Vec::new(alloc);
    put_home_page(&mut body, site, actives)?;
    Ok(Response::new(Status::Good, Representation::Html, body))
}

fn status_response(
    alloc: Global,
    site: &SiteFile,
    representation: Representation,
    actives: &[ActiveRelease<'_>],
) -> Result<Response, AllocError>
    ensures { IfOk result (λ reply. reply
        ≡ response_with status.Good representation (status_body site.now representation actives.now)) }
{
    let mut body = Vec::new(alloc);
    put_status(&mut body, site, representation, actives)?;
    Ok(Response::new(Status::Good, representation, body))
}

// Returns a query, for a response whose representation the Accept field alone chooses.
fn accepted<'a>(parsed: &ParsedRequest<'_>, query: &'a [u8]) -> OpenUrlText<'a>
    ensures text { result.text ≡ query.now }
    ensures accepted { (head : RequestHead) → HasHead parsed.now.request head
        → result.representation ≡ accepted_representation head }
{
    OpenUrlText {
        text: query,
        representation: accepted_representation(&parsed.request.fields()),
    }
}

// Returns the response by the route, to this query, which is that of the target or of a form.
fn route_response(
    alloc: Global,
    request: &ReaderRequest<'_>,
    query: &[u8],
    representation: Representation,
    context: &Context<'_>,
) -> Result<Response, AllocError>
    ensures { IfOk result (λ reply. (head : RequestHead) → HasHead request.now.parsed.request head
        → representation ≡ representation_of (route_of head) query.now head
        → reply ≡ target_response head query.now (sited_in context.now)) }
{
    let asked = OpenUrlText {
        text: query,
        representation,
    };
    match request.parsed.route {
        Route::Home => home_response(alloc, context.library(), context.actives),
        Route::Status => status_response(alloc, context.library(), representation, context.actives),
        Route::Resolve => resolve_response(alloc, &asked, context),
        Route::Package => package_response(alloc, package_in(request.path), &asked, context),
        Route::Titles => titles_response(alloc, &asked, context),
        Route::Go => go_response(alloc, &accepted(&request.parsed, query), context),
        _ => error_response(
            alloc,
            context.library(),
            &accepted(&request.parsed, query),
            Status::NotFound,
            Text::NoPage,
            b"NoTarget",
        ),
    }
}

fn method_refusal(alloc: Global, route: Route) -> Result<Response, AllocError>
    ensures { IfOk result (λ reply. reply ≡ method_refusal route) }
{
    let status = if takes_form(route) {
        Status::GetOrPost
    } else {
        Status::MethodNotAllowed
    };
    refusal(alloc, status, Representation::Text, b"Method")
}

fn plain_response(
    alloc: Global,
    request: &ReaderRequest<'_>,
    context: &Context<'_>,
) -> Result<Response, AllocError>
    ensures { IfOk result (λ reply. (head : RequestHead) → HasHead request.now.parsed.request head
        → reply ≡ plain_response head (sited_in context.now)) }
{
    let head = &request.parsed.request;
    let text = Representation::Text;
    if is_unsupported_method(head.method()) {
        return method_refusal(alloc, request.parsed.route);
    }
    if !(head.is_get() || head.is_head()) {
        return refusal(alloc, Status::NotImplemented, text, b"Method");
    }
    if head.fields().has_field(b"transfer-encoding") {
        return refusal(alloc, Status::NotImplemented, text, b"Coding");
    }
    route_response(
        alloc,
        request,
        request.query,
        request.representation,
        context,
    )
}

fn form_refusal(alloc: Global, fault: FormFault) -> Result<Response, AllocError>
    ensures { IfOk result (λ reply. reply ≡ form_refusal fault) }
{
    let text = Representation::Text;
    match fault {
        FormFault::Coding => refusal(alloc, Status::NotImplemented, text, b"Coding"),
        FormFault::NoLength => refusal(alloc, Status::LengthRequired, text, b"Length"),
        FormFault::BadLength => refusal(alloc, Status::BadRequest, text, b"Length"),
        FormFault::TooLong => refusal(alloc, Status::ContentTooLarge, text, b"TooLong"),
        FormFault::MediaType => refusal(alloc, Status::UnsupportedMediaType, text, b"Type"),
    }
}

fn form_response(
    alloc: Global,
    request: &ReaderRequest<'_>,
    body: &[u8],
    context: &Context<'_>,
    form: Result<u64, FormFault>,
) -> Result<Response, AllocError>
    ensures { IfOk result (λ reply. (head : RequestHead) → HasHead request.now.parsed.request head
        → reply ≡ form_response head body.now (sited_in context.now) form) }
{
    match form {
        Ok(_) => {
            let fields = request.parsed.request.fields();
            let representation = representation_of(request.parsed.route, body, &fields);
            route_response(alloc, request, body, representation, context)
        }
        Err(fault) => form_refusal(alloc, fault),
    }
}

pub(crate) fn untagged_response(
    alloc: Global,
    request: &ReaderRequest<'_>,
    body: &[u8],
    context: &Context<'_>,
) -> Result<Response, AllocError>
    ensures { IfOk result (λ reply. (head : RequestHead) → HasHead request.now.parsed.request head
        → reply ≡ untagged_response head body.now (sited_in context.now)) }
{
    if request.parsed.request.lacks_host() {
        return refusal(alloc, Status::BadRequest, Representation::Text, b"NoHost");
    }
    match form_of(&request.parsed) {
        Some(form) => form_response(alloc, request, body, context, form),
        None => plain_response(alloc, request, context),
    }
}

// Returns the response, or that to a preflight.
fn unless_preflight(alloc: Global, parsed: &ParsedRequest<'_>, reply: Response) -> Response
    ensures { (head : RequestHead) → HasHead parsed.now.request head → result ≡ unless_preflight head reply }
{
    match preflight_status(parsed) {
        Some(status) => Response::new(status, Representation::Text, Vec::new(alloc)),
        None => reply,
    }
}

// Returns the bytes of a response as the site sends it.
fn sent_response(
    alloc: Global,
    request: &Request<'_>,
    reply: Response,
    keeps: bool,
    context: &Context<'_>,
) -> Result<ResponseText, AllocError>
    requires { IsInBuffer request.now }
    ensures value { IfOk result (λ response. (head : RequestHead) → HasHead request.now head
        → response ≡ response_of keeps (is_head head) (of_site context.now.site.library.redirects_sole_hit reply)) }
    ensures message { IfOk result (λ response. (head : RequestHead) → HasHead request.now head
        → IsLocation reply.location → AllPass is_uri_byte reply.tag → IsMessageFor keeps (is_head head) response) }
{
    let sent = reply.of_site(alloc, context.library().redirects_sole_hit())?;
    sent.response(alloc, keeps, request.is_head())
}

pub(crate) fn response_to(
    alloc: Global,
    parsed: &ParsedRequest<'_>,
    body: &[u8],
    keeps: bool,
    context: &Context<'_>,
) -> Result<ResponseText, AllocError>
    ensures value { IfOk result (λ response. (head : RequestHead) → HasHead parsed.now.request head
        → response ≡ response_to context.now.site keeps head body.now context.now.actives) }
    ensures message { IfOk result (λ response. (head : RequestHead) → HasHead parsed.now.request head
        → IsMessageFor keeps (is_head head) response) }
{
    let request = ReaderRequest::new(*parsed);
    let tag = tag_to(alloc, &request, context)?;
    let reply = validated_response(alloc, &request, body, tag, context)?;
    let last = unless_preflight(alloc, parsed, reply);
    sent_response(alloc, &parsed.request, last, keeps, context)
}

/// Returns the response to a request that was received, from the releases of a context. The response says
/// `Connection: close` exactly if the connection is not kept.
pub fn respond_with(
    alloc: Global,
    received: &ReceivedRequest<'_>,
    body: &[u8],
    keeps: bool,
    context: &Context<'_>,
) -> Result<ResponseText, AllocError>
    ensures value { IfOk result (λ response.
        IsResponse context.now.site received.now.bytes.now body.now keeps context.now.actives response) }
    ensures message { IfOk result (λ response. IsMessageTo received.now.bytes.now keeps response) }
    ensures says { IfOk result (λ response. SaysWhetherItKeeps keeps response.bytes) }
{
    match received.parsed() {
        Some(parsed) => response_to(alloc, &parsed, body, keeps, context),
        None => bad_head_response(alloc, keeps),
    }
}

/// Returns the whole response to a request. The body is that of a form, whose length `form_length` returns, and is
/// ignored for any other request. Uses only the active releases of the feed, the site and the day. Reads, writes and
/// stores nothing. The response says `Connection: close` exactly if the connection is not kept for another request (RFC
/// 9112, section 9.6).
///
/// # Errors
///
/// Running out of memory, which the caller may report as status 503.
pub fn respond<K: Keep>(
    alloc: Global,
    received: &ReceivedRequest<'_>,
    body: &[u8],
    keeps: bool,
    site: &Site,
    today: &Today,
    feed: &Feed<K>,
) -> Result<ResponseText, AllocError>
    ensures value { IfOk result (λ response.
        IsResponse site.now received.now.bytes.now body.now keeps
        (dated today.now (actives_of (releases_of feed.now))) response) }

    // For every history that the feed may have: from the releases that it reports, with the holdings of their complete
    // files.
    ensures reported { IfOk result (λ response. (h : History) → IsContent (recorded feed.now) h
        → IsResponseAt site.now today.now h received.now.bytes.now body.now keeps response) }

    // A client parses it as one head, and the body of the length that this states; the response to a HEAD has no body.
    // The head has one Connection field, `close`, or none if the connection is kept.
    ensures message { IfOk result (λ response. IsMessageTo received.now.bytes.now keeps response) }
    ensures says { IfOk result (λ response. SaysWhetherItKeeps keeps response.bytes) }
{
    let actives = feed.actives()?;
    let context = Context::new(site, today, &actives);
    respond_with(alloc, received, body, keeps, &context)
}
