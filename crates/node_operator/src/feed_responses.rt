//! The responses of a node about its feed. A GET of `/feed` lists releases and fetches, and a DELETE of it ends the
//! fetch that is under way. A target below it takes only a POST, so a GET of it is rejected.
ghost use Rattle.std.specs.Prelude.{◌≡◌, IfOk, IfSome, MatchBool};
ghost use Rattle.httparse.specs.Grammar.{RequestHead};
ghost use Rattle.feed_http_heads.specs.Options.{SaysWhetherItKeeps};
ghost use Rattle.feed_http_heads.specs.Requests.{HasHead};
ghost use Rattle.feed_releases.specs.Actives.{AreInOrder};
ghost use Rattle.node_operator.specs.FeedResponses.{asked_below, asked_by, ends_by, feed_target, has_token_of, is_end};
ghost use Rattle.node_operator.specs.FeedResponses.{EndsFetch, EndsNoFetch, IsEndResponse, IsFeedResponse};
ghost use Rattle.node_operator.specs.FeedResponses.{IsResponseToFeedTarget};
ghost use Rattle.node_operator.specs.FeedResponses.{IsListResponse};

use feed_bytes::put_all;
use feed_http_heads::origin_form;
use feed_keep::Keep;
use feed_names::ReleaseName;
use feed_releases::{ActiveRelease, Feed, ReleaseStatus, find_package};
use node_request::{
    FetchPolicy, ParsedRequest, ReceivedRequest, Representation, Route, is_authorized,
    is_unsupported_method, query_in, representation_of,
};
use node_response::{
    Fragment, Response, ResponseText, Status, put_comma, put_list_end, put_list_start, refusal,
};
use std::alloc::{AllocError, Global};
use std::io::Write;

/// The subject of a request about the feed of a node.
#[derive(Clone, Copy, Debug, PartialEq, Eq)]
pub enum FeedTarget {
    /// A GET or a HEAD of `/feed`: the recorded releases.
    Releases,
    /// A DELETE of `/feed`: that the fetch under way end.
    End,
    /// Another method of `/feed`, also OPTIONS: no script of another site may send a token.
    OtherMethod,
    /// A GET or a HEAD of `/feed/` and more: a release, which only a POST may name.
    Release,
}

/// The last fetch of a package.
#[derive(Drop)]
pub struct LastFetch {
    pub name: ReleaseName,
    /// The name of its outcome.
    pub outcome: &'static str,
    /// When it ended, in seconds since 1970-01-01.
    pub seconds: u64,
}

/// The fetches of a node since it started.
#[derive(Clone, Copy)]
pub struct Activity<'a> {
    /// When the node started and first answered from its lists, in seconds since 1970-01-01.
    pub started: u64,
    /// The last fetch of each package.
    pub fetches: &'a [LastFetch],
    /// The last fetch of each package that activated its release.
    pub activations: &'a [LastFetch],
}

// Returns what a request asks of `/feed`.
fn asked_by(parsed: &ParsedRequest<'_>) -> Option<FeedTarget>
    ensures { (head : RequestHead) → HasHead parsed.now.request head → result ≡ asked_by head }
{
    let request = &parsed.request;
    if request.is_get() || request.is_head() {
        Some(FeedTarget::Releases)
    } else if request.method() == b"DELETE".as_slice() {
        Some(FeedTarget::End)
    } else if is_unsupported_method(request.method()) {
        Some(FeedTarget::OtherMethod)
    } else {
        None
    }
}

// Returns what a request asks of a target below `/feed`.
fn asked_below(parsed: &ParsedRequest<'_>) -> Option<FeedTarget>
    ensures { (head : RequestHead) → HasHead parsed.now.request head → result ≡ asked_below head }
{
    if parsed.request.is_get() || parsed.request.is_head() {
        Some(FeedTarget::Release)
    } else {
        None
    }
}

fn feed_target(parsed: &ParsedRequest<'_>) -> Option<FeedTarget>
    ensures { (head : RequestHead) → HasHead parsed.now.request head → result ≡ feed_target head }
{
    if parsed.request.lacks_host() {
        return None;
    }
    match parsed.route {
        Route::Feed => asked_by(parsed),
        Route::Fetch => asked_below(parsed),
        _ => None,
    }
}

// Writes why a release is broken as a value of JSON.
fn put_reason(
    alloc: Global,
    out: &mut Vec<u8>,
    status: &ReleaseStatus<'_>,
) -> Result<(), AllocError> {
    let Some(why) = status.reason else {
        return put_all(out, &[Fragment::Plain(b"null")]);
    };
    let mut text = Vec::new(alloc);
    if write!(&mut text, "{why}").is_err() {
        return Err(AllocError);
    }
    put_all(out, &[Fragment::Quoted(&text)])
}

// Returns the active release with this name.
fn active_named<'a, 'b>(
    actives: &'b [ActiveRelease<'a>],
    name: &ReleaseName,
) -> Option<&'b ActiveRelease<'a>>
    requires { AreInOrder actives.now }
{
    let active = &actives[find_package(actives, name.package())?];
    if active.name().text() == name.text() {
        Some(active)
    } else {
        None
    }
}

// The end of a fetch, in seconds since 1970-01-01, and its name.
#[derive(Drop)]
struct NamedEnd<'a> {
    name: &'a [u8],
    seconds: u64,
}

// Returns the ends of fetches in the order of their names.
fn sorted_ends<'a>(
    alloc: Global,
    fetches: &'a [LastFetch],
) -> Result<Vec<NamedEnd<'a>>, AllocError> {
    let mut ends = Vec::new(alloc);
    for fetch in fetches {
        ends.push(NamedEnd {
            name: fetch.name.text(),
            seconds: fetch.seconds,
        })?;
    }
    ends.sort_unstable_by(|one, other| one.name.cmp(&other.name));
    Ok(ends)
}

// Returns when the fetch of this name ended, among some in the order of their names.
fn end_of(ends: &[NamedEnd<'_>], name: &[u8]) -> Option<u64> {
    match ends.binary_search_by(|end| end.name.cmp(&name)) {
        Ok(place) => Some(ends[place].seconds),
        Err(_) => None,
    }
}

// Writes the counts of a release, and when this node began to answer from it. They are null unless it is active.
fn put_active_members(
    out: &mut Vec<u8>,
    active: Option<&ActiveRelease<'_>>,
    since: u64,
) -> Result<(), AllocError> {
    let Some(active) = active else {
        return put_all(
            out,
            &[Fragment::Plain(b",\"rows\":null,\"skipped\":null,\"active_since\":null")],
        );
    };
    put_all(
        out,
        &[
            Fragment::Plain(b",\"rows\":"),
            Fragment::Number(active.holdings().rows().len() as u64),
            Fragment::Plain(b",\"skipped\":"),
            Fragment::Number(active.holdings().aside().len() as u64),
            Fragment::Plain(b",\"active_since\":"),
            Fragment::Number(since),
        ],
    )
}

// Writes the status of a release as an object of JSON. If it is active, the node answers from it since this second.
fn put_object(
    alloc: Global,
    out: &mut Vec<u8>,
    status: &ReleaseStatus<'_>,
    active: Option<&ActiveRelease<'_>>,
    since: u64,
) -> Result<(), AllocError> {
    put_all(
        out,
        &[
            Fragment::Plain(b"{\"name\":"),
            Fragment::Quoted(status.name.text()),
            Fragment::Plain(b",\"state\":"),
            Fragment::Quoted(status.state_name().as_bytes()),
            Fragment::Plain(b",\"size\":"),
            Fragment::Number(status.size),
            Fragment::Plain(b",\"missing\":"),
            Fragment::Number(status.missing),
            Fragment::Plain(b",\"reason\":"),
        ],
    )?;
    put_reason(alloc, out, status)?;
    put_active_members(out, active, since)?;
    put_all(out, &[Fragment::Plain(b"}")])
}

// Writes the last fetch of a package as an object of JSON.
fn put_fetch_object(out: &mut Vec<u8>, fetch: &LastFetch) -> Result<(), AllocError> {
    put_all(
        out,
        &[
            Fragment::Plain(b"{\"fetch\":"),
            Fragment::Quoted(fetch.name.text()),
            Fragment::Plain(b",\"outcome\":"),
            Fragment::Quoted(fetch.outcome.as_bytes()),
            Fragment::Plain(b",\"time\":"),
            Fragment::Number(fetch.seconds),
            Fragment::Plain(b"}"),
        ],
    )
}

fn put_fetch_line(out: &mut Vec<u8>, fetch: &LastFetch) -> Result<(), AllocError> {
    put_all(
        out,
        &[
            Fragment::Plain(fetch.name.text()),
            Fragment::Plain(b"\tfetch\t"),
            Fragment::Plain(fetch.outcome.as_bytes()),
            Fragment::Plain(b"\t"),
            Fragment::Number(fetch.seconds),
            Fragment::Plain(b"\n"),
        ],
    )
}

fn put_json(
    alloc: Global,
    out: &mut Vec<u8>,
    statuses: &[ReleaseStatus<'_>],
    actives: &[ActiveRelease<'_>],
    activity: Activity<'_>,
) -> Result<(), AllocError>
    requires { AreInOrder actives.now }
{
    let ends = sorted_ends(alloc, activity.activations)?;
    put_list_start(out)?;
    for (place, status) in statuses.iter().enumerate() {
        put_comma(out, place)?;
        let active = active_named(actives, status.name);
        let since = end_of(&ends, status.name.text()).unwrap_or(activity.started);
        put_object(alloc, out, status, active, since)?;
    }
    for (place, fetch) in activity.fetches.iter().enumerate() {
        put_comma(out, statuses.len().saturating_add(place))?;
        put_fetch_object(out, fetch)?;
    }
    put_list_end(out)
}

fn put_lines(
    out: &mut Vec<u8>,
    statuses: &[ReleaseStatus<'_>],
    fetches: &[LastFetch],
) -> Result<(), AllocError> {
    for status in statuses {
        if status.write_line(out).is_err() {
            return Err(AllocError);
        }
    }
    for fetch in fetches {
        put_fetch_line(out, fetch)?;
    }
    Ok(())
}

// Returns the response with the recorded releases and the last fetches, as JSON or as text.
fn list_response<K: Keep>(
    alloc: Global,
    feed: &Feed<K>,
    activity: Activity<'_>,
    representation: Representation,
) -> Result<Response, AllocError>
    ensures { IfOk result IsListResponse }
{
    let mut statuses = feed.statuses()?;
    statuses.sort_unstable_by(|one, other| one.name.text().cmp(&other.name.text()));
    let mut body = Vec::new(alloc);
    if representation == Representation::Json {
        put_json(alloc, &mut body, &statuses, &feed.actives()?, activity)?;
        return Ok(Response::new(Status::Listed, Representation::Json, body));
    }
    put_lines(&mut body, &statuses, activity.fetches)?;
    Ok(Response::new(Status::Listed, Representation::Text, body))
}

// Returns the response to a client that asks that the fetch under way end, if one is, and has the token or not.
fn end_response(alloc: Global, has_token: bool, is_busy: bool) -> Result<Response, AllocError>
    ensures { IfOk result (IsEndResponse has_token is_busy) }
{
    let text = Representation::Text;
    if !has_token {
        refusal(alloc, Status::Unauthorized, text, b"Unauthorized")
    } else if is_busy {
        Ok(Response::new(Status::Ended, text, Vec::new(alloc)))
    } else {
        refusal(alloc, Status::Conflict, text, b"Idle")
    }
}

fn feed_response<K: Keep>(
    alloc: Global,
    token: &[u8],
    is_busy: bool,
    parsed: &ParsedRequest<'_>,
    target: FeedTarget,
    feed: &Feed<K>,
    activity: Activity<'_>,
) -> Result<Response, AllocError>
    ensures { IfOk result (λ reply. (head : RequestHead) → HasHead parsed.now.request head
        → IsResponseToFeedTarget token.now is_busy head target reply) }
{
    let text = Representation::Text;
    let request = &parsed.request;
    match target {
        FeedTarget::Release => refusal(alloc, Status::PostOnly, text, b"Method"),
        FeedTarget::OtherMethod => refusal(alloc, Status::GetOrDelete, text, b"Method"),
        FeedTarget::Releases => {
            if !is_authorized(token, request) {
                return refusal(alloc, Status::Unauthorized, text, b"Unauthorized");
            }
            let query = query_in(origin_form(request.target()));
            list_response(
                alloc,
                feed,
                activity,
                representation_of(parsed.route, query, &request.fields()),
            )
        }
        FeedTarget::End => end_response(alloc, is_authorized(token, request), is_busy),
    }
}

fn is_busy(policy: &FetchPolicy<'_>) -> bool
    ensures { result ≡ policy.now.is_busy }
{
    policy.is_busy
}

/// Returns the response of a node to a request for `/feed`, or to a GET or HEAD of a target below it. To a client that
/// has the token a GET lists the recorded releases, with the name, the state, the size, the missing bytes and the
/// reason of each, and then the last fetches. JSON has the rows and the skipped records of each active release too, and
/// when this node began to answer from it. A DELETE of such a client ends the fetch that is under way, if one is.
/// Returns none for any other request, and for a node without a token. `keeps` is whether the connection persists after
/// the response.
///
/// # Errors
///
/// Running out of memory.
pub fn respond_about_feed<K: Keep>(
    alloc: Global,
    received: &ReceivedRequest<'_>,
    keeps: bool,
    policy: &FetchPolicy<'_>,
    feed: &Feed<K>,
    activity: Activity<'_>,
) -> Result<Option<ResponseText>, AllocError>
    ensures value { IfOk result (IsFeedResponse policy.now received.now.bytes.now keeps) }
    ensures says { IfOk result (λ found. IfSome found (λ response. SaysWhetherItKeeps keeps response.bytes)) }
{
    let Some(token) = policy.token else {
        return Ok(None);
    };
    let Some(parsed) = received.parsed() else {
        return Ok(None);
    };
    let Some(target) = feed_target(&parsed) else {
        return Ok(None);
    };
    let reply = feed_response(
        alloc,
        token,
        is_busy(policy),
        &parsed,
        target,
        feed,
        activity,
    )?;
    let response = reply.response(alloc, keeps, parsed.request.is_head())?;
    Ok(Some(response))
}

fn is_end(target: Option<FeedTarget>) -> bool
    ensures { result ≡ is_end target }
{
    matches!(target, Some(FeedTarget::End))
}

fn has_token_of(policy: &FetchPolicy<'_>, parsed: &ParsedRequest<'_>) -> bool
    ensures { (head : RequestHead) → HasHead parsed.now.request head → result ≡ has_token_of policy.now head }
{
    match policy.token {
        Some(token) => is_authorized(token, &parsed.request),
        None => false,
    }
}

fn ends_by(policy: &FetchPolicy<'_>, parsed: &ParsedRequest<'_>) -> bool
    ensures { (head : RequestHead) → HasHead parsed.now.request head → result ≡ ends_by policy.now head }
{
    policy.is_busy && is_end(feed_target(parsed)) && has_token_of(policy, parsed)
}

/// Returns whether a request ends the fetch that is under way: it is a DELETE of `/feed`, it has the token, and a fetch
/// is under way. The response to it is 204.
pub fn ends_fetch(received: &ReceivedRequest<'_>, policy: &FetchPolicy<'_>) -> bool
    ensures { MatchBool result (EndsFetch policy.now received.now.bytes.now)
        (EndsNoFetch policy.now received.now.bytes.now) }
{
    match received.parsed() {
        Some(parsed) => ends_by(policy, &parsed),
        None => false,
    }
}
