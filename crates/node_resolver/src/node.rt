//! Computes the response of a node to a request: to a fetch request by its authorization, to any other as a resolver
//! with the site of the host that it is for.
ghost use Rattle.std.specs.Prelude.{◌≡◌, IfOk};
ghost use Rattle.httparse.specs.Grammar.{RequestHead};
ghost use Rattle.feed_http_heads.specs.Requests.{HasHead, is_head};
ghost use Rattle.feed_model.specs.History.{History};
ghost use Rattle.feed_model.specs.Content.{IsContent};
ghost use Rattle.feed_releases.specs.Actives.{actives_of};
ghost use Rattle.feed_releases.specs.Feeds.{recorded, releases_of};
ghost use Rattle.node_request.specs.Hosts.{host_of};
ghost use Rattle.node_response.specs.Messages.{IsMessageFor};
ghost use Rattle.node_resolver.specs.Answers.{dated};
ghost use Rattle.node_sites.specs.NodeSites.{site_for};
ghost use Rattle.node_resolver.specs.NodeResponses.{hosted_response, hostless_response, misdirected_response};
ghost use Rattle.node_resolver.specs.NodeResponses.{node_response, IsNodeResponse, IsNodeResponseText};
ghost use Rattle.node_resolver.specs.NodeResponses.{IsNodeResponseAt, IsNodeMessage, IsNodeMessageFor};
ghost use Rattle.node_resolver.specs.NodeResponses.{SaysOfConnection};

use crate::context::Context;
use crate::request::ReaderRequest;
use crate::responses::response_to;
use feed_answer::Today;
use feed_keep::Keep;
use feed_releases::{ActiveRelease, Feed};
use node_request::{
    FetchPolicy, ParsedRequest, ReceivedRequest, Representation, host_of, name_to_fetch,
};
use node_response::{ResponseText, Site, Status, bad_head_response, fetch_response, refusal};
use node_sites::NodeSites;
use std::alloc::{AllocError, Global};
use std::marker::Model;

// A day, and the active releases.
#[derive(Drop)]
struct Moment<'a> {
    today: &'a Today,
    actives: &'a [ActiveRelease<'a>],
}

impl<'a> Model for Moment<'a> {
    ghost use Rattle.node_resolver.specs.Answers.{Dated, dated};

    ghost Value = { Dated };

    ghost view = { λ m. dated m.today.now m.actives.now };
}

// The circumstances of a response of a node beside its request.
#[derive(Drop)]
struct NodeContext<'a> {
    sites: &'a NodeSites,
    moment: Moment<'a>,
}

impl<'a> Moment<'a> {
    // Returns the circumstances of a response by one of the sites.
    fn with_site(&self, site: &'a Site, sites: &'a NodeSites) -> Context<'a>
        ensures { result ≡ record { site = site.entry.now; actives = self.now } }
    {
        Context {
            site,
            today: self.today,
            actives: self.actives,
            releases: Some(sites.releases()),
        }
    }
}

// Returns the response to a request that names no host.
fn hostless_response(
    alloc: Global,
    parsed: &ParsedRequest<'_>,
    keeps: bool,
) -> Result<ResponseText, AllocError>
    ensures value { IfOk result (λ response. (head : RequestHead) → HasHead parsed.now.request head
        → response ≡ hostless_response keeps head) }
    ensures message { IfOk result (λ response. (head : RequestHead) → HasHead parsed.now.request head
        → IsMessageFor keeps (is_head head) response) }
{
    let text = Representation::Text;
    let reply = refusal(alloc, Status::BadRequest, text, b"NoHost")?;
    reply.response(alloc, keeps, parsed.request.is_head())
}

// Returns the response to a request for a host without a site.
fn misdirected_response(
    alloc: Global,
    parsed: &ParsedRequest<'_>,
    keeps: bool,
) -> Result<ResponseText, AllocError>
    ensures value { IfOk result (λ response. (head : RequestHead) → HasHead parsed.now.request head
        → response ≡ misdirected_response keeps head) }
    ensures message { IfOk result (λ response. (head : RequestHead) → HasHead parsed.now.request head
        → IsMessageFor keeps (is_head head) response) }
{
    let representation = ReaderRequest::new(*parsed).representation;
    let reply = refusal(alloc, Status::Misdirected, representation, b"NoSite")?;
    reply.response(alloc, keeps, parsed.request.is_head())
}

// Returns the response by the site of the host that a request is for, if the host has one.
fn hosted_response(
    alloc: Global,
    parsed: &ParsedRequest<'_>,
    body: &[u8],
    keeps: bool,
    context: &NodeContext<'_>,
) -> Result<ResponseText, AllocError>
    ensures value { IfOk result (λ response. (head : RequestHead) → HasHead parsed.now.request head
        → response ≡ hosted_response (site_for (host_of head) context.now.sites.now) keeps context.now.moment head
        body.now) }
    ensures message { IfOk result (λ response. (head : RequestHead) → HasHead parsed.now.request head
        → IsMessageFor keeps (is_head head) response) }
{
    match context.sites.site(host_of(&parsed.request)) {
        Some(site) => {
            let context = context.moment.with_site(site, context.sites);
            response_to(alloc, parsed, body, keeps, &context)
        }
        None => misdirected_response(alloc, parsed, keeps),
    }
}

fn node_response(
    alloc: Global,
    policy: &FetchPolicy<'_>,
    context: &NodeContext<'_>,
    parsed: &ParsedRequest<'_>,
    body: &[u8],
    keeps: bool,
) -> Result<ResponseText, AllocError>
    ensures value { IfOk result (λ response. (head : RequestHead) → HasHead parsed.now.request head
        → response ≡ node_response context.now.sites.now policy.now keeps context.now.moment head body.now) }
    ensures message { IfOk result (λ response. (head : RequestHead) → HasHead parsed.now.request head
        → IsNodeMessageFor keeps head response) }
{
    if parsed.request.lacks_host() {
        return hostless_response(alloc, parsed, keeps);
    }
    match name_to_fetch(parsed) {
        Some(_) => fetch_response(alloc, policy, keeps, &parsed.request),
        None => hosted_response(alloc, parsed, body, keeps, context),
    }
}

fn node_response_with(
    alloc: Global,
    received: &ReceivedRequest<'_>,
    body: &[u8],
    keeps: bool,
    policy: &FetchPolicy<'_>,
    context: &NodeContext<'_>,
) -> Result<ResponseText, AllocError>
    ensures value { IfOk result (λ response.
        IsNodeResponse context.now.sites.now policy.now received.now.bytes.now body.now keeps context.now.moment
        response) }
    ensures text { IfOk result (λ response.
        IsNodeResponseText context.now.sites.now policy.now received.now.bytes.now body.now keeps context.now.moment
        response.bytes) }
    ensures message { IfOk result (λ response. IsNodeMessage received.now.bytes.now keeps response) }
    ensures says { IfOk result (λ response. SaysOfConnection received.now.bytes.now keeps response) }
{
    match received.parsed() {
        Some(parsed) => node_response(alloc, policy, context, &parsed, body, keeps),
        None => bad_head_response(alloc, keeps),
    }
}

/// Returns the response of a node to a request: to a fetch request by its authorization, and to any other as `respond`,
/// with the site of the host that the request is for. A host without a site gets 421 (RFC 9110, section 15.5.20). A
/// response that reports progress always says `Connection: close`, since it ends with the connection.
///
/// # Errors
///
/// Running out of memory.
pub fn respond_as_node<'a, K: Keep>(
    alloc: Global,
    received: &ReceivedRequest<'_>,
    body: &[u8],
    keeps: bool,
    policy: &FetchPolicy<'_>,
    sites: &'a NodeSites,
    today: &'a Today,
    feed: &Feed<K>,
) -> Result<ResponseText, AllocError>
    ensures value { IfOk result (λ response.
        IsNodeResponse sites.now policy.now received.now.bytes.now body.now keeps
        (dated today.now (actives_of (releases_of feed.now))) response) }
    ensures text { IfOk result (λ response.
        IsNodeResponseText sites.now policy.now received.now.bytes.now body.now keeps
        (dated today.now (actives_of (releases_of feed.now))) response.bytes) }

    // For every history that the feed may have: from the releases that it reports, with the holdings of their complete
    // files.
    ensures reported { IfOk result (λ response. (h : History) → IsContent (recorded feed.now) h
        → IsNodeResponseAt sites.now policy.now today.now h received.now.bytes.now body.now keeps response) }
    ensures message { IfOk result (λ response. IsNodeMessage received.now.bytes.now keeps response) }
    ensures says { IfOk result (λ response. SaysOfConnection received.now.bytes.now keeps response) }
{
    let actives = feed.actives()?;
    let context = NodeContext {
        sites,
        moment: Moment {
            today,
            actives: &actives,
        },
    };
    node_response_with(alloc, received, body, keeps, policy, &context)
}
