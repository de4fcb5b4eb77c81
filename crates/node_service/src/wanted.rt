//! The packages that a node waits for before it answers readers.
ghost use Rattle.std.specs.Prelude.{◌≡◌, ◌&&◌, ◌++◌, IfOk, MatchBool, OnOk, is_some, not};
ghost use Rattle.std.specs.List.{list_all};
ghost use Rattle.httparse.specs.Grammar.{RequestHead};
ghost use Rattle.feed_http_heads.specs.Requests.{HasHead, lacks_host};
ghost use Rattle.feed_model.specs.History.{History};
ghost use Rattle.feed_model.specs.Content.{IsContent};
ghost use Rattle.feed_releases.specs.Actives.{AreInOrder};
ghost use Rattle.feed_releases.specs.Feeds.{recorded};
ghost use Rattle.node_request.specs.FetchRequests.{name_to_fetch};
ghost use Rattle.node_resolver.specs.NodeResponses.{AsksForFetch, AsksForNoFetch};
ghost use Rattle.node_service.specs.Wanted.{HasEach, IsAnswerable, IsUnanswerable, LacksOne};
ghost use Rattle.node_service.specs.Wanted.{has_package, missing_line, missing_text};

use feed_keep::Keep;
use feed_releases::{ActiveRelease, Feed, find_package};
use node_request::{ParsedRequest, ReceivedRequest, name_to_fetch};
use std::alloc::{AllocError, Global};
use std::marker::Model;

/// A package that a node waits for.
#[derive(Drop)]
pub struct WantedPackage {
    text: Vec<u8>,
}

impl Model for WantedPackage {
    ghost use Rattle.std.specs.Prelude.{List, ℕ};

    ghost Value = { List ℕ };

    ghost view = { λ w. w.text.items };
}

impl WantedPackage {
    /// Returns the package with this text, such as `Acme_Global_All`.
    pub fn new(text: Vec<u8>) -> WantedPackage
        ensures { result ≡ text.items }
    {
        WantedPackage { text }
    }

    /// Returns its text.
    pub fn text(&self) -> &[u8]
        ensures { result.now ≡ self.now }
    {
        &self.text
    }
}

pub(crate) const MISSING: &[u8] = b"no active release of ";

fn has_package(actives: &[ActiveRelease<'_>], package: &[u8]) -> bool
    requires { AreInOrder actives.now }
    ensures { result ≡ has_package actives.now «package».now }
{
    find_package(actives, package).is_some()
}

// Returns whether each wanted package has a release among active ones.
fn have_each(actives: &[ActiveRelease<'_>], wanted: &[WantedPackage]) -> bool
    requires { AreInOrder actives.now }
    ensures { result ≡ list_all (has_package actives.now) wanted.now }
{
    for awaited in wanted {
        if !has_package(actives, awaited.text()) {
            return false;
        }
    }
    true
}

// Returns whether each wanted package has an active release.
fn has_each<K: Keep>(feed: &Feed<K>, wanted: &[WantedPackage]) -> Result<bool, AllocError>
    ensures { IfOk result (λ has. (h : History) → IsContent (recorded feed.now) h
        → MatchBool has (HasEach h wanted.now) (LacksOne h wanted.now)) }
{
    if wanted.is_empty() {
        return Ok(true);
    }
    Ok(have_each(&feed.actives()?, wanted))
}

fn put_missing_line(
    out: &mut Vec<u8>,
    actives: &[ActiveRelease<'_>],
    package: &[u8],
) -> Result<(), AllocError>
    requires { AreInOrder actives.now }
    ensures { OnOk result (out.new.items ≡ out.old.items ++ missing_line actives.now «package».now) }
{
    if has_package(actives, package) {
        return Ok(());
    }
    out.extend_from_slice(MISSING)?;
    out.extend_from_slice(package)?;
    Ok(out.push(b'\n')?)
}

/// Returns a line for each wanted package without an active release, in their order.
pub(crate) fn missing_text(
    alloc: Global,
    actives: &[ActiveRelease<'_>],
    wanted: &[WantedPackage],
) -> Result<Vec<u8>, AllocError>
    requires { AreInOrder actives.now }
    ensures { IfOk result (λ text. text.items ≡ missing_text actives.now wanted.now) }
{
    let mut text = Vec::new(alloc);
    for awaited in wanted {
        put_missing_line(&mut text, actives, awaited.text())?;
    }
    Ok(text)
}

fn is_fetch(parsed: &ParsedRequest<'_>) -> bool
    ensures { (head : RequestHead) → HasHead parsed.now.request head
        → result ≡ (not (lacks_host head) && is_some (name_to_fetch head)) }
{
    !parsed.request.lacks_host() && name_to_fetch(parsed).is_some()
}

// Returns whether a request asks the node to fetch, whoever sent it.
fn asks_for_fetch(received: &ReceivedRequest<'_>) -> bool
    ensures { MatchBool result (AsksForFetch received.now.bytes.now) (AsksForNoFetch received.now.bytes.now) }
{
    match received.parsed() {
        Some(parsed) => is_fetch(&parsed),
        None => false,
    }
}

/// Returns whether a request that asks nothing of the feed is answered: each wanted package has an active release, or
/// the request asks the node to fetch.
pub(crate) fn is_answerable<K: Keep>(
    feed: &Feed<K>,
    wanted: &[WantedPackage],
    received: &ReceivedRequest<'_>,
) -> Result<bool, AllocError>
    ensures { IfOk result (λ is. (h : History) → IsContent (recorded feed.now) h
        → MatchBool is (IsAnswerable wanted.now h received.now.bytes.now)
        (IsUnanswerable wanted.now h received.now.bytes.now)) }
{
    if has_each(feed, wanted)? {
        return Ok(true);
    }
    Ok(asks_for_fetch(received))
}
