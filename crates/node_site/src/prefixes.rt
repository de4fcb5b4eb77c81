//! The prefixes of the links that go through a proxy.
ghost use Rattle.std.specs.Prelude.{◌≡◌, false};
ghost use Rattle.std.specs.Option.{option_map_or};
ghost use Rattle.toml.specs.View.{table_view};
ghost use Rattle.node_site.specs.Proxies.{ends_in, is_encoded_behind, platform_prefix, prefix_at};
ghost use Rattle.node_site.specs.Proxies.{prefix_of, prefix_of_platform, site_prefix};
ghost use Rattle.node_site.specs.Site.{platform_of};

use crate::cuts::{after, before};
use crate::lookup::{switch_at, text_at};
use crate::site_file::SiteFile;
use std::marker::Model;
use toml::Table;

/// What is in front of the address in a link through a proxy and what is behind it, and whether the address is
/// percent-encoded.
#[derive(Drop)]
pub struct Prefix<'a> {
    pub(crate) front: &'a [u8],
    pub(crate) is_encoded: bool,
    pub(crate) rest: &'a [u8],
}

impl<'a> Model for Prefix<'a> {
    ghost use Rattle.node_site.specs.Proxies.{PrefixValue};

    ghost Value = { PrefixValue };

    ghost view = { λ p. record { front = p.front.now; is_encoded = p.is_encoded; rest = p.rest.now } };
}

/// Returns whether a text ends in another one.
pub(crate) fn ends_in(end: &[u8], text: &[u8]) -> bool
    ensures { result ≡ ends_in end.now text.now }
{
    let start = text.len().saturating_sub(end.len());
    &text[start..] == end
}

// Returns whether the address is percent-encoded behind what is in front of it: always behind `qurl=`, and never behind
// `login?url=`, after which EZproxy takes all that follows as the address.
fn is_encoded_behind(encodes: bool, front: &[u8]) -> bool
    ensures { result ≡ is_encoded_behind encodes front.now }
{
    ends_in(b"qurl=", front) || (encodes && !ends_in(b"login?url=", front))
}

impl<'a> Prefix<'a> {
    /// Returns the prefix that a text of the site file is.
    pub(crate) fn of(encodes: bool, text: &'a [u8]) -> Prefix<'a>
        ensures { result ≡ prefix_of encodes text.now }
    {
        let front = before(b'{', text);
        Prefix {
            front,
            is_encoded: is_encoded_behind(encodes, front),
            rest: after(b'}', text),
        }
    }
}

fn prefix_in(table: &Table) -> Option<Prefix<'_>>
    ensures { result ≡ prefix_of_platform (platform_of (table_view table.now)) }
{
    match text_at("prefix", table) {
        Some(text) => {
            let encodes = switch_at("encode", table).unwrap_or(false);
            Some(Prefix::of(encodes, text.as_bytes()))
        }
        None => None,
    }
}

fn platform_prefix<'a>(site: &'a SiteFile, host: &[u8]) -> Option<Prefix<'a>>
    ensures { result ≡ platform_prefix site.now host.now }
{
    match site.platform_table(host) {
        Some(table) => prefix_in(table),
        None => None,
    }
}

fn site_prefix(site: &SiteFile) -> Option<Prefix<'_>>
    ensures { result ≡ site_prefix site.now }
{
    match site.prefix() {
        Some(text) => Some(Prefix::of(site.encodes(), text.as_bytes())),
        None => None,
    }
}

/// Returns the prefix of the links to a host: that of its platform, or else that of the site, unless the host needs no
/// proxy.
pub fn prefix_at<'a>(site: &'a SiteFile, host: &[u8]) -> Option<Prefix<'a>>
    ensures { result ≡ prefix_at site.now host.now }
{
    if site.is_excepted(host) {
        return None;
    }
    match platform_prefix(site, host) {
        Some(prefix) => Some(prefix),
        None => site_prefix(site),
    }
}

/// Returns whether the address is percent-encoded behind a prefix, if there is one.
pub fn encodes(prefix: &Option<Prefix<'_>>) -> bool
    ensures { result ≡ option_map_or (λ p. p.is_encoded) prefix.now false }
{
    match prefix {
        Some(prefix) => prefix.is_encoded,
        None => false,
    }
}

/// Returns the same prefix again.
pub fn again<'a>(prefix: &Option<Prefix<'a>>) -> Option<Prefix<'a>>
    ensures { result ≡ prefix.now }
{
    match prefix {
        Some(prefix) => Some(Prefix {
            front: prefix.front,
            is_encoded: prefix.is_encoded,
            rest: prefix.rest,
        }),
        None => None,
    }
}
