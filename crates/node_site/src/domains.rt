//! The domains whose hosts need no proxy.
ghost use Rattle.std.specs.Prelude.{◌≡◌, ◌<◌, ◌+◌, ◌-◌, ◌==◌, ◌&&◌, ◌||◌, List, ℕ, IfOk, OnOk, drop, length};
ghost use Rattle.std.specs.Prelude.{option_map, slice_index};
ghost use Rattle.std.specs.Str.{str_to_ascii_lowercase};
ghost use Rattle.toml.specs.Data.{as_str};
ghost use Rattle.toml.specs.View.{array_view, view};
ghost use Rattle.node_site.specs.Indexes.{AddsPlace, AreDomains, IsKnown, has_parent, is_known};
ghost use Rattle.node_site.specs.Proxies.{is_excepted};
ghost use Rattle.node_site.specs.Site.{or_empty, texts_in, texts_of};

use crate::hosts::lower_case;
use crate::places::Places;
use std::alloc::{AllocError, Global};
use toml::Value;
use toml::value::Array;

// The most bytes of a domain and of the dot in front of it.
const DOTTED_LIMIT: usize = 254;

/// Domains in lower case.
#[derive(Drop)]
pub(crate) struct Domains {
    pub(crate) places: Places,
}

// Returns the text of a value, or the empty one.
fn text_of(value: &Value) -> &str
    ensures { result.now ≡ or_empty (as_str (view value.now)) }
{
    match value.as_str() {
        Some(text) => text,
        None => "",
    }
}

/// Gives a domain a place in lower case, unless it has one.
pub(crate) fn put_domain(
    alloc: Global,
    places: &mut Places,
    domain: &[u8],
    place: usize,
) -> Result<(), AllocError>
    ensures { OnOk result (AddsPlace places.old (str_to_ascii_lowercase domain.now) place places.new) }
{
    let lower = lower_case(alloc, domain)?;
    places.put(alloc, &lower, place)
}

fn places_of(alloc: Global, except: &Array) -> Result<Places, AllocError>
    ensures { IfOk result (IsKnown (texts_of (array_view except.now))) }
{
    let mut places = Places::new(alloc);
    for index in 0..except.len() {
        put_domain(
            alloc,
            &mut places,
            text_of(&except[index]).as_bytes(),
            index,
        )?;
    }
    Ok(places)
}

// Returns the last bytes of a host: those of any domain, and the one before it.
fn end_of(host: &[u8]) -> &[u8]
    ensures { result.now ≡ drop (length host.now - 254) host.now }
{
    &host[host.len().saturating_sub(DOTTED_LIMIT)..]
}

// Returns what is behind a place.
fn behind(place: usize, lower: &[u8]) -> &[u8]
    requires { place < length lower.now }
    ensures { result.now ≡ drop (place + 1) lower.now }
{
    &lower[place + 1..]
}

impl Domains {
    /// Returns the domains of a list.
    pub(crate) fn of(alloc: Global, except: Option<&Array>) -> Result<Domains, AllocError>
        ensures { IfOk result (λ domains. IsKnown (texts_in (option_map (λ v. array_view v.now) except.entry))
            domains.places) }
    {
        let places = match except {
            Some(except) => places_of(alloc, except)?,
            None => Places::new(alloc),
        };
        Ok(Domains { places })
    }

    fn has(&self, lower: &[u8]) -> bool
        ensures { result ≡ is_known lower.now self.now.places }
    {
        self.places.get(lower).is_some()
    }

    // Returns whether a dot is at a place of a host, and a domain behind it.
    fn has_behind(&self, lower: &[u8], place: usize) -> bool
        requires { place < length lower.now }
        ensures { result ≡ ((slice_index lower.now place == 46)
            && is_known (drop (place + 1) lower.now) self.now.places) }
    {
        lower[place] == b'.' && self.has(behind(place, lower))
    }

    // Returns whether what is behind one of a host's dots is a domain.
    fn has_parent(&self, lower: &[u8]) -> bool
        ensures { result ≡ has_parent self.now.places lower.now }
    {
        for place in 0..lower.len() {
            if self.has_behind(lower, place) {
                return true;
            }
        }
        false
    }

    // Returns whether a host in lower case is one of the domains, or is a subdomain of one.
    fn covers(&self, lower: &[u8]) -> bool
        ensures { result ≡ (is_known lower.now self.now.places || has_parent self.now.places lower.now) }
    {
        self.has(lower) || self.has_parent(lower)
    }

    /// Returns whether a host is one of the domains, or is a subdomain of one.
    pub(crate) fn cover(&self, host: &[u8]) -> bool
        ensures { (except : List (List ℕ)) → AreDomains except self.now → result ≡ is_excepted except host.now }
    {
        let end = end_of(host);
        let mut buffer = [0; DOTTED_LIMIT];
        let lower = &mut buffer[..end.len()];
        lower.copy_from_slice(end);
        lower.make_ascii_lowercase();
        self.covers(lower)
    }
}
