//! The host of an address, and which addresses are links.
ghost use Rattle.std.specs.Prelude.{◌≡◌, ◌≤◌, IfOk, [], false, is_some, length, option_copied, option_map};
ghost use Rattle.std.specs.Net.Addr.{ipv6_segments};
ghost use Rattle.node_site.specs.Hosts.{begins_with_letter, host_behind, host_in, host_len, host_of, ipv6_in, is_ipv4};
ghost use Rattle.node_site.specs.Hosts.{is_link, is_name, is_port, is_reachable, port_part, shown_host, shown_part};
ghost use Rattle.node_site.specs.Hosts.{written_host};

use crate::cuts::has;
use crate::urls::{after_scheme, authority_of, is_all_visible, is_host};
use std::alloc::{AllocError, Global};
use std::net::{Ipv4Addr, Ipv6Addr};

/// The most bytes of a URL: what RFC 9110 (section 4.1) asks every recipient to support.
pub const URL_LIMIT: usize = 8_000;

// Returns how many bytes are before the first `:` that is not between brackets.
fn host_len(authority: &[u8]) -> usize
    ensures value { result ≡ host_len false authority.now }
    ensures bound { result ≤ length authority.now }
{
    let mut inside = false;
    for place in 0..authority.len() {
        let byte = authority[place];
        if byte == b':' && !inside {
            return place;
        }
        inside = byte == b'[' || (byte != b']' && inside);
    }
    authority.len()
}

// Returns what is behind the colon after the host.
fn port_part(authority: &[u8]) -> &[u8]
    ensures { result.now ≡ port_part authority.now }
{
    let len = host_len(authority);
    if len < authority.len() {
        &authority[len + 1..]
    } else {
        &[]
    }
}

// Returns whether a text is empty or the digits of a number of 16 bits.
fn is_port(digits: &[u8]) -> bool
    ensures { result ≡ is_port digits.now }
{
    let mut port = 0u32;
    for byte in digits {
        if !byte.is_ascii_digit() {
            return false;
        }
        port = port * 10 + u32::from(*byte - b'0');
        if port > 65_535 {
            return false;
        }
    }
    true
}

// Returns the IPv6 address in brackets.
fn ipv6_in(host: &[u8]) -> Option<Ipv6Addr>
    ensures { option_map ipv6_segments result ≡ ipv6_in host.now }
{
    let [b'[', address @ .., b']'] = host else {
        return None;
    };
    match Ipv6Addr::parse_ascii(address) {
        Ok(address) => Some(address),
        Err(_) => None,
    }
}

fn is_ipv4(host: &[u8]) -> bool
    ensures { result ≡ is_ipv4 host.now }
{
    match Ipv4Addr::parse_ascii(host) {
        Ok(_) => true,
        Err(_) => false,
    }
}

fn begins_with_letter(text: &[u8]) -> bool
    ensures { result ≡ begins_with_letter text.now }
{
    match text {
        [byte, ..] => byte.is_ascii_alphabetic(),
        [] => false,
    }
}

// Returns whether the last label begins with a letter. The URL Standard takes other names for numbers.
fn is_name(host: &[u8]) -> bool
    ensures { result ≡ is_name host.now }
{
    let mut is_named = begins_with_letter(host);
    for place in 0..host.len() {
        if host[place] == b'.' {
            is_named = begins_with_letter(&host[place + 1..]);
        }
    }
    is_named
}

// Returns whether the URL Standard takes a host as it is: a name whose last label begins with a letter, or an address.
#[tactic(auto, unfolding(crate::specs::Hosts::is_reachable))]
fn is_reachable(host: &[u8]) -> bool
    ensures { result ≡ is_reachable host.now }
{
    ipv6_in(host).is_some() || (is_host(host) && (is_name(host) || is_ipv4(host)))
}

// Returns the host of an authority without a user, with a port in range or none.
#[tactic(auto, unfolding(crate::specs::Hosts::host_in))]
fn host_in(authority: &[u8]) -> Option<&[u8]>
    ensures { option_copied result ≡ host_in authority.now }
{
    let host = &authority[..host_len(authority)];
    if !has(b'@', authority) && is_reachable(host) && is_port(port_part(authority)) {
        Some(host)
    } else {
        None
    }
}

fn host_behind(rest: Option<&[u8]>) -> Option<&[u8]>
    ensures { option_copied result ≡ host_behind (option_copied rest.entry) }
{
    match rest {
        Some(text) => host_in(authority_of(text)),
        None => None,
    }
}

/// Returns the host of an address. An address is a URL of `http` or `https` that has no user and no backslash, a port
/// in range or none, and right behind `//` a host that the URL Standard does not rewrite.
#[tactic(auto, unfolding(crate::specs::Hosts::host_of))]
pub fn host_of(url: &[u8]) -> Option<&[u8]>
    ensures { option_copied result ≡ host_of url.now }
{
    if has(b'\\', url) {
        None
    } else {
        host_behind(after_scheme(url))
    }
}

/// Returns whether a text is safe in a link and in a Location field (RFC 9110, section 10.2.2): an address in at most
/// 8,000 bytes of visible ASCII.
pub fn is_link(url: &[u8]) -> bool
    ensures { result ≡ is_link url.now }
{
    url.len() <= URL_LIMIT && is_all_visible(url) && host_of(url).is_some()
}

fn ipv6_text(alloc: Global, address: Ipv6Addr) -> Result<Vec<u8>, AllocError>
    ensures { IfOk result (λ text. text.items ≡ written_host (Some (ipv6_segments address)) []) }
{
    let mut text = String::new(alloc);
    match write!(text, "[{}]", address.hex_groups()) {
        Ok(()) => Ok(text.into_bytes()),
        Err(_) => Err(AllocError),
    }
}

/// Returns a host in lower case.
pub(crate) fn lower_case(alloc: Global, host: &[u8]) -> Result<Vec<u8>, AllocError>
    ensures { IfOk result (λ text. text.items ≡ written_host None host.now) }
{
    let mut text = Vec::from_slice(alloc, host)?;
    text.make_ascii_lowercase();
    Ok(text)
}

fn written_host(alloc: Global, host: &[u8]) -> Result<Vec<u8>, AllocError>
    ensures { IfOk result (λ text. text.items ≡ written_host (ipv6_in host.now) host.now) }
{
    match ipv6_in(host) {
        Some(address) => ipv6_text(alloc, address),
        None => lower_case(alloc, host),
    }
}

/// Returns the host of an address as the URL Standard writes it, or nothing if the text is not an address.
///
/// # Errors
///
/// Running out of memory.
#[tactic(auto, unfolding(crate::specs::Hosts::shown_host))]
pub fn shown_host(alloc: Global, url: &[u8]) -> Result<Vec<u8>, AllocError>
    ensures { IfOk result (λ text. text.items ≡ shown_host url.now) }
{
    match host_of(url) {
        Some(host) => written_host(alloc, host),
        None => Ok(Vec::new(alloc)),
    }
}
