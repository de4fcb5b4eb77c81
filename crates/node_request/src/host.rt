//! The host that a request is for (RFC 9110, section 7.2): that of a target that is a whole URI, or else that of the
//! Host field.
ghost use Rattle.std.specs.Prelude.{◌≡◌, option_copied, position};
ghost use Rattle.std.specs.List.{list_all};
ghost use Rattle.std.specs.Char.{is_ascii_digit};
ghost use Rattle.httparse.specs.Grammar.{RequestHead};
ghost use Rattle.feed_http_heads.specs.Requests.{IsInBuffer, HasHead};
ghost use Rattle.node_request.specs.Hosts.{authority_in, authority_of, before_port, behind_scheme, ends_authority};
ghost use Rattle.node_request.specs.Hosts.{has_user, host_in, host_of};
ghost use Rattle.node_request.specs.HostLaws.{OtherFieldsDoNotCount, WholeTargetDecides};

use feed_bytes::{split_once, strip_prefix};
use feed_http_heads::Request;

// Returns what follows the scheme of a target that is a whole URI.
fn behind_scheme(target: &[u8]) -> Option<&[u8]>
    ensures { option_copied result ≡ behind_scheme target.now }
{
    match strip_prefix(target, b"http://") {
        Some(rest) => Some(rest),
        None => strip_prefix(target, b"https://"),
    }
}

fn ends_authority(byte: u8) -> bool
    ensures { result ≡ ends_authority byte }
{
    matches!(byte, b'/' | b'?' | b'#')
}

fn authority_end(text: &[u8]) -> Option<usize>
    ensures { result ≡ position ends_authority text.now }
{
    text.iter().position(|byte| ends_authority(*byte))
}

// Returns the authority at the front of a text.
fn authority_in(text: &[u8]) -> &[u8]
    ensures { result.now ≡ authority_in text.now }
{
    match authority_end(text) {
        Some(place) => &text[..place],
        None => text,
    }
}

fn has_digits_alone(text: &[u8]) -> bool
    ensures { result ≡ list_all is_ascii_digit text.now }
{
    text.iter().all(|byte| byte.is_ascii_digit())
}

fn before_port<'a>(name: &'a [u8], port: &[u8]) -> Option<&'a [u8]>
    ensures { option_copied result ≡ before_port name.now port.now }
{
    if has_digits_alone(port) {
        Some(name)
    } else {
        None
    }
}

fn has_user(authority: &[u8]) -> bool
    ensures { result ≡ has_user authority.now }
{
    authority.contains(&b'@')
}

// Returns the host of an authority, without its port.
fn host_in(authority: &[u8]) -> Option<&[u8]>
    ensures { option_copied result ≡ host_in authority.now }
{
    if has_user(authority) {
        return None;
    }
    match split_once(authority, b':') {
        Some((name, port)) => before_port(name, port),
        None => Some(authority),
    }
}

fn authority_of<'a>(request: &'a Request<'_>) -> Option<&'a [u8]>
    requires { IsInBuffer request.now }
    ensures { (head : RequestHead) → HasHead request.now head → option_copied result ≡ authority_of head }
{
    match behind_scheme(request.target()) {
        Some(rest) => Some(authority_in(rest)),
        None => request.fields().sole_value(b"host"),
    }
}

/// Returns the host that a request is for, without its port, as the request has it. Compare it in any case of letters
/// (RFC 9110, section 4.2.3). An international name is in its ASCII form.
///
/// There is none if the authority has a user or an IPv6 address, or if the request has no Host field, or several. Reads
/// no other field, such as X-Forwarded-Host.
#[tactic(auto, unfolding(crate::specs::Hosts::host_of))]
pub fn host_of<'a>(request: &'a Request<'_>) -> Option<&'a [u8]>
    requires { IsInBuffer request.now }
    ensures { (head : RequestHead) → HasHead request.now head → option_copied result ≡ host_of head }
{
    match authority_of(request) {
        Some(authority) => host_in(authority),
        None => None,
    }
}

/// Requests with the same target and the same Host fields are for the same host, whatever other fields they have.
pub fn other_fields_do_not_count()
    ensures { OtherFieldsDoNotCount }
{}

/// If the target of a request is a whole URI, no field counts.
pub fn whole_target_decides()
    ensures { WholeTargetDecides }
{}
