//! Checks the bearer token of a request (RFC 6750, section 2.1). The case of `Bearer` does not count, that of the
//! token does (RFC 9110, section 11.1).
ghost use Rattle.std.specs.Prelude.{◌≡◌};
ghost use Rattle.httparse.specs.Grammar.{RequestHead};
ghost use Rattle.feed_http_heads.specs.Requests.{IsInBuffer, HasHead};
ghost use Rattle.node_request.specs.FetchRequests.{has_token, is_authorized};
ghost use Rattle.std.specs.Str.{bytes_eq};

use feed_bytes::{strip_prefix, trim_spaces};
use feed_http_heads::Request;
use sha2::{Digest, Sha256};
use std::marker::Model;

/// Whether a client may make a node fetch a release, or read its folder of site files, now.
#[derive(Drop)]
pub struct FetchPolicy<'t> {
    /// The token that authorizes a client. Without one, no client may make the node do either.
    pub token: Option<&'t [u8]>,
    /// Whether a fetch is under way, which excludes another one.
    pub is_busy: bool,
    /// Whether the folder is being read, which excludes another time.
    pub is_reloading: bool,
}

impl<'t> Model for FetchPolicy<'t> {
    ghost use Rattle.std.specs.Prelude.{option_copied};
    ghost use Rattle.node_request.specs.FetchRequests.{FetchPolicyValue};

    ghost Value = { FetchPolicyValue };

    ghost view = { λ policy. record {
      token = option_copied policy.token;
      is_busy = policy.is_busy;
      is_reloading = policy.is_reloading;
    } };
}

fn has_token(token: &[u8], value: &[u8]) -> bool
    ensures { result ≡ has_token token.now value.now }
{
    match strip_prefix(value, b"Bearer ") {
        Some(rest) => same_secret(trim_spaces(rest), token),
        None => false,
    }
}

/// Returns whether a request has one Authorization field, and this has the token.
pub fn is_authorized(token: &[u8], request: &Request<'_>) -> bool
    requires { IsInBuffer request.now }
    ensures { (head : RequestHead) → HasHead request.now head → result ≡ is_authorized token.now head }
{
    match request.fields().sole_value(b"authorization") {
        Some(value) => has_token(token, value),
        None => false,
    }
}

// Compares all bytes: `&` evaluates both of its sides.
fn same_digest(one: &[u8; 32], other: &[u8; 32]) -> bool
    ensures { result ≡ bytes_eq one.now other.now }
{
    let mut same = true;
    for place in 0..32 {
        same = same & (one[place] == other[place]);
    }
    same
}

/// Returns whether two texts are equal. Compares the texts themselves only if their digests are equal.
pub(crate) fn same_secret(one: &[u8], other: &[u8]) -> bool
    ensures { result ≡ bytes_eq one.now other.now }
{
    same_digest(&Sha256::digest(one), &Sha256::digest(other)) && one == other
}
