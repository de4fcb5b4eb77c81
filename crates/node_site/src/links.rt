//! The links of a page behind the prefix of a proxy, or without one.
ghost use Rattle.std.specs.Prelude.{◌≡◌, ◌-◌, ◌++◌, IfOk, OnOk, false, string_bytes};
ghost use Rattle.std.specs.Bool.{OnFalse};
ghost use Rattle.std.specs.Cow.{cow_slice_items};
ghost use Rattle.percent_encoding.specs.Percent.{percent_encode};
ghost use Rattle.percent_encoding.specs.declared.ascii_set.TheConstants.{NON_ALPHANUMERIC};
ghost use Rattle.node_site.specs.Hosts.{is_link};
ghost use Rattle.node_site.specs.Proxies.{room_of, through, written_target};

use crate::hosts::{URL_LIMIT, host_of};
use crate::prefixes::{Prefix, encodes};
use crate::urls::is_all_visible;
use percent_encoding::{NON_ALPHANUMERIC, percent_encode};
use std::alloc::{AllocError, Global};
use std::borrow::CowSlice;

/// Returns the target with `%` and two hexadecimal digits for each byte that is not a letter or a digit.
pub fn encoded(alloc: Global, target: &[u8]) -> Result<String, AllocError>
    ensures { IfOk result (λ text. string_bytes text ≡ percent_encode NON_ALPHANUMERIC target.now) }
{
    let mut text = String::new(alloc);
    percent_encode(target, NON_ALPHANUMERIC).append_to(&mut text)?;
    Ok(text)
}

fn put_target(
    alloc: Global,
    link: &mut Vec<u8>,
    is_encoded: bool,
    target: &[u8],
) -> Result<(), AllocError>
    ensures { OnOk result (link.new.items ≡ link.old.items ++ written_target is_encoded target.now) }
{
    if is_encoded {
        let text = encoded(alloc, target)?;
        link.extend_from_slice(text.as_bytes())
    } else {
        link.extend_from_slice(target)
    }
}

fn joined(alloc: Global, prefix: &Prefix<'_>, target: &[u8]) -> Result<Vec<u8>, AllocError>
    ensures { IfOk result (λ link. link.items
        ≡ prefix.now.front ++ (written_target prefix.now.is_encoded target.now ++ prefix.now.rest)) }
{
    let mut link = Vec::from_slice(alloc, prefix.front)?;
    put_target(alloc, &mut link, prefix.is_encoded, target)?;
    link.extend_from_slice(prefix.rest)?;
    Ok(link)
}

/// Returns false only if the link to a target behind this prefix is not safe ([`is_link`](crate::is_link)). Looks at
/// the length of the target, its bytes and its host, and does not write the link.
#[tactic(auto, using(crate::proofs::Proxying::odd_is_unsafe, crate::proofs::Proxying::hostless_is_unsafe))]
pub fn may_be_link(prefix: &Option<Prefix<'_>>, target: &[u8]) -> bool
    ensures { OnFalse result (is_link (through prefix.now target.now) ≡ false) }
{
    if target.len() > URL_LIMIT {
        return false;
    }
    if !is_all_visible(target) && !encodes(prefix) {
        return false;
    }
    prefix.is_some() || host_of(target).is_some()
}

/// Returns the link to a target behind a prefix, or else the target.
///
/// # Errors
///
/// Running out of memory.
pub fn through<'a>(
    alloc: Global,
    prefix: &Option<Prefix<'_>>,
    target: &'a [u8],
) -> Result<CowSlice<'a, u8, Global>, AllocError>
    ensures { IfOk result (λ link. cow_slice_items link ≡ through prefix.now target.now) }
{
    match prefix {
        Some(prefix) => Ok(CowSlice::Owned(joined(alloc, prefix, target)?)),
        None => Ok(CowSlice::Borrowed(target)),
    }
}

/// Returns how many of some bytes are left beside the link to a target behind a prefix. Counts three bytes for each
/// byte of a target that is percent-encoded.
pub fn left_beside(bytes: usize, prefix: &Option<Prefix<'_>>, target: &[u8]) -> usize
    ensures { result ≡ bytes - room_of prefix.now target.now }
{
    let Some(prefix) = prefix else {
        return bytes.saturating_sub(target.len());
    };
    let left = bytes
        .saturating_sub(prefix.front.len())
        .saturating_sub(target.len())
        .saturating_sub(prefix.rest.len());
    if prefix.is_encoded {
        left.saturating_sub(target.len())
            .saturating_sub(target.len())
    } else {
        left
    }
}
