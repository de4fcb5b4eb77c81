//! The templates of addresses: URLs with names in braces, which parts of a citation replace.
ghost use Rattle.std.specs.Prelude.{◌≡◌, drop, option_copied};
ghost use Rattle.std.specs.List.{list_all, list_any};
ghost use Rattle.node_site.specs.Kinds.{ends_authority, has_end, has_fields, is_after_open, is_article, is_front};
ghost use Rattle.node_site.specs.Kinds.{is_prefix, is_template, names_count};
ghost use Rattle.node_site.specs.Urls.{parts_between};

use crate::bytes::count_of;
use crate::cuts::{after, before, has};
use crate::field::Names;
use crate::hosts::is_link;
use crate::urls::after_scheme;

// Returns whether the text after an opening brace of a template begins with a name and the closing brace.
fn is_after_open(names: Names, piece: &[u8]) -> bool
    ensures { result ≡ is_after_open names piece.now }
{
    has(b'}', piece) && names.allow(before(b'}', piece)) && !has(b'}', after(b'}', piece))
}

// The most names of a template, so that a link is made in bounded time.
const NAMES_LIMIT: usize = 20;

fn are_after_open(names: Names, text: &[u8]) -> bool
    ensures { result ≡ list_all (is_after_open names) (drop 1 (parts_between 123 text.now)) }
{
    text.split(|byte| *byte == b'{')
        .skip(1)
        .all(|piece| is_after_open(names, piece))
}

// Returns how many braces of a template open, one for each name.
fn names_count(text: &[u8]) -> usize
    ensures { result ≡ names_count text.now }
{
    count_of(b'{', text)
}

fn has_fields(names: Names, text: &[u8]) -> bool
    ensures { result ≡ has_fields names text.now }
{
    !has(b'}', before(b'{', text))
        && (are_after_open(names, text) && names_count(text) <= NAMES_LIMIT)
}

fn ends_authority(byte: u8) -> bool
    ensures { result ≡ ends_authority byte }
{
    byte == b'/' || (byte == b'?' || (byte == b'#' || byte == b'\\'))
}

fn ends(rest: &[u8]) -> bool
    ensures { result ≡ list_any ends_authority rest.now }
{
    rest.iter().any(|byte| ends_authority(*byte))
}

fn has_end(rest: Option<&[u8]>) -> bool
    ensures { result ≡ has_end (option_copied rest.entry) }
{
    match rest {
        Some(rest) => ends(rest),
        None => false,
    }
}

// Returns whether what is before the first brace has a host, and more behind it.
fn is_front(front: &[u8]) -> bool
    ensures { result ≡ is_front front.now }
{
    front.len() > 8 && is_link(front) && has_end(after_scheme(front))
}

/// Returns whether a text is a URL in which each brace encloses a name and is behind the host, such as
/// `https://a.example/ill?issn={issn}`.
pub(crate) fn is_template(names: Names, text: &[u8]) -> bool
    ensures { result ≡ is_template names text.now }
{
    is_link(text) && has_fields(names, text) && is_front(before(b'{', text))
}

/// Returns whether a text is the address of an article, with at least one name.
pub(crate) fn is_article(text: &[u8]) -> bool
    ensures { result ≡ is_article text.now }
{
    is_template(Names::OfArticle, text) && has(b'{', text)
}

/// Returns whether a text is the prefix of a proxy. The address follows it, or is at its only `{url}`.
pub(crate) fn is_prefix(text: &[u8]) -> bool
    ensures { result ≡ is_prefix text.now }
{
    is_template(Names::OfPrefix, text) && !has(b'{', after(b'{', text))
}
