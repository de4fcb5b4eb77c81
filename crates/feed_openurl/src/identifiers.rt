//! The identifiers that are looked up for an OpenURL: those of each key of its citation.
ghost use Rattle.std.specs.Prelude.{◌≡◌, IfOk, map};
ghost use Rattle.feed_openurl.specs.Identifiers.{identifiers_of, looked_up, reason_by, reason_without, refused};
ghost use Rattle.feed_openurl.specs.Identifiers.{within_limit};
ghost use Rattle.feed_openurl.specs.Keys.{keyed};
ghost use Rattle.feed_openurl.specs.Kinds.{formats_of};

use crate::fault::OpenUrlFault;
use crate::kind;
use crate::kind::FormatNames;
use crate::numbers::numbers_of;
use crate::sets::{Identifiers, identifiers_among};
use crate::value::Value;
use feed_answer::{BOOK, JOURNAL, Pair};
use feed_identifiers::{Isbn, Issn};
use std::alloc::{AllocError, Global};
use std::marker::Model;

/// The identifiers that are looked up, or none and the reason.
#[derive(Drop)]
pub(crate) struct LookedUp {
    pub(crate) issns: Vec<Issn>,
    pub(crate) isbns: Vec<Isbn>,
    pub(crate) refusal: Option<OpenUrlFault>,
}

impl Model for LookedUp {
    ghost use Rattle.feed_openurl.specs.Identifiers.{LookedUp};

    ghost Value = { LookedUp };

    ghost view = { λ found. record { issns = found.issns.items; isbns = found.isbns.items; refusal = found.refusal } };
}

fn refused(alloc: Global, refusal: OpenUrlFault) -> LookedUp
    ensures { result ≡ refused refusal }
{
    LookedUp {
        issns: Vec::new(alloc),
        isbns: Vec::new(alloc),
        refusal: Some(refusal),
    }
}

// The identifiers, unless they are more than the limit.
fn within_limit(alloc: Global, found: Identifiers) -> LookedUp
    ensures { result ≡ within_limit found }
{
    if found.are_too_many() {
        return refused(alloc, OpenUrlFault::TooMany);
    }
    LookedUp {
        issns: found.issns,
        isbns: found.isbns,
        refusal: None,
    }
}

// The formats that the values name.
fn formats_of(alloc: Global, values: &[Value<'_>]) -> Result<FormatNames, AllocError>
    ensures { IfOk result (λ formats. formats ≡ formats_of values.now) }
{
    let journal = kind::has_format(alloc, values, JOURNAL)?;
    let book = kind::has_format(alloc, values, BOOK)?;
    Ok(FormatNames { journal, book })
}

fn reason_by(formats: FormatNames) -> OpenUrlFault
    ensures { result ≡ reason_by formats }
{
    if formats.book && !formats.journal {
        OpenUrlFault::NoIsbn
    } else {
        OpenUrlFault::NoIssn
    }
}

// The reason of an OpenURL without identifiers.
fn reason_without(alloc: Global, values: &[Value<'_>]) -> Result<OpenUrlFault, AllocError>
    ensures { IfOk result (λ reason. reason ≡ reason_without values.now) }
{
    if kind::has_other_version(alloc, values)? {
        return Ok(OpenUrlFault::Version);
    }
    if kind::has_other_format(alloc, values)? {
        return Ok(OpenUrlFault::OtherFormat);
    }
    Ok(reason_by(formats_of(alloc, values)?))
}

// The identifiers of all pairs.
fn identifiers_of(alloc: Global, pairs: &[Pair<'_>]) -> Result<Identifiers, AllocError>
    ensures { IfOk result (λ found. found ≡ identifiers_of pairs.now) }
{
    let numbers = numbers_of(alloc, pairs)?;
    identifiers_among(alloc, &numbers)
}

/// Returns the identifiers of an OpenURL, by its pairs and their values.
pub(crate) fn looked_up(
    alloc: Global,
    pairs: &[Pair<'_>],
    values: &[Value<'_>],
) -> Result<LookedUp, AllocError>
    requires { values.now ≡ map keyed pairs.now }
    ensures { IfOk result (λ found. found ≡ looked_up pairs.now) }
{
    let found = identifiers_of(alloc, pairs)?;
    if found.is_empty() {
        return Ok(refused(alloc, reason_without(alloc, values)?));
    }
    Ok(within_limit(alloc, found))
}
