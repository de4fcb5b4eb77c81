//! The date of an OpenURL: what the core reads, or else a value of an `rft.` key, or else one of OpenURL 0.1.
ghost use Rattle.std.specs.Prelude.{◌≡◌, IfOk, map};
ghost use Rattle.std.specs.List.{filter_map};
ghost use Rattle.feed_answer.specs.Pairs.{first};
ghost use Rattle.feed_openurl.specs.Core.{core_date, date_of_pair};
ghost use Rattle.feed_openurl.specs.Keys.{keyed};
ghost use Rattle.feed_openurl.specs.Plain.{plain};
ghost use Rattle.feed_openurl.specs.Tiers.{lenient_date_of, strict_date_of, date_in, date_of};
ghost use Rattle.feed_openurl.specs.Dates.{lenient_date};

use crate::date::DateText;
use crate::key::Tier;
use crate::lenient_date::lenient_date;
use crate::plain::plain;
use crate::value::Value;
use feed_answer::Pair;
use feed_bytes::trim_spaces;
use std::alloc::{AllocError, Global};

/// Returns the date of an OpenURL.
pub(crate) fn date_of(
    alloc: Global,
    pairs: &[Pair<'_>],
    values: &[Value<'_>],
) -> Result<Option<DateText>, AllocError>
    requires { values.now ≡ map keyed pairs.now }
    ensures { IfOk result (λ date. date ≡ date_of pairs.now) }
{
    if let Some(date) = core_date(pairs) {
        return Ok(Some(date));
    }
    match date_in(alloc, values, Tier::Rft)? {
        Some(date) => Ok(Some(date)),
        None => date_in(alloc, values, Tier::Old),
    }
}

// The date that the core reads of a pair.
fn date_of_pair(pair: &Pair<'_>) -> Option<DateText>
    ensures { result ≡ date_of_pair pair.now }
{
    if pair.has_key("rft.date") {
        DateText::of_query(trim_spaces(pair.value()))
    } else {
        None
    }
}

// The first date that the core reads.
fn core_date(pairs: &[Pair<'_>]) -> Option<DateText>
    ensures { result ≡ core_date pairs.now }
{
    for pair in pairs {
        if let Some(date) = date_of_pair(pair) {
            return Some(date);
        }
    }
    None
}

// The first date of a tier in the form of the core, or else the first in another form.
fn date_in(alloc: Global, values: &[Value<'_>], tier: Tier) -> Result<Option<DateText>, AllocError>
    ensures { IfOk result (λ date. date ≡ date_in tier values.now) }
{
    match strict_date(values, tier) {
        Some(date) => Ok(Some(date)),
        None => other_date(alloc, values, tier),
    }
}

// The first date of a tier in the form of the core.
fn strict_date(values: &[Value<'_>], tier: Tier) -> Option<DateText>
    ensures { result ≡ first (filter_map (strict_date_of tier) values.now) }
{
    for value in values {
        if value.is_date(tier) {
            if let Some(date) = DateText::of_query(trim_spaces(value.text())) {
                return Some(date);
            }
        }
    }
    None
}

// The first in another form of a tier.
fn other_date(
    alloc: Global,
    values: &[Value<'_>],
    tier: Tier,
) -> Result<Option<DateText>, AllocError>
    ensures { IfOk result (λ date. date ≡ first (filter_map (lenient_date_of tier) values.now)) }
{
    for value in values {
        if value.is_date(tier) {
            if let Some(date) = other_form(alloc, value.text())? {
                return Ok(Some(date));
            }
        }
    }
    Ok(None)
}

fn other_form(alloc: Global, value: &[u8]) -> Result<Option<DateText>, AllocError>
    ensures { IfOk result (λ date. date ≡ lenient_date (plain value.now)) }
{
    let text = plain(alloc, value)?;
    lenient_date(alloc, text.as_slice())
}
