//! The volume of an OpenURL: what the core reads, or else a value of an `rft.` key, or else one of OpenURL 0.1.
ghost use Rattle.std.specs.Prelude.{◌≡◌, IfOk, map};
ghost use Rattle.std.specs.List.{filter_map};
ghost use Rattle.feed_answer.specs.Pairs.{first};
ghost use Rattle.feed_openurl.specs.Core.{core_volume, volume_of_pair};
ghost use Rattle.feed_openurl.specs.Keys.{keyed};
ghost use Rattle.feed_openurl.specs.Plain.{plain};
ghost use Rattle.feed_openurl.specs.Keys.{or_text};
ghost use Rattle.feed_bytes.specs.Trim.{trimmed};
ghost use Rattle.feed_openurl.specs.Romans.{roman_volume};
ghost use Rattle.feed_openurl.specs.Tiers.{lenient_volume, lenient_volume_of, strict_volume_of, volume_in, volume_of};
ghost use Rattle.feed_openurl.specs.Volumes.{is_year_of, leading_volume, unless_year_of, without_series};

use crate::date::DateText;
use crate::key::Tier;
use crate::lenient_date::lenient_date;
use crate::plain::plain;
use crate::roman::roman_volume;
use crate::value::Value;
use crate::volume::{VolumeText, leading_volume, without_series};
use feed_answer::Pair;
use feed_bytes::trim_spaces;
use std::alloc::{AllocError, Global};

/// Returns the volume of an OpenURL.
pub(crate) fn volume_of(
    alloc: Global,
    pairs: &[Pair<'_>],
    values: &[Value<'_>],
) -> Result<Option<VolumeText>, AllocError>
    requires { values.now ≡ map keyed pairs.now }
    ensures { IfOk result (λ volume. volume ≡ volume_of pairs.now) }
{
    if let Some(volume) = core_volume(alloc, pairs)? {
        return Ok(Some(volume));
    }
    match volume_in(alloc, values, Tier::Rft)? {
        Some(volume) => Ok(Some(volume)),
        None => volume_in(alloc, values, Tier::Old),
    }
}

// The volume that the core reads of a pair.
fn volume_of_pair(alloc: Global, pair: &Pair<'_>) -> Result<Option<VolumeText>, AllocError>
    ensures { IfOk result (λ volume. volume ≡ volume_of_pair pair.now) }
{
    if pair.has_key("rft.volume") {
        VolumeText::of_query(alloc, trim_spaces(pair.value()))
    } else {
        Ok(None)
    }
}

// The first volume that the core reads.
fn core_volume(alloc: Global, pairs: &[Pair<'_>]) -> Result<Option<VolumeText>, AllocError>
    ensures { IfOk result (λ volume. volume ≡ core_volume pairs.now) }
{
    for pair in pairs {
        if let Some(volume) = volume_of_pair(alloc, pair)? {
            return Ok(Some(volume));
        }
    }
    Ok(None)
}

// The first volume of a tier in the form of the core, or else the first in another.
fn volume_in(
    alloc: Global,
    values: &[Value<'_>],
    tier: Tier,
) -> Result<Option<VolumeText>, AllocError>
    ensures { IfOk result (λ volume. volume ≡ volume_in tier values.now) }
{
    match strict_volume(alloc, values, tier)? {
        Some(volume) => Ok(Some(volume)),
        None => other_volume(alloc, values, tier),
    }
}

// The first volume of a tier in the form of the core.
fn strict_volume(
    alloc: Global,
    values: &[Value<'_>],
    tier: Tier,
) -> Result<Option<VolumeText>, AllocError>
    ensures { IfOk result (λ volume. volume ≡ first (filter_map (strict_volume_of tier) values.now)) }
{
    for value in values {
        if value.is_volume(tier) {
            if let Some(volume) = VolumeText::of_query(alloc, trim_spaces(value.text()))? {
                return Ok(Some(volume));
            }
        }
    }
    Ok(None)
}

// The first volume of a tier in another form.
fn other_volume(
    alloc: Global,
    values: &[Value<'_>],
    tier: Tier,
) -> Result<Option<VolumeText>, AllocError>
    ensures { IfOk result (λ volume. volume ≡ first (filter_map (lenient_volume_of tier) values.now)) }
{
    for value in values {
        if value.is_volume(tier) {
            if let Some(volume) = volume_in_value(alloc, value.text())? {
                return Ok(Some(volume));
            }
        }
    }
    Ok(None)
}

// The leading number of a text, or else what it is as a Roman numeral.
fn number_of(alloc: Global, text: &[u8]) -> Result<Option<VolumeText>, AllocError>
    ensures { IfOk result (λ volume. volume
        ≡ or_text (leading_volume (without_series text.now)) (roman_volume text.now)) }
{
    match leading_volume(alloc, without_series(text))? {
        Some(volume) => Ok(Some(volume)),
        None => roman_volume(alloc, text),
    }
}

// The volume of a text in another form than the core's.
#[tactic(auto, unfolding(crate::specs::Tiers::lenient_volume))]
fn lenient_volume(alloc: Global, text: &[u8]) -> Result<Option<VolumeText>, AllocError>
    ensures { IfOk result (λ volume. volume ≡ lenient_volume text.now) }
{
    let date = lenient_date(alloc, text)?;
    Ok(unless_year_of(date, number_of(alloc, text)?))
}

fn volume_in_value(alloc: Global, value: &[u8]) -> Result<Option<VolumeText>, AllocError>
    ensures { IfOk result (λ volume. volume ≡ lenient_volume (trimmed (plain value.now))) }
{
    let text = plain(alloc, value)?;
    lenient_volume(alloc, trim_spaces(text.as_slice()))
}

// Whether a volume is the year of a date that has a month, as in `2018-January`.
fn is_year_of(date: &Option<DateText>, volume: &VolumeText) -> bool
    ensures { result ≡ is_year_of date.now volume.now }
{
    match date {
        Some(date) => {
            let text = date.as_bytes();
            text.len() > 4 && &text[..4] == volume.as_bytes()
        }
        None => false,
    }
}

fn unless_year_of(date: Option<DateText>, volume: Option<VolumeText>) -> Option<VolumeText>
    ensures { result ≡ unless_year_of date volume }
{
    match volume {
        Some(volume) if is_year_of(&date, &volume) => None,
        _ => volume,
    }
}
