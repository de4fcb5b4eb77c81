//! The day from which readers may see what an embargo hides.
ghost use Rattle.std.specs.Prelude.{◌≡◌, ◌<◌, ◌≤◌, ◌≤ℤ◌, ◌++◌, OnOk, neg_ℤ, pos};
ghost use Rattle.node_pages.specs.Openings.{date_at, dated, digit_value, earliest, full_opening, is_before, month_in};
ghost use Rattle.node_pages.specs.Openings.{month_start, opening_by, opening_of, opening_words, sooner, uncovered};
ghost use Rattle.feed_dates.specs.Days.{two};

use crate::coverage::put_date_after;
use feed_answer::{Embargo, Span};
use feed_dates::write_date;
use node_hits::{RankedHit, ReleaseHit, is_full_text};
use node_response::put;
use node_site::{SiteFile, Text, text_of};
use std::alloc::AllocError;

// The months from January of the year 0 to December 9999.
const MONTHS: u64 = 120_000;

// A day behind 9999-12-31, counted from 1970-01-01.
const LAST_DAY: i64 = 10_000_000;

fn digit_value(digit: u8) -> u64
    ensures value { result ≡ digit_value digit }
    ensures small { result ≤ 255 }
{
    u64::from(digit.saturating_sub(b'0'))
}

// Returns the month of a date, `YYYY-MM-DD`, counted from January of the year 0.
fn month_in(date: &[u8; 10]) -> u64
    ensures value { result ≡ month_in date.now }
    ensures small { result < 4_000_000 }
{
    let [a, b, c, d, _, e, f, _, _, _] = *date;
    let century = 10 * digit_value(a) + digit_value(b);
    let year = 100 * century + 10 * digit_value(c) + digit_value(d);
    (12 * year + 10 * digit_value(e) + digit_value(f)).saturating_sub(1)
}

fn two(number: u64) -> [u8; 2]
    ensures { result ≡ two number }
{
    [b'0' + (number / 10 % 10) as u8, b'0' + (number % 10) as u8]
}

// Returns the date of the first day of a month, which is counted from January of the year 0.
fn month_start(month: u64) -> Option<[u8; 10]>
    ensures { result ≡ month_start month }
{
    if month >= MONTHS {
        return None;
    }
    let [a, b] = two(month / 12 / 100);
    let [c, d] = two(month / 12);
    let [e, f] = two(month % 12 + 1);
    Some([a, b, c, d, b'-', e, f, b'-', b'0', b'1'])
}

// Returns the date of a day, counted from 1970-01-01.
#[tactic(auto, unfolding(crate::specs::Openings::dated))]
fn dated(day: i32) -> Option<[u8; 10]>
    ensures { result ≡ dated day }
{
    write_date(day)
}

fn date_at(day: i64) -> Option<[u8; 10]>
    requires { neg_ℤ (pos 2_147_483_648) ≤ℤ day }
    ensures { result ≡ date_at day }
{
    if day < LAST_DAY {
        dated(day as i32)
    } else {
        None
    }
}

// Returns the date from which a span of the most recent days, months or years no longer has a day with this date.
fn uncovered(span: Span, day: i32, date: &[u8; 10]) -> Option<[u8; 10]>
    ensures { result ≡ uncovered span day date.now }
{
    match span {
        Span::Days(length) => date_at(i64::from(day) + i64::from(length)),
        Span::Months(length) => month_start(month_in(date) + u64::from(length)),
        Span::Years(length) => month_start(12 * (month_in(date) / 12 + u64::from(length))),
    }
}

fn opening_by(embargo: Embargo, last: i32) -> Option<[u8; 10]>
    ensures { result ≡ opening_by embargo.begins embargo.ends last }
{
    match (embargo.begins, embargo.ends) {
        (None, Some(span)) => uncovered(span, last, &dated(last)?),
        _ => None,
    }
}

// Returns the date from which readers may see all days that are asked for of a hit, if its embargo is of type P alone.
fn opening_of(found: &ReleaseHit<'_>) -> Option<[u8; 10]>
    ensures { result ≡ opening_of found.now }
{
    let embargo = Embargo::read(found.row().embargo())?;
    let days = found.asked()?;
    opening_by(embargo, days.last)
}

fn is_before(date: &[u8], other: &[u8]) -> bool
    ensures { result ≡ is_before date.now other.now }
{
    date.cmp(other).is_lt()
}

fn sooner(one: Option<[u8; 10]>, other: Option<[u8; 10]>) -> Option<[u8; 10]>
    ensures { result ≡ sooner one other }
{
    match (one, other) {
        (Some(one), Some(other)) => if is_before(&other, &one) {
            Some(other)
        } else {
            Some(one)
        },
        (Some(one), None) => Some(one),
        (None, other) => other,
    }
}

fn full_opening(found: &ReleaseHit<'_>) -> Option<[u8; 10]>
    ensures { result ≡ full_opening found.now }
{
    if is_full_text(found.row()) {
        opening_of(found)
    } else {
        None
    }
}

/// Returns the earliest date from which readers may see all days that are asked for of a hit that has full text.
pub(crate) fn earliest(hits: &[RankedHit<'_>]) -> Option<[u8; 10]>
    ensures { result ≡ earliest hits.now }
{
    match hits.split_first() {
        Some((first, more)) => sooner(full_opening(first.hit()), earliest(more)),
        None => None,
    }
}

/// Writes from which day something is open to readers, or that it is not open today.
pub(crate) fn put_opening(
    out: &mut Vec<u8>,
    site: &SiteFile,
    date: Option<[u8; 10]>,
) -> Result<(), AllocError>
    ensures { OnOk result (out.new.items ≡ out.old.items ++ opening_words site.now date) }
{
    match date {
        Some(date) => put_date_after(out, site, Text::OpenFrom, false, &date),
        None => put(out, text_of(site, Text::Embargoed)),
    }
}

/// Writes from which day a hit is open to readers, or that it is not open today.
pub(crate) fn put_opening_of(
    out: &mut Vec<u8>,
    site: &SiteFile,
    found: &ReleaseHit<'_>,
) -> Result<(), AllocError>
    ensures { OnOk result (out.new.items ≡ out.old.items ++ opening_words site.now (opening_of found.now)) }
{
    put_opening(out, site, opening_of(found))
}
