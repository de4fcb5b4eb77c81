//! Writes dates in words.
ghost use Rattle.std.specs.Prelude.{◌≡◌, ◌++◌, OnOk};
ghost use Rattle.node_pages.specs.Dates.{begins_year, date_words, day_words, early_month, ends_year, marked};
ghost use Rattle.node_pages.specs.Dates.{month_of, month_words, year_words};

use feed_bytes::put_all;
use node_response::{Fragment, put};
use node_site::{SiteFile, Text, text_of};
use std::alloc::AllocError;

// Returns the month with a number from 01 to 09, by its last digit.
fn early_month(ones: u8) -> Text
    ensures { result ≡ early_month ones }
{
    match ones {
        b'1' => Text::January,
        b'2' => Text::February,
        b'3' => Text::March,
        b'4' => Text::April,
        b'5' => Text::May,
        b'6' => Text::June,
        b'7' => Text::July,
        b'8' => Text::August,
        _ => Text::September,
    }
}

fn month_of(tens: u8, ones: u8) -> Text
    ensures { result ≡ month_of tens ones }
{
    if tens == b'0' {
        return early_month(ones);
    }
    match ones {
        b'0' => Text::October,
        b'1' => Text::November,
        _ => Text::December,
    }
}

#[tactic(auto, unfolding(crate::specs::Dates::marked))]
fn put_marked<'a>(out: &mut Vec<u8>, site: &'a SiteFile, digits: &'a [u8]) -> Result<(), AllocError>
    ensures { OnOk result (out.new.items ≡ out.old.items ++ marked site.now digits.now) }
{
    put_all(
        out,
        &[
            Fragment::Plain(digits),
            Fragment::Plain(text_of(site, Text::DayMark)),
        ],
    )
}

#[tactic(auto, unfolding(crate::specs::Dates::day_words))]
fn put_day(out: &mut Vec<u8>, site: &SiteFile, tens: u8, ones: u8) -> Result<(), AllocError>
    ensures { OnOk result (out.new.items ≡ out.old.items ++ day_words site.now tens ones) }
{
    if tens != b'0' {
        return put_marked(out, site, &[tens, ones]);
    }
    if ones == b'1' {
        return put_all(out, &[Fragment::Plain(text_of(site, Text::FirstDay))]);
    }
    put_marked(out, site, &[ones])
}

#[tactic(auto, unfolding(crate::specs::Dates::month_words))]
fn put_month<'a>(
    out: &mut Vec<u8>,
    site: &'a SiteFile,
    month: Text,
    year: &'a [u8],
) -> Result<(), AllocError>
    ensures { OnOk result (out.new.items ≡ out.old.items ++ month_words site.now month year.now) }
{
    put_all(
        out,
        &[
            Fragment::Plain(b" "),
            Fragment::Plain(text_of(site, month)),
            Fragment::Plain(b" "),
            Fragment::Plain(year),
        ],
    )
}

/// Returns whether a date, `YYYY-MM-DD`, is the first day of a year.
pub(crate) fn begins_year(date: &[u8]) -> bool
    ensures { result ≡ begins_year date.now }
{
    match date {
        [_, _, _, _, _, e, f, _, i, j] => *e == b'0' && *f == b'1' && *i == b'0' && *j == b'1',
        _ => false,
    }
}

/// Returns whether a date is the last day of a year.
pub(crate) fn ends_year(date: &[u8]) -> bool
    ensures { result ≡ ends_year date.now }
{
    match date {
        [_, _, _, _, _, e, f, _, i, j] => *e == b'1' && *f == b'2' && *i == b'3' && *j == b'1',
        _ => false,
    }
}

/// Writes the year of a date.
#[tactic(auto, unfolding(crate::specs::Dates::year_words))]
pub(crate) fn put_year(out: &mut Vec<u8>, date: &[u8]) -> Result<(), AllocError>
    ensures { OnOk result (out.new.items ≡ out.old.items ++ year_words date.now) }
{
    match date {
        [a, b, c, d, _, _, _, _, _, _] => put(out, &[*a, *b, *c, *d]),
        _ => Ok(()),
    }
}

/// Writes a date, `YYYY-MM-DD`, in words: the day, the name of the month, and the year.
#[tactic(auto, unfolding(crate::specs::Dates::date_words))]
pub(crate) fn put_date(out: &mut Vec<u8>, site: &SiteFile, date: &[u8]) -> Result<(), AllocError>
    ensures { OnOk result (out.new.items ≡ out.old.items ++ date_words site.now date.now) }
{
    match date {
        [a, b, c, d, _, e, f, _, i, j] => {
            put_day(out, site, *i, *j)?;
            put_month(out, site, month_of(*e, *f), &[*a, *b, *c, *d])
        }
        _ => Ok(()),
    }
}
