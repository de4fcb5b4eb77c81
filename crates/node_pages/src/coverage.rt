//! Writes in words what a row covers, and how it is read.
ghost use Rattle.std.specs.Prelude.{◌≡◌, ◌++◌, IfOk, OnOk};
ghost use Rattle.std.specs.Option.{option_and_then};
ghost use Rattle.feed_dates.specs.Days.{date_of_day};
ghost use Rattle.node_pages.specs.Coverage.{coverage_words, date_after, date_sentence, days_between};
ghost use Rattle.node_pages.specs.Coverage.{days_words, depth_name, depth_text, from_words, text_by, volume_sentence};
ghost use Rattle.node_pages.specs.Coverage.{volumes_between, volumes_words, when_words};

use crate::dates::{begins_year, ends_year, put_date, put_year};
use crate::embargo::{put_embargo, put_sentence};
use feed_bytes::put_all;
use feed_dates::write_date;
use feed_kbart::Row;
use node_hits::{is_abstracts, is_free, is_full_text, is_selection};
use node_response::{Fragment, put};
use node_site::{SiteFile, Text, text_of};
use node_templates::text_if;
use std::alloc::{AllocError, Global};

// The room for what a row covers. Most need less.
const COVERAGE_ROOM: usize = 256;

// Returns one of two texts: for a day, or for a whole year.
fn text_by(in_years: bool, day: Text, year: Text) -> Text
    ensures { result ≡ text_by in_years day year }
{
    if in_years { year } else { day }
}

// Writes a date in words, or its year alone.
fn put_when(
    out: &mut Vec<u8>,
    site: &SiteFile,
    in_years: bool,
    date: &[u8],
) -> Result<(), AllocError>
    ensures { OnOk result (out.new.items ≡ out.old.items ++ when_words site.now in_years date.now) }
{
    if in_years {
        put_year(out, date)
    } else {
        put_date(out, site, date)
    }
}

/// Writes a text, and a date or a year after it.
#[tactic(auto, unfolding(crate::specs::Coverage::date_after))]
pub(crate) fn put_date_after(
    out: &mut Vec<u8>,
    site: &SiteFile,
    name: Text,
    in_years: bool,
    date: &[u8],
) -> Result<(), AllocError>
    ensures { OnOk result (out.new.items ≡ out.old.items ++ date_after site.now name in_years date.now) }
{
    put_all(
        out,
        &[Fragment::Plain(text_of(site, name)), Fragment::Plain(b" ")],
    )?;
    put_when(out, site, in_years, date)
}

#[tactic(auto, unfolding(crate::specs::Coverage::date_sentence))]
fn put_date_sentence(
    out: &mut Vec<u8>,
    site: &SiteFile,
    name: Text,
    in_years: bool,
    date: &[u8],
) -> Result<(), AllocError>
    ensures { OnOk result (out.new.items ≡ out.old.items ++ date_sentence site.now name in_years date.now) }
{
    put_date_after(out, site, name, in_years, date)?;
    put(out, b". ")
}

// Writes the first day of a coverage that has no last one.
#[tactic(auto, unfolding(crate::specs::Coverage::from_words))]
fn put_from(
    out: &mut Vec<u8>,
    site: &SiteFile,
    in_years: bool,
    first: &[u8],
) -> Result<(), AllocError>
    ensures { OnOk result (out.new.items ≡ out.old.items ++ from_words site.now in_years first.now) }
{
    let from = text_by(in_years, Text::AvailableFrom, Text::AvailableFromYear);
    put_date_after(out, site, from, in_years, first)?;
    put_all(
        out,
        &[
            Fragment::Plain(b" "),
            Fragment::Plain(text_of(site, Text::ToPresent)),
            Fragment::Plain(b". "),
        ],
    )
}

#[tactic(auto, unfolding(crate::specs::Coverage::days_between))]
fn put_days_between(
    out: &mut Vec<u8>,
    site: &SiteFile,
    in_years: bool,
    first: &[u8],
    last: &[u8],
) -> Result<(), AllocError>
    ensures { OnOk result (out.new.items
        ≡ out.old.items ++ days_between site.now in_years first.now last.now) }
{
    let from = text_by(in_years, Text::AvailableFrom, Text::AvailableFromYear);
    let to = text_by(in_years, Text::To, Text::ToYear);
    put_date_after(out, site, from, in_years, first)?;
    put(out, b" ")?;
    put_date_sentence(out, site, to, in_years, last)
}

fn date_of(day: Option<i32>) -> Option<[u8; 10]>
    ensures { result ≡ option_and_then date_of_day day }
{
    write_date(day?)
}

#[tactic(auto, unfolding(crate::specs::Coverage::days_words))]
fn put_days(out: &mut Vec<u8>, site: &SiteFile, row: &Row) -> Result<(), AllocError>
    ensures { OnOk result (out.new.items ≡ out.old.items ++ days_words site.now row.now) }
{
    let cells = row.cells();
    let first = date_of(cells.first_day());
    let last = date_of(cells.last_day());
    match (&first, &last) {
        (Some(first), Some(last)) => {
            let in_years = begins_year(first) && ends_year(last);
            put_days_between(out, site, in_years, first, last)
        }
        (Some(first), None) => put_from(out, site, begins_year(first), first),
        (None, Some(last)) => {
            let in_years = ends_year(last);
            let until = text_by(in_years, Text::AvailableTo, Text::AvailableToYear);
            put_date_sentence(out, site, until, in_years, last)
        }
        (None, None) => Ok(()),
    }
}

#[tactic(auto, unfolding(crate::specs::Coverage::volume_sentence))]
fn put_volume_sentence(
    out: &mut Vec<u8>,
    site: &SiteFile,
    name: Text,
    volume: u32,
) -> Result<(), AllocError>
    ensures { OnOk result (out.new.items ≡ out.old.items ++ volume_sentence site.now name volume) }
{
    put_all(
        out,
        &[
            Fragment::Plain(text_of(site, name)),
            Fragment::Plain(b" "),
            Fragment::Number(u64::from(volume)),
            Fragment::Plain(b". "),
        ],
    )
}

#[tactic(auto, unfolding(crate::specs::Coverage::volumes_between))]
fn put_volumes_between(
    out: &mut Vec<u8>,
    site: &SiteFile,
    first: u32,
    last: u32,
) -> Result<(), AllocError>
    ensures { OnOk result (out.new.items ≡ out.old.items ++ volumes_between site.now first last) }
{
    put_all(
        out,
        &[
            Fragment::Plain(text_of(site, Text::FromVolume)),
            Fragment::Plain(b" "),
            Fragment::Number(u64::from(first)),
            Fragment::Plain(b" "),
        ],
    )?;
    put_volume_sentence(out, site, Text::ToVolume, last)
}

#[tactic(auto, unfolding(crate::specs::Coverage::volumes_words))]
fn put_volumes(out: &mut Vec<u8>, site: &SiteFile, row: &Row) -> Result<(), AllocError>
    ensures { OnOk result (out.new.items ≡ out.old.items ++ volumes_words site.now row.now) }
{
    match row.cells().volumes() {
        (Some(first), Some(last)) => put_volumes_between(out, site, first, last),
        (Some(first), None) => put_volume_sentence(out, site, Text::FromVolume, first),
        (None, Some(last)) => put_volume_sentence(out, site, Text::UpToVolume, last),
        (None, None) => Ok(()),
    }
}

// Returns the text for the depth of a coverage, if it is one that a list may have.
fn depth_name(row: &Row) -> Option<Text>
    ensures { result ≡ depth_name row.now }
{
    if is_full_text(row) {
        Some(Text::Depth)
    } else if is_selection(row) {
        Some(Text::Selected)
    } else if is_abstracts(row) {
        Some(Text::Abstracts)
    } else {
        None
    }
}

fn depth_text<'a>(site: &'a SiteFile, row: &'a Row) -> &'a [u8]
    ensures { result.now ≡ depth_text site.now row.now }
{
    match depth_name(row) {
        Some(name) => text_of(site, name),
        None => row.depth(),
    }
}

/// Writes what a row covers, its depth, whether it is free to read, and its embargo, each as a sentence.
#[tactic(auto, unfolding(crate::specs::Coverage::coverage_words))]
pub(crate) fn put_coverage(out: &mut Vec<u8>, site: &SiteFile, row: &Row) -> Result<(), AllocError>
    ensures { OnOk result (out.new.items ≡ out.old.items ++ coverage_words site.now row.now) }
{
    put_days(out, site, row)?;
    put_volumes(out, site, row)?;
    put_sentence(out, depth_text(site, row))?;
    put_sentence(out, text_if(is_free(row), text_of(site, Text::Free)))?;
    put_embargo(out, site, row.embargo())
}

/// Returns what a row covers, its depth, whether it is free to read, and its embargo, each as a sentence.
pub(crate) fn coverage_words(
    alloc: Global,
    site: &SiteFile,
    row: &Row,
) -> Result<Vec<u8>, AllocError>
    ensures { IfOk result (λ words. words.items ≡ coverage_words site.now row.now) }
{
    let mut words = Vec::with_capacity(alloc, COVERAGE_ROOM)?;
    put_coverage(&mut words, site, row)?;
    Ok(words)
}
