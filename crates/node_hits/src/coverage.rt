//! Writes the coverage of a row: its days, its volumes, and both in words.
ghost use Rattle.std.specs.Prelude.{◌≡◌, ◌++◌, codes, IfOk, OnOk};
ghost use Rattle.std.specs.Option.{option_and_then};
ghost use Rattle.feed_dates.specs.Days.{date_of_day};
ghost use Rattle.node_hits.specs.Coverages.{day_text, days_words, span_words, volume_text, volumes_words};

use feed_bytes::put_number;
use feed_dates::write_date;
use feed_kbart::Row;
use node_response::put;
use std::alloc::{AllocError, Global};

fn date_of(day: Option<i32>) -> Option<[u8; 10]>
    ensures { result ≡ option_and_then date_of_day day }
{
    write_date(day?)
}

/// Returns a day as `1996-03-01`, or an empty text.
pub(crate) fn day_text(alloc: Global, day: Option<i32>) -> Result<Vec<u8>, AllocError>
    ensures { IfOk result (λ text. text.items ≡ day_text day) }
{
    match date_of(day) {
        Some(date) => Vec::from_slice(alloc, &date),
        None => Ok(Vec::new(alloc)),
    }
}

/// Returns a volume in digits, or an empty text.
pub(crate) fn volume_text(alloc: Global, volume: Option<u32>) -> Result<Vec<u8>, AllocError>
    ensures { IfOk result (λ text. text.items ≡ volume_text volume) }
{
    let mut text = Vec::new(alloc);
    if let Some(number) = volume {
        put_number(&mut text, u64::from(number))?;
    }
    Ok(text)
}

// Writes both sides of a span.
fn put_both(out: &mut Vec<u8>, both: &[u8], first: &[u8], last: &[u8]) -> Result<(), AllocError>
    ensures { OnOk result (out.new.items
        ≡ out.old.items ++ (both.now ++ (first.now ++ (codes " to " ++ last.now)))) }
{
    put(out, both)?;
    put(out, first)?;
    put(out, b" to ")?;
    put(out, last)
}

fn put_side(out: &mut Vec<u8>, front: &[u8], side: &[u8]) -> Result<(), AllocError>
    ensures { OnOk result (out.new.items ≡ out.old.items ++ (front.now ++ side.now)) }
{
    put(out, front)?;
    put(out, side)
}

// Writes a span: the words before its first side alone, before its last side alone, and before both.
fn put_span(
    out: &mut Vec<u8>,
    from: &[u8],
    until: &[u8],
    both: &[u8],
    first: &[u8],
    last: &[u8],
) -> Result<(), AllocError>
    ensures { OnOk result (out.new.items
        ≡ out.old.items ++ span_words from.now until.now both.now first.now last.now) }
{
    if first.is_empty() {
        if last.is_empty() {
            Ok(())
        } else {
            put_side(out, until, last)
        }
    } else if last.is_empty() {
        put_side(out, from, first)
    } else {
        put_both(out, both, first, last)
    }
}

fn span_words(
    alloc: Global,
    from: &[u8],
    until: &[u8],
    both: &[u8],
    first: &[u8],
    last: &[u8],
) -> Result<Vec<u8>, AllocError>
    ensures { IfOk result (λ words. words.items ≡ span_words from.now until.now both.now first.now last.now) }
{
    let mut words = Vec::new(alloc);
    put_span(&mut words, from, until, both, first, last)?;
    Ok(words)
}

/// Returns the days of a row in words, such as `from 1996-03-01 to 2001-06-30`.
#[tactic(auto, unfolding(crate::specs::Coverages::days_words))]
pub fn days_words(alloc: Global, row: &Row) -> Result<Vec<u8>, AllocError>
    ensures { IfOk result (λ words. words.items ≡ days_words row.now) }
{
    let cells = row.cells();
    let first = day_text(alloc, cells.first_day())?;
    let last = day_text(alloc, cells.last_day())?;
    span_words(alloc, b"from ", b"up to ", b"from ", &first, &last)
}

/// Returns the volumes of a row in words, such as `volumes 1 to 7`.
#[tactic(auto, unfolding(crate::specs::Coverages::volumes_words))]
pub fn volumes_words(alloc: Global, row: &Row) -> Result<Vec<u8>, AllocError>
    ensures { IfOk result (λ words. words.items ≡ volumes_words row.now) }
{
    let (first, last) = row.cells().volumes();
    let first = volume_text(alloc, first)?;
    let last = volume_text(alloc, last)?;
    span_words(
        alloc,
        b"from volume ",
        b"up to volume ",
        b"volumes ",
        &first,
        &last,
    )
}
