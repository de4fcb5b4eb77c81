//! The rank of a hit among those of a query.
ghost use Rattle.std.specs.Prelude.{◌≡◌, ◌<◌};
ghost use Rattle.node_hits.specs.Hits.{availability_rank, grade_rank, is_abstracts, is_free, is_full_text};
ghost use Rattle.node_hits.specs.Hits.{first_rank, is_selection, is_word, place_rank, rank_by, text_rank};

use feed_answer::{Availability, Grade};
use feed_bytes::trim_spaces;
use feed_kbart::Row;

fn availability_rank(availability: Availability) -> u32
    ensures value { result ≡ availability_rank availability }
    ensures bound { result < 4 }
{
    match availability {
        Availability::Available => 3,
        Availability::Partly => 2,
        Availability::NotCompared => 1,
        Availability::Embargoed => 0,
    }
}

fn grade_rank(grade: Grade) -> u32
    ensures value { result ≡ grade_rank grade }
    ensures bound { result < 3 }
{
    match grade {
        Grade::Inside => 2,
        Grade::Overlap => 1,
        Grade::Untested => 0,
    }
}

/// Returns whether a trimmed text is a word, in any case.
pub(crate) fn is_word(text: &[u8], word: &[u8]) -> bool
    ensures { result ≡ is_word word.now text.now }
{
    trim_spaces(text).eq_ignore_ascii_case(word)
}

/// Returns whether a row is free to read.
pub fn is_free(row: &Row) -> bool
    ensures { result ≡ is_free row.now }
{
    is_word(row.access(), b"F")
}

/// Returns whether a row covers full texts.
pub fn is_full_text(row: &Row) -> bool
    ensures { result ≡ is_full_text row.now }
{
    is_word(row.depth(), b"fulltext")
}

/// Returns whether a row covers selected articles.
pub fn is_selection(row: &Row) -> bool
    ensures { result ≡ is_selection row.now }
{
    is_word(row.depth(), b"selected articles")
}

/// Returns whether a row covers abstracts.
pub fn is_abstracts(row: &Row) -> bool
    ensures { result ≡ is_abstracts row.now }
{
    is_word(row.depth(), b"abstracts")
}

fn text_rank(row: &Row) -> u32
    ensures value { result ≡ text_rank row.now }
    ensures bound { result < 3 }
{
    if !is_full_text(row) {
        0
    } else if is_free(row) {
        2
    } else {
        1
    }
}

// Returns the rank of a place in the order of the site: the first is the highest.
fn place_rank(place: usize) -> u32
    ensures value { result ≡ place_rank place }
    ensures bound { result < 65536 }
{
    65_535_usize.saturating_sub(place) as u32
}

// Returns the rank of a book that comes before its series: it is above all others.
fn first_rank(is_first: bool) -> u32
    ensures value { result ≡ first_rank is_first }
    ensures bound { result < 2 }
{
    if is_first { 1 } else { 0 }
}

/// Returns the rank of a hit: by whether it is a book that comes before its series, then by its availability, then by
/// its grade, then by its depth and access, then by the place of its package in the order of the site.
pub(crate) fn rank_by(
    is_first: bool,
    availability: Availability,
    grade: Grade,
    row: &Row,
    place: usize,
) -> u32
    ensures { result ≡ rank_by is_first availability grade row.now place }
{
    let quality = 9 * availability_rank(availability) + 3 * grade_rank(grade) + text_rank(row);
    65_536 * (36 * first_rank(is_first) + quality) + place_rank(place)
}
