//! The texts that the pairs of an OpenURL offer for the parts of a citation.
ghost use Rattle.std.specs.Prelude.{◌≡◌, ◌++◌, ◌≤◌, IfOk, OnOk, is_some, length, option_copied};
ghost use Rattle.feed_openurl.specs.Fronts.{front_len};
ghost use Rattle.feed_openurl.specs.Citations.{author_part, behind_page, first_page, is_between_pages, is_in_page};
ghost use Rattle.feed_openurl.specs.Citations.{name_offers_by, named, next_page, number_part, offer, offer_some};
ghost use Rattle.feed_openurl.specs.Citations.{offers_by, offers_for, offers_of, ordered, pair_offers, part_of};
ghost use Rattle.feed_openurl.specs.Citations.{pages_offers, part_offers, rank, title_part, work_part};

use crate::key::{Key, Tier, after_rft, is_name, mended};
use crate::links::{bare_pmid_of, doi_of, pmid_of};
use crate::shown::shown_text;
use feed_answer::Pair;
use feed_bytes::trim_spaces;
use feed_citation::CitationPart;
use std::alloc::{AllocError, Global};
use std::marker::Model;

// The rank of a key: the keys of OpenURL 1.0 before those of 0.1. The least rank is the best.
fn rank(tier: Tier, order: u8) -> u16
    ensures { result ≡ rank tier order }
{
    match tier {
        Tier::Rft => u16::from(order),
        Tier::Old => 30 + u16::from(order),
    }
}

fn title_part(name: &[u8]) -> Option<(CitationPart, u8)>
    ensures { result ≡ title_part name.now }
{
    if is_name(name, "atitle") {
        Some((CitationPart::Article, 0))
    } else if is_name(name, "jtitle") || is_name(name, "btitle") {
        Some((CitationPart::Title, 0))
    } else if is_name(name, "title") {
        Some((CitationPart::Title, 1))
    } else if is_name(name, "stitle") {
        Some((CitationPart::Title, 2))
    } else if is_name(name, "source") {
        Some((CitationPart::Title, 3))
    } else {
        None
    }
}

fn author_part(name: &[u8]) -> Option<(CitationPart, u8)>
    ensures { result ≡ author_part name.now }
{
    if is_name(name, "au") {
        Some((CitationPart::Author, 0))
    } else if is_name(name, "aulast") {
        Some((CitationPart::LastName, 1))
    } else if is_name(name, "creator") {
        Some((CitationPart::Author, 2))
    } else if is_name(name, "aufirst") {
        Some((CitationPart::FirstName, 0))
    } else if is_name(name, "auinit") {
        Some((CitationPart::FirstName, 1))
    } else if is_name(name, "auinit1") {
        Some((CitationPart::FirstName, 2))
    } else {
        None
    }
}

fn number_part(name: &[u8]) -> Option<(CitationPart, u8)>
    ensures { result ≡ number_part name.now }
{
    if is_name(name, "issue") {
        Some((CitationPart::Issue, 0))
    } else if is_name(name, "spage") {
        Some((CitationPart::Page, 0))
    } else if is_name(name, "epage") {
        Some((CitationPart::LastPage, 0))
    } else if is_name(name, "pages") {
        Some((CitationPart::Pages, 1))
    } else if is_name(name, "doi") {
        Some((CitationPart::Doi, 20))
    } else if is_name(name, "pmid") {
        Some((CitationPart::Pmid, 20))
    } else {
        None
    }
}

fn work_part(name: &[u8]) -> Option<(CitationPart, u8)>
    ensures { result ≡ work_part name.now }
{
    if is_name(name, "genre") {
        Some((CitationPart::Genre, 0))
    } else if is_name(name, "series") {
        Some((CitationPart::Series, 0))
    } else if is_name(name, "edition") {
        Some((CitationPart::Edition, 0))
    } else if is_name(name, "pub") {
        Some((CitationPart::Publisher, 0))
    } else if is_name(name, "publisher") {
        Some((CitationPart::Publisher, 1))
    } else if is_name(name, "place") {
        Some((CitationPart::Place, 0))
    } else if is_name(name, "inst") {
        Some((CitationPart::Institution, 0))
    } else {
        None
    }
}

// The part that a name has, and the order of its key.
fn ordered(name: &[u8]) -> Option<(CitationPart, u8)>
    ensures { result ≡ ordered name.now }
{
    if let Some(found) = title_part(name) {
        return Some(found);
    }
    if let Some(found) = author_part(name) {
        return Some(found);
    }
    match number_part(name) {
        Some(found) => Some(found),
        None => work_part(name),
    }
}

// The same with the rank of the key.
fn named(tier: Tier, name: &[u8]) -> Option<(CitationPart, u16)>
    ensures { result ≡ named tier name.now }
{
    let (part, order) = ordered(name)?;
    Some((part, rank(tier, order)))
}

// The part of a citation that a key has, and its rank.
fn part_of(key: &[u8]) -> Option<(CitationPart, u16)>
    ensures { result ≡ part_of key.now }
{
    let name = mended(key);
    match after_rft(name) {
        Some(rest) => named(Tier::Rft, rest),
        None => named(Tier::Old, name),
    }
}

/// Returns whether a key has a part of a citation.
pub(crate) fn is_cited(key: &[u8]) -> bool
    ensures { result ≡ is_some (part_of key.now) }
{
    part_of(key).is_some()
}

fn is_in_page(byte: u8) -> bool
    ensures { result ≡ is_in_page byte }
{
    byte != b'-' && byte != b',' && byte != b' '
}

// How many bytes the first of some pages has.
fn page_len(pages: &[u8]) -> usize
    ensures value { result ≡ front_len is_in_page pages.now }
    ensures bound { result ≤ length pages.now }
{
    for place in 0..pages.len() {
        if !is_in_page(pages[place]) {
            return place;
        }
    }
    pages.len()
}

// How many bytes are before a page.
fn gap_len(pages: &[u8]) -> usize
    ensures value { result ≡ front_len is_between_pages pages.now }
    ensures bound { result ≤ length pages.now }
{
    for place in 0..pages.len() {
        if is_in_page(pages[place]) {
            return place;
        }
    }
    pages.len()
}

// The first of some pages, as `10-15`.
fn first_page(pages: &[u8]) -> &[u8]
    ensures { result.now ≡ first_page pages.now }
{
    &pages[..page_len(pages)]
}

fn behind_page(pages: &[u8]) -> &[u8]
    ensures { result.now ≡ behind_page pages.now }
{
    &pages[page_len(pages)..]
}

// The page that follows the first one.
fn next_page(pages: &[u8]) -> &[u8]
    ensures { result.now ≡ next_page pages.now }
{
    let behind = behind_page(pages);
    first_page(&behind[gap_len(behind)..])
}

/// A text that is offered for a part, and its rank.
#[derive(Drop)]
pub(crate) struct Offer {
    pub(crate) part: CitationPart,
    pub(crate) rank: u16,
    pub(crate) text: String,
}

impl Model for Offer {
    ghost use Rattle.std.specs.Prelude.{string_bytes};
    ghost use Rattle.feed_openurl.specs.Citations.{OfferValue};

    ghost Value = { OfferValue };

    ghost view = { λ o. record { part = o.part; rank = o.rank; text = string_bytes o.text } };
}

// Appends a value as it is shown, unless that is nothing.
fn push_value(
    alloc: Global,
    offers: &mut Vec<Offer>,
    part: CitationPart,
    rank: u16,
    value: &[u8],
) -> Result<(), AllocError>
    ensures { OnOk result (offers.new.items ≡ offers.old.items ++ offer part rank value.now) }
{
    let text = shown_text(alloc, value)?;
    if text.as_bytes().is_empty() {
        return Ok(());
    }
    offers.push(Offer { part, rank, text })?;
    Ok(())
}

fn push_some(
    alloc: Global,
    offers: &mut Vec<Offer>,
    part: CitationPart,
    rank: u16,
    value: Option<&[u8]>,
) -> Result<(), AllocError>
    ensures { OnOk result (offers.new.items
        ≡ offers.old.items ++ offer_some part rank (option_copied value.entry)) }
{
    match value {
        Some(value) => push_value(alloc, offers, part, rank, value),
        None => Ok(()),
    }
}

// Appends some pages, the first of them, and the one behind it.
fn push_pages(
    alloc: Global,
    offers: &mut Vec<Offer>,
    rank: u16,
    value: &[u8],
) -> Result<(), AllocError>
    ensures { OnOk result (offers.new.items ≡ offers.old.items ++ pages_offers rank value.now) }
{
    push_value(alloc, offers, CitationPart::Pages, rank, value)?;
    push_value(alloc, offers, CitationPart::Page, rank, first_page(value))?;
    push_value(
        alloc,
        offers,
        CitationPart::LastPage,
        rank,
        next_page(value),
    )
}

fn push_part(
    alloc: Global,
    offers: &mut Vec<Offer>,
    part: CitationPart,
    rank: u16,
    value: &[u8],
) -> Result<(), AllocError>
    ensures { OnOk result (offers.new.items ≡ offers.old.items ++ part_offers part rank value.now) }
{
    match part {
        CitationPart::Pages => push_pages(alloc, offers, rank, value),
        CitationPart::Doi => push_some(alloc, offers, CitationPart::Doi, rank, doi_of(value)),
        CitationPart::Pmid => push_some(
            alloc,
            offers,
            CitationPart::Pmid,
            rank,
            bare_pmid_of(value),
        ),
        _ => push_value(alloc, offers, part, rank, value),
    }
}

fn push_found(
    alloc: Global,
    offers: &mut Vec<Offer>,
    found: Option<(CitationPart, u16)>,
    value: &[u8],
) -> Result<(), AllocError>
    ensures { OnOk result (offers.new.items ≡ offers.old.items ++ offers_for found value.now) }
{
    match found {
        Some((part, rank)) => push_part(alloc, offers, part, rank, value),
        None => Ok(()),
    }
}

// Appends a name that is a DOI or a PMID.
fn push_name(
    alloc: Global,
    offers: &mut Vec<Offer>,
    rank: u16,
    doi: Option<&[u8]>,
    value: &[u8],
) -> Result<(), AllocError>
    ensures { OnOk result (offers.new.items
        ≡ offers.old.items ++ name_offers_by rank (option_copied doi.entry) value.now) }
{
    match doi {
        Some(doi) => push_value(alloc, offers, CitationPart::Doi, rank, doi),
        None => push_some(alloc, offers, CitationPart::Pmid, rank, pmid_of(value)),
    }
}

fn push_by(
    alloc: Global,
    offers: &mut Vec<Offer>,
    key: Key,
    name: &[u8],
    value: &[u8],
) -> Result<(), AllocError>
    ensures { OnOk result (offers.new.items ≡ offers.old.items ++ offers_by key name.now value.now) }
{
    match key {
        Key::Date(tier) => push_value(alloc, offers, CitationPart::Date, rank(tier, 0), value),
        Key::Volume(tier) => push_value(alloc, offers, CitationPart::Volume, rank(tier, 0), value),
        Key::Name(tier) => push_name(alloc, offers, rank(tier, 0), doi_of(value), value),
        Key::Other => push_found(alloc, offers, part_of(name), value),
        _ => Ok(()),
    }
}

fn push_pair(alloc: Global, offers: &mut Vec<Offer>, pair: &Pair<'_>) -> Result<(), AllocError>
    ensures { OnOk result (offers.new.items ≡ offers.old.items ++ pair_offers pair.now) }
{
    let name = pair.key();
    push_by(
        alloc,
        offers,
        Key::of(name),
        name,
        trim_spaces(pair.value()),
    )
}

/// Returns what the pairs of an OpenURL offer for the parts of a citation.
pub(crate) fn offers_of(alloc: Global, pairs: &[Pair<'_>]) -> Result<Vec<Offer>, AllocError>
    ensures { IfOk result (λ offers. offers.items ≡ offers_of pairs.now) }
{
    let mut offers = Vec::new(alloc);
    for pair in pairs {
        push_pair(alloc, &mut offers, pair)?;
    }
    Ok(offers)
}
