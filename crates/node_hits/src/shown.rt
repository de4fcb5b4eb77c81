//! The hits that a response shows.
ghost use Rattle.std.specs.Prelude.{◌≡◌, ◌-◌, ◌≤◌, ℕ, [], OnOk, length};
ghost use Rattle.node_hits.specs.Tallies.{first_within, text_size, shown_limit, text_limit};
ghost use Rattle.node_hits.specs.Tallying.{with_shown};

use crate::hits::{ReleaseHit, name_text};
use crate::ranked_hit::RankedHit;
use std::alloc::{AllocError, Global};
use std::marker::Model;

// The most hits that a response shows.
pub(crate) const SHOWN_LIMIT: usize = 1_000;

/// The most packages that a response names.
pub const NAMED_LIMIT: usize = 5;

// The texts of the hits that a response shows have fewer bytes. Each byte takes at most six in JSON or in a page, and
// JSON has an address up to three times, so that a response has at most 10 MiB.
const TEXT_LIMIT: u32 = 524_288;

/// The hits that a response shows: the first ones, within the limits.
#[derive(Drop)]
pub(crate) struct Shown<'a> {
    hits: Vec<ReleaseHit<'a>>,
    // How many more hits may be shown, and with how many bytes.
    places: usize,
    bytes: usize,
}

impl<'a> Model for Shown<'a> {
    ghost use Rattle.std.specs.Prelude.{◌≤◌};
    ghost use Rattle.node_hits.specs.Tallies.{text_limit};
    ghost use Rattle.node_hits.specs.Tallying.{ShownValue};

    ghost Value = { ShownValue };

    ghost view = { λ s. record { hits = s.hits.items; places = s.places; bytes = s.bytes } };

    ghost invariant = { λ s. s.bytes ≤ text_limit };
}

// Returns how many of some bytes are left after the texts of a hit, with room for its link.
fn bytes_after(bytes: usize, found: &ReleaseHit<'_>) -> usize
    ensures { result ≡ bytes - text_size found.now }
{
    let cells = found.row().cells();
    found
        .left_beside_page(bytes)
        .saturating_sub(found.name().package().len())
        .saturating_sub(name_text(found.name()).len())
        .saturating_sub(cells.publication_title.len())
        .saturating_sub(cells.title_id.len())
        .saturating_sub(cells.coverage_depth.len())
        .saturating_sub(cells.embargo_info.len())
        .saturating_sub(cells.access_type.len())
        .saturating_sub(found.article_len())
        .saturating_sub(found.note().len())
}

/// Returns how many bytes of a response the texts of a hit leave. They are read once for each hit.
pub(crate) fn bytes_left(found: &ReleaseHit<'_>) -> u32
    ensures { result ≡ text_limit - text_size found.now }
{
    bytes_after(TEXT_LIMIT as usize, found) as u32
}

/// Returns how many of some bytes the texts of a hit leave. The number that they leave of a response is `left`.
pub(crate) fn bytes_beside(bytes: usize, left: u32) -> usize
    requires within { bytes ≤ text_limit }
    requires left { left ≤ text_limit }
    ensures { (size : ℕ) → left ≡ text_limit - size → result ≡ bytes - size }
{
    bytes.saturating_sub((TEXT_LIMIT - left) as usize)
}

// How many of the hits at the front are within the limits.
fn count_within(hits: &[RankedHit<'_>]) -> usize
    ensures count { result ≡ length (first_within shown_limit text_limit hits.now) }
    ensures bound { result ≤ length hits.now }
{
    let mut bytes = TEXT_LIMIT as usize;
    for (place, found) in hits.iter().enumerate() {
        bytes = found.bytes_after(bytes);
        if place >= SHOWN_LIMIT || bytes == 0 {
            return place;
        }
    }
    hits.len()
}

/// Returns the first hits: at most 1,000, whose texts have fewer bytes in all than the limit of a response.
pub(crate) fn first_within<'a, 'b>(hits: &'b [RankedHit<'a>]) -> &'b [RankedHit<'a>]
    ensures { result.now ≡ first_within shown_limit text_limit hits.now }
{
    &hits[..count_within(hits)]
}

impl<'a> Shown<'a> {
    pub(crate) fn new(alloc: Global) -> Shown<'a>
        ensures { result ≡ record { hits = []; places = shown_limit; bytes = text_limit } }
    {
        Shown {
            hits: Vec::new(alloc),
            places: SHOWN_LIMIT,
            bytes: TEXT_LIMIT as usize,
        }
    }

    pub(crate) fn hits(&self) -> &[ReleaseHit<'a>]
        ensures { result.now ≡ self.now.hits }
    {
        &self.hits
    }

    /// Adds a hit whose texts leave this many of the bytes of a response, if there is room for it. Otherwise no later
    /// one is added either.
    pub(crate) fn add(&mut self, found: &ReleaseHit<'a>, left: u32) -> Result<(), AllocError>
        requires { left ≡ text_limit - text_size found.now }
        ensures { OnOk result (self.new ≡ with_shown self.old found.now) }
    {
        if self.places == 0 {
            return Ok(());
        }
        let bytes = bytes_beside(self.bytes, left);
        if bytes > 0 {
            self.hits.push(found.again())?;
            self.places -= 1;
            self.bytes = bytes;
        } else {
            self.places = 0;
        }
        Ok(())
    }
}
