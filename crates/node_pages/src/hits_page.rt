//! Writes the hits of a query as an HTML page.
ghost use Rattle.std.specs.Prelude.{◌≡◌, ◌++◌, IfOk, OnOk};
ghost use Rattle.node_templates.specs.Pages.{page_text};
ghost use Rattle.node_hits.specs.Tallying.{tally_from};
ghost use Rattle.node_pages.specs.HitsPage.{digits_of, hint, hits_end, is_none, least, list_end};
ghost use Rattle.node_pages.specs.HitsPage.{note_of, number_left_out, page_of_hits};

use crate::card::{Fit, put_cards};
use crate::citation::put_cited_top;
use crate::form::put_form_end;
use crate::heading::heading_of;
use crate::lists::list_mark;
use crate::partial::partial_names;
use crate::ways::{cited_of, put_ways_to};
use feed_answer::Pair;
use feed_bytes::put_number;
use feed_citation::CitationPart;
use node_hits::{QueryFacts, Tally};
use node_site::{SiteFile, Text, text_of};
use node_templates::{Slot, Template, put_page, text_or_nothing};
use std::alloc::{AllocError, Global};

/// The tallies of a query that a page shows.
#[derive(Drop)]
pub struct Tallies<'a> {
    /// The hits.
    pub hits: Tally<'a>,
    /// The other rows of the same titles whose date is covered, and whose volume is not.
    pub also: Tally<'a>,
    /// Those of other dates.
    pub others: Tally<'a>,
}

// The statement about the hits, and the beginning of their list.
const LIST_START: [Template; 2] = [Template::Note, Template::Cards];

/// Returns whether no card is shown.
pub(crate) fn is_none(found: &Tallies<'_>) -> bool
    ensures { result
        ≡ is_none (tally_from found.now.hits) (tally_from found.now.also) (tally_from found.now.others) }
{
    found.hits.count() == 0 && (found.also.count() == 0 && found.others.count() == 0)
}

/// Returns what is said if no release may have more, and none is a hit: that no holdings match, or that the library has
/// the titles only for another date or volume.
pub(crate) fn note_of(tally: &Tally<'_>, is_none: bool) -> Option<Text>
    ensures { result ≡ note_of (tally_from tally.now) is_none }
{
    if !tally.is_whole() || tally.count() != 0 {
        None
    } else if is_none {
        Some(Text::NoHoldings)
    } else {
        Some(Text::HeldOther)
    }
}

// Returns the words before a number of hits, which may be too small.
fn least(is_whole: bool) -> Text
    ensures { result ≡ least is_whole }
{
    if is_whole {
        Text::NotShown
    } else {
        Text::NotShownAtLeast
    }
}

// Returns how to ask for fewer hits, if some are left out. A search that stopped would look at the same rows again.
fn hint<'a>(site: &'a SiteFile, tally: &Tally<'_>) -> &'a [u8]
    ensures { result.now ≡ hint site.now (tally_from tally.now) }
{
    if tally.is_whole() && !tally.shows_all() {
        text_of(site, Text::NotShownHint)
    } else {
        b""
    }
}

// Returns how many hits are left out, if any are.
fn number_left_out(tally: &Tally<'_>) -> Option<usize>
    ensures { result ≡ number_left_out (tally_from tally.now) }
{
    if tally.shows_all() {
        None
    } else {
        Some(tally.left_out())
    }
}

/// Returns the digits of a number, if there is one.
pub(crate) fn digits_of(alloc: Global, number: Option<usize>) -> Result<Vec<u8>, AllocError>
    ensures { IfOk result (λ digits. digits.items ≡ digits_of number) }
{
    let mut digits = Vec::new(alloc);
    if let Some(number) = number {
        put_number(&mut digits, number as u64)?;
    }
    Ok(digits)
}

/// Writes the end of the list, how many hits are left out, and which packages may have more.
#[tactic(auto, unfolding(crate::specs::HitsPage::list_end))]
pub(crate) fn put_list_end(
    alloc: Global,
    out: &mut Vec<u8>,
    site: &SiteFile,
    tally: &Tally<'_>,
    is_none: bool,
) -> Result<(), AllocError>
    ensures { OnOk result (out.new.items
        ≡ out.old.items ++ page_text site.now (list_end site.now (tally_from tally.now) is_none)) }
{
    let left_out = digits_of(alloc, number_left_out(tally))?;
    let partial = partial_names(alloc, site, tally.partial())?;
    put_page(
        out,
        site,
        &[Template::LeftOut],
        &[
            (Slot::Listed, list_mark(is_none)),
            (Slot::LeastText, text_of(site, least(tally.is_whole()))),
            (Slot::LeftOut, &left_out),
            (Slot::Hint, hint(site, tally)),
            (Slot::MayHaveMore, &partial),
        ],
    )
}

// Writes what is behind the cards.
#[tactic(auto, unfolding(node_templates::specs::Pages::page_text, crate::specs::HitsPage::hits_end))]
fn put_hits_end(
    alloc: Global,
    out: &mut Vec<u8>,
    site: &SiteFile,
    pairs: &[Pair<'_>],
    ask: &QueryFacts<'_>,
    tally: &Tally<'_>,
    is_none: bool,
) -> Result<(), AllocError>
    ensures { OnOk result (out.new.items
        ≡ out.old.items ++ page_text site.now (hits_end site.now pairs.now ask.now (tally_from tally.now) is_none)) }
{
    put_list_end(alloc, out, site, tally, is_none)?;
    put_ways_to(alloc, out, site, tally.outcome(), &cited_of(ask, pairs))?;
    put_form_end(out, site, pairs)
}

/// Writes the page with the citation of a query with these pairs, and the cards of the hits that their tally shows. If
/// others are left out, it says how many. Behind them are the cards of the two other tallies.
#[tactic(auto, unfolding(node_templates::specs::Pages::page_text, crate::specs::HitsPage::page_of_hits))]
pub fn put_hits_page(
    alloc: Global,
    out: &mut Vec<u8>,
    site: &SiteFile,
    pairs: &[Pair<'_>],
    ask: &QueryFacts<'_>,
    found: &Tallies<'_>,
) -> Result<(), AllocError>
    ensures { OnOk result (out.new.items
        ≡ out.old.items
        ++ page_of_hits site.now pairs.now ask.now (tally_from found.now.hits) (tally_from found.now.also)
        (tally_from found.now.others)) }
{
    let cited = ask.citation.text(CitationPart::Title).as_bytes();
    let is_none = is_none(found);
    let note = text_or_nothing(site, note_of(&found.hits, is_none));
    put_cited_top(
        out,
        site,
        &heading_of(alloc, site, &found.hits)?,
        pairs,
        ask,
    )?;
    put_page(
        out,
        site,
        &LIST_START,
        &[(Slot::Note, note), (Slot::Listed, list_mark(is_none))],
    )?;
    put_cards(out, site, cited, Fit::Hit, found.hits.top())?;
    put_cards(out, site, cited, Fit::Dated, found.also.top())?;
    put_cards(out, site, cited, Fit::Outside, found.others.top())?;
    put_hits_end(alloc, out, site, pairs, ask, &found.hits, is_none)
}
