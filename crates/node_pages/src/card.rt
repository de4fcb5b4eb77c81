//! The cards of hits.
ghost use Rattle.std.specs.Prelude.{◌≡◌, ◌++◌, IfOk, OnOk};
ghost use Rattle.node_templates.specs.Pages.{page_text};
ghost use Rattle.node_hits.specs.Hits.{article_text};
ghost use Rattle.node_pages.specs.Cards.{card_parts, card_with, cards, fit_class, fit_text, grade_text, is_compared};
ghost use Rattle.node_pages.specs.Cards.{limit_words, title_shown, unmatched_text};

use crate::coverage::coverage_words;
use crate::heading::is_embargoed;
use crate::opening::put_opening_of;
use feed_answer::{Availability, Grade};
use feed_kbart::Kind;
use node_hits::{RankedHit, ReleaseHit};
use node_response::put;
use node_site::{SiteFile, Text, shown_host, shown_package, text_of};
use node_templates::{Slot, Template, put_page, text_if, text_or_nothing};
use std::alloc::{AllocError, Global};

/// How the rows of a list fit what is asked for.
#[derive(Clone, Copy, Debug, PartialEq, Eq)]
pub enum Fit {
    /// They are hits, each of its grade.
    Hit,
    /// Their date is covered, and their volume is not.
    Dated,
    /// Their coverage does not match.
    Outside,
}

// Returns what is said of rows that are not hits, before their button.
fn unmatched_text(fit: Fit) -> Option<Text>
    ensures { result ≡ unmatched_text fit }
{
    match fit {
        Fit::Hit => None,
        Fit::Dated => Some(Text::VolumeOutside),
        Fit::Outside => Some(Text::Outside),
    }
}

fn grade_text(grade: Grade) -> Text
    ensures { result ≡ grade_text grade }
{
    match grade {
        Grade::Inside => Text::Inside,
        Grade::Overlap => Text::Overlap,
        Grade::Untested => Text::Untested,
    }
}

// Returns whether a hit of this grade was compared, or may be. A book has no dates and volumes.
fn is_compared(kind: Kind, grade: Grade) -> bool
    ensures { result ≡ is_compared kind grade }
{
    match (kind, grade) {
        (Kind::Book, Grade::Untested) => false,
        _ => true,
    }
}

// Returns what is said of the grade of a hit, unless an embargo keeps it from readers.
fn fit_text(fit: Fit, found: &ReleaseHit<'_>) -> Option<Text>
    ensures { result ≡ fit_text fit found.now }
{
    if fit == Fit::Hit
        && !is_embargoed(found.availability())
        && is_compared(found.row().kind(), found.grade())
    {
        Some(grade_text(found.grade()))
    } else {
        None
    }
}

// Returns the name of the class that gives a fit its colour. A hit that is open in part is not green.
fn fit_class(availability: Availability, grade: Grade) -> &'static [u8]
    ensures { result.now ≡ fit_class availability grade }
{
    match (availability, grade) {
        (Availability::Available | Availability::NotCompared, Grade::Inside) => b"inside",
        _ => b"partly",
    }
}

fn put_limit(out: &mut Vec<u8>, site: &SiteFile, found: &ReleaseHit<'_>) -> Result<(), AllocError>
    ensures { OnOk result (out.new.items ≡ out.old.items ++ limit_words site.now found.now) }
{
    match found.availability() {
        Availability::Partly if !found.row().embargo().is_empty() => {
            put(out, text_of(site, Text::Partly))
        }
        Availability::Embargoed => put_opening_of(out, site, found),
        _ => Ok(()),
    }
}

// Returns what is said of a hit that an embargo keeps from readers, or a part of it.
fn limit_words(
    alloc: Global,
    site: &SiteFile,
    found: &ReleaseHit<'_>,
) -> Result<Vec<u8>, AllocError>
    ensures { IfOk result (λ words. words.items ≡ limit_words site.now found.now) }
{
    let mut words = Vec::new(alloc);
    put_limit(&mut words, site, found)?;
    Ok(words)
}

// Returns the title of a row, unless it is the one that is cited.
fn title_shown<'a>(title: &'a [u8], cited: &[u8]) -> &'a [u8]
    ensures { result.now ≡ title_shown title.now cited.now }
{
    if title == cited { b"" } else { title }
}

// Writes the card of a hit that has this limit, these links to the article and to its page, this host and coverage.
#[tactic(auto, unfolding(crate::specs::Cards::card_with))]
fn put_card_with(
    out: &mut Vec<u8>,
    site: &SiteFile,
    cited: &[u8],
    fit: Fit,
    found: &ReleaseHit<'_>,
    limit: &[u8],
    article: &[u8],
    page: &[u8],
    host: &[u8],
    coverage: &[u8],
) -> Result<(), AllocError>
    requires { article.now ≡ article_text found.now }
    ensures { OnOk result (out.new.items
        ≡ out.old.items
        ++ page_text site.now (card_with site.now cited.now fit found.now limit.now page.now host.now coverage.now)) }
{
    put_page(
        out,
        site,
        &[Template::Card],
        &[
            (Slot::Package, shown_package(site, found.name().package())),
            (Slot::Title, title_shown(found.row().title(), cited)),
            (Slot::Unmatched, text_or_nothing(site, unmatched_text(fit))),
            (Slot::Limit, limit),
            (Slot::ArticleLink, article),
            (Slot::PageLink, text_if(!article.is_empty(), page)),
            (Slot::Link, text_if(article.is_empty(), page)),
            (Slot::Host, host),
            (
                Slot::FitClass,
                fit_class(found.availability(), found.grade()),
            ),
            (Slot::Fit, text_or_nothing(site, fit_text(fit, found))),
            (Slot::Note, found.note()),
            (Slot::Coverage, coverage),
        ],
    )
}

// Writes the card of a hit.
fn put_card(
    out: &mut Vec<u8>,
    site: &SiteFile,
    cited: &[u8],
    fit: Fit,
    found: &ReleaseHit<'_>,
) -> Result<(), AllocError>
    ensures { OnOk result (out.new.items
        ≡ out.old.items ++ page_text site.now (card_parts site.now cited.now fit found.now)) }
{
    let limit = limit_words(*out.allocator(), site, found)?;
    let article = found.article_text(*out.allocator())?;
    let page = found.page(*out.allocator())?;
    let host = shown_host(*out.allocator(), found.row().url())?;
    let coverage = coverage_words(*out.allocator(), site, found.row())?;
    put_card_with(
        out, site, cited, fit, found, &limit, &article, &page, &host, &coverage,
    )
}

/// Writes the cards of rows with this fit, beside a cited title.
#[tactic(auto, unfolding(node_templates::specs::Pages::page_text))]
pub(crate) fn put_cards(
    out: &mut Vec<u8>,
    site: &SiteFile,
    cited: &[u8],
    fit: Fit,
    rows: &[RankedHit<'_>],
) -> Result<(), AllocError>
    ensures { OnOk result (out.new.items
        ≡ out.old.items ++ page_text site.now (cards site.now cited.now fit rows.now)) }
{
    for row in rows {
        put_card(out, site, cited, fit, row.hit())?;
    }
    Ok(())
}
