//! The citation of an OpenURL: the article, the chapter or the volume that a reader looks for.
ghost use Rattle.std.specs.Prelude.{◌≡◌, ◌++◌, ◌∷◌, [], IfOk, OnOk, map, string_bytes};
ghost use Rattle.feed_openurl.specs.Citations.{author_text, authors, beside, best, pages_text, part_text};
ghost use Rattle.feed_openurl.specs.Citations.{with_author};

use crate::choice::best;
use crate::offer::{Offer, offers_of};
use feed_answer::{Pair, decode_pairs};
use feed_citation::{CitationPart, PARTS};
use std::alloc::{AllocError, Global};
use std::marker::Model;

// The text of a part.
#[derive(Drop)]
struct PartText {
    text: String,
}

impl Model for PartText {
    ghost use Rattle.std.specs.Prelude.{ℕ, List, string_bytes};

    ghost Value = { List ℕ };

    ghost view = { λ p. string_bytes p.text };
}

/// The citation of an OpenURL, as it came: UTF-8 without control characters. A text that is absent is empty.
#[derive(Drop)]
pub struct Citation {
    // In the order of the parts.
    texts: Vec<PartText>,
}

impl Model for Citation {
    ghost use Rattle.feed_openurl.specs.Citations.{CitationValue};

    ghost Value = { CitationValue };

    ghost view = { λ c. c.texts.items };
}

// Appends a text, with a mark before it if there is one already.
fn push_beside(text: &mut String, mark: &str, more: &str) -> Result<(), AllocError>
    ensures { OnOk result (string_bytes text.new ≡ beside mark.now (string_bytes text.old) more.now) }
{
    if more.as_bytes().is_empty() {
        return Ok(());
    }
    if text.as_bytes().is_empty() {
        return text.push_str(more);
    }
    text.push_str(mark)?;
    text.push_str(more)
}

// Two texts with a mark between them, or the one that there is.
fn beside(alloc: Global, mark: &str, one: &str, other: &str) -> Result<String, AllocError>
    ensures { IfOk result (λ text. string_bytes text ≡ beside mark.now one.now other.now) }
{
    let mut text = String::from_str(alloc, one)?;
    push_beside(&mut text, mark, other)?;
    Ok(text)
}

fn push_author(text: &mut String, rank: u16, offered: &Offer) -> Result<(), AllocError>
    ensures { OnOk result (string_bytes text.new ≡ with_author rank (string_bytes text.old) offered.now) }
{
    if offered.is_for(CitationPart::Author) && rank == offered.rank {
        return push_beside(text, "; ", offered.text.as_str());
    }
    Ok(())
}

// All authors of a rank.
fn authors(alloc: Global, rank: u16, offers: &[Offer]) -> Result<String, AllocError>
    ensures { IfOk result (λ text. string_bytes text ≡ authors rank offers.now) }
{
    let mut text = String::new(alloc);
    for offered in offers {
        push_author(&mut text, rank, offered)?;
    }
    Ok(text)
}

// All authors, or the first one, as `Doe, Jane`.
fn author_text(alloc: Global, offers: &[Offer]) -> Result<String, AllocError>
    ensures { IfOk result (λ text. string_bytes text ≡ author_text offers.now) }
{
    let all = best(CitationPart::Author, offers);
    let last = best(CitationPart::LastName, offers);
    if all.is_before(&last) {
        return authors(alloc, all.rank, offers);
    }
    beside(
        alloc,
        ", ",
        last.text,
        best(CitationPart::FirstName, offers).text,
    )
}

// The pages as they came, or else the first one and the last.
fn pages_text(alloc: Global, offers: &[Offer]) -> Result<String, AllocError>
    ensures { IfOk result (λ text. string_bytes text ≡ pages_text offers.now) }
{
    let pages = best(CitationPart::Pages, offers).text;
    if !pages.as_bytes().is_empty() {
        return String::from_str(alloc, pages);
    }
    beside(
        alloc,
        "-",
        best(CitationPart::Page, offers).text,
        best(CitationPart::LastPage, offers).text,
    )
}

fn part_text(alloc: Global, offers: &[Offer], part: CitationPart) -> Result<String, AllocError>
    ensures { IfOk result (λ text. string_bytes text ≡ part_text offers.now part) }
{
    match part {
        CitationPart::Author => author_text(alloc, offers),
        CitationPart::Pages => pages_text(alloc, offers),
        _ => String::from_str(alloc, best(part, offers).text),
    }
}

fn push_text(
    alloc: Global,
    texts: &mut Vec<PartText>,
    offers: &[Offer],
    part: &CitationPart,
) -> Result<(), AllocError>
    ensures { OnOk result (texts.new.items ≡ texts.old.items ++ part_text offers.now part.now ∷ []) }
{
    let text = part_text(alloc, offers, *part)?;
    texts.push(PartText { text })?;
    Ok(())
}

fn texts_of(
    alloc: Global,
    offers: &[Offer],
    parts: &[CitationPart],
) -> Result<Vec<PartText>, AllocError>
    ensures { IfOk result (λ texts. texts.items ≡ map (part_text offers.now) parts.now) }
{
    let mut texts = Vec::new(alloc);
    for part in parts {
        push_text(alloc, &mut texts, offers, part)?;
    }
    Ok(texts)
}

impl Citation {
    ghost use Rattle.std.specs.Prelude.{IfOk};
    ghost use Rattle.feed_openurl.specs.Citations.{citation_of, citation_of_pairs, cited, text_at};

    // Returns the citation that has the best of what is offered.
    fn cited(alloc: Global, offers: &[Offer]) -> Result<Citation, AllocError>
        ensures { IfOk result (λ c. c ≡ cited offers.now) }
    {
        let texts = texts_of(alloc, offers, &PARTS)?;
        Ok(Citation { texts })
    }

    /// Reads the citation of the decoded pairs of an OpenURL.
    ///
    /// # Errors
    ///
    /// Running out of memory.
    pub fn of_pairs(alloc: Global, pairs: &[Pair<'_>]) -> Result<Citation, AllocError>
        ensures { IfOk result (λ c. c ≡ citation_of_pairs pairs.now) }
    {
        let offers = offers_of(alloc, pairs)?;
        Citation::cited(alloc, &offers)
    }

    /// Reads the citation of an OpenURL, of any length.
    ///
    /// # Errors
    ///
    /// Running out of memory.
    #[tactic(auto, unfolding(crate::specs::Citations::citation_of))]
    pub fn read(alloc: Global, text: &[u8]) -> Result<Citation, AllocError>
        ensures { IfOk result (λ c. c ≡ citation_of text.now) }
    {
        let pairs = decode_pairs(alloc, text)?;
        Citation::of_pairs(alloc, &pairs)
    }

    /// Returns the text of a part.
    pub fn text(&self, part: CitationPart) -> &str
        ensures { result.now ≡ text_at self.now part }
    {
        match self.texts.get(part.place()) {
            Some(found) => found.text.as_str(),
            None => "",
        }
    }
}
