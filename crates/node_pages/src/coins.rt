//! Writes the citation of a page as COinS, for programs that collect citations.
ghost use Rattle.std.specs.Prelude.{◌≡◌, ◌++◌, OnOk};
ghost use Rattle.node_templates.specs.Pages.{page_text};
ghost use Rattle.node_hits.specs.Hits.{is_word};
ghost use Rattle.node_hits.specs.Lookups.{is_of_serials};
ghost use Rattle.node_pages.specs.Coins.{cites_book, coins_parts, coins_with, is_cited, is_of_books};

use crate::form::{isbn_in, issn_in};
use crate::ways::cited_of;
use feed_answer::Pair;
use feed_bytes::trim_spaces;
use feed_citation::CitationPart;
use node_hits::{QueryFacts, is_blank};
use node_links::citation_query;
use node_site::SiteFile;
use node_templates::{Slot, Template, put_page, text_if};
use std::alloc::AllocError;

/// Returns whether a citation has any part that a page shows.
pub(crate) fn is_cited(pairs: &[Pair<'_>], ask: &QueryFacts<'_>) -> bool
    ensures { result ≡ is_cited pairs.now ask.now }
{
    let is_uncited = is_blank(ask.citation)
        && issn_in(pairs).is_empty()
        && isbn_in(pairs).is_empty();
    !is_uncited
}

fn is_word(text: &[u8], word: &[u8]) -> bool
    ensures { result ≡ is_word word.now text.now }
{
    trim_spaces(text).eq_ignore_ascii_case(word)
}

fn is_of_books(genre: &[u8]) -> bool
    ensures { result ≡ is_of_books genre.now }
{
    is_word(genre, b"book") || is_word(genre, b"bookitem")
}

fn is_of_serials(genre: &[u8]) -> bool
    ensures { result ≡ is_of_serials genre.now }
{
    is_word(genre, b"article") || is_word(genre, b"journal")
}

// Returns whether a book is cited: by the genre, or else by an ISBN, unless the genre is that of serials.
fn cites_book(genre: &[u8], isbn: &[u8]) -> bool
    ensures { result ≡ cites_book genre.now isbn.now }
{
    is_of_books(genre) || (!isbn.is_empty() && !is_of_serials(genre))
}

// Writes this query in the format of a journal or of a book, if there is a citation.
#[tactic(auto, unfolding(crate::specs::Coins::coins_with))]
fn put_coins_with(
    out: &mut Vec<u8>,
    site: &SiteFile,
    is_cited: bool,
    is_book: bool,
    query: &[u8],
) -> Result<(), AllocError>
    ensures { OnOk result (out.new.items
        ≡ out.old.items ++ page_text site.now (coins_with is_cited is_book query.now)) }
{
    put_page(
        out,
        site,
        &[Template::Coins],
        &[
            (Slot::JournalQuery, text_if(is_cited && !is_book, query)),
            (Slot::BookQuery, text_if(is_cited && is_book, query)),
        ],
    )
}

/// Writes the whole citation as COinS, if there is one.
pub(crate) fn put_coins(
    out: &mut Vec<u8>,
    site: &SiteFile,
    pairs: &[Pair<'_>],
    ask: &QueryFacts<'_>,
) -> Result<(), AllocError>
    ensures { OnOk result (out.new.items
        ≡ out.old.items ++ page_text site.now (coins_parts pairs.now ask.now)) }
{
    let genre = ask.citation.text(CitationPart::Genre).as_bytes();
    let is_book = cites_book(genre, isbn_in(pairs));
    let query = citation_query(*out.allocator(), &cited_of(ask, pairs))?;
    put_coins_with(out, site, is_cited(pairs, ask), is_book, &query)
}
