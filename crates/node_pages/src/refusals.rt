//! The responses to OpenURLs for which nothing is looked up.
ghost use Rattle.std.specs.Prelude.{◌≡◌, ◌++◌, IfOk, OnOk};
ghost use Rattle.node_hits.specs.QueryFacts.{ask_of, names_work};
ghost use Rattle.node_pages.specs.QueryRefusals.{asks_for_form, is_numberless, nothing_json};
ghost use Rattle.node_pages.specs.QueryRefusals.{nothing_text, numberless_body, numberless_response};
ghost use Rattle.node_pages.specs.QueryRefusals.{numberless_status, page_of_nothing, reason_text};
ghost use Rattle.node_pages.specs.QueryRefusals.{reasons, reasons_with, unasked_response};
ghost use Rattle.node_templates.specs.Pages.{page_text};

use crate::citation::put_cited_top;
use crate::error_page::error_response;
use crate::form::{isbn_in, issn_in, put_form_end};
use crate::fragment::put_nothing_fragment;
use crate::home_page::form_response;
use crate::number_faults::{NumberKind, fault_words};
use crate::openurl_text::OpenUrlText;
use crate::ways::{cited_of, put_ways_to};
use feed_answer::Pair;
use feed_bytes::put_all;
use feed_citation::CitationPart;
use feed_openurl::OpenUrlFault;
use node_hits::{QueryFacts, ReceivedOpenUrl, Tally, names_work, put_answer_json, put_no_targets};
use node_request::Representation;
use node_response::{Fragment, Response, Status, put_fault};
use node_site::{SearchOutcome, SiteFile, Text, text_of};
use node_templates::{Slot, Template, put_page};
use std::alloc::{AllocError, Global};

// The statement that nothing is looked up, what is wrong with the numbers, and the form for the title.
const NOTHING: [Template; 3] = [Template::Note, Template::NumberFaults, Template::TitlesForm];

fn reason_text(reason: OpenUrlFault) -> &'static [u8]
    ensures { result.now ≡ reason_text reason }
{
    match reason {
        OpenUrlFault::Version => b"Version",
        OpenUrlFault::OtherFormat => b"OtherFormat",
        OpenUrlFault::NoIssn => b"NoIssn",
        OpenUrlFault::NoIsbn => b"NoIsbn",
        OpenUrlFault::TooMany => b"TooMany",
    }
}

fn is_numberless(reason: OpenUrlFault) -> bool
    ensures { result ≡ is_numberless reason }
{
    !matches!(reason, OpenUrlFault::TooMany)
}

// Writes that nothing is looked up, what is wrong with the numbers, and the form for the title.
#[tactic(auto, unfolding(crate::specs::QueryRefusals::reasons_with))]
fn put_reasons_with(
    out: &mut Vec<u8>,
    site: &SiteFile,
    pairs: &[Pair<'_>],
    ask: &QueryFacts<'_>,
    issn_fault: &[u8],
    isbn_fault: &[u8],
) -> Result<(), AllocError>
    ensures { OnOk result (out.new.items
        ≡ out.old.items
        ++ page_text site.now (reasons_with site.now pairs.now ask.now issn_fault.now isbn_fault.now)) }
{
    put_page(
        out,
        site,
        &NOTHING,
        &[
            (Slot::Note, text_of(site, Text::NoNumber)),
            (Slot::Issn, issn_in(pairs)),
            (Slot::IssnFault, issn_fault),
            (Slot::Isbn, isbn_in(pairs)),
            (Slot::IsbnFault, isbn_fault),
            (
                Slot::Wanted,
                ask.citation.text(CitationPart::Title).as_bytes(),
            ),
        ],
    )
}

// Writes that nothing is looked up, and why.
#[tactic(auto, unfolding(crate::specs::QueryRefusals::reasons))]
fn put_reasons(
    alloc: Global,
    out: &mut Vec<u8>,
    site: &SiteFile,
    pairs: &[Pair<'_>],
    ask: &QueryFacts<'_>,
) -> Result<(), AllocError>
    ensures { OnOk result (out.new.items
        ≡ out.old.items ++ page_text site.now (reasons site.now pairs.now ask.now)) }
{
    let issn_fault = fault_words(alloc, site, NumberKind::Issn, issn_in(pairs))?;
    let isbn_fault = fault_words(alloc, site, NumberKind::Isbn, isbn_in(pairs))?;
    put_reasons_with(out, site, pairs, ask, &issn_fault, &isbn_fault)
}

#[tactic(auto, unfolding(node_templates::specs::Pages::page_text, crate::specs::QueryRefusals::page_of_nothing))]
fn put_nothing(
    alloc: Global,
    out: &mut Vec<u8>,
    site: &SiteFile,
    pairs: &[Pair<'_>],
    ask: &QueryFacts<'_>,
) -> Result<(), AllocError>
    ensures { OnOk result (out.new.items ≡ out.old.items ++ page_of_nothing site.now pairs.now ask.now) }
{
    put_cited_top(out, site, text_of(site, Text::NothingToLookUp), pairs, ask)?;
    put_reasons(alloc, out, site, pairs, ask)?;
    put_ways_to(
        alloc,
        out,
        site,
        SearchOutcome::Unknown,
        &cited_of(ask, pairs),
    )?;
    put_form_end(out, site, pairs)
}

#[tactic(auto, unfolding(crate::specs::QueryRefusals::nothing_text))]
fn put_text(out: &mut Vec<u8>, reason: OpenUrlFault) -> Result<(), AllocError>
    ensures { OnOk result (out.new.items ≡ out.old.items ++ nothing_text reason) }
{
    put_all(
        out,
        &[
            Fragment::Plain(b"nothing to look up: "),
            Fragment::Plain(reason_text(reason)),
            Fragment::Plain(b"\n"),
        ],
    )
}

#[tactic(auto, unfolding(crate::specs::QueryRefusals::nothing_json))]
fn put_json(
    alloc: Global,
    out: &mut Vec<u8>,
    ask: &QueryFacts<'_>,
    reason: OpenUrlFault,
) -> Result<(), AllocError>
    ensures { OnOk result (out.new.items ≡ out.old.items ++ nothing_json ask.now reason) }
{
    let none = Tally::new(alloc);
    put_answer_json(out, ask, reason_text(reason), &none, &none)
}

#[tactic(auto, unfolding(crate::specs::QueryRefusals::numberless_body))]
fn put_numberless(
    alloc: Global,
    out: &mut Vec<u8>,
    site: &SiteFile,
    query: &ReceivedOpenUrl<'_>,
    ask: &QueryFacts<'_>,
    reason: OpenUrlFault,
) -> Result<(), AllocError>
    ensures { OnOk result (out.new.items
        ≡ out.old.items
        ++ numberless_body site.now query.now.text.now (names_work ask.now.citation) query.now.representation ask.now
        reason) }
{
    let named = names_work(ask.citation);
    match query.representation {
        Representation::Html => put_nothing(alloc, out, site, query.pairs(), ask),
        Representation::Fragment => put_nothing_fragment(alloc, out, site, query.pairs(), ask),
        Representation::Sfx => put_no_targets(out),
        Representation::Text if named => put_text(out, reason),
        Representation::Json if named => put_json(alloc, out, ask, reason),
        _ => put_fault(out, query.representation, reason_text(reason)),
    }
}

fn numberless_status(representation: Representation, named: bool, status: Status) -> Status
    ensures { result ≡ numberless_status representation named status }
{
    match representation {
        Representation::Sfx => status,
        _ if named => status,
        _ => Status::BadRequest,
    }
}

fn numberless_response(
    alloc: Global,
    site: &SiteFile,
    query: &ReceivedOpenUrl<'_>,
    status: Status,
    reason: OpenUrlFault,
) -> Result<Response, AllocError>
    ensures { IfOk result (λ reply. reply
        ≡ numberless_response site.now query.now.text.now status query.now.representation (ask_of query.now.text.now)
        reason) }
{
    let ask = query.ask(alloc)?;
    let status = numberless_status(query.representation, names_work(ask.citation), status);
    let mut body = Vec::new(alloc);
    put_numberless(alloc, &mut body, site, query, &ask, reason)?;
    Ok(Response::new(status, query.representation, body))
}

fn asks_for_form(text: &[u8], representation: Representation) -> bool
    ensures { result ≡ asks_for_form text.now representation }
{
    text.is_empty() && representation == Representation::Html
}

/// Returns the response to a query for which nothing is looked up: the form, if the query is empty and the response is
/// a page. A query without an ISSN and an ISBN, of any format and version, has a response with this status if its
/// citation names a work. Any other is rejected.
///
/// # Errors
///
/// Running out of memory.
pub fn unasked_response(
    alloc: Global,
    site: &SiteFile,
    query: &ReceivedOpenUrl<'_>,
    status: Status,
    reason: OpenUrlFault,
) -> Result<Response, AllocError>
    ensures { IfOk result (λ reply. reply
        ≡ unasked_response site.now query.now.text.now status query.now.representation (ask_of query.now.text.now)
        reason) }
{
    if asks_for_form(query.text, query.representation) {
        return form_response(alloc, site);
    }
    if is_numberless(reason) {
        return numberless_response(alloc, site, query, status, reason);
    }
    let asked = OpenUrlText {
        text: query.text,
        representation: query.representation,
    };
    let name = reason_text(reason);
    error_response(
        alloc,
        site,
        &asked,
        Status::BadRequest,
        Text::TooManyNumbers,
        name,
    )
}
