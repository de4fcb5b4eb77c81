//! Writes the titles that contain a text as an HTML page, and makes the response to a query for them.
ghost use Rattle.std.specs.Prelude.{◌≡◌, ◌++◌, IfOk, OnOk};
ghost use Rattle.node_templates.specs.Pages.{page_text};
ghost use Rattle.node_pages.specs.TitlesPage.{fault_text, title_card, title_cards, title_words, titles_body};
ghost use Rattle.node_pages.specs.TitlesPage.{titles_end, titles_form_page, titles_page, titles_refusal};
ghost use Rattle.node_pages.specs.TitlesPage.{titles_response};
ghost use Rattle.node_request.specs.declared.representation.Representation.TheVariants as representation;
ghost use Rattle.node_response.specs.Responses.{response_with};
ghost use Rattle.node_response.specs.declared.status.Status.TheVariants as status;
ghost use Rattle.node_titles.specs.Walks.{titles_from};

use crate::coverage::put_coverage;
use crate::hits_page::digits_of;
use crate::lists::list_mark;
use crate::openurl_text::OpenUrlText;
use crate::titles::{put_isbn, put_issn, put_titles_json, put_titles_text, title_pairs};
use feed_kbart::Row;
use feed_releases::ActiveRelease;
use node_request::Representation;
use node_response::{Response, Status, refusal};
use node_site::{SiteFile, Text, shown_package, text_of};
use node_templates::{Slot, Template, put_page, text_if};
use node_titles::{ListedRow, TitleFault, TitleSearch, Walk, find_titles};
use percent_encoding::{NON_ALPHANUMERIC, percent_encode};
use std::alloc::{AllocError, Global};

// The form, and the list of titles, or that there are none.
const LIST_START: [Template; 4] = [
    Template::Top,
    Template::TitlesForm,
    Template::Note,
    Template::Cards,
];

const LIST_END: [Template; 2] = [Template::TitlesEnd, Template::Foot];

const FORM_PAGE: [Template; 5] = [
    Template::Top,
    Template::Note,
    Template::Fault,
    Template::TitlesForm,
    Template::Foot,
];

// Returns the identifiers of a row and what it covers, in words.
fn title_words(alloc: Global, site: &SiteFile, row: &Row) -> Result<Vec<u8>, AllocError>
    ensures { IfOk result (λ words. words.items ≡ title_words site.now row.now) }
{
    let mut words = Vec::new(alloc);
    put_issn(&mut words, b"ISSN ", row.print(), b". ")?;
    put_issn(&mut words, b"ISSN ", row.online(), b". ")?;
    put_isbn(&mut words, b"ISBN ", row.print_isbn(), b". ")?;
    put_isbn(&mut words, b"ISBN ", row.online_isbn(), b". ")?;
    put_coverage(&mut words, site, row)?;
    Ok(words)
}

#[tactic(auto, unfolding(crate::specs::TitlesPage::title_card))]
fn put_title_card(
    out: &mut Vec<u8>,
    site: &SiteFile,
    entry: &ListedRow<'_>,
) -> Result<(), AllocError>
    ensures { OnOk result (out.new.items
        ≡ out.old.items ++ page_text site.now (title_card site.now entry.now)) }
{
    let pairs = title_pairs(*out.allocator(), entry.row())?;
    let words = title_words(*out.allocator(), site, entry.row())?;
    put_page(
        out,
        site,
        &[Template::TitleCard],
        &[
            (Slot::Numbers, &pairs),
            (Slot::Title, entry.row().title()),
            (Slot::Package, shown_package(site, entry.name().package())),
            (Slot::Coverage, &words),
        ],
    )
}

#[tactic(auto, unfolding(node_templates::specs::Pages::page_text))]
fn put_title_cards(
    out: &mut Vec<u8>,
    site: &SiteFile,
    found: &[ListedRow<'_>],
) -> Result<(), AllocError>
    ensures { OnOk result (out.new.items
        ≡ out.old.items ++ page_text site.now (title_cards site.now found.now)) }
{
    for entry in found {
        put_title_card(out, site, entry)?;
    }
    Ok(())
}

#[tactic(auto, unfolding(crate::specs::TitlesPage::titles_end))]
fn put_titles_end(
    out: &mut Vec<u8>,
    site: &SiteFile,
    asked: &[u8],
    walk: &Walk<'_>,
) -> Result<(), AllocError>
    ensures { OnOk result (out.new.items
        ≡ out.old.items ++ page_text site.now (titles_end asked.now walk.now)) }
{
    let mut encoded = String::new(*out.allocator());
    percent_encode(asked, NON_ALPHANUMERIC).append_to(&mut encoded)?;
    let next = digits_of(*out.allocator(), walk.next())?;
    put_page(
        out,
        site,
        &LIST_END,
        &[
            (Slot::Listed, list_mark(walk.found().is_empty())),
            (Slot::Encoded, encoded.as_bytes()),
            (Slot::Start, &next),
        ],
    )
}

#[tactic(auto, unfolding(node_templates::specs::Pages::page_text, crate::specs::TitlesPage::titles_page))]
fn put_titles_page(
    out: &mut Vec<u8>,
    site: &SiteFile,
    asked: &[u8],
    walk: &Walk<'_>,
) -> Result<(), AllocError>
    ensures { OnOk result (out.new.items ≡ out.old.items ++ titles_page site.now asked.now walk.now) }
{
    let is_empty = walk.found().is_empty();
    put_page(
        out,
        site,
        &LIST_START,
        &[
            (Slot::Heading, text_of(site, Text::FindTitles)),
            (Slot::Wanted, asked),
            (Slot::Note, text_if(is_empty, text_of(site, Text::NoTitles))),
            (Slot::Listed, list_mark(is_empty)),
        ],
    )?;
    put_title_cards(out, site, walk.found())?;
    put_titles_end(out, site, asked, walk)
}

#[tactic(auto, unfolding(crate::specs::TitlesPage::titles_body))]
fn put_body(
    out: &mut Vec<u8>,
    site: &SiteFile,
    representation: Representation,
    ask: &TitleSearch,
    walk: &Walk<'_>,
) -> Result<(), AllocError>
    ensures { OnOk result (out.new.items
        ≡ out.old.items ++ titles_body site.now representation ask.now walk.now) }
{
    match representation {
        Representation::Text | Representation::Sfx => put_titles_text(out, walk),
        Representation::Json => put_titles_json(out, ask, walk),
        Representation::Html | Representation::Fragment => {
            put_titles_page(out, site, ask.text(), walk)
        }
    }
}

fn found_response(
    alloc: Global,
    site: &SiteFile,
    representation: Representation,
    ask: &TitleSearch,
    actives: &[ActiveRelease<'_>],
) -> Result<Response, AllocError>
    ensures { IfOk result (λ reply. reply ≡ response_with status.Good representation
        (titles_body site.now representation ask.now (titles_from site.now ask.now.text ask.now.start actives.now))) }
{
    let walk = find_titles(alloc, site, actives, ask.text(), ask.start())?;
    let mut body = Vec::new(alloc);
    put_body(&mut body, site, representation, ask, &walk)?;
    Ok(Response::new(Status::Good, representation, body))
}

fn fault_text(fault: TitleFault) -> &'static [u8]
    ensures { result.now ≡ fault_text fault }
{
    match fault {
        TitleFault::NoText => b"NoText",
        TitleFault::TooLong => b"TooLong",
        TitleFault::BadStart => b"BadStart",
    }
}

#[tactic(auto, unfolding(crate::specs::TitlesPage::titles_form_page))]
fn form_response(
    alloc: Global,
    site: &SiteFile,
    status: Status,
    heading: &[u8],
    note: &[u8],
    name: &[u8],
) -> Result<Response, AllocError>
    ensures { IfOk result (λ reply. reply
        ≡ response_with status representation.Html (titles_form_page site.now heading.now note.now name.now)) }
{
    let mut body = Vec::new(alloc);
    put_page(
        &mut body,
        site,
        &FORM_PAGE,
        &[
            (Slot::Heading, heading),
            (Slot::Note, note),
            (Slot::Fault, name),
        ],
    )?;
    Ok(Response::new(status, Representation::Html, body))
}

fn titles_refusal(
    alloc: Global,
    site: &SiteFile,
    representation: Representation,
    fault: TitleFault,
) -> Result<Response, AllocError>
    ensures { IfOk result (λ reply. reply ≡ titles_refusal site.now representation fault) }
{
    let name = fault_text(fault);
    if representation != Representation::Html {
        return refusal(alloc, Status::BadRequest, representation, name);
    }
    if fault == TitleFault::NoText {
        let heading = text_of(site, Text::FindTitles);
        return form_response(alloc, site, Status::Good, heading, b"", b"");
    }
    let heading = text_of(site, Text::NotAnswered);
    let note = text_of(site, Text::TitlesNotRead);
    form_response(alloc, site, Status::BadRequest, heading, note, name)
}

/// Returns the response to a query for titles in the given releases: those that contain the text of `q`, from the place
/// `start` on. A browser that asks for nothing gets the form.
///
/// # Errors
///
/// Running out of memory.
pub fn titles_response(
    alloc: Global,
    site: &SiteFile,
    asked: &OpenUrlText<'_>,
    actives: &[ActiveRelease<'_>],
) -> Result<Response, AllocError>
    ensures { IfOk result (λ reply. reply
        ≡ titles_response site.now asked.now.representation asked.now.text actives.now) }
{
    match TitleSearch::read(alloc, asked.text)? {
        Ok(ask) => found_response(alloc, site, asked.representation, &ask, actives),
        Err(fault) => titles_refusal(alloc, site, asked.representation, fault),
    }
}
