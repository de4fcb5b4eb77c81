//! The responses to requests that are not answered: the name of the error, or a page that says what to do.
ghost use Rattle.std.specs.Prelude.{◌≡◌, ◌++◌, IfOk, OnOk};
ghost use Rattle.node_pages.specs.ErrorPages.{error_body, error_page, error_response};

use crate::form::put_form_end;
use crate::fragment::put_error_fragment;
use crate::openurl_text::OpenUrlText;
use feed_answer::{Pair, decode_pairs};
use node_hits::put_no_targets;
use node_request::Representation;
use node_response::{Response, Status, put_fault};
use node_site::{SiteFile, Text, text_of};
use node_templates::{Slot, Template, put_page};
use std::alloc::{AllocError, Global};

const ERROR_PAGE: [Template; 4] = [
    Template::Top,
    Template::Note,
    Template::Fault,
    Template::AskAgain,
];

// Writes the page of an error, for a query with these pairs: what the reader may do, the name of the error, and the
// form with what the query has for its fields.
#[tactic(auto, unfolding(node_templates::specs::Pages::page_text, crate::specs::ErrorPages::error_page))]
fn put_error_page(
    out: &mut Vec<u8>,
    site: &SiteFile,
    pairs: &[Pair<'_>],
    advice: Text,
    name: &[u8],
) -> Result<(), AllocError>
    ensures { OnOk result (out.new.items ≡ out.old.items ++ error_page site.now pairs.now advice name.now) }
{
    put_page(
        out,
        site,
        &ERROR_PAGE,
        &[
            (Slot::Heading, text_of(site, Text::NotAnswered)),
            (Slot::Note, text_of(site, advice)),
            (Slot::Fault, name),
        ],
    )?;
    put_form_end(out, site, pairs)
}

// Writes the body of the response to a request that is not answered.
#[tactic(auto, unfolding(crate::specs::ErrorPages::error_body))]
fn put_error(
    alloc: Global,
    out: &mut Vec<u8>,
    site: &SiteFile,
    asked: &OpenUrlText<'_>,
    advice: Text,
    name: &[u8],
) -> Result<(), AllocError>
    ensures { OnOk result (out.new.items
        ≡ out.old.items ++ error_body site.now asked.now.text asked.now.representation advice name.now) }
{
    match asked.representation {
        Representation::Html => {
            let pairs = decode_pairs(alloc, asked.text)?;
            put_error_page(out, site, &pairs, advice, name)
        }
        Representation::Fragment => put_error_fragment(out, site, name),
        Representation::Sfx => put_no_targets(out),
        Representation::Text | Representation::Json => put_fault(out, asked.representation, name),
    }
}

/// Returns the response to a request that is not answered: the name of the error as text or as JSON, or a page of the
/// library that says what the reader may do, with a form that has what the query has for its fields. A fragment has
/// the name of the error.
///
/// # Errors
///
/// Running out of memory.
pub fn error_response(
    alloc: Global,
    site: &SiteFile,
    asked: &OpenUrlText<'_>,
    status: Status,
    advice: Text,
    name: &[u8],
) -> Result<Response, AllocError>
    ensures { IfOk result (λ reply. reply
        ≡ error_response site.now asked.now.text status asked.now.representation advice name.now) }
{
    let mut body = Vec::new(alloc);
    put_error(alloc, &mut body, site, asked, advice, name)?;
    Ok(Response::new(status, asked.representation, body))
}
