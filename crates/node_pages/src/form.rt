//! The form for a new search, with what the pairs of a query have for its fields.
ghost use Rattle.std.specs.Prelude.{◌≡◌, ◌++◌, OnOk};
ghost use Rattle.node_templates.specs.Pages.{page_text};
ghost use Rattle.node_pages.specs.SearchForms.{form_end, isbn_in, issn_in, value_at};

use feed_answer::Pair;
use node_site::SiteFile;
use node_templates::{Slot, Template, put_page};
use std::alloc::AllocError;

const FORM_END: [Template; 2] = [Template::SearchForm, Template::Foot];

// Returns the first value with one of two keys, or nothing.
fn value_at<'p>(pairs: &'p [Pair<'_>], key: &str, other: &str) -> &'p [u8]
    ensures { result.now ≡ value_at key.now other.now pairs.now }
{
    match pairs.split_first() {
        Some((pair, more)) => {
            if pair.has_key(key) || pair.has_key(other) {
                pair.value()
            } else {
                value_at(more, key, other)
            }
        }
        None => b"",
    }
}

/// Returns the ISSN that a query has for the form, or nothing.
pub(crate) fn issn_in<'p>(pairs: &'p [Pair<'_>]) -> &'p [u8]
    ensures { result.now ≡ issn_in pairs.now }
{
    value_at(pairs, "rft.issn", "issn")
}

/// Returns the ISBN that a query has for the form, or nothing.
pub(crate) fn isbn_in<'p>(pairs: &'p [Pair<'_>]) -> &'p [u8]
    ensures { result.now ≡ isbn_in pairs.now }
{
    value_at(pairs, "rft.isbn", "isbn")
}

/// Writes the form with the values of a query, and the end of the page.
#[tactic(auto, unfolding(crate::specs::SearchForms::form_end))]
pub(crate) fn put_form_end(
    out: &mut Vec<u8>,
    site: &SiteFile,
    pairs: &[Pair<'_>],
) -> Result<(), AllocError>
    ensures { OnOk result (out.new.items ≡ out.old.items ++ page_text site.now (form_end pairs.now)) }
{
    put_page(
        out,
        site,
        &FORM_END,
        &[
            (Slot::Issn, issn_in(pairs)),
            (Slot::Isbn, isbn_in(pairs)),
            (Slot::Date, value_at(pairs, "rft.date", "date")),
            (Slot::Volume, value_at(pairs, "rft.volume", "volume")),
        ],
    )
}
