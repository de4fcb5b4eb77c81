//! Writes an embargo in the words of a page.
ghost use Rattle.std.specs.Prelude.{◌≡◌, ◌++◌, OnOk};
ghost use Rattle.node_pages.specs.EmbargoTexts.{both_limits, embargo_part, limit_sentence, limit_words};
ghost use Rattle.node_pages.specs.EmbargoTexts.{limits_by, number_words, sentence, span_words};

use feed_answer::{Embargo, Span};
use feed_bytes::put_all;
use node_response::{Fragment, put};
use node_site::{SiteFile, Text, text_of};
use std::alloc::AllocError;

/// Writes a text as a sentence, if there is one.
#[tactic(auto, unfolding(crate::specs::EmbargoTexts::sentence))]
pub(crate) fn put_sentence<'a>(out: &mut Vec<u8>, text: &'a [u8]) -> Result<(), AllocError>
    ensures { OnOk result (out.new.items ≡ out.old.items ++ sentence text.now) }
{
    if text.is_empty() {
        return Ok(());
    }
    put_all(out, &[Fragment::Plain(text), Fragment::Plain(b". ")])
}

#[tactic(auto, unfolding(crate::specs::EmbargoTexts::number_words))]
fn put_number(
    out: &mut Vec<u8>,
    site: &SiteFile,
    number: u32,
    one: Text,
    many: Text,
) -> Result<(), AllocError>
    ensures { OnOk result (out.new.items ≡ out.old.items ++ number_words site.now number one many) }
{
    if number == 1 {
        return put(out, text_of(site, one));
    }
    put_all(
        out,
        &[
            Fragment::Plain(text_of(site, Text::MostRecent)),
            Fragment::Plain(b" "),
            Fragment::Number(u64::from(number)),
            Fragment::Plain(b" "),
            Fragment::Plain(text_of(site, many)),
        ],
    )
}

fn put_span(out: &mut Vec<u8>, site: &SiteFile, span: Span) -> Result<(), AllocError>
    ensures { OnOk result (out.new.items ≡ out.old.items ++ span_words site.now span) }
{
    match span {
        Span::Days(number) => put_number(out, site, number, Text::Day, Text::Days),
        Span::Months(number) => put_number(out, site, number, Text::Month, Text::Months),
        Span::Years(number) => put_number(out, site, number, Text::Year, Text::Years),
    }
}

// Writes a limit: its text, and the span after it.
#[tactic(auto, unfolding(crate::specs::EmbargoTexts::limit_words))]
fn put_limit(out: &mut Vec<u8>, site: &SiteFile, name: Text, span: Span) -> Result<(), AllocError>
    ensures { OnOk result (out.new.items ≡ out.old.items ++ limit_words site.now name span) }
{
    put_all(
        out,
        &[Fragment::Plain(text_of(site, name)), Fragment::Plain(b" ")],
    )?;
    put_span(out, site, span)
}

#[tactic(auto, unfolding(crate::specs::EmbargoTexts::limit_sentence))]
fn put_limit_sentence(
    out: &mut Vec<u8>,
    site: &SiteFile,
    name: Text,
    span: Span,
) -> Result<(), AllocError>
    ensures { OnOk result (out.new.items ≡ out.old.items ++ limit_sentence site.now name span) }
{
    put_limit(out, site, name, span)?;
    put(out, b". ")
}

#[tactic(auto, unfolding(crate::specs::EmbargoTexts::both_limits))]
fn put_both(out: &mut Vec<u8>, site: &SiteFile, begins: Span, ends: Span) -> Result<(), AllocError>
    ensures { OnOk result (out.new.items ≡ out.old.items ++ both_limits site.now begins ends) }
{
    put_limit(out, site, Text::OnlyRecent, begins)?;
    put(out, b", ")?;
    put_limit_sentence(out, site, Text::AlsoNotRecent, ends)
}

fn put_limits(out: &mut Vec<u8>, site: &SiteFile, embargo: Embargo) -> Result<(), AllocError>
    ensures { OnOk result (out.new.items ≡ out.old.items ++ limits_by site.now embargo.begins embargo.ends) }
{
    match (embargo.begins, embargo.ends) {
        (Some(begins), Some(ends)) => put_both(out, site, begins, ends),
        (Some(begins), None) => put_limit_sentence(out, site, Text::OnlyRecent, begins),
        (None, Some(ends)) => put_limit_sentence(out, site, Text::NotRecent, ends),
        (None, None) => Ok(()),
    }
}

/// Writes the embargo of a row in words, or one of another form as it is.
#[tactic(auto, unfolding(crate::specs::EmbargoTexts::embargo_part))]
pub(crate) fn put_embargo(out: &mut Vec<u8>, site: &SiteFile, text: &[u8]) -> Result<(), AllocError>
    ensures { OnOk result (out.new.items ≡ out.old.items ++ embargo_part site.now text.now) }
{
    match Embargo::read(text) {
        Some(embargo) => put_limits(out, site, embargo),
        None => put_sentence(out, text),
    }
}
