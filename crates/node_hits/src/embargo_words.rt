//! Writes an embargo in words.
ghost use Rattle.std.specs.Prelude.{◌≡◌, ◌++◌, IfOk, OnOk};
ghost use Rattle.node_hits.specs.EmbargoWords.{embargo_words, hidden_start, limits_words, phrase};
ghost use Rattle.node_hits.specs.EmbargoWords.{span_words, words_of};

use feed_answer::{Embargo, Span};
use feed_bytes::put_all;
use node_response::{Fragment, put};
use std::alloc::{AllocError, Global};

const OPENED_START: &[u8] = b"Only the most recent ";

#[tactic(auto, unfolding(crate::specs::EmbargoWords::words_of))]
fn put_number_of(out: &mut Vec<u8>, number: u32, one: &[u8], many: &[u8]) -> Result<(), AllocError>
    ensures { OnOk result (out.new.items ≡ out.old.items ++ words_of number one.now many.now) }
{
    if number == 1 {
        return put(out, one);
    }
    put_all(
        out,
        &[Fragment::Number(u64::from(number)), Fragment::Plain(many)],
    )
}

fn put_span(out: &mut Vec<u8>, span: Span) -> Result<(), AllocError>
    ensures { OnOk result (out.new.items ≡ out.old.items ++ span_words span) }
{
    match span {
        Span::Days(number) => put_number_of(out, number, b"day", b" days"),
        Span::Months(number) => put_number_of(out, number, b"month", b" months"),
        Span::Years(number) => put_number_of(out, number, b"year", b" years"),
    }
}

fn hidden_start(begins: Option<Span>) -> &'static [u8]
    ensures { result.now ≡ hidden_start begins }
{
    match begins {
        Some(_) => b", and not the most recent ",
        None => b"Not the most recent ",
    }
}

fn put_phrase(out: &mut Vec<u8>, front: &[u8], span: Option<Span>) -> Result<(), AllocError>
    ensures { OnOk result (out.new.items ≡ out.old.items ++ phrase front.now span) }
{
    match span {
        Some(span) => {
            put(out, front)?;
            put_span(out, span)
        }
        None => Ok(()),
    }
}

fn put_limits(out: &mut Vec<u8>, embargo: Embargo) -> Result<(), AllocError>
    ensures { OnOk result (out.new.items ≡ out.old.items ++ limits_words embargo) }
{
    put_phrase(out, OPENED_START, embargo.begins)?;
    put_phrase(out, hidden_start(embargo.begins), embargo.ends)
}

/// Returns the embargo of a row in words. The text is empty if the row has none, or one of another form.
pub(crate) fn embargo_words(alloc: Global, text: &[u8]) -> Result<Vec<u8>, AllocError>
    ensures { IfOk result (λ words. words.items ≡ embargo_words text.now) }
{
    let mut words = Vec::new(alloc);
    if let Some(embargo) = Embargo::read(text) {
        put_limits(&mut words, embargo)?;
    }
    Ok(words)
}
