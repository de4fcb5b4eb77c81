//! The element of an embargo, whose lengths are days.
ghost use Rattle.std.specs.Prelude.{◌≡◌, ◌++◌, OnOk};
ghost use Rattle.cmd_scholar.specs.Embargoes.{embargo_marks, has_span, span_days, span_marks, spans_marks};
ghost use Rattle.feed_xml.specs.Marks.{xml_text};

use crate::names::{EMBARGO, HIDDEN_DAYS, OPEN_DAYS};
use feed_answer::{Embargo, Span};
use feed_xml::{put_closed, put_number_leaf, put_opened};
use std::alloc::AllocError;

// Returns the most days that a span may have: a month has 31, and a year 366.
fn span_days(span: Span) -> u64
    ensures { result ≡ span_days span }
{
    match span {
        Span::Days(length) => u64::from(length),
        Span::Months(length) => 31 * u64::from(length),
        Span::Years(length) => 366 * u64::from(length),
    }
}

fn put_span(out: &mut Vec<u8>, name: &[u8], span: Option<Span>) -> Result<(), AllocError>
    ensures { OnOk result (out.new.items ≡ out.old.items ++ xml_text (span_marks name.now span)) }
{
    match span {
        Some(span) => put_number_leaf(out, name, span_days(span)),
        None => Ok(()),
    }
}

fn has_span(embargo: &Embargo) -> bool
    ensures { result ≡ has_span embargo.now }
{
    embargo.ends.is_some() || embargo.begins.is_some()
}

fn put_spans(out: &mut Vec<u8>, embargo: &Embargo) -> Result<(), AllocError>
    ensures { OnOk result (out.new.items ≡ out.old.items ++ xml_text (spans_marks embargo.now)) }
{
    put_opened(out, EMBARGO)?;
    put_span(out, HIDDEN_DAYS, embargo.ends)?;
    put_span(out, OPEN_DAYS, embargo.begins)?;
    put_closed(out, EMBARGO)
}

/// Writes the element of an embargo, if it has a span.
pub(crate) fn put_embargo(out: &mut Vec<u8>, embargo: &Embargo) -> Result<(), AllocError>
    ensures { OnOk result (out.new.items ≡ out.old.items ++ xml_text (embargo_marks embargo.now)) }
{
    if has_span(embargo) {
        put_spans(out, embargo)
    } else {
        Ok(())
    }
}
