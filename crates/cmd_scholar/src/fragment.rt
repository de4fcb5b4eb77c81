//! The fragments of an item.
ghost use Rattle.std.specs.Prelude.{◌≡◌, ◌++◌, OnOk};
ghost use Rattle.std.specs.Option.{option_and_then};
ghost use Rattle.feed_dates.specs.Days.{date_of_day};
ghost use Rattle.cmd_scholar.specs.Elements.{date_marks, dated, day_marks};
ghost use Rattle.feed_xml.specs.Marks.{xml_text};
ghost use Rattle.cmd_scholar.specs.Fragments.{issn_marks};

use crate::embargo::put_embargo;
use crate::names::{DAY, ISSN, MONTH, YEAR};
use feed_answer::Embargo;
use feed_bytes::PutFragment;
use feed_dates::write_date;
use feed_identifiers::Issn;
use feed_xml::{put_closed, put_leaf, put_opened, put_text};
use std::alloc::AllocError;

/// A fragment of an item.
#[derive(Clone, Copy)]
pub(crate) enum ScholarFragment<'a> {
    /// A start tag, by the text between `<` and `>`.
    Opened(&'a [u8]),
    /// An end tag.
    Closed(&'a [u8]),
    /// Character data.
    Text(&'a [u8]),
    /// An element with a text alone: its name, and the text.
    Leaf(&'a [u8], &'a [u8]),
    /// An ISSN, if there is one.
    Issn(Option<Issn>),
    /// An element with a day, counted from 1970-01-01, if there is one: its name, and the day.
    Day(&'a [u8], Option<i32>),
    /// An embargo, if it has a span.
    Embargo(Embargo),
}

fn put_issn(out: &mut Vec<u8>, issn: Option<Issn>) -> Result<(), AllocError>
    ensures { OnOk result (out.new.items ≡ out.old.items ++ xml_text (issn_marks issn)) }
{
    match issn {
        Some(issn) => put_leaf(out, ISSN, &issn.text()),
        None => Ok(()),
    }
}

fn put_date(out: &mut Vec<u8>, date: &[u8; 10]) -> Result<(), AllocError>
    ensures { OnOk result (out.new.items ≡ out.old.items ++ xml_text (date_marks date.now)) }
{
    put_leaf(out, YEAR, &date[0..4])?;
    put_leaf(out, MONTH, &date[5..7])?;
    put_leaf(out, DAY, &date[8..10])
}

fn put_dated(out: &mut Vec<u8>, name: &[u8], date: Option<[u8; 10]>) -> Result<(), AllocError>
    ensures { OnOk result (out.new.items ≡ out.old.items ++ xml_text (dated name.now date)) }
{
    match date {
        Some(date) => {
            put_opened(out, name)?;
            put_date(out, &date)?;
            put_closed(out, name)
        }
        None => Ok(()),
    }
}

fn date_of(day: Option<i32>) -> Option<[u8; 10]>
    ensures { result ≡ option_and_then date_of_day day }
{
    match day {
        Some(day) => write_date(day),
        None => None,
    }
}

fn put_day(out: &mut Vec<u8>, name: &[u8], day: Option<i32>) -> Result<(), AllocError>
    ensures { OnOk result (out.new.items ≡ out.old.items ++ xml_text (day_marks name.now day)) }
{
    put_dated(out, name, date_of(day))
}

impl PutFragment for ScholarFragment<'_> {
    ghost use Rattle.cmd_scholar.specs.Fragments.{fragment_text};

    ghost text = { fragment_text };

    fn put(&self, out: &mut Vec<u8>) -> Result<(), AllocError> {
        match self {
            ScholarFragment::Opened(tag) => put_opened(out, tag),
            ScholarFragment::Closed(name) => put_closed(out, name),
            ScholarFragment::Text(text) => put_text(out, text),
            ScholarFragment::Leaf(name, text) => put_leaf(out, name, text),
            ScholarFragment::Issn(issn) => put_issn(out, *issn),
            ScholarFragment::Day(name, day) => put_day(out, name, *day),
            ScholarFragment::Embargo(embargo) => put_embargo(out, embargo),
        }
    }
}
