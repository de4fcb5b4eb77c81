//! The commands that parse a text of the line.
use crate::fault::ListsDriverFault;
use crate::print::print_days;
use crate::words::CommandWords;
use feed_answer::Query;
use feed_bytes::trim_spaces;
use feed_dates::{DayRange, read_date};
use feed_identifiers::{Isbn, Issn};
use feed_kbart::read_volume;
use feed_names::ReleaseName;
use std::alloc::Global;
use test_support::Out;

pub fn issn(out: &mut Out<'_>, text: &str) {
    match Issn::parse(text.as_bytes()) {
        Some(issn) => {
            let is_same = Issn::parse(&issn.text()) == Some(issn);
            print_identifier(out, &issn.text(), issn.number(), is_same)
        }
        None => out.line("none"),
    }
}

pub fn isbn(out: &mut Out<'_>, text: &str) {
    match Isbn::parse(text.as_bytes()) {
        Some(isbn) => {
            let is_same = Isbn::parse(&isbn.text()) == Some(isbn);
            print_identifier(out, &isbn.text(), isbn.number(), is_same)
        }
        None => out.line("none"),
    }
}

fn print_identifier(out: &mut Out<'_>, text: &[u8], number: u32, is_same: bool) {
    out.text(text);
    out.word(" number ");
    out.number(u64::from(number));
    let again = if is_same {
        " again true"
    } else {
        " again false"
    };
    out.line(again);
}

pub fn less(out: &mut Out<'_>, mut words: CommandWords<'_>) -> Result<(), ListsDriverFault> {
    let (first, second) = (words.word(), words.word());
    words.check()?;
    out.flag(is_less(first.as_bytes(), second.as_bytes()));
    out.line("");
    Ok(())
}

// Whether one identifier is less than another, where both are ISSNs or both ISBNs.
fn is_less(first: &[u8], second: &[u8]) -> bool {
    let issn = Issn::parse(first);
    if issn.is_some() {
        issn < Issn::parse(second)
    } else {
        Isbn::parse(first) < Isbn::parse(second)
    }
}

pub fn trim(out: &mut Out<'_>, text: &str) {
    out.word("[");
    out.text(trim_spaces(text.as_bytes()));
    out.line("]");
}

pub fn volume(out: &mut Out<'_>, text: &str) {
    out.maybe_number(read_volume(text.as_bytes()));
    out.line("");
}

pub fn date(out: &mut Out<'_>, text: &str) {
    out.word("day ");
    out.maybe_day(read_date(text.as_bytes()));
    out.word(" list ");
    print_days(out, DayRange::of_text(text.as_bytes()));
    out.word(" query ");
    print_days(out, DayRange::of_query(text.as_bytes()));
    out.line("");
}

pub fn name(out: &mut Out<'_>, text: &str) -> Result<(), ListsDriverFault> {
    match ReleaseName::parse(out.rt.alloc(), text.as_bytes()) {
        Ok(name) => print_name(out, &name),
        Err(fault) => {
            out.print(format_args!("refused {fault}\n"));
            Ok(())
        }
    }
}

fn print_name(out: &mut Out<'_>, name: &ReleaseName) -> Result<(), ListsDriverFault> {
    out.word("package ");
    out.text(name.package());
    out.word(" day ");
    out.day(name.day());
    out.word(" text ");
    out.text(name.text());
    out.line("");
    let copy = name.try_clone()?;
    out.word("copy ");
    out.text(copy.text());
    out.line("");
    Ok(())
}

// A release's name, as a word.
pub fn name_of(alloc: Global, word: &str) -> Result<ReleaseName, ListsDriverFault> {
    match ReleaseName::parse(alloc, word.as_bytes()) {
        Ok(name) => Ok(name),
        Err(_) => Err(ListsDriverFault("not a release name")),
    }
}

pub fn name_earlier(
    out: &mut Out<'_>,
    mut words: CommandWords<'_>,
) -> Result<(), ListsDriverFault> {
    let (first, second) = (words.word(), words.word());
    words.check()?;
    let is_earlier = is_earlier(out.rt.alloc(), first, second)?;
    out.flag(is_earlier);
    out.line("");
    Ok(())
}

fn is_earlier(alloc: Global, first: &str, second: &str) -> Result<bool, ListsDriverFault> {
    let first = name_of(alloc, first)?;
    let second = name_of(alloc, second)?;
    Ok(first.earlier_than(&second))
}

pub fn query(out: &mut Out<'_>, text: &str) {
    match Query::read(out.rt.alloc(), text.as_bytes()) {
        Ok(query) => print_query(out, &query),
        Err(fault) => out.print(format_args!("refused {fault}\n")),
    }
}

fn print_query(out: &mut Out<'_>, query: &Query) {
    print_issns(out, query.issns());
    print_isbns(out, query.isbns());
    out.word("days ");
    print_days(out, query.days());
    out.word(" volume ");
    out.maybe_number(query.volume());
    out.line("");
}

fn print_issns(out: &mut Out<'_>, issns: &[Issn]) {
    for issn in issns {
        out.word("issn ");
        out.text(&issn.text());
        out.word(" ");
    }
}

fn print_isbns(out: &mut Out<'_>, isbns: &[Isbn]) {
    for isbn in isbns {
        out.word("isbn ");
        out.text(&isbn.text());
        out.word(" ");
    }
}
