//! The commands that read a holdings list from a file.
use crate::fault::{ListsDriverFault, file_of};
use crate::print::{print_isbn, print_issn};
use crate::slow::{Calls, Full, Slow};
use crate::texts::name_of;
use crate::words::CommandWords;
use feed_answer::{Query, WriteFault, answer};
use feed_identifiers::{Isbn, Issn};
use feed_kbart::{
    Aside, FileCount, Holdings, KbartFault, Kind, Reason, Row, count_file, read_file, read_parts,
    read_windows,
};
use feed_names::ReleaseName;
use std::alloc::Global;
use test_support::Out;

pub fn read(out: &mut Out<'_>, mut words: CommandWords<'_>) -> Result<(), ListsDriverFault> {
    let (step, calls) = (words.number(), words.calls());
    let bytes = file_in(out, words)?;
    let (alloc, rest) = (out.rt.alloc(), bytes.as_slice());
    print_read(out, list_of(alloc, Slow { rest, step, calls }));
    Ok(())
}

// Reads the file that the next word names.
fn file_in(out: &mut Out<'_>, mut words: CommandWords<'_>) -> Result<Vec<u8>, ListsDriverFault> {
    let path = words.word();
    words.check()?;
    file_of(out.rt, path)
}

pub fn parts(out: &mut Out<'_>, mut words: CommandWords<'_>) -> Result<(), ListsDriverFault> {
    let step = words.number();
    let (first, second) = (words.calls(), words.calls());
    let bytes = file_in(out, words)?;
    let rest = bytes.as_slice();
    let check = Slow {
        rest,
        step,
        calls: first,
    };
    let read = Slow {
        rest,
        step,
        calls: second,
    };
    let list = read_parts(out.rt.alloc(), check, read);
    print_read(out, list);
    Ok(())
}

pub fn windows(out: &mut Out<'_>, mut words: CommandWords<'_>) -> Result<(), ListsDriverFault> {
    let size = words.number();
    let bytes = file_in(out, words)?;
    let list = list_in_windows(out.rt.alloc(), &bytes, size);
    print_read(out, list);
    Ok(())
}

fn list_in_windows(alloc: Global, bytes: &[u8], size: usize) -> Result<Holdings, KbartFault> {
    let windows: Vec<&[u8]> = bytes.chunks(size.max(1)).collect(alloc)?;
    read_windows(alloc, &windows)
}

pub fn count(out: &mut Out<'_>, mut words: CommandWords<'_>) -> Result<(), ListsDriverFault> {
    let (step, calls) = (words.number(), words.calls());
    let bytes = file_in(out, words)?;
    let rest = bytes.as_slice();
    let counted = count_file(out.rt.alloc(), Slow { rest, step, calls });
    print_count(out, counted);
    Ok(())
}

fn print_count(out: &mut Out<'_>, counted: Result<FileCount, KbartFault>) {
    match counted {
        Ok(count) => print_counts(out, u64::from(count.rows()), count.aside()),
        Err(fault) => print_fault(out, fault),
    }
}

fn print_read(out: &mut Out<'_>, read: Result<Holdings, KbartFault>) {
    match read {
        Ok(holdings) => print_holdings(out, &holdings),
        Err(fault) => print_fault(out, fault),
    }
}

fn print_fault(out: &mut Out<'_>, fault: KbartFault) {
    out.word("refused ");
    out.print(fault);
    out.line("");
}

fn print_holdings(out: &mut Out<'_>, holdings: &Holdings) {
    print_counts(out, holdings.rows().len() as u64, holdings.aside());
    for row in holdings.rows() {
        print_row(out, row);
    }
}

fn print_counts(out: &mut Out<'_>, rows: u64, aside: &[Aside]) {
    out.word("rows ");
    out.number(rows);
    out.word(" aside ");
    out.number(aside.len() as u64);
    out.line("");
    for record in aside {
        print_aside(out, record.number, record.reason);
    }
}

fn print_aside(out: &mut Out<'_>, number: u32, reason: Reason) {
    out.word("aside ");
    out.number(u64::from(number));
    out.word(" ");
    out.print(reason);
    out.line("");
}

fn print_row(out: &mut Out<'_>, row: &Row) {
    out.word("row ");
    out.number(u64::from(row.number()));
    let kind = match row.kind() {
        Kind::Serial => " serial issn ",
        Kind::Book => " book issn ",
    };
    out.word(kind);
    print_identifiers(out, row);
    print_coverage(out, row);
    print_texts(out, row);
}

fn print_identifiers(out: &mut Out<'_>, row: &Row) {
    print_issn(out, row.print());
    out.word(" ");
    print_issn(out, row.online());
    out.word(" isbn ");
    print_isbn(out, row.print_isbn());
    out.word(" ");
    print_isbn(out, row.online_isbn());
}

fn print_coverage(out: &mut Out<'_>, row: &Row) {
    out.word(" days ");
    out.maybe_day(row.first_day());
    out.word(" ");
    out.maybe_day(row.last_day());
    out.word(" volumes ");
    out.maybe_number(row.first_volume());
    out.word(" ");
    out.maybe_number(row.last_volume());
}

fn print_texts(out: &mut Out<'_>, row: &Row) {
    print_text(out, "\n  title [", row.title());
    print_text(out, "]  url [", row.url());
    print_text(out, "]  title_id [", row.title_id());
    print_text(out, "]  depth [", row.depth());
    print_text(out, "]  embargo [", row.embargo());
    print_text(out, "]  access [", row.access());
    out.line("]");
}

fn print_text(out: &mut Out<'_>, before: &str, text: &[u8]) {
    out.word(before);
    out.text(text);
}

fn list_of(alloc: Global, reader: Slow<'_>) -> Result<Holdings, KbartFault> {
    read_file(alloc, reader)
}

// The list in a file.
fn holdings_of(rt: &HostRuntime, path: &str) -> Result<Holdings, ListsDriverFault> {
    let bytes = file_of(rt, path)?;
    let whole = Slow {
        rest: bytes.as_slice(),
        step: usize::MAX,
        calls: Calls {
            count: usize::MAX,
            fails_once: false,
        },
    };
    Ok(list_of(rt.alloc(), whole)?)
}

pub fn rows(out: &mut Out<'_>, mut words: CommandWords<'_>) -> Result<(), ListsDriverFault> {
    let (path, text) = (words.word(), words.word());
    words.check()?;
    let holdings = holdings_of(out.rt, path)?;
    print_places(out, places_with(&holdings, text.as_bytes())?);
    Ok(())
}

pub fn places(out: &mut Out<'_>, mut words: CommandWords<'_>) -> Result<(), ListsDriverFault> {
    let (size, path) = (words.number(), words.word());
    words.check()?;
    let bytes = file_of(out.rt, path)?;
    let holdings = list_in_windows(out.rt.alloc(), &bytes, size)?;
    for text in words.rest.split(' ') {
        print_places(out, places_with(&holdings, text.as_bytes())?);
    }
    Ok(())
}

// The places of the rows that have an identifier.
fn places_with<'a>(holdings: &'a Holdings, text: &[u8]) -> Result<&'a [u32], ListsDriverFault> {
    match (Issn::parse(text), Isbn::parse(text)) {
        (Some(issn), _) => Ok(holdings.with_issn(&issn)),
        (None, Some(isbn)) => Ok(holdings.with_isbn(&isbn)),
        (None, None) => Err(ListsDriverFault("not an identifier")),
    }
}

fn print_places(out: &mut Out<'_>, places: &[u32]) {
    out.word("places");
    for place in places {
        out.word(" ");
        out.number(u64::from(*place));
    }
    out.line("");
}

pub fn write(out: &mut Out<'_>, mut words: CommandWords<'_>) -> Result<(), ListsDriverFault> {
    let room = words.number();
    let path = words.word();
    words.check()?;
    let name = name_of(out.rt.alloc(), path)?;
    let ending = write_from(out.rt, path, &name, words.rest, room)?;
    print_ending(out, ending);
    Ok(())
}

fn write_from(
    rt: &HostRuntime,
    path: &str,
    name: &ReleaseName,
    text: &str,
    room: usize,
) -> Result<Result<(), WriteFault>, ListsDriverFault> {
    let holdings = holdings_of(rt, path)?;
    write_answer(rt.alloc(), &holdings, name, text, room)
}

// Writes the answer to a query to a writer with this much room.
fn write_answer(
    alloc: Global,
    holdings: &Holdings,
    name: &ReleaseName,
    text: &str,
    room: usize,
) -> Result<Result<(), WriteFault>, ListsDriverFault> {
    let Ok(query) = Query::read(alloc, text.as_bytes()) else {
        return Err(ListsDriverFault("not a query"));
    };
    let found = answer(alloc, holdings, &query)?;
    Ok(found.write(&mut Full { room }, name))
}

fn print_ending(out: &mut Out<'_>, ending: Result<(), WriteFault>) {
    match ending {
        Ok(()) => out.line("written"),
        Err(fault) => out.print(format_args!("refused {fault}\n")),
    }
}
