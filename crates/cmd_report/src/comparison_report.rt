//! The report on two lists: the rows that the new one removes, changes and adds.
use crate::comparison::{Comparison, RowChange, is_same};
use crate::json::{Commas, write_text};
use crate::report::REASONS;
use feed_dates::write_date;
use feed_identifiers::Identifier;
use feed_kbart::{Aside, Kind, LABELS, Label, Row, RowCells, count_of};
use feed_names::ReleaseName;
use feed_options::ComparisonForm;
use std::alloc::Global;
use std::io;
use std::io::Write;

/// The rows and the skipped records of a list, with its release name.
#[derive(Clone, Copy)]
pub struct NamedList<'a> {
    pub name: &'a ReleaseName,
    pub rows: &'a [Row],
    pub aside: &'a [Aside],
}

/// Prints the report on two lists and their comparison, and flushes the output.
pub fn print_comparison<O: Write>(
    alloc: Global,
    out: &mut O,
    old: NamedList<'_>,
    new: NamedList<'_>,
    comparison: &Comparison<'_>,
    form: ComparisonForm,
) -> io::Result<()> {
    if form.is_json {
        print_json_counts(out, old, new, comparison)?;
        if !form.is_summary {
            print_json_rows(alloc, out, comparison)?;
        }
        out.write_all(b"}\n")?;
    } else {
        print_counts(out, old, new, comparison)?;
        if !form.is_summary {
            print_rows(alloc, out, comparison)?;
        }
    }
    out.flush()
}

// Prints the summary, and for each reason for which a list skips records how many records each list skips.
fn print_counts<O: Write>(
    out: &mut O,
    old: NamedList<'_>,
    new: NamedList<'_>,
    comparison: &Comparison<'_>,
) -> io::Result<()> {
    let before = old.rows.len();
    let after = new.rows.len();
    let added = comparison.added().len();
    let removed = comparison.removed().len();
    let changed = comparison.changed().len();
    writeln!(
        out,
        "rows {before} to {after}, added {added}, removed {removed}, changed {changed}"
    )?;
    for reason in REASONS {
        let before = count_of(old.aside, reason);
        let after = count_of(new.aside, reason);
        if before > 0 || after > 0 {
            writeln!(out, "aside {reason} {before} to {after}")?;
        }
    }
    Ok(())
}

fn print_rows<O: Write>(alloc: Global, out: &mut O, comparison: &Comparison<'_>) -> io::Result<()> {
    for row in comparison.removed() {
        print_row(alloc, out, "removed", row)?;
    }
    for change in comparison.changed() {
        print_change(alloc, out, change)?;
    }
    for row in comparison.added() {
        print_row(alloc, out, "added", row)?;
    }
    Ok(())
}

fn print_row<O: Write>(alloc: Global, out: &mut O, word: &str, row: &Row) -> io::Result<()> {
    let number = row.number();
    write!(out, "{word} {number} ")?;
    write_text(alloc, out, row.title())?;
    out.write_all(b"\n")
}

// Prints a change, and below it each column in which the rows differ, with both values.
fn print_change<O: Write>(alloc: Global, out: &mut O, change: &RowChange<'_>) -> io::Result<()> {
    let RowChange { old, new } = *change;
    let before = old.number();
    let after = new.number();
    write!(out, "changed {before} to {after} ")?;
    let old = old.cells();
    let new = new.cells();
    write_text(alloc, out, old.publication_title)?;
    out.write_all(b"\n")?;
    for label in LABELS {
        if !is_same(label, &old, &new) {
            write!(out, "  {label} ")?;
            write_value(alloc, out, &old, label)?;
            out.write_all(b" to ")?;
            write_value(alloc, out, &new, label)?;
            out.write_all(b"\n")?;
        }
    }
    Ok(())
}

fn print_json_counts<O: Write>(
    out: &mut O,
    old: NamedList<'_>,
    new: NamedList<'_>,
    comparison: &Comparison<'_>,
) -> io::Result<()> {
    out.write_all(b"{\"old\":")?;
    print_json_list(out, old)?;
    out.write_all(b",\"new\":")?;
    print_json_list(out, new)?;
    let removed = comparison.removed().len();
    let changed = comparison.changed().len();
    let added = comparison.added().len();
    write!(
        out,
        ",\"counts\":{{\"removed\":{removed},\"changed\":{changed},\"added\":{added}}}"
    )
}

// Prints the object of a list. A release's name has no character that JSON escapes.
fn print_json_list<O: Write>(out: &mut O, list: NamedList<'_>) -> io::Result<()> {
    out.write_all(b"{\"release\":\"")?;
    out.write_all(list.name.text())?;
    let rows = list.rows.len();
    write!(out, "\",\"rows\":{rows},\"aside\":{{")?;
    print_json_reasons(out, list.aside)?;
    out.write_all(b"}}")
}

fn print_json_reasons<O: Write>(out: &mut O, skipped: &[Aside]) -> io::Result<()> {
    let mut commas = Commas::new();
    for reason in REASONS {
        let count = count_of(skipped, reason);
        if count > 0 {
            commas.write(out)?;
            write!(out, "\"{reason}\":{count}")?;
        }
    }
    Ok(())
}

fn print_json_rows<O: Write>(
    alloc: Global,
    out: &mut O,
    comparison: &Comparison<'_>,
) -> io::Result<()> {
    out.write_all(b",\"removed\":[")?;
    print_json_items(alloc, out, comparison.removed())?;
    out.write_all(b"],\"changed\":[")?;
    let mut commas = Commas::new();
    for change in comparison.changed() {
        commas.write(out)?;
        print_json_change(alloc, out, change)?;
    }
    out.write_all(b"],\"added\":[")?;
    print_json_items(alloc, out, comparison.added())?;
    out.write_all(b"]")
}

fn print_json_items<O: Write>(alloc: Global, out: &mut O, rows: &[&Row]) -> io::Result<()> {
    let mut commas = Commas::new();
    for row in rows {
        commas.write(out)?;
        let number = row.number();
        write!(out, "{{\"number\":{number},\"title\":")?;
        write_text(alloc, out, row.title())?;
        out.write_all(b"}")?;
    }
    Ok(())
}

fn print_json_change<O: Write>(
    alloc: Global,
    out: &mut O,
    change: &RowChange<'_>,
) -> io::Result<()> {
    let RowChange { old, new } = *change;
    let before = old.number();
    let after = new.number();
    let old = old.cells();
    write!(out, "{{\"old\":{before},\"new\":{after},\"title\":")?;
    write_text(alloc, out, old.publication_title)?;
    out.write_all(b",\"fields\":{")?;
    print_json_fields(alloc, out, &old, &new.cells())?;
    out.write_all(b"}}")
}

fn print_json_fields<O: Write>(
    alloc: Global,
    out: &mut O,
    old: &RowCells<'_>,
    new: &RowCells<'_>,
) -> io::Result<()> {
    let mut commas = Commas::new();
    for label in LABELS {
        if !is_same(label, old, new) {
            commas.write(out)?;
            write!(out, "\"{label}\":{{\"old\":")?;
            write_value(alloc, out, old, label)?;
            out.write_all(b",\"new\":")?;
            write_value(alloc, out, new, label)?;
            out.write_all(b"}")?;
        }
    }
    Ok(())
}

// Writes the value that cells have in a column as JSON: a string, a number, or null for no value.
fn write_value<O: Write>(
    alloc: Global,
    out: &mut O,
    cells: &RowCells<'_>,
    label: Label,
) -> io::Result<()> {
    match label {
        Label::PublicationTitle => write_text(alloc, out, cells.publication_title),
        Label::PrintIdentifier => write_identifier(out, cells.print()),
        Label::OnlineIdentifier => write_identifier(out, cells.online()),
        Label::DateFirstIssueOnline => write_day(out, cells.first_day()),
        Label::NumFirstVolOnline => write_volume(out, cells.volumes().0),
        Label::DateLastIssueOnline => write_day(out, cells.last_day()),
        Label::NumLastVolOnline => write_volume(out, cells.volumes().1),
        Label::TitleUrl => write_text(alloc, out, cells.title_url),
        Label::TitleId => write_text(alloc, out, cells.title_id),
        Label::EmbargoInfo => write_text(alloc, out, cells.embargo_info),
        Label::CoverageDepth => write_text(alloc, out, cells.coverage_depth),
        Label::PublicationType => write_quoted(out, kind_name(cells.kind()).as_bytes()),
        Label::AccessType => write_text(alloc, out, cells.access_type),
    }
}

fn kind_name(kind: Kind) -> &'static str {
    match kind {
        Kind::Serial => "serial",
        Kind::Book => "monograph",
    }
}

// Writes a text without a character that JSON escapes.
fn write_quoted<O: Write>(out: &mut O, text: &[u8]) -> io::Result<()> {
    out.write_all(b"\"")?;
    out.write_all(text)?;
    out.write_all(b"\"")
}

// Writes the ISSN of a serial or the ISBN of a book.
fn write_identifier<O: Write>(out: &mut O, identifier: Option<Identifier>) -> io::Result<()> {
    match identifier {
        Some(identifier) => write_quoted(out, identifier.text()),
        None => out.write_all(b"null"),
    }
}

fn write_day<O: Write>(out: &mut O, day: Option<i32>) -> io::Result<()> {
    match day.and_then(|day| write_date(day)) {
        Some(date) => write_quoted(out, &date),
        None => out.write_all(b"null"),
    }
}

fn write_volume<O: Write>(out: &mut O, volume: Option<u32>) -> io::Result<()> {
    match volume {
        Some(volume) => write!(out, "{volume}"),
        None => out.write_all(b"null"),
    }
}
