//! `kbfeed openurl`: how a query is understood, in lines or as JSON.
use crate::query_hints::{note_number, query_in};
use feed_citation::{CitationPart, PARTS};
use feed_console::{Console, DONE, FAILED, REFUSED};
use feed_openurl::{Citation, Dropped, OpenUrl, OpenUrlFault, dropped_keys};
use std::alloc::{AllocError, Global};
use std::io;
use std::io::{ErrorKind, Write};

// A query: its citation, how it is understood, the query that asks the core for the same, and the keys that nobody
// reads.
#[derive(Drop)]
struct Explanation {
    citation: Citation,
    understood: OpenUrl,
    written: Vec<u8>,
    dropped: Vec<Dropped>,
}

/// Prints how a query, or that of a whole link, is understood: its citation, what of it is looked up, the query that
/// asks for that, and the keys that nobody reads. Returns the exit status: 1 for a query with nothing to look up, whose
/// reason is reported, 3 for a failing print and for running out of memory.
pub fn explain_query<O: Write, F: Write + Drop>(
    query: &str,
    is_json: bool,
    console: &mut Console<'_, O, F>,
) -> u8 {
    let query = query_in(query);
    let Ok(reading) = read(console.rt.alloc(), query) else {
        return console.faults.report("Memory", FAILED);
    };
    let printed = if is_json {
        print_json(console.rt.alloc(), &reading, &mut console.out)
    } else {
        print_lines(&reading, &mut console.out)
    };
    if printed.is_err() {
        return console.faults.report_unprinted(&mut console.out);
    }
    let status = console.faults.check_print(console.out.flush(), DONE);
    match reading.understood.refusal() {
        Some(refusal) if status == DONE => {
            let status = console
                .faults
                .report_with(refusal, query, cause_of(refusal), REFUSED);
            note_number(query, console);
            status
        }
        _ => status,
    }
}

fn read(alloc: Global, query: &str) -> Result<Explanation, AllocError> {
    let citation = Citation::read(alloc, query.as_bytes())?;
    let Ok(understood) = OpenUrl::read(alloc, query.as_bytes()) else {
        return Err(AllocError);
    };
    let written = understood.write(alloc)?;
    let dropped = dropped_keys(alloc, query.as_bytes())?;
    Ok(Explanation {
        citation,
        understood,
        written,
        dropped,
    })
}

// Returns why a query has nothing to look up.
fn cause_of(refusal: OpenUrlFault) -> &'static str {
    match refusal {
        OpenUrlFault::Version =>
            "no value has an ISSN or an ISBN, and a version is not Z39.88-2004",
        OpenUrlFault::OtherFormat => {
            "no value has an ISSN or an ISBN, and a format is not that of journals or of books"
        }
        OpenUrlFault::NoIssn => "no value has an ISSN or an ISBN with its check digit",
        OpenUrlFault::NoIsbn => "no value has an ISBN or an ISSN with its check digit",
        OpenUrlFault::TooMany => "a query has at most 64 ISSNs and ISBNs",
    }
}

// Prints a label and a value in a line.
fn print_line<O: Write>(out: &mut O, label: &str, value: &[u8]) -> io::Result<()> {
    out.write_all(label.as_bytes())?;
    out.write_all(b" ")?;
    out.write_all(value)?;
    out.write_all(b"\n")
}

// Prints a line for a part of a citation, unless it is absent.
fn print_part<O: Write>(out: &mut O, label: &str, value: &str) -> io::Result<()> {
    if value.is_empty() {
        return Ok(());
    }
    print_line(out, label, value.as_bytes())
}

fn print_lines<O: Write>(reading: &Explanation, out: &mut O) -> io::Result<()> {
    let understood = &reading.understood;
    for issn in understood.issns() {
        print_line(out, "issn", &issn.text())?;
    }
    for isbn in understood.isbns() {
        print_line(out, "isbn", &isbn.text())?;
    }
    print_date(reading, out)?;
    print_volume(reading, out)?;
    print_citation(&reading.citation, out)?;
    if understood.refusal().is_none() {
        print_line(out, "query", &reading.written)?;
    }
    for dropped in &reading.dropped {
        let key = dropped.key.as_str();
        let count = dropped.count;
        writeln!(out, "dropped {key} {count} times")?;
    }
    Ok(())
}

// Prints the date, or the text from which no date was read.
fn print_date<O: Write>(reading: &Explanation, out: &mut O) -> io::Result<()> {
    match reading.understood.date() {
        Some(date) => print_line(out, "date", date),
        None => print_part(
            out,
            "unread date",
            reading.citation.text(CitationPart::Date),
        ),
    }
}

// Prints the volume, or the text from which no volume was read.
fn print_volume<O: Write>(reading: &Explanation, out: &mut O) -> io::Result<()> {
    match reading.understood.volume() {
        Some(volume) => print_line(out, "volume", volume),
        None => print_part(
            out,
            "unread volume",
            reading.citation.text(CitationPart::Volume),
        ),
    }
}

// Prints the parts of a citation but the date and the volume, which are printed as they are read.
fn print_citation<O: Write>(citation: &Citation, out: &mut O) -> io::Result<()> {
    for part in &PARTS {
        if !matches!(part, CitationPart::Date | CitationPart::Volume) {
            print_part(out, part.name(), citation.text(*part))?;
        }
    }
    Ok(())
}

// Writes a text as a JSON string.
fn write_text<O: Write>(alloc: Global, out: &mut O, text: &[u8]) -> io::Result<()> {
    let text = str::from_utf8(text).unwrap_or("");
    match serde_json::to_vec(alloc, &text) {
        Ok(quoted) => out.write_all(&quoted),
        Err(_) => Err(io::Error::from(ErrorKind::OutOfMemory)),
    }
}

// Writes a member of an object, with a comma before it unless it is the first.
fn write_member<O: Write>(alloc: Global, out: &mut O, name: &str, value: &[u8]) -> io::Result<()> {
    write!(out, ",\"{name}\":")?;
    write_text(alloc, out, value)
}

// Writes one object on a line. A member that is absent is an empty text or an empty list.
fn print_json<O: Write>(alloc: Global, reading: &Explanation, out: &mut O) -> io::Result<()> {
    write_identifiers(&reading.understood, out)?;
    write_values(alloc, reading, out)?;
    write_citation(alloc, &reading.citation, out)?;
    write_dropped(alloc, &reading.dropped, out)?;
    out.write_all(b"}\n")
}

fn write_identifiers<O: Write>(understood: &OpenUrl, out: &mut O) -> io::Result<()> {
    out.write_all(b"{\"issns\":[")?;
    for (place, issn) in understood.issns().iter().enumerate() {
        write_quoted(out, place, &issn.text())?;
    }
    out.write_all(b"],\"isbns\":[")?;
    for (place, isbn) in understood.isbns().iter().enumerate() {
        write_quoted(out, place, &isbn.text())?;
    }
    out.write_all(b"]")
}

// Writes an element of a list that needs no escapes.
fn write_quoted<O: Write>(out: &mut O, place: usize, text: &[u8]) -> io::Result<()> {
    let front: &[u8] = if place == 0 { b"\"" } else { b",\"" };
    out.write_all(front)?;
    out.write_all(text)?;
    out.write_all(b"\"")
}

fn write_values<O: Write>(alloc: Global, reading: &Explanation, out: &mut O) -> io::Result<()> {
    let understood = &reading.understood;
    match understood.date() {
        Some(date) => write_member(alloc, out, "date", date)?,
        None => write_member(alloc, out, "date", b"")?,
    }
    match understood.volume() {
        Some(volume) => write_member(alloc, out, "volume", volume)?,
        None => write_member(alloc, out, "volume", b"")?,
    }
    match understood.refusal() {
        Some(refusal) => write!(out, ",\"refused\":\"{refusal}\",\"query\":\"\""),
        None => {
            out.write_all(b",\"refused\":\"\"")?;
            write_member(alloc, out, "query", &reading.written)
        }
    }
}

fn write_citation<O: Write>(alloc: Global, citation: &Citation, out: &mut O) -> io::Result<()> {
    out.write_all(b",\"citation\":{")?;
    let mut front: &[u8] = b"\"";
    for part in &PARTS {
        out.write_all(front)?;
        front = b",\"";
        out.write_all(part.name().as_bytes())?;
        out.write_all(b"\":")?;
        write_text(alloc, out, citation.text(*part).as_bytes())?;
    }
    out.write_all(b"}")
}

fn write_dropped<O: Write>(alloc: Global, dropped: &[Dropped], out: &mut O) -> io::Result<()> {
    out.write_all(b",\"dropped\":[")?;
    let mut front: &[u8] = b"{\"key\":";
    for one in dropped {
        out.write_all(front)?;
        front = b",{\"key\":";
        write_text(alloc, out, one.key.as_bytes())?;
        let count = one.count;
        write!(out, ",\"times\":{count}}}")?;
    }
    out.write_all(b"]")
}
