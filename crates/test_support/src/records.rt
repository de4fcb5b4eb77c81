//! Printing the records of a keeper, so that tests compare them as text.
use feed_keep::{Keep, Record};
use feed_names::ReleaseName;
use feed_parts::Part;
use std::alloc::Global;
use std::io;
use std::io::Write;
use std::test::Fail;

/// Parses a release name.
pub fn name_of(alloc: Global, text: &str) -> Result<ReleaseName, Fail> {
    Ok(ReleaseName::parse(alloc, text.as_bytes())?)
}

// Returns the records of a keeper as text.
fn content_text<K: Keep>(alloc: Global, keeper: &mut K) -> Result<Vec<u8>, Fail> {
    let records = keeper.load(alloc)?;
    Ok(records_text(alloc, &records)?)
}

/// Prints a text.
pub fn print_text(rt: &HostRuntime, text: &[u8]) -> Result<(), Fail> {
    let text = str::from_utf8(text)?;
    print!(rt; "{text}")?;
    Ok(())
}

/// Prints the records of a keeper.
pub fn print_content<K: Keep>(rt: &HostRuntime, keeper: &mut K) -> Result<(), Fail> {
    let records = content_text(rt.alloc(), keeper)?;
    print_text(rt, &records)
}

/// Returns records as text, a line for each: its name, size and state, its reason, and then its parts, as in
/// `X_2024-01-01.txt 10 Staged 0:01 4:45` and `X_2024-01-01.txt 0 Broken (NoHeader)`.
pub fn records_text(alloc: Global, records: &[Record]) -> io::Result<Vec<u8>> {
    let mut text = Vec::new(alloc);
    for record in records {
        write_record(&mut text, record)?;
    }
    Ok(text)
}

fn write_record(text: &mut Vec<u8>, record: &Record) -> io::Result<()> {
    text.extend_from_slice(record.name.text())?;
    write!(text, " {} {:?}", record.size, record.state)?;
    if let Some(why) = record.reason {
        write!(text, " ({why})")?;
    }
    write_parts(text, &record.parts)?;
    text.push(b'\n')?;
    Ok(())
}

/// Appends parts to a text, as ` 0:01 4:45`.
pub fn write_parts(text: &mut Vec<u8>, parts: &[Part]) -> io::Result<()> {
    for part in parts {
        write!(text, " {}:", part.first)?;
        text.extend_from_slice(&part.bytes)?;
    }
    Ok(())
}
