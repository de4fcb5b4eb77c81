//! Hints below the fault of a name: the one that was probably meant.
use feed_console::{Console, parse_name};
use feed_names::ReleaseName;
use std::alloc::{AllocError, Global};
use std::io::Write;

// How many digits the date of a name without hyphens has.
const DATE_DIGITS: usize = 8;

/// Advice about a name that was probably meant.
#[derive(Clone, Copy)]
pub enum Advice {
    /// Rename the file.
    Rename,
    /// Give the name as the argument.
    Give,
}

/// Parses the name of a release, as `parse_name` does. Below the fault of an invalid one, notes the name that was
/// probably meant.
pub fn parse_meant_name<O: Write, F: Write + Drop>(
    text: &str,
    status: u8,
    advice: Advice,
    console: &mut Console<'_, O, F>,
) -> Result<ReleaseName, u8> {
    match parse_name(text, status, console) {
        Ok(name) => Ok(name),
        Err(status) => {
            note_meant_name(text, advice, console);
            Err(status)
        }
    }
}

fn note_meant_name<O: Write, F: Write + Drop>(
    text: &str,
    advice: Advice,
    console: &mut Console<'_, O, F>,
) {
    if let Ok(Some(name)) = meant_name(console.rt.alloc(), text.as_bytes()) {
        let name = str::from_utf8(name.text()).unwrap_or("");
        match advice {
            Advice::Rename => console
                .faults
                .note(text, format_args!("rename it to {name}")),
            Advice::Give => console
                .faults
                .note(text, format_args!("did you mean {name}?")),
        }
    } else if let Some(package) = package_in(console.rt.alloc(), text) {
        match advice {
            Advice::Rename => console.faults.note(
                text,
                format_args!("name it {package}_YYYY-MM-DD.txt, with the day of the list"),
            ),
            Advice::Give => console.faults.note(
                text,
                format_args!("give the name of a release, as {package}_2024-01-01.txt"),
            ),
        }
    }
}

// Returns the package that a name without a day has: it may have an ending, and has no digit at its end or after its
// last underscore.
fn package_in(alloc: Global, text: &str) -> Option<&str> {
    let package = match text.rsplit_once('.') {
        Some((front, ending)) if is_ending(ending.as_bytes()) => front,
        _ => text,
    };
    let last = match package.rsplit_once('_') {
        Some((_, last)) => last.as_bytes(),
        None => &package.as_bytes()[package.len().saturating_sub(1)..],
    };
    if last.iter().any(|byte| byte.is_ascii_digit()) {
        return None;
    }
    let name = format!(in alloc; "{package}_2024-01-01.txt").ok()?;
    match ReleaseName::parse(alloc, name.as_bytes()) {
        Ok(_) => Some(package),
        Err(_) => None,
    }
}

// Returns the valid name that differs from a text in its ending, and in the hyphens of its date, and in nothing else.
fn meant_name(alloc: Global, text: &[u8]) -> Result<Option<ReleaseName>, AllocError> {
    let Some(place) = text.iter().rposition(|byte| *byte == b'.') else {
        return Ok(None);
    };
    if !is_ending(&text[place.saturating_add(1)..]) {
        return Ok(None);
    }
    let mut meant = Vec::new(alloc);
    append_front(&mut meant, &text[..place])?;
    meant.extend_from_slice(b".txt")?;
    if meant.as_slice() == text {
        return Ok(None);
    }
    match ReleaseName::parse(alloc, &meant) {
        Ok(name) => Ok(Some(name)),
        Err(_) => Ok(None),
    }
}

// Returns whether a table is saved under such an ending.
fn is_ending(ending: &[u8]) -> bool {
    ending.eq_ignore_ascii_case(b"txt".as_slice())
        || ending.eq_ignore_ascii_case(b"tsv".as_slice())
        || ending.eq_ignore_ascii_case(b"csv".as_slice())
}

// Appends the part of a name before its ending, with hyphens in its date.
fn append_front(meant: &mut Vec<u8>, front: &[u8]) -> Result<(), AllocError> {
    let Some(place) = front.iter().rposition(|byte| *byte == b'_') else {
        return meant.extend_from_slice(front);
    };
    let date = &front[place.saturating_add(1)..];
    if date.len() != DATE_DIGITS || !date.iter().all(|byte| byte.is_ascii_digit()) {
        return meant.extend_from_slice(front);
    }
    meant.extend_from_slice(&front[..place])?;
    meant.extend_from_slice(b"_")?;
    meant.extend_from_slice(&date[..4])?;
    meant.extend_from_slice(b"-")?;
    meant.extend_from_slice(&date[4..6])?;
    meant.extend_from_slice(b"-")?;
    meant.extend_from_slice(&date[6..])
}
