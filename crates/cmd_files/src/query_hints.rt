//! Hints below the fault of a query: what to write in its place.
use feed_answer::{QUERY_LIMIT, Query};
use feed_console::{Console, parse_query};
use feed_openurl::OpenUrl;
use std::alloc::{AllocError, Global};
use std::io::Write;

// The last characters that an ISSN or an ISBN may have.
const LAST: [&str; 11] = ["0", "1", "2", "3", "4", "5", "6", "7", "8", "9", "X"];

/// Returns the query of the link of a resolver: what comes after the first question mark of a text that begins with
/// `http://` or `https://`. Returns any other text as it is.
pub fn query_in(text: &str) -> &str {
    if !text.starts_with("http://") && !text.starts_with("https://") {
        return text;
    }
    match text.split_once('?') {
        Some((_, query)) => query,
        None => text,
    }
}

/// Parses a query of the core, as `parse_query` does. Below the fault of another one, notes the query that asks for
/// what `kbfeed openurl` understands.
pub fn parse_meant_query<O: Write, F: Write + Drop>(
    text: &str,
    console: &mut Console<'_, O, F>,
) -> Result<Query, u8> {
    match parse_query(text, console) {
        Ok(query) => Ok(query),
        Err(status) if text.len() > QUERY_LIMIT => Err(status),
        Err(status) => {
            match understood(console.rt.alloc(), query_in(text)) {
                Ok(Some(written)) => {
                    let written = str::from_utf8(&written).unwrap_or("");
                    let hint = format_args!("write {written}, as kbfeed openurl reads it");
                    console.faults.note(text, hint);
                }
                Ok(None) | Err(_) => note_number(text, console),
            }
            Err(status)
        }
    }
}

/// Notes which query was probably meant by one that has nothing to look up: one that differs in the check digit at its
/// end.
pub fn note_number<O: Write, F: Write + Drop>(text: &str, console: &mut Console<'_, O, F>) {
    match with_check_digit(console.rt.alloc(), query_in(text)) {
        Ok(Some(meant)) => {
            let hint = format_args!("did you mean {}?", meant.as_str());
            console.faults.note(text, hint);
        }
        Ok(None) | Err(_) => {
            let hint = "give a query as issn=2434-561X, or the whole link of a resolver";
            console.faults.note(text, hint);
        }
    }
}

// Returns the query of the core that asks for what a text is understood as: a query, or the value of an ISSN or an
// ISBN alone. Returns none if it has nothing to look up.
fn understood(alloc: Global, text: &str) -> Result<Option<Vec<u8>>, AllocError> {
    match written(alloc, text)? {
        Some(query) => Ok(Some(query)),
        None => {
            let query = format!(in alloc; "issn={text}")?;
            written(alloc, query.as_str())
        }
    }
}

fn written(alloc: Global, query: &str) -> Result<Option<Vec<u8>>, AllocError> {
    let Ok(understood) = OpenUrl::read(alloc, query.as_bytes()) else {
        return Err(AllocError);
    };
    match understood.refusal() {
        None => Ok(Some(understood.write(alloc)?)),
        Some(_) => Ok(None),
    }
}

// Returns the text that differs in its last character alone and has something to look up.
fn with_check_digit(alloc: Global, text: &str) -> Result<Option<String>, AllocError> {
    let Some((_, front)) = text.as_bytes().split_last() else {
        return Ok(None);
    };
    let front = str::from_utf8(front).unwrap_or("");
    for last in LAST {
        let meant = format!(in alloc; "{front}{last}")?;
        if understood(alloc, meant.as_str())?.is_some() {
            return Ok(Some(meant));
        }
    }
    Ok(None)
}
