//! Hints below the fault of a site file: what was probably meant.
use feed_console::{Console, open_plain, read_front};
use node_site::{Field, KeyFault, SITE_LIMIT, SiteFault, SiteFile, ValueFault};
use std::alloc::{AllocError, Global};
use std::io::Write;

// The most bytes of a name for which others are tried. There are some fifty for each letter.
const TRIED: usize = 24;

const LETTERS: [&str; 27] = [
    "a", "b", "c", "d", "e", "f", "g", "h", "i", "j", "k", "l", "m", "n", "o", "p", "q", "r", "s",
    "t", "u", "v", "w", "x", "y", "z", "_",
];

/// Notes below the fault of the site file at a path what was probably meant, if the file is there and that shows.
pub(crate) fn note_meant_site<O: Write, F: Write + Drop>(
    path: &str,
    fault: &SiteFault,
    console: &mut Console<'_, O, F>,
) {
    let Ok(Some(mut file)) = open_plain(console.rt, path) else {
        return;
    };
    let Ok(bytes) = read_front(console.rt.alloc(), &mut file, SITE_LIMIT) else {
        return;
    };
    match fault {
        SiteFault::NotUtf8 => note_encoding(path, &bytes, console),
        SiteFault::Syntax(at) => note_line(path, &bytes, at.line, console),
        SiteFault::Key(fault) => note_key(fault, &bytes, console),
        SiteFault::TooLong | SiteFault::Memory => {}
    }
}

// Notes the encoding of bytes that begin with the mark of UTF-16.
fn note_encoding<O: Write, F: Write + Drop>(
    path: &str,
    bytes: &[u8],
    console: &mut Console<'_, O, F>,
) {
    if bytes.starts_with(b"\xff\xfe") || bytes.starts_with(b"\xfe\xff") {
        console
            .faults
            .note(path, "it is UTF-16: save it as UTF-8 text");
    }
}

// Notes how a value is written that is not one of TOML.
fn note_line<O: Write, F: Write + Drop>(
    path: &str,
    bytes: &[u8],
    line: usize,
    console: &mut Console<'_, O, F>,
) {
    let text = str::from_utf8(bytes).unwrap_or("");
    let Some(line) = text.lines().nth(line.saturating_sub(1)) else {
        return;
    };
    let Some((key, value)) = line.split_once('=') else {
        return;
    };
    let value = value.split(" #").next().unwrap_or(value);
    let (key, value) = (key.trim(), value.trim());
    if is_answer(value) {
        let hint = format_args!("write {key} = true or {key} = false");
        console.faults.note(path, hint);
    } else if is_bare(value) {
        let hint = format_args!("a text is in quotation marks, as {key} = \"{value}\"");
        console.faults.note(path, hint);
    } else if value.starts_with('"') && !value[1..].contains('"') {
        let hint = format_args!("a text ends with a quotation mark, as {key} = {value}\"");
        console.faults.note(path, hint);
    }
}

// Returns whether a value is yes or no in a form that is not TOML's.
fn is_answer(value: &str) -> bool {
    let is_switch = value == "true" || value == "false";
    !is_switch
        && ["yes", "no", "on", "off", "true", "false"]
            .iter()
            .any(|word| value.eq_ignore_ascii_case(word))
}

// Returns whether a value is a word without quotation marks.
fn is_bare(value: &str) -> bool {
    match value.chars().next() {
        Some(first) => first.is_alphabetic()
            && !value.contains('"')
            && value != "true"
            && value != "false",
        None => false,
    }
}

// Notes what was probably meant at a key.
fn note_key<O: Write, F: Write + Drop>(
    fault: &KeyFault,
    bytes: &[u8],
    console: &mut Console<'_, O, F>,
) {
    let path = fault.path();
    let (table, key) = path.split_once('.').unwrap_or((path, ""));
    let (section, row) = table.split_once('[').unwrap_or((table, ""));
    match fault.reason() {
        ValueFault::UnknownKey if key.is_empty() => note_section(path, section, console),
        ValueFault::UnknownKey => note_name(path, section, !row.is_empty(), key, console),
        ValueFault::Missing if row.is_empty() => {
            let hint = format_args!("[{section}] needs one, as {key} = \"..\"");
            console.faults.note(path, hint);
        }
        ValueFault::Missing => {
            let hint = format_args!("each [[{section}]] needs one, as {key} = \"..\"");
            console.faults.note(path, hint);
        }
        ValueFault::NotList if key.is_empty() => {
            let hint = format_args!("write [[{section}]] above each, with two brackets");
            console.faults.note(path, hint);
        }
        ValueFault::NotTable if row.is_empty() => {
            let hint = format_args!("write [{section}] above its keys, with one bracket");
            console.faults.note(path, hint);
        }
        ValueFault::Template | ValueFault::Article => note_field(path, key, bytes, console),
        _ => {}
    }
}

// Notes the section of a similar name.
fn note_section<O: Write, F: Write + Drop>(
    path: &str,
    section: &str,
    console: &mut Console<'_, O, F>,
) {
    let alloc = console.rt.alloc();
    if let Ok(Some(meant)) = similar(alloc, section, |name: &str| is_section(alloc, name)) {
        let hint = format_args!("did you mean {}?", meant.as_str());
        console.faults.note(path, hint);
    }
}

// Notes the key of a similar name in a section, which has one table or a list of them.
fn note_name<O: Write, F: Write + Drop>(
    path: &str,
    section: &str,
    is_list: bool,
    key: &str,
    console: &mut Console<'_, O, F>,
) {
    let alloc = console.rt.alloc();
    let meant = similar(alloc, key, |name: &str| {
        is_key(alloc, section, is_list, name)
    });
    if let Ok(Some(meant)) = meant {
        let hint = format_args!("did you mean {}?", meant.as_str());
        console.faults.note(path, hint);
    }
}

// Notes the first name in braces that no template may have, in a value of a key, and the similar one that it may.
fn note_field<O: Write, F: Write + Drop>(
    path: &str,
    key: &str,
    bytes: &[u8],
    console: &mut Console<'_, O, F>,
) {
    let text = str::from_utf8(bytes).unwrap_or("");
    let Some(name) = unknown_field(key, text) else {
        return;
    };
    let alloc = console.rt.alloc();
    match similar(alloc, name, |name: &str| Ok(is_field(name))) {
        Ok(Some(meant)) => {
            let hint = format_args!(
                "{{{name}}} is not a name: did you mean {{{}}}?",
                meant.as_str()
            );
            console.faults.note(path, hint);
        }
        Ok(None) | Err(_) => {
            let hint = format_args!("{{{name}}} is not a name");
            console.faults.note(path, hint);
        }
    }
}

fn is_field(name: &str) -> bool {
    name == "url" || Field::named(name.as_bytes()).is_some()
}

// Returns the first name in braces that is not one of a field, in the lines of a key.
fn unknown_field<'a>(key: &str, text: &'a str) -> Option<&'a str> {
    for line in text.lines() {
        let (name, value) = line.split_once('=').unwrap_or((line, ""));
        if name.trim() == key {
            if let Some(field) = unknown_in(value) {
                return Some(field);
            }
        }
    }
    None
}

fn unknown_in(value: &str) -> Option<&str> {
    for part in value.split('{').skip(1) {
        if let Some((name, _)) = part.split_once('}') {
            if !is_field(name) {
                return Some(name);
            }
        }
    }
    None
}

fn is_section(alloc: Global, name: &str) -> Result<bool, AllocError> {
    Ok(is_key(alloc, name, false, "")? || is_key(alloc, name, true, "")?)
}

// Returns whether a site file knows a key of a section, or the section if the key is empty.
fn is_key(alloc: Global, section: &str, is_list: bool, key: &str) -> Result<bool, AllocError> {
    let head = if is_list {
        format!(in alloc; "[[{section}]]\n")?
    } else {
        format!(in alloc; "[{section}]\n")?
    };
    let text = if key.is_empty() {
        head
    } else {
        format!(in alloc; "{}{key} = 0\n", head.as_str())?
    };
    match SiteFile::read(alloc, text.as_bytes()) {
        Ok(_site) => Ok(true),
        Err(SiteFault::Key(fault)) => Ok(fault.reason() != ValueFault::UnknownKey),
        Err(_fault) => Ok(false),
    }
}

// Returns the first name that passes a test and differs in one letter from a name that does not, or in the order of
// two.
fn similar<P: Fn(&str) -> Result<bool, AllocError>>(
    alloc: Global,
    name: &str,
    passes: P,
) -> Result<Option<String>, AllocError>
    requires { P.IsAlwaysCallable passes }
{
    if name.len() > TRIED || !name.is_ascii() {
        return Ok(None);
    }
    for place in 0..=name.len() {
        let (front, back) = name.split_at(place);
        for letter in LETTERS {
            let longer = format!(in alloc; "{front}{letter}{back}")?;
            if passes(longer.as_str())? {
                return Ok(Some(longer));
            }
        }
        let Some((first, rest)) = back.split_at_checked(1) else {
            continue;
        };
        let shorter = format!(in alloc; "{front}{rest}")?;
        if passes(shorter.as_str())? {
            return Ok(Some(shorter));
        }
        for letter in LETTERS {
            let other = format!(in alloc; "{front}{letter}{rest}")?;
            if passes(other.as_str())? {
                return Ok(Some(other));
            }
        }
        if let Some((second, rest)) = rest.split_at_checked(1) {
            let turned = format!(in alloc; "{front}{second}{first}{rest}")?;
            if passes(turned.as_str())? {
                return Ok(Some(turned));
            }
        }
    }
    Ok(None)
}
