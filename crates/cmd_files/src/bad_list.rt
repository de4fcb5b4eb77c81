//! Hints on a bad list: what the file probably is, and where its text is not UTF-8.
ghost use Rattle.std.specs.Prelude.{◌≤◌, length};

use feed_console::{Console, open_plain};
use feed_kbart::BadFile;
use feed_limits::FILE_LIMIT;
use std::alloc::Global;
use std::io;
use std::io::{Read, Write};

// A file is read in blocks of at most this many bytes. The header is looked for in the first block.
const BLOCK: usize = 65_536;

// An incomplete character has at most three bytes.
const INCOMPLETE: usize = 3;

const BYTE_ORDER_MARK: [u8; 3] = [0xEF, 0xBB, 0xBF];

// A place in a text: the bytes before it, and its line, counted from 1.
#[derive(Clone, Copy)]
struct Place {
    byte: usize,
    line: usize,
    is_after_return: bool,
}

impl Place {
    // Returns the place behind a text that begins here. CR LF is one line end.
    fn behind(self, text: &[u8]) -> Place {
        let mut place = self;
        place.byte = place.byte.saturating_add(text.len());
        for byte in text {
            if *byte == b'\r' || (*byte == b'\n' && !place.is_after_return) {
                place.line = place.line.saturating_add(1);
            }
            place.is_after_return = *byte == b'\r';
        }
        place
    }
}

/// Notes what is known of a bad list at a path, which it reads again. It does not read anything but a plain file again,
/// since that may wait, as it does for a pipe.
pub fn note_bad_file<O: Write, F: Write + Drop>(
    path: &str,
    about: &str,
    why: BadFile,
    console: &mut Console<'_, O, F>,
) {
    if let Ok(Some(file)) = open_plain(console.rt, path) {
        note_bad_list(file, about, why, console);
    }
}

/// Notes what is known of a bad list: that it is packed or in UTF-16, that its header has commas in place of tabs, or
/// where it is not UTF-8.
pub fn note_bad_list<R: Read + Drop, O: Write, F: Write + Drop>(
    list: R,
    about: &str,
    why: BadFile,
    console: &mut Console<'_, O, F>,
) {
    let mut list = list;
    let Ok(front) = read_block(console.rt.alloc(), &mut list) else {
        return;
    };
    match (hint_of(&front, why), why) {
        (Some(hint), _) => console.faults.note(about, hint),
        (None, BadFile::NotUtf8) => {
            let place = first_bad(console.rt.alloc(), front, &mut list);
            if let Ok(Some(Place { byte, line, .. })) = place {
                let hint = format_args!(
                    "byte {byte}, on line {line}, is not UTF-8: save it as UTF-8, or let kbfeed-convert read it"
                );
                console.faults.note(about, hint);
            }
        }
        _ => {}
    }
}

// Returns what the first bytes of a bad list say of it.
fn hint_of(front: &[u8], why: BadFile) -> Option<&'static str> {
    match why {
        BadFile::NotUtf8 => kind_of(front),
        BadFile::MissingLabel(_) => match kind_of(front) {
            Some(kind) => Some(kind),
            None if has_commas(front) => {
                Some("the header has one column and commas: commas instead of tabs?")
            }
            None => None,
        },
        BadFile::NoHeader if front.is_empty() => Some("it is empty: get it again"),
        _ => None,
    }
}

// Returns what a file is that begins with a mark of UTF-16, a local header of ZIP, or a member of gzip.
fn kind_of(front: &[u8]) -> Option<&'static str> {
    if front.starts_with(&[0xFF, 0xFE]) || front.starts_with(&[0xFE, 0xFF]) {
        Some("it is UTF-16: save it as UTF-8 text")
    } else if front.starts_with(b"PK\x03\x04") {
        Some("it is a ZIP file, as a spreadsheet is: save it as UTF-8 text")
    } else if front.starts_with(&[0x1F, 0x8B]) {
        Some("it is compressed by gzip: save it as UTF-8 text")
    } else {
        None
    }
}

// Returns whether the first line that is not empty has commas and no tab.
fn has_commas(front: &[u8]) -> bool {
    let text = front
        .strip_prefix(BYTE_ORDER_MARK.as_slice())
        .unwrap_or(front);
    let mut commas = 0usize;
    let mut len = 0usize;
    for byte in text {
        match *byte {
            b'\t' => return false,
            b'\r' | b'\n' if len > 0 => break,
            b'\r' | b'\n' => {}
            b',' => {
                commas = commas.saturating_add(1);
                len = len.saturating_add(1);
            }
            _ => len = len.saturating_add(1),
        }
    }
    commas > 0
}

// Returns the place of the first byte that is not UTF-8, in a text whose front is read already.
fn first_bad<R: Read>(alloc: Global, front: Vec<u8>, rest: &mut R) -> io::Result<Option<Place>> {
    let mut place = Place {
        byte: 0,
        line: 1,
        is_after_return: false,
    };
    let mut block = front;
    for _ in 0..=FILE_LIMIT {
        let valid = valid_len(&block);
        place = place.behind(&block[..valid]);
        let more = read_block(alloc, rest)?;
        let left = block.len() - valid;
        if left > INCOMPLETE || more.is_empty() {
            return Ok(if left > 0 { Some(place) } else { None });
        }
        let mut next = Vec::from_slice(alloc, &block[valid..])?;
        next.extend_from_slice(&more)?;
        block = next;
    }
    Ok(None)
}

// Reads the next bytes, which are none at the end.
fn read_block<R: Read>(alloc: Global, list: &mut R) -> io::Result<Vec<u8>> {
    let mut block = vec![in alloc; 0u8; BLOCK]?;
    let count = list.read(block.as_mut_slice())?;
    block.truncate(count);
    Ok(block)
}

// Returns how many bytes come before the first that is not UTF-8.
fn valid_len(bytes: &[u8]) -> usize
    ensures { result ≤ length bytes.now }
{
    match str::from_utf8(bytes) {
        Ok(_) => bytes.len(),
        Err(error) => error.valid_up_to(),
    }
}
