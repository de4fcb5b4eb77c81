//! Warnings about a good list: what a reader of it would hardly expect.
use crate::json::Commas;
use std::io;
use std::io::Write;

/// Faults of a good list that are probably not meant, each with the line of its first occurrence, counted from 1.
#[derive(Clone, Copy)]
pub struct Warnings {
    // The line of a field between double quotes: quotes are ordinary characters.
    quoted: Option<usize>,
    // The line of a NUL byte.
    nul: Option<usize>,
    has_no_rows: bool,
}

// A place in a text, and the field before it on the same line.
#[derive(Clone, Copy)]
struct Scan {
    line: usize,
    is_after_return: bool,
    first: u8,
    last: u8,
    len: usize,
}

impl Scan {
    fn new() -> Scan {
        Scan {
            line: 1,
            is_after_return: false,
            first: 0,
            last: 0,
            len: 0,
        }
    }

    // Moves behind a byte. CR LF is one line end.
    fn pass(&mut self, byte: u8) {
        if byte == b'\t' || byte == b'\r' || byte == b'\n' {
            self.len = 0;
        } else {
            if self.len == 0 {
                self.first = byte;
            }
            self.last = byte;
            self.len = self.len.saturating_add(1);
        }
        if byte == b'\r' || (byte == b'\n' && !self.is_after_return) {
            self.line = self.line.saturating_add(1);
        }
        self.is_after_return = byte == b'\r';
    }

    // Returns whether the field is between double quotes, so far.
    fn is_quoted(&self) -> bool {
        self.len > 1 && self.first == b'"' && self.last == b'"'
    }
}

impl Warnings {
    /// Returns the warnings about a good list of so many rows.
    pub fn of(text: &[u8], rows: u32) -> Warnings {
        let mut warnings = Warnings {
            quoted: None,
            nul: None,
            has_no_rows: rows == 0,
        };
        let mut scan = Scan::new();
        for byte in text {
            warnings.pass(&scan, *byte);
            scan.pass(*byte);
        }
        warnings.pass(&scan, b'\n');
        warnings
    }

    // Records what a byte at a place shows: a NUL byte, or the end of a quoted field.
    fn pass(&mut self, scan: &Scan, byte: u8) {
        let is_end = byte == b'\t' || byte == b'\r' || byte == b'\n';
        if is_end && self.quoted.is_none() && scan.is_quoted() {
            self.quoted = Some(scan.line);
        }
        if byte == 0 && self.nul.is_none() {
            self.nul = Some(scan.line);
        }
    }

    /// Prints each warning on a line.
    pub fn print_lines<O: Write>(&self, out: &mut O) -> io::Result<()> {
        if self.has_no_rows {
            out.write_all(b"warning NoRows\n")?;
        }
        if let Some(line) = self.quoted {
            writeln!(out, "warning Quotes line {line}")?;
        }
        if let Some(line) = self.nul {
            writeln!(out, "warning Nul line {line}")?;
        }
        Ok(())
    }

    /// Prints the warnings as a member of an object, with a comma before it, if there are any.
    pub fn print_json<O: Write>(&self, out: &mut O) -> io::Result<()> {
        if !self.has_no_rows && self.quoted.is_none() && self.nul.is_none() {
            return Ok(());
        }
        out.write_all(b",\"warnings\":[")?;
        let mut commas = Commas::new();
        if self.has_no_rows {
            commas.write(out)?;
            out.write_all(b"{\"warning\":\"NoRows\"}")?;
        }
        if let Some(line) = self.quoted {
            commas.write(out)?;
            write!(out, "{{\"warning\":\"Quotes\",\"line\":{line}}}")?;
        }
        if let Some(line) = self.nul {
            commas.write(out)?;
            write!(out, "{{\"warning\":\"Nul\",\"line\":{line}}}")?;
        }
        out.write_all(b"]")
    }
}
