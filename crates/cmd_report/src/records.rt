//! The records of a list, by their numbers: their lines in the file, and their fields.
use crate::json::write_text;
use csv::{ByteRecord, Reader};
use feed_bytes::trim_spaces;
use feed_dates::DayRange;
use feed_kbart::{LABELS, Label, REQUIRED_COUNT, Reason};
use feed_text::record_reader;
use std::alloc::{AllocError, Global};
use std::io;
use std::io::Write;

const BYTE_ORDER_MARK: [u8; 3] = [0xEF, 0xBB, 0xBF];

/// A cursor over the records of a list, which begins at the header.
#[derive(Drop)]
pub struct Records<'a> {
    alloc: Global,
    text: &'a [u8],
    reader: Reader<&'a [u8]>,
    fields: ByteRecord,
    // The column of each label, in the order of their places.
    columns: Vec<Option<usize>>,
    // The number of the current record, and its line.
    number: u32,
    line: usize,
    // How many bytes of the text come before that line.
    passed: usize,
}

impl<'a> Records<'a> {
    /// Reads the header of a list, which is UTF-8 and begins with at most one byte-order mark.
    pub fn new(alloc: Global, text: &'a [u8]) -> Result<Records<'a>, AllocError> {
        let text = text
            .strip_prefix(BYTE_ORDER_MARK.as_slice())
            .unwrap_or(text);
        let mut records = Records {
            alloc,
            text,
            reader: record_reader(alloc, text)?,
            fields: ByteRecord::new(alloc),
            columns: Vec::new(alloc),
            number: 0,
            line: 1,
            passed: 0,
        };
        match records.read_header() {
            Ok(()) => Ok(records),
            Err(fault) => Err(fault),
        }
    }

    fn read_header(&mut self) -> Result<(), AllocError> {
        self.go_to(1)?;
        for label in LABELS {
            self.columns.push(column_of(&self.fields, label))?;
        }
        Ok(())
    }

    /// Moves to the record with a number, which is not less than the current one.
    pub fn go_to(&mut self, number: u32) -> Result<(), AllocError> {
        for _ in self.number..number {
            if self.reader.read_byte_record(&mut self.fields).is_err() {
                return Err(AllocError);
            }
        }
        self.number = number;
        self.count_lines();
        Ok(())
    }

    // Counts the lines from the record before to the current one, and the empty lines between them.
    fn count_lines(&mut self) {
        let read = match self.fields.position() {
            Some(position) => position.byte() as usize,
            None => 0,
        };
        let rest = self.text.get(self.passed..).unwrap_or(&[]);
        let before = read.saturating_sub(self.passed);
        let skipped = rest.get(before..).unwrap_or(&[]);
        let empty = skipped
            .iter()
            .take_while(|byte| is_line_end(**byte))
            .count();
        let more = before.saturating_add(empty).min(rest.len());
        self.line = self.line.saturating_add(count_line_ends(&rest[..more]));
        self.passed = self.passed.saturating_add(more);
    }

    /// Returns the line of the file on which the record begins, counted from 1.
    pub fn line(&self) -> usize {
        self.line
    }

    /// Writes the record's field under a label as a JSON string.
    pub fn write_field<O: Write>(&self, out: &mut O, label: Label) -> io::Result<()> {
        write_text(self.alloc, out, self.field(label))
    }

    // Returns the record's field under a label, which is empty if there is none.
    fn field(&self, label: Label) -> &[u8] {
        match self.columns.get(label as usize) {
            Some(Some(column)) => self.fields.get(*column).unwrap_or(&[]),
            _ => &[],
        }
    }

    /// Returns whether a reason to skip the record is about its field under a label.
    pub fn is_at_fault(&self, label: Label, reason: Reason) -> bool {
        match (reason, label) {
            (Reason::OtherType | Reason::NoIsbn, Label::PublicationType) => true,
            (Reason::NoIssn | Reason::NoIsbn, Label::PrintIdentifier | Label::OnlineIdentifier) =>
                true,
            (Reason::BadDate, Label::DateFirstIssueOnline | Label::DateLastIssueOnline) => {
                let date = trim_spaces(self.field(label));
                !date.is_empty() && DayRange::of_text(date).is_none()
            }
            (Reason::Reversed, Label::DateFirstIssueOnline | Label::DateLastIssueOnline) => true,
            _ => false,
        }
    }

    /// Returns the required labels that the header lacks, in their order.
    pub fn missing_labels(&self, alloc: Global) -> Result<Vec<Label>, AllocError> {
        let mut missing = Vec::new(alloc);
        for (label, column) in LABELS.iter().zip(&self.columns).take(REQUIRED_COUNT) {
            if column.is_none() {
                missing.push(*label)?;
            }
        }
        Ok(missing)
    }
}

// Returns the place of the first field of a header that is a label.
fn column_of(header: &ByteRecord, label: Label) -> Option<usize> {
    header.iter().position(|field| label.is(field))
}

fn is_line_end(byte: u8) -> bool {
    byte == b'\r' || byte == b'\n'
}

// Counts the line ends of a text. CR LF is one.
fn count_line_ends(text: &[u8]) -> usize {
    let mut ends = 0usize;
    let mut before = 0u8;
    for byte in text {
        if is_line_end(*byte) && (*byte != b'\n' || before != b'\r') {
            ends = ends.saturating_add(1);
        }
        before = *byte;
    }
    ends
}
