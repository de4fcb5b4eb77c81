//! The report on a checked list in each of its forms.
use crate::json::Commas;
use crate::records::Records;
use crate::warnings::Warnings;
use feed_kbart::{Aside, BadFile, Counts, FileCount, Label, Reason, count_of};
use feed_names::ReleaseName;
use feed_options::Form;
use std::alloc::{AllocError, Global};
use std::io;
use std::io::Write;

// The reasons, in the order in which they are checked.
pub(crate) const REASONS: [Reason; 5] = [
    Reason::OtherType,
    Reason::NoIssn,
    Reason::NoIsbn,
    Reason::BadDate,
    Reason::Reversed,
];

// The labels of the fields that a reason may be about.
const CHECKED_LABELS: [Label; 5] = [
    Label::PublicationType,
    Label::PrintIdentifier,
    Label::OnlineIdentifier,
    Label::DateFirstIssueOnline,
    Label::DateLastIssueOnline,
];

// How many skipped records JSON lists.
const LISTED: usize = 10_000;

/// The list that a report is on: its name, the form, and its text if the form quotes it.
#[derive(Clone, Copy)]
pub struct ListReport<'a> {
    pub alloc: Global,
    pub name: &'a ReleaseName,
    pub form: Form,
    pub text: &'a [u8],
    /// Whether JSON lists all skipped records, and not only the first 10,000.
    pub lists_all: bool,
}

impl ListReport<'_> {
    /// Prints the lines that come before the list is read.
    pub fn print_release<O: Write>(&self, out: &mut O) -> io::Result<()> {
        match self.form {
            Form::Lines | Form::Explained => {
                out.write_all(b"release ")?;
                out.write_all(self.name.text())?;
                out.write_all(b"\n")
            }
            Form::Summary | Form::Json => Ok(()),
        }
    }

    /// Prints the report on a good list, and flushes the output.
    pub fn print_count<O: Write>(&self, out: &mut O, count: &FileCount) -> io::Result<()> {
        let printed = match self.form {
            Form::Lines => print_lines(out, count),
            Form::Summary => self.print_summary(out, count),
            Form::Explained => self.print_explained(out, count),
            Form::Json => self.print_json(out, count),
        };
        printed?;
        out.flush()
    }

    /// Prints the report on a bad list, and flushes the output.
    pub fn print_broken<O: Write>(&self, out: &mut O, why: BadFile) -> io::Result<()> {
        let printed = match self.form {
            Form::Lines => writeln!(out, "broken {why}"),
            Form::Summary => self.print_broken_summary(out, why),
            Form::Explained => self.print_broken_explained(out, why),
            Form::Json => self.print_broken_json(out, why),
        };
        printed?;
        out.flush()
    }

    fn print_summary<O: Write>(&self, out: &mut O, count: &FileCount) -> io::Result<()> {
        out.write_all(self.name.text())?;
        out.write_all(b" ")?;
        print_rows(out, count)?;
        print_reasons(out, count.aside())?;
        out.write_all(b"\n")
    }

    fn print_explained<O: Write>(&self, out: &mut O, count: &FileCount) -> io::Result<()> {
        print_rows(out, count)?;
        out.write_all(b"\n")?;
        self.print_skipped(out, count.aside())?;
        Warnings::of(self.text, count.rows()).print_lines(out)
    }

    fn print_json<O: Write>(&self, out: &mut O, count: &FileCount) -> io::Result<()> {
        self.print_json_name(out)?;
        let rows = Counts::of(count).rows;
        write!(out, "\"rows\":{rows},\"aside\":[")?;
        let listed = self.listed(count.aside());
        self.print_skipped(out, listed)?;
        out.write_all(b"]")?;
        let more = count.aside().len().saturating_sub(listed.len());
        if more > 0 {
            write!(out, ",\"more\":{more}")?;
        }
        Warnings::of(self.text, count.rows()).print_json(out)?;
        out.write_all(b"}\n")
    }

    // Returns the skipped records that JSON lists.
    fn listed<'s>(&self, skipped: &'s [Aside]) -> &'s [Aside] {
        if self.lists_all {
            return skipped;
        }
        &skipped[..skipped.len().min(LISTED)]
    }

    // Prints the beginning of an object. A release's name has no character that JSON escapes.
    fn print_json_name<O: Write>(&self, out: &mut O) -> io::Result<()> {
        out.write_all(b"{\"release\":\"")?;
        out.write_all(self.name.text())?;
        out.write_all(b"\",")
    }

    // Prints the records that are skipped, explained or as JSON.
    fn print_skipped<O: Write>(&self, out: &mut O, skipped: &[Aside]) -> io::Result<()> {
        let mut records = Records::new(self.alloc, self.text)?;
        self.print_records(out, &mut records, skipped)
    }

    fn print_records<O: Write>(
        &self,
        out: &mut O,
        records: &mut Records<'_>,
        skipped: &[Aside],
    ) -> io::Result<()> {
        let mut commas = Commas::new();
        for record in skipped {
            records.go_to(record.number)?;
            if self.form == Form::Json {
                commas.write(out)?;
                print_json_record(out, records, *record)?;
            } else {
                print_explanation(out, records, *record)?;
            }
        }
        Ok(())
    }

    fn print_broken_summary<O: Write>(&self, out: &mut O, why: BadFile) -> io::Result<()> {
        out.write_all(self.name.text())?;
        writeln!(out, " broken {why}")
    }

    fn print_broken_explained<O: Write>(&self, out: &mut O, why: BadFile) -> io::Result<()> {
        writeln!(out, "broken {why}")?;
        let labels = self.labels_of(why)?;
        print_labels(out, &labels)
    }

    fn print_broken_json<O: Write>(&self, out: &mut O, why: BadFile) -> io::Result<()> {
        self.print_json_name(out)?;
        let name = name_of(why);
        write!(out, "\"broken\":\"{name}\",\"labels\":[")?;
        let labels = self.labels_of(why)?;
        print_json_labels(out, &labels)?;
        out.write_all(b"]}\n")
    }

    // Returns the labels that a bad header is about: all that it lacks, or the first that appears twice.
    fn labels_of(&self, why: BadFile) -> Result<Vec<Label>, AllocError> {
        match why {
            BadFile::MissingLabel(_) => self.missing_labels(),
            BadFile::LabelTwice(label) => Vec::from_slice(self.alloc, &[label]),
            _ => Ok(Vec::new(self.alloc)),
        }
    }

    fn missing_labels(&self) -> Result<Vec<Label>, AllocError> {
        let records = Records::new(self.alloc, self.text)?;
        records.missing_labels(self.alloc)
    }
}

fn print_explanation<O: Write>(
    out: &mut O,
    records: &Records<'_>,
    skipped: Aside,
) -> io::Result<()> {
    let Aside { number, reason } = skipped;
    let line = records.line();
    write!(out, "aside {number} {reason}\n  line {line} ")?;
    records.write_field(out, Label::PublicationTitle)?;
    out.write_all(b"\n")?;
    print_fields(out, records, reason)
}

// Prints the fields of the current record that a reason is about.
fn print_fields<O: Write>(out: &mut O, records: &Records<'_>, reason: Reason) -> io::Result<()> {
    for label in CHECKED_LABELS {
        if records.is_at_fault(label, reason) {
            write!(out, "  {label} ")?;
            records.write_field(out, label)?;
            out.write_all(b"\n")?;
        }
    }
    Ok(())
}

fn print_json_record<O: Write>(
    out: &mut O,
    records: &Records<'_>,
    skipped: Aside,
) -> io::Result<()> {
    let line = records.line();
    let Aside { number, reason } = skipped;
    write!(
        out,
        "{{\"number\":{number},\"line\":{line},\"reason\":\"{reason}\",\"title\":"
    )?;
    records.write_field(out, Label::PublicationTitle)?;
    out.write_all(b",\"values\":{")?;
    print_json_fields(out, records, reason)?;
    out.write_all(b"}}")
}

// Prints the same fields as the members of an object.
fn print_json_fields<O: Write>(
    out: &mut O,
    records: &Records<'_>,
    reason: Reason,
) -> io::Result<()> {
    let mut commas = Commas::new();
    for label in CHECKED_LABELS {
        if records.is_at_fault(label, reason) {
            commas.write(out)?;
            write!(out, "\"{label}\":")?;
            records.write_field(out, label)?;
        }
    }
    Ok(())
}

fn print_lines<O: Write>(out: &mut O, count: &FileCount) -> io::Result<()> {
    print_rows(out, count)?;
    out.write_all(b"\n")?;
    for Aside { number, reason } in count.aside() {
        writeln!(out, "aside {number} {reason}")?;
    }
    Ok(())
}

fn print_rows<O: Write>(out: &mut O, count: &FileCount) -> io::Result<()> {
    let counts = Counts::of(count);
    write!(out, "{counts}")
}

// Prints the number of records that are skipped for each reason that any is skipped for.
fn print_reasons<O: Write>(out: &mut O, skipped: &[Aside]) -> io::Result<()> {
    for reason in REASONS {
        let count = count_of(skipped, reason);
        if count > 0 {
            write!(out, " {reason} {count}")?;
        }
    }
    Ok(())
}

fn print_labels<O: Write>(out: &mut O, labels: &[Label]) -> io::Result<()> {
    for label in labels {
        writeln!(out, "  {label}")?;
    }
    Ok(())
}

fn print_json_labels<O: Write>(out: &mut O, labels: &[Label]) -> io::Result<()> {
    let mut commas = Commas::new();
    for label in labels {
        commas.write(out)?;
        write!(out, "\"{label}\"")?;
    }
    Ok(())
}

// Returns the name of a fault, without the label that it is about.
fn name_of(why: BadFile) -> &'static str {
    match why {
        BadFile::NotUtf8 => "NotUtf8",
        BadFile::TwoMarks => "TwoMarks",
        BadFile::NoHeader => "NoHeader",
        BadFile::MissingLabel(_) => "MissingLabel",
        BadFile::LabelTwice(_) => "LabelTwice",
    }
}
