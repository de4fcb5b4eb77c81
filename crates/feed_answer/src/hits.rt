//! The answer to a query: the matching rows, and their text.
ghost use Rattle.std.specs.Prelude.{◌≡◌, OnOk, map};
ghost use Rattle.std.specs.Io.KnownBytes.{Appends};
ghost use Rattle.feed_names.specs.ReleaseName.{text_of};
ghost use Rattle.feed_answer.specs.Answers.{after_tab, answer_text, head_line, hit_line};
ghost use Rattle.feed_answer.specs.HitValue.{hit_of};

use crate::fault::WriteFault;
use crate::grade::Grade;
use feed_kbart::Row;
use feed_names::ReleaseName;
use std::io;
use std::io::Write;
use std::marker::Model;

/// A row that matches, and how well.
#[derive(Clone, Copy)]
pub struct Hit<'a> {
    pub row: &'a Row,
    pub grade: Grade,
}

/// The rows that match a query, in file order.
#[derive(Drop)]
pub struct Answer<'a> {
    pub(crate) hits: Vec<Hit<'a>>,
}

impl<'a> Model for Answer<'a> {
    ghost use Rattle.std.specs.Prelude.{List, map};
    ghost use Rattle.feed_answer.specs.HitValue.{HitValue, hit_of};

    ghost Value = { List HitValue };

    ghost view = { λ a. map hit_of a.hits.items };
}

impl<'a> Answer<'a> {
    /// Returns the rows that match, in file order.
    pub fn hits(&self) -> &[Hit<'a>]
        ensures { map hit_of result.now ≡ self.now }
    {
        &self.hits
    }

    /// Writes the answer of a release: a line `release NAME hits COUNT`, and for each hit a line with the number
    /// of its record, grade, title, URL, title id, depth, embargo and access, joined by tabs. Each
    /// line ends in LF. The texts are as in the file.
    pub fn write<W: Write>(&self, out: &mut W, name: &ReleaseName) -> Result<(), WriteFault>
        ensures { OnOk result (Appends (W.contents out.old) (W.contents out.new)
            (answer_text (text_of name.now) self.now)) }
    {
        write_head(out, name, self.hits.len())?;
        for hit in &self.hits {
            write_hit(out, hit.row, hit.grade)?;
        }
        Ok(())
    }
}

/// Writes the line before the hits of a release: `release NAME hits COUNT`.
pub fn write_head<W: Write>(out: &mut W, name: &ReleaseName, count: usize) -> io::Result<()>
    ensures { OnOk result (Appends (W.contents out.old) (W.contents out.new) (head_line (text_of name.now) count)) }
{
    out.write_all(b"release ")?;
    out.write_all(name.text())?;
    writeln!(out, " hits {count}")
}

fn write_text<W: Write>(out: &mut W, text: &[u8]) -> io::Result<()>
    ensures { OnOk result (Appends (W.contents out.old) (W.contents out.new) (after_tab text.now)) }
{
    out.write_all(b"\t")?;
    out.write_all(text)
}

/// Writes the line of a hit, as `Answer::write` does.
pub fn write_hit<W: Write>(out: &mut W, row: &Row, grade: Grade) -> io::Result<()>
    ensures { OnOk result (Appends (W.contents out.old) (W.contents out.new)
        (hit_line (record { row = row.now; grade = grade }))) }
{
    let number = row.number();
    write!(out, "{number}\t{grade}")?;
    let cells = row.cells();
    let texts = [
        cells.publication_title,
        cells.title_url,
        cells.title_id,
        cells.coverage_depth,
        cells.embargo_info,
        cells.access_type,
    ];
    for text in texts {
        write_text(out, text)?;
    }
    out.write_all(b"\n")
}
