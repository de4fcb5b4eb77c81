//! The header of a file: which column has which label, and what is wrong with it.
ghost use Rattle.std.specs.Prelude.{◌≡◌, ◌++◌, ℕ, List, [], ◌∷◌, Some, None, MatchResult, is_none, length};
ghost use Rattle.std.specs.List.{find};
ghost use Rattle.csv.specs.Records.{fields_of};
ghost use Rattle.feed_kbart.specs.Columns.{bad_header, cell, columns_of, first_missing, first_twice};

use crate::fault::BadFile;
use crate::label::{LABEL_COUNT, LABELS, Label, REQUIRED_COUNT};
use csv::ByteRecord;
use feed_bytes::trim_spaces;

/// The columns of the labels in use, counted from 0.
#[derive(Clone, Copy)]
pub(crate) struct Columns {
    // In the order in which the cells of a record are stored.
    columns: [Option<usize>; LABEL_COUNT],
}

impl Columns {
    ghost use Rattle.feed_kbart.specs.Columns.{column_of};
    ghost use Rattle.feed_kbart.specs.Stored.{in_order, stored_columns};

    /// Returns the columns of a record that has its cells in the order in which they are stored.
    pub(crate) fn stored() -> Columns
        ensures { result ≡ stored_columns }
    {
        let mut columns = [None; LABEL_COUNT];
        for label in LABELS {
            columns[label.slot()] = Some(label.slot());
        }
        Columns { columns }
    }

    /// Returns the column of a label.
    pub(crate) fn of(&self, label: Label) -> Option<usize>
        ensures { result ≡ column_of self.now label }
    {
        self.columns[label.slot()]
    }

    /// Returns the columns in the order in which the cells of a record are stored.
    pub(crate) fn in_order(&self) -> [Option<usize>; LABEL_COUNT]
        ensures { result ≡ in_order self.now }
    {
        self.columns
    }
}

// A label in a header: the place of the first field that is this label, and whether two fields are.
#[derive(Clone, Copy)]
pub(crate) struct Found {
    label: Label,
    first: Option<usize>,
    is_twice: bool,
}

/// The labels in use among the fields of a header so far.
#[derive(Drop)]
pub(crate) struct HeaderLabels {
    found: [Found; LABEL_COUNT],
}

impl Found {
    ghost use Rattle.feed_bytes.specs.Trim.{trimmed};
    ghost use Rattle.feed_kbart.specs.HeaderLabels.{found_of, with_field};

    // Nothing, before the first field.
    fn new(label: Label) -> Found
        ensures { result ≡ found_of [] label }
    {
        Found {
            label,
            first: None,
            is_twice: false,
        }
    }

    // Adds the field at the next place, without the spaces at its ends.
    fn with_field(self, place: usize, text: &[u8]) -> Found
        ensures { (field : List ℕ) → text.now ≡ trimmed field → result ≡ with_field place field self }
    {
        if !text.eq_ignore_ascii_case(self.label.text()) {
            return self;
        }
        Found {
            label: self.label,
            first: self.first.or(Some(place)),
            is_twice: self.first.is_some(),
        }
    }
}

// Returns what was found of the first label that no field is.
fn first_absent(found: &[Found]) -> Option<Found>
    ensures { result ≡ find (λ found. is_none found.first) found.now }
{
    found.iter().copied().find(|found| found.first.is_none())
}

// Returns what was found of the first label that two fields are.
fn first_doubled(found: &[Found]) -> Option<Found>
    ensures { result ≡ find (λ found. found.is_twice) found.now }
{
    found.iter().copied().find(|found| found.is_twice)
}

impl HeaderLabels {
    ghost use Rattle.feed_kbart.specs.HeaderLabels.{AreLabelsOf, found_of};

    /// Returns what a header without fields has.
    pub(crate) fn new() -> HeaderLabels
        ensures { AreLabelsOf [] result }
    {
        HeaderLabels {
            found: LABELS.map(
                |label: Label| -> Found
                    ensures { result ≡ found_of [] label }
                { Found::new(label) },
            ),
        }
    }

    /// Adds the field at the next place.
    pub(crate) fn add(&mut self, place: usize, field: &[u8])
        ensures { (header : List (List ℕ)) → length header ≡ place → AreLabelsOf header self.old
            → AreLabelsOf (header ++ field.now ∷ []) self.new }
    {
        // Most fields of a header that has millions of them are empty.
        let text = trim_spaces(field);
        if text.is_empty() {
            return;
        }
        for index in 0..LABEL_COUNT {
            self.found[index] = self.found[index].with_field(place, text);
        }
    }

    // Returns the first required label that no field is.
    fn missing(&self) -> Option<Label>
        ensures { (header : List (List ℕ)) → AreLabelsOf header self.now → result ≡ first_missing header }
    {
        first_absent(&self.found[..REQUIRED_COUNT]).map(|found| found.label)
    }

    // Returns the first label that two fields are.
    fn twice(&self) -> Option<Label>
        ensures { (header : List (List ℕ)) → AreLabelsOf header self.now → result ≡ first_twice header }
    {
        first_doubled(&self.found).map(|found| found.label)
    }

    /// Returns the columns of a good header, or the first reason why it is bad.
    pub(crate) fn columns(&self) -> Result<Columns, BadFile>
        ensures { (header : List (List ℕ)) → AreLabelsOf header self.now → MatchResult result
            (λ columns. (bad_header header ≡ None) × (columns ≡ columns_of header))
            (λ why. bad_header header ≡ Some why) }
    {
        if let Some(label) = self.missing() {
            return Err(BadFile::MissingLabel(label));
        }
        if let Some(label) = self.twice() {
            return Err(BadFile::LabelTwice(label));
        }
        let mut columns = [None; LABEL_COUNT];
        for found in self.found {
            columns[found.label.slot()] = found.first;
        }
        Ok(Columns { columns })
    }
}

/// Returns the field in a column. It is empty if the record is short or the column is absent.
pub(crate) fn cell_of(fields: &ByteRecord, column: Option<usize>) -> &[u8]
    ensures { result.now ≡ cell column (fields_of fields.now) }
{
    match column {
        None => &[],
        Some(place) => fields.get(place).unwrap_or(&[]),
    }
}
