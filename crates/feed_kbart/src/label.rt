//! The column labels of a file (NISO RP-9-2014): how each is written, and where the cell of its column is stored.
ghost use Rattle.std.specs.Prelude.{◌≡◌, ◌<◌, Some};
ghost use Rattle.feed_kbart.specs.Labels.{label_count};

use feed_bytes::trim_spaces;
use std::fmt;

/// The number of labels in use.
pub const LABEL_COUNT: usize = 13;

/// The number of labels that every file must have. They are the first ones.
pub const REQUIRED_COUNT: usize = 8;

/// The number of labels whose cells are only parsed: the identifiers, the publication type, the dates and the volumes.
/// Their cells are stored first, without the spaces at their ends.
pub(crate) const PARSED_COUNT: usize = 7;

/// A column label in use. The variants are in the order in which a header is checked for them.
#[derive(Clone, Copy, Debug, PartialEq, Eq)]
pub enum Label {
    PublicationTitle,
    PrintIdentifier,
    OnlineIdentifier,
    DateFirstIssueOnline,
    NumFirstVolOnline,
    DateLastIssueOnline,
    NumLastVolOnline,
    TitleUrl,
    TitleId,
    EmbargoInfo,
    CoverageDepth,
    PublicationType,
    AccessType,
}

/// The labels in use, in their order.
pub const LABELS: [Label; LABEL_COUNT] = [
    Label::PublicationTitle,
    Label::PrintIdentifier,
    Label::OnlineIdentifier,
    Label::DateFirstIssueOnline,
    Label::NumFirstVolOnline,
    Label::DateLastIssueOnline,
    Label::NumLastVolOnline,
    Label::TitleUrl,
    Label::TitleId,
    Label::EmbargoInfo,
    Label::CoverageDepth,
    Label::PublicationType,
    Label::AccessType,
];

// How each label is written, in their order, and the place of its cell in a stored record. Finding a cell takes longer
// the higher its place: those that are asked for most come first. The identifiers are at the front, so that a record
// with nothing else is short.
static COLUMNS: [(&'static str, usize); LABEL_COUNT] = [
    ("publication_title", 9),
    ("print_identifier", 0),
    ("online_identifier", 1),
    ("date_first_issue_online", 3),
    ("num_first_vol_online", 5),
    ("date_last_issue_online", 4),
    ("num_last_vol_online", 6),
    ("title_url", 8),
    ("title_id", 7),
    ("embargo_info", 11),
    ("coverage_depth", 10),
    ("publication_type", 2),
    ("access_type", 12),
];

impl Label {
    ghost use Rattle.feed_kbart.specs.Labels.{is_label, label_at, label_text, slot};

    /// Returns the label as it is written, in lower case.
    pub fn text(self) -> &'static [u8]
        ensures { result.now ≡ label_text self }
    {
        self.name().as_bytes()
    }

    fn name(self) -> &'static str
        ensures { result.now ≡ label_text self }
    {
        COLUMNS[self as usize].0
    }

    /// Returns the place of the label's cell in a stored record.
    pub(crate) fn slot(self) -> usize
        ensures slot { result ≡ slot self }
        ensures within { result < label_count }
    {
        COLUMNS[self as usize].1
    }

    /// Returns the place of the label in its order, counted from 1.
    pub fn place(self) -> u8
        ensures { label_at result ≡ Some self }
    {
        self as u8 + 1
    }

    /// Returns the label at a place in that order, counted from 1.
    pub fn of_place(place: u8) -> Option<Label>
        ensures { result ≡ label_at place }
    {
        LABELS.get(place.checked_sub(1)? as usize).copied()
    }

    /// Returns whether a field of a header is the label, ignoring spaces at both ends and the case of ASCII letters.
    pub fn is(self, field: &[u8]) -> bool
        ensures { result ≡ is_label self field.now }
    {
        trim_spaces(field).eq_ignore_ascii_case(self.text())
    }
}

impl fmt::Display for Label {
    ghost use Rattle.feed_kbart.specs.Labels.{label_text};

    ghost output = { λ label. Some (label_text label) };

    fn fmt<W: fmt::Write>(&self, f: &mut fmt::Formatter<W>) -> fmt::Result {
        f.write_str(self.name())
    }
}
