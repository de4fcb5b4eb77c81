//! The options of the commands on files: `check`, `diff` and `serve`.
use std::time::Duration;

/// How `check` reports a list, and what it accepts.
#[derive(Clone, Copy)]
pub struct CheckOptions<'a> {
    /// The release name of standard input, or empty.
    pub name: &'a str,
    pub form: Form,
    /// Whether a record that is skipped fails the check, as a bad file does.
    pub is_strict: bool,
    /// Whether JSON lists all records that are skipped.
    pub lists_all: bool,
}

/// The form of a report.
#[derive(Clone, Copy, PartialEq, Eq)]
pub enum Form {
    /// A line for the release, one for the rows, and one for each record that is skipped.
    Lines,
    /// One line for each list.
    Summary,
    /// As `Lines`, and below each record its line in the file, its title and the fields that are the reason, and in the
    /// end the warnings; below a bad file each required label that it lacks.
    Explained,
    /// One JSON object on a line for each list, with the contents of `Explained`. Of the records that are skipped it
    /// lists the first 10,000 and counts the others, unless the report lists all.
    Json,
}

impl Form {
    /// Returns whether the report quotes the file, so that it needs the text.
    pub fn is_explained(self) -> bool {
        matches!(self, Form::Explained | Form::Json)
    }
}

/// How `diff` compares a new list with an old one.
#[derive(Clone, Copy)]
pub struct DiffOptions<'a> {
    /// The path of the new list.
    pub new: &'a str,
    pub form: ComparisonForm,
    /// The most rows that the new list may remove and change, in percent of the old one's rows.
    pub max_removed: Option<u64>,
    pub max_changed: Option<u64>,
}

/// The form of a report on two lists.
#[derive(Clone, Copy)]
pub struct ComparisonForm {
    /// Whether it is a JSON object on one line.
    pub is_json: bool,
    /// Whether it has the counts alone.
    pub is_summary: bool,
}

/// The options of `serve`: the folder, the address, and the limits for clients.
#[derive(Clone, Copy)]
pub struct ServeOptions<'a> {
    /// The path of the folder.
    pub dir: &'a str,
    pub addr: &'a str,
    /// How many connections it serves.
    pub count: u64,
    pub time: Duration,
}
