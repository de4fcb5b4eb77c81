//! Parsing the kind, the days and the volumes of a record, and the reasons to skip a record.
ghost use Rattle.std.specs.Prelude.{◌≡◌, true, false, None, Some, MatchResult};
ghost use Rattle.csv.specs.Records.{fields_of};
ghost use Rattle.feed_kbart.specs.Coverage.{coverage_as, coverage_days, coverage_of, dates_reason, is_coverage_date};
ghost use Rattle.feed_kbart.specs.Coverage.{is_reversed, kind_of, reason_as, reason_of, volumes};
ghost use Rattle.feed_bytes.specs.Trim.{trimmed};
ghost use Rattle.feed_kbart.specs.Volumes.{volume_of};
ghost use Rattle.feed_kbart.specs.declared.fault.Reason.TheVariants as reason;
ghost use Rattle.feed_kbart.specs.declared.identifiers.Kind.TheVariants.{Serial};

use crate::fault::Reason;
use crate::header::{Columns, cell_of};
use crate::identifiers::{Identifiers, Kind};
use crate::label::Label;
use csv::ByteRecord;
use feed_bytes::trim_spaces;
use feed_dates::DayRange;

/// Returns the kind of a publication type: a serial if it is empty or `serial`, a book if it is `monograph`.
pub(crate) fn read_kind(text: &[u8]) -> Option<Kind>
    ensures { result ≡ kind_of text.now }
{
    let kind = trim_spaces(text);
    if kind.is_empty() || kind.eq_ignore_ascii_case(b"serial") {
        Some(Kind::Serial)
    } else if kind.eq_ignore_ascii_case(b"monograph") {
        Some(Kind::Book)
    } else {
        None
    }
}

/// Parses a coverage date. The result is `None` if it is empty or invalid.
pub(crate) fn read_days(text: &[u8]) -> Option<DayRange>
    ensures { result ≡ coverage_days text.now }
{
    DayRange::of_text(trim_spaces(text))
}

// The days of a coverage date. An empty date leaves its side open.
fn read_date(text: &[u8]) -> Result<Option<DayRange>, Reason>
    ensures { MatchResult result
        (λ days. (is_coverage_date text.now ≡ true) × (days ≡ coverage_days text.now))
        (λ why. (is_coverage_date text.now ≡ false) × (why ≡ reason.BadDate)) }
{
    let date = trim_spaces(text);
    if date.is_empty() {
        return Ok(None);
    }
    match DayRange::of_text(date) {
        Some(days) => Ok(Some(days)),
        None => Err(Reason::BadDate),
    }
}

// Returns whether the one side begins after the other has ended.
fn is_reversed(first: Option<DayRange>, last: Option<DayRange>) -> bool
    ensures { result ≡ is_reversed first last }
{
    match (first, last) {
        (Some(begin), Some(end)) => begin.first > end.last,
        _ => false,
    }
}

/// Parses the texts of the first and the last volume. Neither counts if the first exceeds the last.
pub(crate) fn read_volumes(first: &[u8], last: &[u8]) -> (Option<u32>, Option<u32>)
    ensures { result ≡ volumes (volume_of (trimmed first.now)) (volume_of (trimmed last.now)) }
{
    let first = read_volume(trim_spaces(first));
    let last = read_volume(trim_spaces(last));
    match (first, last) {
        (Some(low), Some(high)) if low > high => (None, None),
        _ => (first, last),
    }
}

// Checks the dates of a serial's record. The error is the first reason to skip it.
fn check_dates(columns: &Columns, fields: &ByteRecord) -> Result<(), Reason>
    ensures { MatchResult result
        (λ _. dates_reason Serial columns.now (fields_of fields.now) ≡ None)
        (λ why. dates_reason Serial columns.now (fields_of fields.now) ≡ Some why) }
{
    let first = read_date(cell_of(fields, columns.of(Label::DateFirstIssueOnline)))?;
    let last = read_date(cell_of(fields, columns.of(Label::DateLastIssueOnline)))?;
    if is_reversed(first, last) {
        return Err(Reason::Reversed);
    }
    Ok(())
}

// Checks a record of this kind, and returns its identifiers. The error is the first reason to skip it. The dates and
// the volumes of a book are ignored.
fn check_as(kind: Kind, columns: &Columns, fields: &ByteRecord) -> Result<Identifiers, Reason>
    ensures { MatchResult result
        (λ own. (reason_as kind columns.now (fields_of fields.now) ≡ None)
        × (own ≡ (coverage_as kind columns.now (fields_of fields.now)).identifiers))
        (λ why. reason_as kind columns.now (fields_of fields.now) ≡ Some why) }
{
    let print = cell_of(fields, columns.of(Label::PrintIdentifier));
    let online = cell_of(fields, columns.of(Label::OnlineIdentifier));
    let own = Identifiers::of(kind, print, online);
    if own.are_none() {
        return Err(kind.without());
    }
    match kind {
        Kind::Serial => check_dates(columns, fields)?,
        Kind::Book => {}
    }
    Ok(own)
}

/// Checks that a record is a row, and returns its identifiers. The error is the first reason to skip it.
pub(crate) fn check_record(columns: &Columns, fields: &ByteRecord) -> Result<Identifiers, Reason>
    ensures { MatchResult result
        (λ own. (reason_of columns.now (fields_of fields.now) ≡ None)
        × (own ≡ (coverage_of columns.now (fields_of fields.now)).identifiers))
        (λ why. reason_of columns.now (fields_of fields.now) ≡ Some why) }
{
    match read_kind(cell_of(fields, columns.of(Label::PublicationType))) {
        Some(kind) => check_as(kind, columns, fields),
        None => Err(Reason::OtherType),
    }
}

/// Parses a volume number: 1 to 9 ASCII digits. Does not trim.
pub fn read_volume(text: &[u8]) -> Option<u32>
    ensures { result ≡ volume_of text.now }
{
    if text.is_empty() || text.len() > 9 {
        return None;
    }
    let mut number = 0u32;
    for byte in text {
        if !byte.is_ascii_digit() {
            return None;
        }
        number = number * 10 + (*byte - b'0') as u32;
    }
    Some(number)
}
