//! Finds the first fault of a document.
ghost use Rattle.std.specs.Prelude.{◌≡◌, [], ◌∷◌, take};
ghost use Rattle.std.specs.List.{list_any};
ghost use Rattle.std.specs.Str.{str_eq_ignore_ascii_case};
ghost use Rattle.toml.specs.Data.{as_array, as_table};
ghost use Rattle.toml.specs.View.{view, array_view, table_view};
ghost use Rattle.node_site.specs.Faults.{days_at, fault_of, fields_fault, flaw, host_in, is_backward, kind_fault};
ghost use Rattle.node_site.specs.Faults.{list_fault, twice_at, twice_fault, twice_from};
ghost use Rattle.node_site.specs.Faults.{missing_fault, order_fault, place_of, row_fault, rows_fault, section_fault};
ghost use Rattle.node_site.specs.Faults.{single_fault, table_fault};
ghost use Rattle.node_site.specs.Schema.{kind_of, required, section_of};

use crate::fault::{Flaw, Misfit, ValueFault};
use crate::lookup::{has_key, text_at};
use crate::section::{Section, section_of};
use crate::values::value_flaw;
use feed_dates::DayRange;
use toml::value::Array;
use toml::{Table, Value};

fn plain(reason: ValueFault) -> Flaw
    ensures { result ≡ flaw reason }
{
    Flaw { item: None, reason }
}

// Returns what is wrong with a key of a table.
fn kind_fault<'a>(
    section: Section,
    name: &'a str,
    row: Option<usize>,
    key: &'a str,
    value: &Value,
) -> Option<Misfit<'a>>
    ensures { result ≡ kind_fault (place_of name.now row) key.now (view value.now) (kind_of section key.now) }
{
    let Some(kind) = section.kind_of(key) else {
        return Some(Misfit::at_key(name, row, key, plain(ValueFault::UnknownKey)));
    };
    match value_flaw(kind, value) {
        Some(flaw) => Some(Misfit::at_key(name, row, key, flaw)),
        None => None,
    }
}

// Returns the first key that is unknown, or whose value is not of its kind.
fn fields_fault<'a>(
    section: Section,
    name: &'a str,
    row: Option<usize>,
    table: &'a Table,
) -> Option<Misfit<'a>>
    ensures { result ≡ fields_fault (place_of name.now row) section (table_view table.now) }
{
    'members: for (key, value) in table.iter() {
        if let Some(misfit) = kind_fault(section, name, row, key.as_str(), value) {
            return Some(misfit);
        }
    }
    None
}

// Returns a fault if the table does not have a key that it must have.
fn lack<'a>(
    name: &'a str,
    row: Option<usize>,
    key: &'static str,
    table: &Table,
) -> Option<Misfit<'a>>
    ensures { result ≡ missing_fault (place_of name.now row) (key.now ∷ []) (table_view table.now) }
{
    if has_key(key, table) {
        None
    } else {
        Some(Misfit::at_key(name, row, key, plain(ValueFault::Missing)))
    }
}

// Returns the first key that the table must have and does not.
fn missing_fault<'a>(
    section: Section,
    name: &'a str,
    row: Option<usize>,
    table: &Table,
) -> Option<Misfit<'a>>
    ensures { result ≡ missing_fault (place_of name.now row) (required section) (table_view table.now) }
{
    match section {
        Section::Library | Section::Texts => None,
        Section::Proxy => lack(name, row, "prefix", table),
        Section::Platform => lack(name, row, "host", table),
        Section::Package => lack(name, row, "id", table),
        Section::Title => match lack(name, row, "package", table) {
            Some(misfit) => Some(misfit),
            None => lack(name, row, "id", table),
        },
        Section::Link => match lack(name, row, "label", table) {
            Some(misfit) => Some(misfit),
            None => lack(name, row, "address", table),
        },
    }
}

/// Returns the days of the date that a table has at a key.
pub(crate) fn days_at(key: &str, table: &Table) -> Option<DayRange>
    ensures { result ≡ days_at key.now (table_view table.now) }
{
    match text_at(key, table) {
        Some(text) => DayRange::of_text(text.as_bytes()),
        None => None,
    }
}

/// Returns whether the last day is before the first.
pub(crate) fn is_backward(first: Option<DayRange>, last: Option<DayRange>) -> bool
    ensures { result ≡ is_backward first last }
{
    match (first, last) {
        (Some(first), Some(last)) => last.last < first.first,
        _ => false,
    }
}

fn order_fault<'a>(name: &'a str, row: Option<usize>, table: &Table) -> Option<Misfit<'a>>
    ensures { result ≡ order_fault (place_of name.now row) (table_view table.now) }
{
    if is_backward(days_at("first", table), days_at("last", table)) {
        Some(Misfit::at_key(name, row, "last", plain(ValueFault::Order)))
    } else {
        None
    }
}

// Returns the first fault of a table of a section.
fn table_fault<'a>(
    section: Section,
    name: &'a str,
    row: Option<usize>,
    table: &'a Table,
) -> Option<Misfit<'a>>
    ensures { result ≡ table_fault (place_of name.now row) section (table_view table.now) }
{
    if let Some(misfit) = fields_fault(section, name, row, table) {
        return Some(misfit);
    }
    if let Some(misfit) = missing_fault(section, name, row, table) {
        return Some(misfit);
    }
    order_fault(name, row, table)
}

fn single_fault<'a>(section: Section, name: &'a str, value: &'a Value) -> Option<Misfit<'a>>
    ensures { result ≡ single_fault name.now section (as_table (view value.now)) }
{
    match value.as_table() {
        Some(table) => table_fault(section, name, None, table),
        None => Some(Misfit::at_table(name, None, ValueFault::NotTable)),
    }
}

fn row_fault<'a>(
    section: Section,
    name: &'a str,
    row: usize,
    value: &'a Value,
) -> Option<Misfit<'a>>
    ensures { result ≡ row_fault name.now section row (as_table (view value.now)) }
{
    let Some(table) = value.as_table() else {
        return Some(Misfit::at_table(name, Some(row), ValueFault::NotTable));
    };
    if row > section.table_limit() {
        return Some(Misfit::at_table(name, Some(row), ValueFault::TooMany));
    }
    table_fault(section, name, Some(row), table)
}

// Returns the first fault of the tables of a list.
fn rows_fault<'a>(section: Section, name: &'a str, rows: &'a Array) -> Option<Misfit<'a>>
    ensures { result ≡ rows_fault name.now section 1 (array_view rows.now) }
{
    for index in 0..rows.len() {
        if let Some(misfit) = row_fault(section, name, index + 1, &rows[index]) {
            return Some(misfit);
        }
    }
    None
}

// Returns the host that a table is about.
fn host_in(row: &Value) -> &str
    ensures { result.now ≡ host_in (as_table (view row.now)) }
{
    match row.as_table() {
        Some(table) => text_at("host", table).unwrap_or(""),
        None => "",
    }
}

// Returns whether a host is that of a row, in any case of letters.
fn is_host_of(row: &Value, host: &str) -> bool
    ensures { result ≡ str_eq_ignore_ascii_case host.now (host_in (as_table (view row.now))) }
{
    host.eq_ignore_ascii_case(host_in(row))
}

// Returns the rows before a place.
fn earlier(rows: &Array, place: usize) -> &[Value]
    ensures { result.now ≡ take place rows.now.items }
{
    &rows[..rows.len().min(place)]
}

fn has_host(rows: &[Value], host: &str) -> bool
    ensures { result ≡ list_any (λ v. str_eq_ignore_ascii_case host.now (host_in (as_table (view v)))) rows.now }
{
    rows.iter().any(|row| is_host_of(row, host))
}

fn twice_at(name: &str, row: usize) -> Misfit<'_>
    ensures { result ≡ twice_at name.now row }
{
    Misfit::at_key(name, Some(row), "host", plain(ValueFault::Twice))
}

// Returns the first table that is about a host of an earlier one.
fn twice_among<'a>(name: &'a str, rows: &'a Array) -> Option<Misfit<'a>>
    ensures { result ≡ twice_from name.now [] 1 (array_view rows.now) }
{
    for index in 0..rows.len() {
        if has_host(earlier(rows, index), host_in(&rows[index])) {
            return Some(twice_at(name, index + 1));
        }
    }
    None
}

fn twice_fault<'a>(section: Section, name: &'a str, rows: &'a Array) -> Option<Misfit<'a>>
    ensures { result ≡ twice_fault name.now section (array_view rows.now) }
{
    match section {
        Section::Platform => twice_among(name, rows),
        _ => None,
    }
}

fn list_fault<'a>(section: Section, name: &'a str, value: &'a Value) -> Option<Misfit<'a>>
    ensures { result ≡ list_fault name.now section (as_array (view value.now)) }
{
    let Some(rows) = value.as_array() else {
        return Some(Misfit::at_table(name, None, ValueFault::NotList));
    };
    match rows_fault(section, name, rows) {
        Some(misfit) => Some(misfit),
        None => twice_fault(section, name, rows),
    }
}

// Returns the first fault of a section.
fn section_fault<'a>(name: &'a str, value: &'a Value) -> Option<Misfit<'a>>
    ensures { result ≡ section_fault name.now (view value.now) (section_of name.now) }
{
    let Some(section) = section_of(name) else {
        return Some(Misfit::at_table(name, None, ValueFault::UnknownKey));
    };
    if section.is_list() {
        list_fault(section, name, value)
    } else {
        single_fault(section, name, value)
    }
}

/// Returns the first fault of a document, in the order of the keys.
pub(crate) fn fault_of(document: &Table) -> Option<Misfit<'_>>
    ensures { result ≡ fault_of (table_view document.now) }
{
    'members: for (name, value) in document.iter() {
        if let Some(misfit) = section_fault(name.as_str(), value) {
            return Some(misfit);
        }
    }
    None
}
