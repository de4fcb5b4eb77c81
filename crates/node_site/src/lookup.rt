//! Looks up values in a table.
ghost use Rattle.std.specs.Prelude.{◌≡◌, is_some, option_copied, option_map};
ghost use Rattle.toml.specs.Data.{get_member};
ghost use Rattle.toml.specs.View.{view, array_view, table_view};
ghost use Rattle.node_site.specs.Site.{or_empty};
ghost use Rattle.node_site.specs.Lookups.{items_at, switch_at, table_at, text_at};

use toml::value::Array;
use toml::{Table, Value};

/// Returns the value at a key.
pub(crate) fn value_at<'a>(key: &str, table: &'a Table) -> Option<&'a Value>
    ensures { option_map (λ v. view v.now) result ≡ get_member key.now (table_view table.now) }
{
    table.get(key)
}

/// Returns whether a table has a key.
pub(crate) fn has_key(key: &str, table: &Table) -> bool
    ensures { result ≡ is_some (get_member key.now (table_view table.now)) }
{
    value_at(key, table).is_some()
}

/// Returns the text at a key.
pub(crate) fn text_at<'a>(key: &str, table: &'a Table) -> Option<&'a str>
    ensures { option_copied result ≡ text_at key.now (table_view table.now) }
{
    match value_at(key, table) {
        Some(value) => value.as_str(),
        None => None,
    }
}

/// Returns the bytes of the text at a key. A missing text is the empty one.
pub fn text_or_empty<'a>(key: &str, table: &'a Table) -> &'a [u8]
    ensures { result.now ≡ or_empty (text_at key.now (table_view table.now)) }
{
    text_at(key, table).unwrap_or("").as_bytes()
}

/// Returns the switch at a key.
pub(crate) fn switch_at(key: &str, table: &Table) -> Option<bool>
    ensures { result ≡ switch_at key.now (table_view table.now) }
{
    match value_at(key, table) {
        Some(value) => value.as_bool(),
        None => None,
    }
}

/// Returns the list at a key.
pub(crate) fn items_at<'a>(key: &str, table: &'a Table) -> Option<&'a Array>
    ensures { option_map (λ v. array_view v.now) result ≡ items_at key.now (table_view table.now) }
{
    match value_at(key, table) {
        Some(value) => value.as_array(),
        None => None,
    }
}

/// Returns the table at a key.
pub(crate) fn table_at<'a>(key: &str, table: &'a Table) -> Option<&'a Table>
    ensures { option_map (λ m. table_view m.now) result ≡ table_at key.now (table_view table.now) }
{
    match value_at(key, table) {
        Some(value) => value.as_table(),
        None => None,
    }
}
