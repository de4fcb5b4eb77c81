//! Finds the tables of a feed in a database that may have other tables.
ghost use Rattle.std.specs.Prelude.{◌≡◌, ◌↔◌, ◌==◌, ◌&&◌, not, IsTrue, count_by, length, option_copied};
ghost use Rattle.std.specs.List.{list_any};
ghost use Rattle.sqlite_schema.specs.Names.{same_name};
ghost use Rattle.feed_store_model.specs.Layout.{layout, piece, reason, release};
ghost use Rattle.feed_store_model.specs.Others.{HasFirstTables, HasLayout1Tables, HasLayout2Tables, HasNoOtherKey};
ghost use Rattle.feed_store_model.specs.Others.{HasTable, IsFree, IsUnreferenced, is_our_name, is_taken};
ghost use Rattle.feed_store_model.specs.Others.{our_names, refers_to_ours, table_of};

use crate::schema::{is_layout, is_piece, is_reason, is_release};
use sqlite_schema::names::same_name;
use sqlite_schema::schema::{Schema, Table, View};

/// Returns whether no table or view has the name of one of the tables, and no table refers to one.
pub fn is_free(schema: &Schema) -> bool
    ensures { IsTrue result ↔ IsFree schema.now }
{
    !is_any_taken(schema) & !is_referenced(schema)
}

/// Returns whether exactly the tables of layout 1 are there, and no other table refers to them.
pub fn has_layout_1_tables(schema: &Schema) -> bool
    ensures { IsTrue result ↔ HasLayout1Tables schema.now }
{
    has_first_tables(schema) & !is_taken(schema, b"feed_reason")
}

/// Returns whether the tables of layout 2 are there, and no other table refers to them.
pub fn has_layout_2_tables(schema: &Schema) -> bool
    ensures { IsTrue result ↔ HasLayout2Tables schema.now }
{
    has_first_tables(schema) & has_reason(schema)
}

// Returns whether the first three tables are there, and no other table refers to one of the four.
fn has_first_tables(schema: &Schema) -> bool
    ensures { IsTrue result ↔ HasFirstTables schema.now }
{
    has_layout(schema) & has_release(schema) & has_piece(schema) & !is_referenced(schema)
}

fn has_layout(schema: &Schema) -> bool
    ensures { IsTrue result ↔ HasTable schema.now layout }
{
    match find_table(schema, b"feed_layout") {
        Some(table) => is_layout(table, table.tree) & has_no_other_key(schema, table),
        None => false,
    }
}

fn has_release(schema: &Schema) -> bool
    ensures { IsTrue result ↔ HasTable schema.now release }
{
    match find_table(schema, b"feed_release") {
        Some(table) => is_release(table, table.tree) & has_no_other_key(schema, table),
        None => false,
    }
}

fn has_piece(schema: &Schema) -> bool
    ensures { IsTrue result ↔ HasTable schema.now piece }
{
    match find_table(schema, b"feed_piece") {
        Some(table) => is_piece(table, table.tree) & has_no_other_key(schema, table),
        None => false,
    }
}

fn has_reason(schema: &Schema) -> bool
    ensures { IsTrue result ↔ HasTable schema.now reason }
{
    match find_table(schema, b"feed_reason") {
        Some(table) => is_reason(table, table.tree) & has_no_other_key(schema, table),
        None => false,
    }
}

fn find_table<'a>(schema: &'a Schema, name: &[u8]) -> Option<&'a Table>
    ensures { option_copied result ≡ table_of schema.now name.now }
{
    schema
        .tables
        .as_slice()
        .iter()
        .find(|table| same_name(table.name.as_slice(), name))
}

// Returns whether a table has no unique index but those of its unique keys.
fn has_no_other_key(schema: &Schema, table: &Table) -> bool
    ensures { IsTrue result ↔ HasNoOtherKey schema.now table.now }
{
    let indexes = schema.indexes.as_slice();
    let count = indexes
        .iter()
        .filter(|index| index.is_unique && index.table == table.tree)
        .count();
    count == table.uniques.len()
}

// Returns whether another table refers to one of the tables.
fn is_referenced(schema: &Schema) -> bool
    ensures { result ≡ list_any (λ table. refers_to_ours table && not (is_our_name table.name)) schema.now.tables }
{
    schema.tables.as_slice().iter().any(|table| refers_to_ours(table)
        && !is_our_name(table.name.as_slice()))
}

fn refers_to_ours(table: &Table) -> bool
    ensures { result ≡ refers_to_ours table.now }
{
    table
        .references
        .as_slice()
        .iter()
        .any(|reference| is_our_name(reference.parent.as_slice()))
}

fn is_our_name(name: &[u8]) -> bool
    ensures { result ≡ is_our_name name.now }
{
    same_name(name, b"feed_layout")
        || same_name(name, b"feed_release")
        || same_name(name, b"feed_piece")
        || same_name(name, b"feed_reason")
}

fn is_any_taken(schema: &Schema) -> bool
    ensures { result ≡ list_any (is_taken schema.now) our_names }
{
    is_taken(schema, b"feed_layout")
        || is_taken(schema, b"feed_release")
        || is_taken(schema, b"feed_piece")
        || is_taken(schema, b"feed_reason")
}

// Returns whether a table or a view has this name.
fn is_taken(schema: &Schema, name: &[u8]) -> bool
    ensures { result ≡ is_taken schema.now name.now }
{
    is_table(schema.tables.as_slice(), name) || is_view(schema.views.as_slice(), name)
}

fn is_table(tables: &[Table], name: &[u8]) -> bool
    ensures { result ≡ list_any (λ table. same_name table.name name.now) tables.now }
{
    tables
        .iter()
        .any(|table| same_name(table.name.as_slice(), name))
}

fn is_view(views: &[View], name: &[u8]) -> bool
    ensures { result ≡ list_any (λ view. same_name view.name name.now) views.now }
{
    views
        .iter()
        .any(|view| same_name(view.name.as_slice(), name))
}
