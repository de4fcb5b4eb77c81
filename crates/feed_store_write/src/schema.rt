//! Compares the schema of a database with those of the two layouts.
ghost use Rattle.std.specs.Prelude.{◌≡◌, ◌≤◌, ◌↔◌, IsTrue, [], ◌∷◌, ℕ, codes};
ghost use Rattle.std.specs.Prelude.{false, length, pos, suc};
ghost use Rattle.sqlite_schema.specs.declared.schema.Kind.TheVariants.{Integer};
ghost use Rattle.feed_store_model.specs.Layout.{between, bound_by, column_of, layout_1_schema, layout_2_schema, layout};
ghost use Rattle.feed_store_model.specs.Layout.{no_schema, owner, piece, reason, release};
ghost use Rattle.feed_store_model.specs.Others.{in_tree};
ghost use Rattle.feed_store_write.specs.Schemas.{IsPlain, automatic, piece_index, reason_index, release_index};
ghost use Rattle.sqlite_schema.specs.Code.{term_in, term_to};
ghost use Rattle.sqlite_sql.specs.Term.{col, lit, op2};
ghost use Rattle.sqlite_sql.specs.declared.ops.BinaryOp.TheVariants.{Compare};
ghost use Rattle.sqlite_sql.specs.declared.ops.CompareOp.TheVariants.{Ge};
ghost use Rattle.sqlite_value.specs.declared.keys.Collation.TheVariants.{Binary};
ghost use Rattle.sqlite_value.specs.declared.value.Value.TheVariants.{Int};

use sqlite_items::Items;
use sqlite_schema::code::{Op, Terms};
use sqlite_schema::schema::{Action, Column, Index, Kind, Reference, Schema, Table};
use sqlite_sql::ops::{BinaryOp, CompareOp};
use sqlite_value::keys::{Collation, Order};
use sqlite_value::value::{Bytes, Value};

// The numbers of the trees that hold the tables and their indexes. SQLite numbers them as they are created.
const LAYOUT_TREE: u32 = 0;

const RELEASE_TREE: u32 = 1;

const RELEASE_INDEX_TREE: u32 = 2;

const PIECE_TREE: u32 = 3;

const PIECE_INDEX_TREE: u32 = 4;

const REASON_TREE: u32 = 5;

const REASON_INDEX_TREE: u32 = 6;

// The places of the columns that a check limits, counted from 1 behind the rowid.
const SIZE: usize = 4;

const STATE: usize = 5;

const PLACE: usize = 2;

const REASON: usize = 2;

const LABEL: usize = 3;

// The greatest numbers that the checks allow.
const LAST_STATE: u32 = 2;

const LAST_REASON: u32 = 5;

const LAST_LABEL: u32 = 13;

fn is_word(bytes: &Bytes, word: &[u8]) -> bool
    ensures { IsTrue result ↔ (bytes.now ≡ word.now) }
{
    bytes.as_slice() == word
}

fn are_places(places: &Items<usize>, wanted: &[usize]) -> bool
    ensures { IsTrue result ↔ (places.now ≡ wanted.now) }
{
    places.as_slice() == wanted
}

// Returns whether a column accepts only values of a kind, and no NULL.
fn is_column(column: &Column, kind: Kind, name: &[u8]) -> bool
    ensures { IsTrue result ↔ (column.now ≡ column_of kind name.now) }
{
    is_word(&column.name, name)
        && column.kind == kind
        && column.is_strict
        && column.not_null
        && matches!(column.default, Value::Null)
        && column.collation == Collation::Binary
}

// Returns whether deleting a release deletes the rows that refer to it.
fn is_owner(reference: &Reference) -> bool
    ensures { IsTrue result ↔ (reference.now ≡ owner) }
{
    let [parent_column] = reference.parent_columns.as_slice() else {
        return false;
    };
    are_places(&reference.columns, &[1])
        && is_word(&reference.parent, b"feed_release")
        && is_word(parent_column, b"name")
        && reference.on_delete == Action::Cascade
        && reference.on_update == Action::NoAction
        && !reference.is_deferred
}

fn is_operator(operator: BinaryOp, wanted: BinaryOp) -> bool
    ensures { IsTrue result ↔ (operator ≡ wanted) }
{
    operator == wanted
}

// Returns whether the node at a place is this column of the row.
fn is_place(nodes: &[Op], at: usize, place: usize) -> bool
    ensures { (depth : ℕ) → IsTrue result ↔ (term_to nodes.now (suc depth) at ≡ col 1 place) }
{
    match nodes.get(at) {
        Some(Op::Column(1, found)) => *found == place,
        _ => false,
    }
}

// Returns whether the node at a place is this number.
fn is_number(nodes: &[Op], at: usize, number: u32) -> bool
    ensures { (depth : ℕ) → IsTrue result ↔ (term_to nodes.now (suc depth) at ≡ lit (Int (pos number))) }
{
    match nodes.get(at) {
        Some(Op::Literal(Value::Int(found))) => *found == i64::from(number),
        _ => false,
    }
}

// Returns whether the node at a place compares a column with a number in this way.
fn is_bound(nodes: &[Op], at: usize, how: CompareOp, place: usize, number: u32) -> bool
    ensures { (depth : ℕ) → IsTrue result ↔ (term_to nodes.now (suc (suc depth)) at
        ≡ op2 (Compare how Binary) (col 1 place) (lit (Int (pos number)))) }
{
    match nodes.get(at) {
        Some(Op::Binary(op, left, right)) => {
            is_operator(*op, BinaryOp::Compare(how, Collation::Binary))
                & is_place(nodes, *left, place)
                & is_number(nodes, *right, number)
        }
        _ => false,
    }
}

// Returns whether the node at a place requires that a column is between two numbers.
fn is_between(nodes: &[Op], at: usize, place: usize, least: u32, most: u32) -> bool
    ensures { (depth : ℕ) → IsTrue result ↔ (term_to nodes.now (suc (suc (suc depth))) at
        ≡ between place least most) }
{
    match nodes.get(at) {
        Some(Op::Binary(op, left, right)) => {
            is_operator(*op, BinaryOp::And)
                & is_bound(nodes, *left, CompareOp::Ge, place, least)
                & is_bound(nodes, *right, CompareOp::Le, place, most)
        }
        _ => false,
    }
}

fn are_at_least(nodes: &[Op], count: usize) -> bool
    ensures { IsTrue result ↔ (count ≤ length nodes.now) }
{
    count <= nodes.len()
}

// Returns whether the expression at a place requires that a column is at least 0.
fn is_lower_bound(nodes: &[Op], at: usize, place: usize) -> bool
    ensures { IsTrue result ↔ (term_in nodes.now at ≡ bound_by Ge place 0) }
{
    are_at_least(nodes, 2) & is_bound(nodes, at, CompareOp::Ge, place, 0)
}

// Returns whether the expression at a place requires that a column is between two numbers.
fn is_range(nodes: &[Op], at: usize, place: usize, least: u32, most: u32) -> bool
    ensures { IsTrue result ↔ (term_in nodes.now at ≡ between place least most) }
{
    are_at_least(nodes, 3) & is_between(nodes, at, place, least, most)
}

// Returns whether the checks of a table are those of the releases.
fn are_release_checks(terms: &Terms) -> bool
    ensures { IsTrue result ↔ (terms.now ≡ release.checks) }
{
    let nodes = terms.nodes.as_slice();
    match terms.roots.as_slice() {
        [size, state] => {
            is_lower_bound(nodes, *size, SIZE) & is_range(nodes, *state, STATE, 0, LAST_STATE)
        }
        _ => false,
    }
}

// Returns whether the checks of a table are those of the parts.
fn are_piece_checks(terms: &Terms) -> bool
    ensures { IsTrue result ↔ (terms.now ≡ piece.checks) }
{
    match terms.roots.as_slice() {
        [place] => is_lower_bound(terms.nodes.as_slice(), *place, PLACE),
        _ => false,
    }
}

// Returns whether the checks of a table are those of the reasons.
fn are_reason_checks(terms: &Terms) -> bool
    ensures { IsTrue result ↔ (terms.now ≡ reason.checks) }
{
    let nodes = terms.nodes.as_slice();
    match terms.roots.as_slice() {
        [number, label] => {
            is_range(nodes, *number, REASON, 1, LAST_REASON)
                & is_range(nodes, *label, LABEL, 0, LAST_LABEL)
        }
        _ => false,
    }
}

fn has_no_term(terms: &Terms) -> bool
    ensures { IsTrue result ↔ (terms.now ≡ []) }
{
    terms.roots.is_empty()
}

// Returns whether no default of a table is computed, and its rows have no running number.
fn is_plain(table: &Table) -> bool
    ensures { IsTrue result ↔ IsPlain table.now }
{
    table.computed.is_empty()
        && table.stamps.places.is_empty()
        && has_no_term(&table.stamps.terms)
        && table.stamps.formats.is_empty()
        && !table.is_counted
}

/// Returns whether a table is that of the layout's number, with its rows in a tree.
pub(crate) fn is_layout(table: &Table, tree: u32) -> bool
    ensures { IsTrue result ↔ (table.now ≡ in_tree layout tree) }
{
    let [column] = table.columns.as_slice() else {
        return false;
    };
    is_word(&table.name, b"feed_layout")
        && table.tree == tree
        && is_version(column)
        && table.key == Some(0)
        && are_places(&table.primary, &[0])
        && table.uniques.is_empty()
        && table.orders.is_empty()
        && has_no_term(&table.checks)
        && table.references.is_empty()
        && is_plain(table)
}

// Returns whether a column is the one of the layout.
fn is_version(column: &Column) -> bool
    ensures { IsTrue result ↔ (column.now ≡ record (column_of Integer (codes "version")) { not_null = false }) }
{
    is_word(&column.name, b"version")
        && column.kind == Kind::Integer
        && column.is_strict
        && !column.not_null
        && matches!(column.default, Value::Null)
        && column.collation == Collation::Binary
}

/// Returns whether a table is that of the releases, with its rows in a tree.
pub(crate) fn is_release(table: &Table, tree: u32) -> bool
    ensures { IsTrue result ↔ (table.now ≡ in_tree release tree) }
{
    is_word(&table.name, b"feed_release")
        && table.tree == tree
        && are_release_columns(&table.columns)
        && table.key.is_none()
        && are_places(&table.primary, &[1])
        && is_one_key(&table.uniques, &[1])
        && is_plain_order(&table.orders)
        && are_release_checks(&table.checks)
        && table.references.is_empty()
        && is_plain(table)
}

fn are_release_columns(columns: &Items<Column>) -> bool
    ensures { IsTrue result ↔ (columns.now ≡ release.columns) }
{
    let [name, package, day, size, state] = columns.as_slice() else {
        return false;
    };
    is_column(name, Kind::Text, b"name")
        && is_column(package, Kind::Text, b"package")
        && is_column(day, Kind::Integer, b"day")
        && is_column(size, Kind::Integer, b"size")
        && is_column(state, Kind::Integer, b"state")
}

// Returns whether a table has one unique key, on the columns at `places`.
fn is_one_key(keys: &Items<Items<usize>>, places: &[usize]) -> bool
    ensures { IsTrue result ↔ (keys.now ≡ places.now ∷ []) }
{
    match keys.as_slice() {
        [key] => are_places(key, places),
        _ => false,
    }
}

fn is_plain_order(orders: &Items<Order>) -> bool
    ensures { IsTrue result ↔ (orders.now ≡ release.orders) }
{
    match orders.as_slice() {
        [order] => order.digits == 0,
        _ => false,
    }
}

/// Returns whether a table is that of the parts, with its rows in a tree.
pub(crate) fn is_piece(table: &Table, tree: u32) -> bool
    ensures { IsTrue result ↔ (table.now ≡ in_tree piece tree) }
{
    let [reference] = table.references.as_slice() else {
        return false;
    };
    is_word(&table.name, b"feed_piece")
        && table.tree == tree
        && are_piece_columns(&table.columns)
        && table.key.is_none()
        && are_places(&table.primary, &[1, 2])
        && is_one_key(&table.uniques, &[1, 2])
        && is_plain_order(&table.orders)
        && are_piece_checks(&table.checks)
        && is_owner(reference)
        && is_plain(table)
}

fn are_piece_columns(columns: &Items<Column>) -> bool
    ensures { IsTrue result ↔ (columns.now ≡ piece.columns) }
{
    let [name, place, bytes] = columns.as_slice() else {
        return false;
    };
    is_column(name, Kind::Text, b"name")
        && is_column(place, Kind::Integer, b"place")
        && is_column(bytes, Kind::Blob, b"bytes")
}

/// Returns whether a table is that of the reasons, with its rows in a tree.
pub(crate) fn is_reason(table: &Table, tree: u32) -> bool
    ensures { IsTrue result ↔ (table.now ≡ in_tree reason tree) }
{
    let [reference] = table.references.as_slice() else {
        return false;
    };
    is_word(&table.name, b"feed_reason")
        && table.tree == tree
        && are_reason_columns(&table.columns)
        && table.key.is_none()
        && are_places(&table.primary, &[1])
        && is_one_key(&table.uniques, &[1])
        && is_plain_order(&table.orders)
        && are_reason_checks(&table.checks)
        && is_owner(reference)
        && is_plain(table)
}

fn are_reason_columns(columns: &Items<Column>) -> bool
    ensures { IsTrue result ↔ (columns.now ≡ reason.columns) }
{
    let [name, number, label] = columns.as_slice() else {
        return false;
    };
    is_column(name, Kind::Text, b"name")
        && is_column(number, Kind::Integer, b"reason")
        && is_column(label, Kind::Integer, b"label")
}

// Returns whether an index is the one that a table has for its unique key.
fn is_automatic(index: &Index, name: &[u8], tree: u32, table: u32, places: &[usize]) -> bool
    ensures { IsTrue result ↔ (index.now ≡ automatic name.now tree table places.now) }
{
    is_word(&index.name, name)
        && index.tree == tree
        && index.table == table
        && are_places(&index.columns, places)
        && index.order.digits == 0
        && index.is_unique
}

fn are_layout_1_tables(tables: &Items<Table>) -> bool
    ensures { IsTrue result ↔ (tables.now ≡ layout_1_schema.tables) }
{
    match tables.as_slice() {
        [first, second, third] => {
            is_layout(first, LAYOUT_TREE)
                && is_release(second, RELEASE_TREE)
                && is_piece(third, PIECE_TREE)
        }
        _ => false,
    }
}

fn are_layout_2_tables(tables: &Items<Table>) -> bool
    ensures { IsTrue result ↔ (tables.now ≡ layout_2_schema.tables) }
{
    match tables.as_slice() {
        [first, second, third, fourth] => {
            is_layout(first, LAYOUT_TREE)
                && is_release(second, RELEASE_TREE)
                && is_piece(third, PIECE_TREE)
                && is_reason(fourth, REASON_TREE)
        }
        _ => false,
    }
}

fn is_release_index(index: &Index) -> bool
    ensures { IsTrue result ↔ (index.now ≡ release_index) }
{
    is_automatic(
        index,
        b"sqlite_autoindex_feed_release_1",
        RELEASE_INDEX_TREE,
        RELEASE_TREE,
        &[1],
    )
}

fn is_piece_index(index: &Index) -> bool
    ensures { IsTrue result ↔ (index.now ≡ piece_index) }
{
    is_automatic(
        index,
        b"sqlite_autoindex_feed_piece_1",
        PIECE_INDEX_TREE,
        PIECE_TREE,
        &[1, 2],
    )
}

fn is_reason_index(index: &Index) -> bool
    ensures { IsTrue result ↔ (index.now ≡ reason_index) }
{
    is_automatic(
        index,
        b"sqlite_autoindex_feed_reason_1",
        REASON_INDEX_TREE,
        REASON_TREE,
        &[1],
    )
}

fn are_layout_1_indexes(indexes: &Items<Index>) -> bool
    ensures { IsTrue result ↔ (indexes.now ≡ release_index ∷ piece_index ∷ []) }
{
    match indexes.as_slice() {
        [first, second] => is_release_index(first) && is_piece_index(second),
        _ => false,
    }
}

fn are_layout_2_indexes(indexes: &Items<Index>) -> bool
    ensures { IsTrue result ↔ (indexes.now ≡ release_index ∷ piece_index ∷ reason_index ∷ []) }
{
    match indexes.as_slice() {
        [first, second, third] => {
            is_release_index(first) && is_piece_index(second) && is_reason_index(third)
        }
        _ => false,
    }
}

/// Returns whether a database has exactly the tables of layout 1, with the indexes of their keys.
pub fn is_layout_1(schema: &Schema) -> bool
    ensures { IsTrue result ↔ (schema.now ≡ layout_1_schema) }
{
    are_layout_1_tables(&schema.tables)
        & are_layout_1_indexes(&schema.indexes)
        & schema.views.is_empty()
}

/// Returns whether a database has exactly the tables of layout 2, with the indexes of their keys.
pub fn is_layout_2(schema: &Schema) -> bool
    ensures { IsTrue result ↔ (schema.now ≡ layout_2_schema) }
{
    are_layout_2_tables(&schema.tables)
        & are_layout_2_indexes(&schema.indexes)
        & schema.views.is_empty()
}

/// Returns whether a database has no table.
pub fn has_no_table(schema: &Schema) -> bool
    ensures { IsTrue result ↔ (schema.now ≡ no_schema) }
{
    schema.tables.is_empty() & schema.indexes.is_empty() & schema.views.is_empty()
}
