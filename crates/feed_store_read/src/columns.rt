//! Reads the columns of a row by the kinds of their values.
ghost use Rattle.std.specs.Prelude.{◌≡◌, ◌≢◌, ℕ, ℤ, List, MatchOption, pos};
ghost use Rattle.sqlite_value.specs.declared.value.Value.TheVariants.{Blob, Int, Text};
ghost use Rattle.sqlite_value.specs.Order.{column};

use sqlite::Row;
use sqlite_value::value::ValueRef;

/// Returns the text in a column.
pub fn text_at(row: &Row, at: usize) -> Option<&[u8]>
    ensures { MatchOption result ((text : List ℕ) → column row.now at ≢ Text text)
        (λ text. column row.now at ≡ Text text.now) }
{
    match row.get_ref(at) {
        Ok(ValueRef::Text(text)) => Some(text),
        _ => None,
    }
}

/// Returns the bytes in a column.
pub fn blob_at(row: &Row, at: usize) -> Option<&[u8]>
    ensures { MatchOption result ((bytes : List ℕ) → column row.now at ≢ Blob bytes)
        (λ bytes. column row.now at ≡ Blob bytes.now) }
{
    match row.get_ref(at) {
        Ok(ValueRef::Blob(bytes)) => Some(bytes),
        _ => None,
    }
}

/// Returns the integer in a column.
pub fn integer_at(row: &Row, at: usize) -> Option<i64>
    ensures { MatchOption result ((n : ℤ) → column row.now at ≢ Int n) (λ n. column row.now at ≡ Int n) }
{
    match row.get_ref(at) {
        Ok(ValueRef::Int(n)) => Some(n),
        _ => None,
    }
}

/// Returns the integer in a column if it is at least 0.
pub fn number_at(row: &Row, at: usize) -> Option<u64>
    ensures { MatchOption result ((n : ℕ) → column row.now at ≢ Int (pos n))
        (λ n. column row.now at ≡ Int (pos n)) }
{
    match u64::try_from(integer_at(row, at)?) {
        Ok(n) => Some(n),
        Err(_) => None,
    }
}
