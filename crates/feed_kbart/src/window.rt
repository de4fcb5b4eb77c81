//! The records of a part of a list.
ghost use Rattle.std.specs.Prelude.{◌≡◌, ◌⊎◌, ◌≤◌, ◌<◌, ◌+◌, ◌++◌, ◌∷◌, [], List, ℕ, MatchOption, OnOk};
ghost use Rattle.std.specs.Prelude.{drop, length, true};
ghost use Rattle.feed_text.specs.Records.{ends_line, records_of};
ghost use Rattle.feed_kbart.specs.Joined.{joined, joined_first};
ghost use Rattle.feed_kbart.specs.ListRecords.{AreRecordsOf, AreRecordsWith};
ghost use Rattle.feed_kbart.specs.Windows.{HasNoEnd, begins_with_end};
ghost use Rattle.feed_limits.specs.Limits.{file_limit};

use crate::holdings::KeepRows;
use crate::list_records::ListRecords;
use csv::ByteRecord;
use feed_text::{read_record, record_reader};
use std::alloc::{AllocError, Global};

// Returns whether a byte ends a line.
fn ends_line(byte: u8) -> bool
    ensures { result ≡ ends_line byte }
{
    byte == b'\r' || byte == b'\n'
}

/// Returns the place of the last line end.
pub(crate) fn last_line_end(bytes: &[u8]) -> Option<usize>
    ensures { MatchOption result (HasNoEnd bytes.now) (λ place. (place ≤ length bytes.now)
        × (begins_with_end (drop place bytes.now) ≡ true) × HasNoEnd (drop 1 (drop place bytes.now))) }
{
    let mut place = bytes.len();
    while place > 0 {
        place -= 1;
        if ends_line(bytes[place]) {
            return Some(place);
        }
    }
    None
}

/// Adds the records of a part of a list. The part ends before a line end, or at the end of the list. A byte-order mark
/// at its front is dropped, so only the first part may begin with one. If pieces of a record were added, the first
/// record of the part is the rest of it.
pub(crate) fn read_window<K: KeepRows>(
    alloc: Global,
    window: &[u8],
    list: &mut ListRecords<K>,
) -> Result<(), AllocError>
    ensures { OnOk result ((records : List (List (List ℕ))) (begun : List (List ℕ))
        → length records + length (records_of window.now) ≤ file_limit
        → (begun ≡ [] ∷ []) ⊎ (0 < length (records_of window.now)) → AreRecordsWith K.keeps records begun list.old
        → AreRecordsOf K.keeps (records ++ joined_first begun (records_of window.now)) list.new) }
{
    let mut reader = record_reader(alloc, window)?;
    let mut fields = ByteRecord::new(alloc);
    for _ in 0..window.len() {
        match read_record(&mut reader, &mut fields) {
            Ok(true) => list.add(alloc, &fields)?,
            Ok(false) => return Ok(()),
            // Bytes in memory are read without a fault, unless memory runs out.
            Err(_) => return Err(AllocError),
        }
    }
    Ok(())
}

/// Adds a part that has one record as a piece of a record.
pub(crate) fn read_piece<K: KeepRows>(
    alloc: Global,
    part: &[u8],
    list: &mut ListRecords<K>,
) -> Result<(), AllocError>
    ensures { OnOk result ((records : List (List (List ℕ))) (begun fields : List (List ℕ))
        → records_of part.now ≡ fields ∷ [] → AreRecordsWith K.keeps records begun list.old
        → AreRecordsWith K.keeps records (joined begun fields) list.new) }
{
    let mut reader = record_reader(alloc, part)?;
    let mut fields = ByteRecord::new(alloc);
    match read_record(&mut reader, &mut fields) {
        Ok(true) => list.add_piece(alloc, &fields),
        Ok(false) => Ok(()),
        Err(_) => Err(AllocError),
    }
}
