//! The records of a text: its lines, and the fields between their tabs.
ghost use Rattle.std.specs.Prelude.{IfOk, IfErr, OnErr, Some, true, ◌≡◌, ◌⊎◌, ℕ, List};
ghost use Rattle.csv.specs.Reading.{error_kind, stops_reader};
ghost use Rattle.csv.specs.Records.{fields_of};
ghost use Rattle.feed_text.specs.Failures.{IsFaultOf};
ghost use Rattle.feed_text.specs.Reader.{HasLeft, IsNextRecord, IsRecordReader, IsStopped};
ghost use Rattle.feed_text.specs.Records.{drop_mark};
ghost use Rattle.feed_text.specs.declared.fault.TextFault.TheVariants as fault;

use crate::fault::TextFault;
use csv::{ByteRecord, Error, Reader, ReaderBuilder};
use std::alloc::{AllocError, Global};
use std::io::Read;

/// Returns a reader of the records of a holdings list, including the header: lines of fields between tabs, without
/// quoting (NISO RP-9-2014). It drops empty lines, and a byte-order mark at the front.
pub fn record_reader<R: Read + Drop>(alloc: Global, source: R) -> Result<Reader<R>, AllocError>
    ensures ready { IfOk result IsRecordReader }
    ensures left { IfOk result (λ reader. (text : List ℕ) → R.remaining source ≡ Some text
        → HasLeft R.remaining reader (drop_mark text)) }
{
    let mut reader = ReaderBuilder::new()
        .delimiter(b'\t')
        .quoting(false)
        .flexible(true)
        .from_reader(alloc, source);
    // By default the reader would keep two copies of the first record, for callers that want a header row.
    match reader.set_byte_headers(ByteRecord::new(alloc)) {
        Ok(()) => Ok(reader),
        Err(_) => Err(AllocError),
    }
}

// Returns the fault of an error that stops a reader.
fn fault_of(error: &Error) -> TextFault
    requires { stops_reader (error_kind error.now) ≡ true }
    ensures { IsFaultOf (error_kind error.now) result }
{
    if error.is_io_error() {
        TextFault::Read
    } else {
        TextFault::Memory
    }
}

/// Reads the next record into `fields`. Returns `false` if no record is left.
///
/// # Errors
///
/// `Read` if the source fails, and `Memory`.
pub fn read_record<R: Read>(
    reader: &mut Reader<R>,
    fields: &mut ByteRecord,
) -> Result<bool, TextFault>
    requires { IsRecordReader reader.old }
    ensures record { IfOk result (λ found. (text : List ℕ) → HasLeft R.remaining reader.old text
        → IsNextRecord R.remaining reader.new found (fields_of fields.new) text) }
    ensures next { IfOk result (λ found. found ≡ true → IsRecordReader reader.new) }
    ensures fault { IfErr result (λ why. (why ≡ fault.Memory) ⊎ (why ≡ fault.Read)) }
    ensures stopped { OnErr result (IsStopped reader.new) }
{
    match reader.read_byte_record(fields) {
        Ok(found) => Ok(found),
        Err(error) => Err(fault_of(&error)),
    }
}
