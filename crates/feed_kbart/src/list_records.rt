//! The records of a list as they are read, one after another: no header yet, a bad one, or the rows so far.
ghost use Rattle.std.specs.Prelude.{◌≡◌, ◌<◌, ◌++◌, ℕ, List, [], ◌∷◌, None, Some, IfOk, OnOk, length};
ghost use Rattle.csv.specs.Records.{fields_of};
ghost use Rattle.feed_limits.specs.Limits.{file_limit};
ghost use Rattle.feed_kbart.specs.Joined.{joined};
ghost use Rattle.feed_kbart.specs.ListRecords.{IsLong};
ghost use Rattle.feed_kbart.specs.LongRows.{IsLongRow};
ghost use Rattle.feed_kbart.specs.Stored.{in_order};

use crate::fault::{BadFile, KbartFault};
use crate::header::Columns;
use crate::header_fields::HeaderFields;
use crate::holdings::{HoldingsBuilder, KeepRows};
use crate::long_row::LongRow;
use csv::ByteRecord;
use std::alloc::{AllocError, Global};

// The records after a good header: its columns, the number of the next record, and the rows and the skipped records so
// far. The long row is that of a record whose pieces are arriving.
#[derive(Drop)]
struct Table<K> {
    columns: Columns,
    number: u32,
    kept: HoldingsBuilder<K>,
    long: Option<LongRow>,
}

// The state after the records so far.
#[derive(Drop)]
enum Stage<K> {
    // There was no record. The pieces of the first may be arriving.
    Start(HeaderFields),
    // The header is bad, so no other record counts.
    Bad(BadFile),
    Good(Table<K>),
}

/// The records of a list that were read so far. The first one is the header. A record may be added in pieces: the first
/// field of each continues the last one so far.
#[derive(Drop)]
pub(crate) struct ListRecords<K> {
    stage: Stage<K>,
}

// Returns the long row with the next piece of its record.
fn take_long(
    alloc: Global,
    columns: &Columns,
    long: &mut Option<LongRow>,
    piece: &ByteRecord,
) -> Result<LongRow, AllocError>
    ensures row { IfOk result (λ row. (begun : List (List ℕ)) → 0 < length (fields_of piece.now)
        → IsLong (in_order columns.now) begun long.old
        → IsLongRow (in_order columns.now) (joined begun (fields_of piece.now)) row) }
    ensures none { long.new ≡ None }
{
    match long.take() {
        Some(row) => row.with(piece),
        None => LongRow::new(alloc, columns.in_order()).with(piece),
    }
}

impl<K: KeepRows> Table<K> {
    ghost use Rattle.feed_kbart.specs.Columns.{bad_header, columns_of};
    ghost use Rattle.feed_kbart.specs.ListRecords.{IsTableOf};

    // Begins with the columns of the first record.
    fn new(alloc: Global, columns: Columns) -> Table<K>
        ensures { (header : List (List ℕ)) → bad_header header ≡ None → columns ≡ columns_of header
            → IsTableOf K.keeps (header ∷ []) ([] ∷ []) result }
    {
        Table {
            columns,
            number: 2,
            kept: HoldingsBuilder::new(alloc),
            long: None,
        }
    }

    fn add(&mut self, alloc: Global, fields: &ByteRecord) -> Result<(), AllocError>
        ensures { OnOk result ((records : List (List (List ℕ))) (begun : List (List ℕ)) → length records < file_limit
            → 0 < length (fields_of fields.now) → IsTableOf K.keeps records begun self.old
            → IsTableOf K.keeps (records ++ joined begun (fields_of fields.now) ∷ []) ([] ∷ []) self.new) }
    {
        if self.long.is_some() {
            return self.end_long(alloc, fields);
        }
        self.kept.add(alloc, &self.columns, self.number, fields)?;
        self.number = self.number.saturating_add(1);
        Ok(())
    }

    // Adds the last piece of a record.
    fn end_long(&mut self, alloc: Global, piece: &ByteRecord) -> Result<(), AllocError>
        ensures { OnOk result ((records : List (List (List ℕ))) (begun : List (List ℕ)) → length records < file_limit
            → 0 < length (fields_of piece.now) → IsTableOf K.keeps records begun self.old
            → IsTableOf K.keeps (records ++ joined begun (fields_of piece.now) ∷ []) ([] ∷ []) self.new) }
    {
        let row = take_long(alloc, &self.columns, &mut self.long, piece)?;
        let record = row.into_record(alloc)?;
        self.kept
            .add(alloc, &Columns::stored(), self.number, &record)?;
        self.number = self.number.saturating_add(1);
        Ok(())
    }

    fn add_piece(&mut self, alloc: Global, piece: &ByteRecord) -> Result<(), AllocError>
        ensures { OnOk result ((records : List (List (List ℕ))) (begun : List (List ℕ))
            → 0 < length (fields_of piece.now) → IsTableOf K.keeps records begun self.old
            → IsTableOf K.keeps records (joined begun (fields_of piece.now)) self.new) }
    {
        let row = take_long(alloc, &self.columns, &mut self.long, piece)?;
        self.long = Some(row);
        Ok(())
    }
}

impl<K: KeepRows> Stage<K> {
    ghost use Rattle.std.specs.Prelude.{MatchResult};
    ghost use Rattle.feed_kbart.specs.Columns.{bad_header, columns_of};
    ghost use Rattle.feed_kbart.specs.HeaderLabels.{AreHeaderFields};
    ghost use Rattle.feed_kbart.specs.ListRecords.{IsStageOf};

    // The state after the first record.
    fn after_header(alloc: Global, columns: Result<Columns, BadFile>) -> Stage<K>
        ensures { (header : List (List ℕ)) → MatchResult columns
            (λ columns. (bad_header header ≡ None) × (columns ≡ columns_of header))
            (λ why. bad_header header ≡ Some why) → IsStageOf K.keeps (header ∷ []) ([] ∷ []) result }
    {
        match columns {
            Ok(columns) => Stage::Good(Table::new(alloc, columns)),
            Err(why) => Stage::Bad(why),
        }
    }

    // Takes the last piece of the first record. It is not inlined: its values are large, and each record would make
    // room for them.
    #[inline(never)]
    fn end_header(
        alloc: Global,
        header: &mut HeaderFields,
        piece: &ByteRecord,
    ) -> Result<Stage<K>, AllocError>
        ensures { IfOk result (λ stage. (begun : List (List ℕ)) → 0 < length (fields_of piece.now)
            → AreHeaderFields begun header.old
            → IsStageOf K.keeps (joined begun (fields_of piece.now) ∷ []) ([] ∷ []) stage) }
    {
        header.add(piece)?;
        Ok(Stage::after_header(alloc, header.columns()))
    }

    fn add(&mut self, alloc: Global, fields: &ByteRecord) -> Result<(), AllocError>
        ensures { OnOk result ((records : List (List (List ℕ))) (begun : List (List ℕ)) → length records < file_limit
            → 0 < length (fields_of fields.now) → IsStageOf K.keeps records begun self.old
            → IsStageOf K.keeps (records ++ joined begun (fields_of fields.now) ∷ []) ([] ∷ []) self.new) }
    {
        match self {
            Stage::Start(header) => {
                *self = Stage::end_header(alloc, header, fields)?;
                Ok(())
            }
            Stage::Bad(_) => Ok(()),
            Stage::Good(table) => table.add(alloc, fields),
        }
    }

    fn add_piece(&mut self, alloc: Global, piece: &ByteRecord) -> Result<(), AllocError>
        ensures { OnOk result ((records : List (List (List ℕ))) (begun : List (List ℕ))
            → 0 < length (fields_of piece.now) → IsStageOf K.keeps records begun self.old
            → IsStageOf K.keeps records (joined begun (fields_of piece.now)) self.new) }
    {
        match self {
            Stage::Start(header) => header.add(piece),
            Stage::Bad(_) => Ok(()),
            Stage::Good(table) => table.add_piece(alloc, piece),
        }
    }
}

impl<K: KeepRows> ListRecords<K> {
    ghost use Rattle.feed_kbart.specs.Kept.{IsBuilt};
    ghost use Rattle.feed_kbart.specs.ListRecords.{AreRecordsOf, AreRecordsWith};

    /// Returns no records.
    pub(crate) fn new(alloc: Global) -> ListRecords<K>
        ensures { AreRecordsOf K.keeps [] result }
    {
        ListRecords {
            stage: Stage::Start(HeaderFields::new(alloc)),
        }
    }

    /// Adds the next record, or the last piece of it. After an error, `finish` returns `Memory`.
    pub(crate) fn add(&mut self, alloc: Global, fields: &ByteRecord) -> Result<(), AllocError>
        ensures { OnOk result ((records : List (List (List ℕ))) (begun : List (List ℕ)) → length records < file_limit
            → 0 < length (fields_of fields.now) → AreRecordsWith K.keeps records begun self.old
            → AreRecordsOf K.keeps (records ++ joined begun (fields_of fields.now) ∷ []) self.new) }
    {
        self.stage.add(alloc, fields)
    }

    /// Adds a piece of the next record. After an error the records are of no use.
    pub(crate) fn add_piece(&mut self, alloc: Global, piece: &ByteRecord) -> Result<(), AllocError>
        ensures { OnOk result ((records : List (List (List ℕ))) (begun : List (List ℕ))
            → 0 < length (fields_of piece.now) → AreRecordsWith K.keeps records begun self.old
            → AreRecordsWith K.keeps records (joined begun (fields_of piece.now)) self.new) }
    {
        self.stage.add_piece(alloc, piece)
    }

    /// Returns the rows and the skipped records of a list that has exactly these records, or the first reason why it is
    /// bad.
    pub(crate) fn finish(self) -> Result<HoldingsBuilder<K>, KbartFault>
        ensures { (records : List (List (List ℕ))) → AreRecordsOf K.keeps records self
            → IsBuilt K.keeps records result }
    {
        let ListRecords { stage } = self;
        match stage {
            Stage::Start(_header) => Err(KbartFault::Bad(BadFile::NoHeader)),
            Stage::Bad(why) => Err(KbartFault::Bad(why)),
            Stage::Good(table) => Ok(table.kept),
        }
    }
}
