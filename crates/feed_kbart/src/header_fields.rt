//! The fields of a header as they are read.
ghost use Rattle.std.specs.Prelude.{◌≡◌, ◌<◌, ◌++◌, ℕ, List, [], ◌∷◌, Some, None, MatchResult, OnOk, length};
ghost use Rattle.csv.specs.Records.{fields_of};
ghost use Rattle.feed_kbart.specs.Columns.{bad_header, columns_of};
ghost use Rattle.feed_kbart.specs.HeaderLabels.{AreHeaderFields};
ghost use Rattle.feed_kbart.specs.Joined.{joined};

use crate::fault::BadFile;
use crate::header::{Columns, HeaderLabels, cell_of};
use csv::ByteRecord;
use std::alloc::{AllocError, Global};

/// The labels of the fields of a header so far, but for the last one, and this field, which may continue.
#[derive(Drop)]
pub(crate) struct HeaderFields {
    labels: HeaderLabels,
    place: usize,
    field: Vec<u8>,
}

impl HeaderFields {
    /// Returns a header with one field, which is empty.
    pub(crate) fn new(alloc: Global) -> HeaderFields
        ensures { AreHeaderFields ([] ∷ []) result }
    {
        HeaderFields {
            labels: HeaderLabels::new(),
            place: 0,
            field: Vec::new(alloc),
        }
    }

    // Adds a field after the last one.
    fn add_field(&mut self, field: &[u8]) -> Result<(), AllocError>
        ensures { OnOk result ((fields : List (List ℕ)) → AreHeaderFields fields self.old
            → AreHeaderFields (fields ++ field.now ∷ []) self.new) }
    {
        self.labels.add(self.place, &self.field);
        // No file has so many fields that their number does not fit.
        let Some(place) = self.place.checked_add(1) else {
            return Err(AllocError);
        };
        self.place = place;
        self.field.clear();
        self.field.extend_from_slice(field)?;
        Ok(())
    }

    /// Adds the fields of the next piece. The first continues the last one so far.
    pub(crate) fn add(&mut self, piece: &ByteRecord) -> Result<(), AllocError>
        ensures { OnOk result ((fields : List (List ℕ)) → 0 < length (fields_of piece.now)
            → AreHeaderFields fields self.old → AreHeaderFields (joined fields (fields_of piece.now)) self.new) }
    {
        self.field.extend_from_slice(cell_of(piece, Some(0)))?;
        for place in 1..piece.len() {
            self.add_field(cell_of(piece, Some(place)))?;
        }
        Ok(())
    }

    /// Returns the columns of a good header with these fields, or the first reason why it is bad.
    pub(crate) fn columns(&mut self) -> Result<Columns, BadFile>
        ensures { (fields : List (List ℕ)) → AreHeaderFields fields self.old → MatchResult result
            (λ columns. (bad_header fields ≡ None) × (columns ≡ columns_of fields))
            (λ why. bad_header fields ≡ Some why) }
    {
        self.labels.add(self.place, &self.field);
        self.labels.columns()
    }
}
