//! The text of a list while its bytes arrive. A record is read when its line has ended, and a long one in pieces.
ghost use Rattle.std.specs.Prelude.{◌≤◌, ◌<◌, ◌+◌, ◌++◌, ℕ, List, [], OnOk, length};
ghost use Rattle.feed_limits.specs.Limits.{file_limit};

use crate::fault::KbartFault;
use crate::holdings::{HoldingsBuilder, KeepRows};
use crate::list_records::ListRecords;
use crate::stored_text::cut;
use crate::window::{last_line_end, read_piece, read_window};
use std::alloc::{AllocError, Global};

// If more bytes than these are held of a record, it is long, and these are read as a piece of it. For each field csv
// takes up to 16 bytes while it splits a piece, so one of tabs alone takes half a MiB.
const PIECE: usize = 32_768;

/// The text of a list so far.
#[derive(Drop)]
pub(crate) struct ListText<K> {
    // The bytes from the last line end on. Those of a long record that were read are not held: the others are, behind
    // a line end.
    held: Vec<u8>,
    records: ListRecords<K>,
}

impl<K: KeepRows> ListText<K> {
    ghost use Rattle.feed_kbart.specs.Kept.{IsBuilt};
    ghost use Rattle.feed_kbart.specs.ListTexts.{IsTextOf};
    ghost use Rattle.feed_text.specs.Records.{records_of};

    /// Returns a text without bytes.
    pub(crate) fn new(alloc: Global) -> ListText<K>
        ensures { IsTextOf K.keeps [] result }
    {
        ListText {
            held: Vec::new(alloc),
            records: ListRecords::new(alloc),
        }
    }

    /// Receives the next bytes, cut anywhere. Takes time in proportion to these bytes and the short record that they
    /// end.
    ///
    /// # Errors
    ///
    /// Running out of memory. The text is then of no use.
    pub(crate) fn add(&mut self, alloc: Global, bytes: &[u8]) -> Result<(), AllocError>
        ensures { OnOk result ((text : List ℕ) → length text + length bytes.now ≤ file_limit
            → IsTextOf K.keeps text self.old → IsTextOf K.keeps (text ++ bytes.now) self.new) }
    {
        self.hold(alloc, bytes)?;
        while self.held.len() > PIECE {
            self.read_held(alloc)?;
        }
        Ok(())
    }

    // Adds the records of bytes up to the last line end, and holds the bytes from there on.
    fn hold(&mut self, alloc: Global, bytes: &[u8]) -> Result<(), AllocError>
        ensures { OnOk result ((text : List ℕ) → length text + length bytes.now ≤ file_limit
            → IsTextOf K.keeps text self.old → IsTextOf K.keeps (text ++ bytes.now) self.new) }
    {
        match last_line_end(bytes) {
            None => self.held.extend_from_slice(bytes)?,
            Some(place) => {
                self.held.extend_from_slice(&bytes[..place])?;
                read_window(alloc, &self.held, &mut self.records)?;
                self.held.clear();
                self.held.extend_from_slice(&bytes[place..])?;
            }
        }
        Ok(())
    }

    // Reads a piece of the held bytes. Those after it are held, so the line has bytes then.
    fn read_held(&mut self, alloc: Global) -> Result<(), AllocError>
        ensures text { OnOk result ((text : List ℕ) → PIECE < length self.old.held.items
            → IsTextOf K.keeps text self.old → IsTextOf K.keeps text self.new) }
        ensures fewer { OnOk result (PIECE < length self.old.held.items
            → length self.new.held.items < length self.old.held.items) }
    {
        let (piece, rest) = cut(&self.held, PIECE);
        read_piece(alloc, piece, &mut self.records)?;
        let mut held = Vec::new(alloc);
        held.push(b'\n')?;
        held.extend_from_slice(rest)?;
        self.held = held;
        Ok(())
    }

    /// Returns the rows and the skipped records of the text.
    ///
    /// # Errors
    ///
    /// `Bad` with the first reason if its header is bad, and `Memory`.
    pub(crate) fn finish(self, alloc: Global) -> Result<HoldingsBuilder<K>, KbartFault>
        ensures { (text : List ℕ) → length text ≤ file_limit → IsTextOf K.keeps text self
            → IsBuilt K.keeps (records_of text) result }
    {
        let ListText { held, mut records } = self;
        read_window(alloc, &held, &mut records)?;
        records.finish()
    }
}
