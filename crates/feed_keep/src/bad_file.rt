//! Finding why the complete file of a stored record is bad.
ghost use Rattle.std.specs.Prelude.{IfOk};
ghost use Rattle.feed_keep.specs.BadFile.{IsBadOf};
ghost use Rattle.feed_keep.specs.Shown.{shown_record};

use crate::record::Record;
use feed_kbart::{BadFile, KbartFault, read_parts};
use feed_parts::whole_reader;
use std::alloc::{AllocError, Global};

/// Returns why the complete file of a record is bad. Returns `None` if the file is good, and if the parts are not a
/// complete file of the record's size. Ignores the state and the reason of the record.
pub fn bad_of(alloc: Global, kept: &Record) -> Result<Option<BadFile>, AllocError>
    ensures { IfOk result (IsBadOf (shown_record kept.now)) }
{
    let Some(check) = whole_reader(&kept.parts, kept.size) else {
        return Ok(None);
    };
    let Some(read) = whole_reader(&kept.parts, kept.size) else {
        return Ok(None);
    };
    match read_parts(alloc, check, read) {
        Ok(_) => Ok(None),
        Err(KbartFault::Bad(why)) => Ok(Some(why)),
        Err(KbartFault::TooLong) => Ok(None),
        // Parts in memory are always read to their end, so the only error left is an allocation failure.
        Err(_) => Err(AllocError),
    }
}
