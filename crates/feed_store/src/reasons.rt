//! Adds the reasons to records that were stored without them.
ghost use Rattle.std.specs.Prelude.{◌≡◌, IfOk};
ghost use Rattle.feed_keep.specs.Shown.{shown, shown_record};
ghost use Rattle.feed_store.specs.Upgraded.{AddReasons, IsReasonOf};

use feed_kbart::BadFile;
use feed_keep::{Record, bad_of};
use feed_model::State;
use std::alloc::{AllocError, Global};

/// Returns the same records, each broken one with the reason of its file, and each other one with none.
pub(crate) fn with_reasons(alloc: Global, records: Vec<Record>) -> Result<Vec<Record>, AllocError>
    ensures { IfOk result (λ explained. AddReasons (shown records.items) (shown explained.items)) }
{
    let mut explained = Vec::new(alloc);
    for record in records {
        let reason = reason_of(alloc, &record)?;
        explained.push(with_reason(record, reason))?;
    }
    Ok(explained)
}

fn with_reason(kept: Record, reason: Option<BadFile>) -> Record
    ensures { shown_record result ≡ record (shown_record kept) { reason = reason } }
{
    let Record {
        name,
        size,
        state,
        reason: _,
        parts,
    } = kept;
    Record {
        name,
        size,
        state,
        reason,
        parts,
    }
}

// Returns the reason of a record: that of its file if it is broken.
fn reason_of(alloc: Global, kept: &Record) -> Result<Option<BadFile>, AllocError>
    ensures { IfOk result (IsReasonOf kept.now.state (shown_record kept.now)) }
{
    match kept.state {
        State::Broken => bad_of(alloc, kept),
        State::Staged | State::Active => Ok(None),
    }
}
