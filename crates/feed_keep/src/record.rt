//! The stored record of a release.
use feed_kbart::BadFile;
use feed_model::State;
use feed_names::ReleaseName;
use feed_parts::Part;
use std::alloc::Global;

/// A stored record of a release: the size of its file in bytes, its state, why the file is bad if the release is
/// broken, and the parts of the file, ordered by their first places.
#[derive(Debug, Drop)]
pub struct Record {
    pub name: ReleaseName,
    pub size: u64,
    pub state: State,
    pub reason: Option<BadFile>,
    pub parts: Vec<Part>,
}

impl Record {
    ghost use Rattle.std.specs.Prelude.{◌≡◌};
    ghost use Rattle.feed_model.specs.Change.{new_record};
    ghost use Rattle.feed_keep.specs.Shown.{shown_record};

    /// Returns the record of a newly offered release, without parts. A file of size 0 is complete, and bad. Does not
    /// allocate.
    pub fn new(alloc: Global, name: ReleaseName, size: u64) -> Record
        ensures { shown_record result ≡ new_record name size }
    {
        let (state, reason) = if size == 0 {
            (State::Broken, Some(BadFile::NoHeader))
        } else {
            (State::Staged, None)
        };
        Record {
            name,
            size,
            state,
            reason,
            parts: Vec::new(alloc),
        }
    }
}
