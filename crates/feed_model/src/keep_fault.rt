//! The errors of a keeper, the storage of a feed.
use std::error::Error;
use std::fmt;

/// Why a keeper refused a call.
#[derive(Clone, Copy, Debug, PartialEq, Eq)]
pub enum KeepFault {
    /// Memory ran out.
    Memory,
    /// The device failed, and the keeper has counted the failure.
    Device,
    /// The store does not hold a list of records, or it holds one that no feed can produce.
    Damaged,
}

impl fmt::Display for KeepFault {
    ghost use Rattle.std.specs.Prelude.{Some};
    ghost use Rattle.feed_model.specs.Texts.{keep_fault_text};

    ghost output = { λ cause. Some (keep_fault_text cause) };

    fn fmt<W: fmt::Write>(&self, f: &mut fmt::Formatter<W>) -> fmt::Result {
        f.write_str(match self {
            KeepFault::Memory => "Memory",
            KeepFault::Device => "Device",
            KeepFault::Damaged => "Damaged",
        })
    }
}

impl Error for KeepFault {}
