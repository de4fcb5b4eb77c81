//! The errors of a script's line.
ghost use Rattle.std.specs.Prelude.{◌≡◌};
ghost use Rattle.feed_replay.specs.declared.line_fault.LineFault.TheVariants as fault;

use std::alloc::{AllocError, AllocFailed};
use thiserror::Error;

/// An error in a line of a script, in the order of the checks.
#[derive(Clone, Copy, Debug, PartialEq, Eq, Error)]
pub enum LineFault {
    #[error("nodes expected")]
    NodesExpected,
    #[error("unknown command")]
    UnknownCommand,
    /// Too few or too many words, an empty one, or a stop of neither an offer nor a delivery.
    #[error("wrong words")]
    WrongWords,
    /// A number is not 1 to 20 digits that fit 64 bits, or there are not 1 to 16 nodes.
    #[error("bad number")]
    BadNumber,
    #[error("bad name")]
    BadName,
    /// A `\` that begins no escape.
    #[error("bad text")]
    BadText,
    /// A path that does not open, or a file that does not read or is longer than a file may be.
    #[error("bad file")]
    BadFile,
    #[error("Memory")]
    Memory,
}

impl From<AllocError> for LineFault {
    ghost from_gives = { λ _ e. e ≡ fault.Memory };

    fn from(_error: AllocError) -> LineFault {
        LineFault::Memory
    }
}

impl<T: Drop> From<AllocFailed<T>> for LineFault {
    ghost from_gives = { λ _ e. e ≡ fault.Memory };

    fn from(_error: AllocFailed<T>) -> LineFault {
        LineFault::Memory
    }
}
