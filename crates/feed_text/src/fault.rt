//! The errors of reading a text.
ghost use Rattle.std.specs.Prelude.{◌≡◌};
ghost use Rattle.feed_text.specs.declared.fault.TextFault.TheVariants as fault;

use std::alloc::{AllocError, AllocFailed};

/// Why a text was not read.
#[derive(Clone, Copy, Debug, PartialEq, Eq)]
pub enum TextFault {
    /// The bytes are not UTF-8, anywhere in the text.
    NotUtf8,
    /// The text begins with two byte-order marks.
    TwoMarks,
    /// Memory ran out.
    Memory,
    /// The reader failed. `Interrupted` counts as a failure.
    Read,
    /// The reader returned more bytes than a file may have.
    TooLong,
}

impl From<AllocError> for TextFault {
    ghost from_gives = { λ _ e. e ≡ fault.Memory };

    fn from(_error: AllocError) -> TextFault {
        TextFault::Memory
    }
}

impl<T: Drop> From<AllocFailed<T>> for TextFault {
    ghost from_gives = { λ _ e. e ≡ fault.Memory };

    fn from(_error: AllocFailed<T>) -> TextFault {
        TextFault::Memory
    }
}
