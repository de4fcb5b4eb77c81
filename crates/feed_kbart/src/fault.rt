//! The errors of reading a file, and the reasons to skip a record.
ghost use Rattle.std.specs.Prelude.{◌≡◌};
ghost use Rattle.feed_kbart.specs.declared.fault.KbartFault.TheVariants as fault;

use crate::label::Label;
use feed_text::TextFault;
use std::alloc::{AllocError, AllocFailed};
use std::fmt;
use thiserror::Error;

/// Why a file is bad. The first applicable reason is reported.
#[derive(Clone, Copy, Debug, PartialEq, Eq)]
pub enum BadFile {
    /// The bytes are not UTF-8, anywhere in the file.
    NotUtf8,
    /// The text begins with two byte-order marks.
    TwoMarks,
    /// The file has no record.
    NoHeader,
    /// The first required label, in their order, that no column has.
    MissingLabel(Label),
    /// The first label, in their order, that two columns have.
    LabelTwice(Label),
}

impl fmt::Display for BadFile {
    ghost use Rattle.std.specs.Prelude.{Some};
    ghost use Rattle.feed_kbart.specs.Reasons.{bad_file_text};

    ghost output = { λ why. Some (bad_file_text why) };

    fn fmt<W: fmt::Write>(&self, f: &mut fmt::Formatter<W>) -> fmt::Result {
        match self {
            BadFile::NotUtf8 => f.write_str("NotUtf8"),
            BadFile::TwoMarks => f.write_str("TwoMarks"),
            BadFile::NoHeader => f.write_str("NoHeader"),
            BadFile::MissingLabel(label) => write!(f, "MissingLabel {label}"),
            BadFile::LabelTwice(label) => write!(f, "LabelTwice {label}"),
        }
    }
}

impl std::error::Error for BadFile {}

/// Why a file was not read.
#[derive(Clone, Copy, Debug, PartialEq, Eq, Error)]
pub enum KbartFault {
    /// The whole file was read, and it is bad.
    #[error("{0}")]
    Bad(BadFile),
    /// Memory ran out.
    #[error("Memory")]
    Memory,
    /// The reader failed. `Interrupted` counts as a failure.
    #[error("Read")]
    Read,
    /// The reader returned more bytes than a file may have.
    #[error("TooLong")]
    TooLong,
}

impl From<AllocError> for KbartFault {
    ghost from_gives = { λ _ e. e ≡ fault.Memory };

    fn from(_error: AllocError) -> KbartFault {
        KbartFault::Memory
    }
}

impl<T: Drop> From<AllocFailed<T>> for KbartFault {
    ghost from_gives = { λ _ e. e ≡ fault.Memory };

    fn from(_error: AllocFailed<T>) -> KbartFault {
        KbartFault::Memory
    }
}

impl From<BadFile> for KbartFault {
    ghost from_gives = { λ why e. e ≡ fault.Bad why };

    fn from(why: BadFile) -> KbartFault {
        KbartFault::Bad(why)
    }
}

impl From<TextFault> for KbartFault {
    ghost use Rattle.feed_kbart.specs.Faults.{file_fault};

    ghost from_gives = { λ why e. e ≡ file_fault why };

    fn from(why: TextFault) -> KbartFault {
        match why {
            TextFault::NotUtf8 => KbartFault::Bad(BadFile::NotUtf8),
            TextFault::TwoMarks => KbartFault::Bad(BadFile::TwoMarks),
            TextFault::Memory => KbartFault::Memory,
            TextFault::Read => KbartFault::Read,
            TextFault::TooLong => KbartFault::TooLong,
        }
    }
}

/// Why a record is skipped. The first applicable reason is reported.
#[derive(Clone, Copy, Debug, PartialEq, Eq)]
pub enum Reason {
    /// `publication_type` is neither empty, `serial` nor `monograph`.
    OtherType,
    /// Neither identifier of a serial is a valid ISSN.
    NoIssn,
    /// Neither identifier of a book is a valid ISBN.
    NoIsbn,
    /// A coverage date is neither empty nor valid.
    BadDate,
    /// The first day of the first date is after the last day of the last.
    Reversed,
}

impl fmt::Display for Reason {
    ghost use Rattle.std.specs.Prelude.{Some};
    ghost use Rattle.feed_kbart.specs.Reasons.{reason_text};

    ghost output = { λ reason. Some (reason_text reason) };

    fn fmt<W: fmt::Write>(&self, f: &mut fmt::Formatter<W>) -> fmt::Result {
        f.write_str(match self {
            Reason::OtherType => "OtherType",
            Reason::NoIssn => "NoIssn",
            Reason::NoIsbn => "NoIsbn",
            Reason::BadDate => "BadDate",
            Reason::Reversed => "Reversed",
        })
    }
}
