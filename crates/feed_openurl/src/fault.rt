//! Why an OpenURL has nothing to look up.
use std::alloc::AllocError;
use std::fmt;
use thiserror::Error;

/// Why an OpenURL is not looked up. The first applicable reason is reported.
#[derive(Clone, Copy, Debug, PartialEq, Eq)]
pub enum OpenUrlFault {
    /// A `url_ver` or `ctx_ver` is another version than `Z39.88-2004`.
    Version,
    /// A `rft_val_fmt` is neither the format of journals nor that of books: a dissertation, a patent.
    OtherFormat,
    /// No value has an ISSN or an ISBN.
    NoIssn,
    /// The format is that of books, and no value has an ISBN or an ISSN.
    NoIsbn,
    /// The OpenURL has more than `IDENTIFIER_LIMIT` identifiers.
    TooMany,
}

impl fmt::Display for OpenUrlFault {
    fn fmt<W: fmt::Write>(&self, f: &mut fmt::Formatter<W>) -> fmt::Result {
        f.write_str(match self {
            OpenUrlFault::Version => "Version",
            OpenUrlFault::OtherFormat => "OtherFormat",
            OpenUrlFault::NoIssn => "NoIssn",
            OpenUrlFault::NoIsbn => "NoIsbn",
            OpenUrlFault::TooMany => "TooMany",
        })
    }
}

/// Why an OpenURL was not read.
#[derive(Clone, Copy, Debug, PartialEq, Eq, Error)]
pub enum ReadFault {
    /// Memory ran out.
    #[error("Memory")]
    Memory,
}

impl From<AllocError> for ReadFault {
    fn from(_error: AllocError) -> ReadFault {
        ReadFault::Memory
    }
}
