//! The errors of parsing a query and of writing an answer.
ghost use Rattle.std.specs.Prelude.{◌≡◌};
ghost use Rattle.feed_answer.specs.declared.fault.QueryFault.TheVariants as query_fault;
ghost use Rattle.feed_answer.specs.declared.fault.WriteFault.TheVariants as write_fault;

use std::alloc::AllocError;
use std::{fmt, io};
use thiserror::Error;

/// Why a query was rejected. The first applicable reason is reported, except that `Memory` may replace it.
#[derive(Clone, Copy, Debug, PartialEq, Eq)]
pub enum QueryFault {
    /// The query has more than `QUERY_LIMIT` bytes.
    TooLong,
    /// A `url_ver` or `ctx_ver` is neither empty nor `Z39.88-2004`.
    Version,
    /// A `rft_val_fmt` is neither empty, `info:ofi/fmt:kev:mtx:journal` nor `info:ofi/fmt:kev:mtx:book`, or the query
    /// names both formats.
    OtherFormat,
    /// No value that counts names an ISSN or an ISBN.
    NoIssn,
    /// In the format of books, no value names an ISBN.
    NoIsbn,
    /// Memory ran out. This may replace any outcome but `TooLong`.
    Memory,
}

impl fmt::Display for QueryFault {
    ghost use Rattle.std.specs.Prelude.{Some};
    ghost use Rattle.feed_answer.specs.Faults.{query_fault_text};

    ghost output = { λ fault. Some (query_fault_text fault) };

    fn fmt<W: fmt::Write>(&self, f: &mut fmt::Formatter<W>) -> fmt::Result {
        f.write_str(match self {
            QueryFault::TooLong => "TooLong",
            QueryFault::Version => "Version",
            QueryFault::OtherFormat => "OtherFormat",
            QueryFault::NoIssn => "NoIssn",
            QueryFault::NoIsbn => "NoIsbn",
            QueryFault::Memory => "Memory",
        })
    }
}

impl std::error::Error for QueryFault {}

impl From<AllocError> for QueryFault {
    ghost from_gives = { λ _ e. e ≡ query_fault.Memory };

    fn from(_error: AllocError) -> QueryFault {
        QueryFault::Memory
    }
}

/// Why an answer was not written completely. It is unspecified how much was written.
#[derive(Clone, Copy, Debug, PartialEq, Eq, Error)]
pub enum WriteFault {
    /// The writer failed.
    #[error("Write")]
    Write,
}

impl From<io::Error> for WriteFault {
    ghost from_gives = { λ _ e. e ≡ write_fault.Write };

    fn from(_error: io::Error) -> WriteFault {
        WriteFault::Write
    }
}
