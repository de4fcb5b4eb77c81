//! Parses the names and queries of arguments, and reports invalid ones.
use crate::console::Console;
use crate::faults::{FAILED, REFUSED};
use feed_answer::{Query, QueryFault};
use feed_names::{NameFault, ReleaseName};
use std::io::Write;

/// Parses the name of a release. Otherwise it reports the fault and returns the exit status: `status` for an invalid
/// name, `FAILED` for running out of memory.
pub fn parse_name<O: Write, F: Write + Drop>(
    text: &str,
    status: u8,
    console: &mut Console<'_, O, F>,
) -> Result<ReleaseName, u8> {
    match ReleaseName::parse(console.rt.alloc(), text.as_bytes()) {
        Ok(name) => Ok(name),
        Err(NameFault::Memory) => Err(console.faults.report(NameFault::Memory, FAILED)),
        Err(fault) => Err(
            console
                .faults
                .report_with(fault, text, cause_of_name(fault), status),
        ),
    }
}

/// Parses a query. Otherwise it reports the fault and returns the exit status: `REFUSED` for an invalid query, `FAILED`
/// for running out of memory.
pub fn parse_query<O: Write, F: Write + Drop>(
    text: &str,
    console: &mut Console<'_, O, F>,
) -> Result<Query, u8> {
    match Query::read(console.rt.alloc(), text.as_bytes()) {
        Ok(query) => Ok(query),
        Err(QueryFault::Memory) => Err(console.faults.report(QueryFault::Memory, FAILED)),
        Err(fault) => Err(
            console
                .faults
                .report_with(fault, text, cause_of_query(fault), REFUSED),
        ),
    }
}

// Returns why a text is not the name of a release.
fn cause_of_name(fault: NameFault) -> &'static str {
    match fault {
        NameFault::BadEnding => "the name of a release ends in .txt",
        NameFault::BadDate =>
            "_ and the date of a real day come before .txt, as in _2024-01-01.txt",
        NameFault::BadStem => {
            "the package before the date has 1 to 100 letters, digits, -, _ and ., and does not begin with ."
        }
        NameFault::Memory => "memory ran out",
    }
}

// Returns why a query is not answered.
fn cause_of_query(fault: QueryFault) -> &'static str {
    match fault {
        QueryFault::TooLong => "a query has at most 4,096 bytes",
        QueryFault::Version => "url_ver and ctx_ver are Z39.88-2004",
        QueryFault::OtherFormat =>
            "rft_val_fmt is info:ofi/fmt:kev:mtx:journal or info:ofi/fmt:kev:mtx:book, and not both",
        QueryFault::NoIssn =>
            "no rft.issn, rft.eissn or rft_id has an ISSN with its check digit, and no rft.isbn an ISBN that counts",
        QueryFault::NoIsbn => "no rft.isbn has an ISBN with its check digit",
        QueryFault::Memory => "memory ran out",
    }
}
