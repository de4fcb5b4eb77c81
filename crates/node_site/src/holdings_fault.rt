//! Why a holdings file is refused, and at which of its lines.
use crate::column::Column;
use crate::fault::ValueFault;
use std::fmt;

/// A line of a holdings file that is not accepted, by its number from 1, its column if one cell is wrong, and the
/// reason.
#[derive(Clone, Copy, Debug, PartialEq, Eq)]
pub struct BadLine {
    pub line: usize,
    pub column: Option<Column>,
    pub reason: ValueFault,
}

/// Why bytes are not a holdings file. The length is checked first, then UTF-8, then each line, and then whether lines
/// contradict each other.
#[derive(Debug, Drop)]
pub enum HoldingsFault {
    /// There are more than 16 MiB.
    TooLong,
    /// The bytes are not UTF-8.
    NotUtf8,
    /// A line is not accepted.
    Line(BadLine),
    /// An allocation failed.
    Memory,
}

impl HoldingsFault {
    /// Returns what is wrong, in words.
    pub fn words(&self) -> &'static str {
        match self {
            HoldingsFault::TooLong => "it is longer than 16 MiB",
            HoldingsFault::NotUtf8 => "it is not UTF-8",
            HoldingsFault::Line(fault) => fault.reason.words(),
            HoldingsFault::Memory => "out of memory",
        }
    }
}

fn write_line<W: fmt::Write>(fault: &BadLine, f: &mut fmt::Formatter<W>) -> fmt::Result {
    let line = fault.line;
    match fault.column {
        Some(column) => {
            let label = column.label();
            write!(f, "line {line}, {label}")
        }
        None => write!(f, "line {line}"),
    }
}

/// Writes where the fault is: `line 3`, or `line 3, first` for a cell.
impl fmt::Display for HoldingsFault {
    fn fmt<W: fmt::Write>(&self, f: &mut fmt::Formatter<W>) -> fmt::Result {
        match self {
            HoldingsFault::TooLong => f.write_str("TooLong"),
            HoldingsFault::NotUtf8 => f.write_str("NotUtf8"),
            HoldingsFault::Line(fault) => write_line(fault, f),
            HoldingsFault::Memory => f.write_str("Memory"),
        }
    }
}
