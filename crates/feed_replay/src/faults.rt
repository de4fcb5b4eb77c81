//! The errors of a script.
use crate::line_fault::LineFault;
use thiserror::Error;

/// An error of a script.
#[derive(Clone, Copy, Debug, PartialEq, Eq, Error)]
pub enum ScriptFault {
    /// More bytes or lines than a script may have.
    #[error("script too long")]
    TooLong,
    /// The first line that is wrong, counted from 1.
    #[error("line {line}: {fault}")]
    Line { line: usize, fault: LineFault },
    #[error("Memory")]
    Memory,
}

impl ScriptFault {
    // Returns the error of the script whose line has an error.
    pub(crate) fn at(line: usize, fault: LineFault) -> ScriptFault {
        match fault {
            LineFault::Memory => ScriptFault::Memory,
            _ => ScriptFault::Line { line, fault },
        }
    }
}

/// The limits of a script.
pub const LONG_SCRIPT: &str = "a script has at most 16,777,216 bytes and 100,000 lines";

/// Returns why a line of a script is wrong.
pub fn cause_of_line(fault: LineFault) -> &'static str {
    match fault {
        LineFault::NodesExpected => "a script begins with nodes N",
        LineFault::UnknownCommand => "its first word is no event of kbfeed help replay",
        LineFault::WrongWords => "too few or too many words, or an empty one",
        LineFault::BadNumber =>
            "a number is 1 to 20 digits and fits 64 bits, and there are 1 to 16 nodes",
        LineFault::BadName => "a release's name is as Acme_Global_All_2024-01-01.txt",
        LineFault::BadText => "a backslash begins \\t, \\n, \\r, \\\\ or \\xHH",
        LineFault::BadFile => "the file does not read",
        LineFault::Memory => "there was no memory",
    }
}
