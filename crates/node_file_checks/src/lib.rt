//! The checks of a file that a node fetches, before its feed gets it. They are of the type that the server states, of
//! the length and the digest, and of whether the file has far fewer rows than the active list.
//!
//! `FileCheck` has all checks of one fetch.
#![tactic(auto)]

mod expected_file;
mod file_check;
mod file_type;
mod front_sum;
mod list_counts;
mod row_count;
mod shrink_gate;

pub use expected_file::ExpectedFile;
pub use file_check::{FileCheck, Mismatch};
pub use file_type::has_other_type;
pub use front_sum::FrontSum;
pub use list_counts::{ListCounts, active_counts, rows_before};
pub use row_count::RowCount;
pub use shrink_gate::{HeldList, Hindrance, ShrinkGate, gate_by};
