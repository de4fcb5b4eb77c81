//! The report on a checked list, from its release name and its text: in lines, in one line, explained, or as JSON. The
//! comparison of two lists, `compare`, which pairs their rows, and the report on it.
#![tactic(auto)]

mod comparison;
mod comparison_report;
mod json;
mod left_rows;
mod numbered;
mod order;
mod pairing;
mod records;
mod report;
mod singles;
mod unchanged;
mod warnings;

pub use comparison::{Comparison, RowChange, changes_have_a_column, compare, counts_add_up};
pub use comparison_report::{NamedList, print_comparison};
pub use report::ListReport;
