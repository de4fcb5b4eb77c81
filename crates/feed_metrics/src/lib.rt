//! The Prometheus text format of metrics, version 0.0.4: rows of families, what writes them, and laws by which a reader
//! of the format reads them back. Nothing here knows whose metrics these are.
#![tactic(auto)]

mod families;
mod label_value;
mod laws;
mod row;
mod sources;

pub use families::put_families;
pub use label_value::{put_label, put_seconds};
pub use laws::{label_reads_back, lines_read_back};
pub use row::{FamilyKind, FamilyRow, LabelRow, SampleRow, Shown};
pub use sources::Sources;
