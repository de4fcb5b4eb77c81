//! The parts of a citation, and their names.
#![tactic(auto)]

mod citation_part;
mod laws;

pub use citation_part::{CitationPart, PARTS};
pub use laws::{parts_are_in_place, parts_are_named};
