//! The stored bytes of an incomplete file: which bytes of a piece are new, and which places are missing.
#![tactic(auto)]

mod merging;
mod overlap;
mod part;
mod reading;
mod segments;

pub use merging::copy_in_order;
pub use part::{Part, copy_parts};
pub use reading::{SegmentReader, whole_reader};
pub use segments::{Gap, Segments};
