//! Reads the records of a feed from a SQL database.
#![tactic(auto)]

mod columns;
mod pieces;
mod reading;
mod reasons;
mod records;
mod release_row;
mod releases;

pub use reading::{read_records, read_without_reasons};
