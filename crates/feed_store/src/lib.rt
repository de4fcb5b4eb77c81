//! The keeper over SQL: stores the records of a feed in the tables of a database.
#![tactic(auto)]

mod adopt;
mod fault;
mod file;
mod large_keep;
mod laws;
mod reasons;
mod sql_keep;

pub use fault::{AdoptFault, StoreFault, StoreFileFault};
pub use file::CACHE_PAGES;
pub use large_keep::LargeSqlKeep;
pub use laws::{histories_stay, memory_stays_clean};
pub use sql_keep::SqlKeep;
