//! The commands of kbfeed that work on the database of a node and need no server: `fetch`, `ask`, `diff --db`,
//! `export`, `status` and `why`.
#![tactic(auto)]

mod ask;
mod command;
mod database;
mod diff;
mod export;
mod fetch;
mod progress;
mod status;
mod why;

pub use command::run_database_command;
pub use database::{
    Database, DatabaseFault, Unusable, begin_feed, close_keeper, open_feed, report_keeper,
};
