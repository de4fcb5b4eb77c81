//! Writes the records of a feed to a SQL database: creates and upgrades its tables, and commits each change of the
//! records as one transaction.
#![tactic(auto)]

mod beside;
mod changes;
mod layout;
mod number;
mod schema;
mod statements;
mod upgrading;

pub use beside::{has_layout_1_tables, has_layout_2_tables, is_free};
pub use changes::commit_change;
pub use layout::create_tables;
pub use number::has_layout_number;
pub use schema::{has_no_table, is_layout_1, is_layout_2};
pub use upgrading::upgrade;
