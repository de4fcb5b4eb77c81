//! The storage of a feed: its records, the changes to them, the trait `Keep` that a store implements, the checks of
//! records that a store has kept, and an implementation in memory.
#![tactic(auto)]

mod bad_file;
mod keep;
mod list_keep;
mod record;
mod record_checks;
mod retired;

pub use bad_file::bad_of;
pub use keep::{Capacity, Change, Keep, LARGE_CAPACITY};
pub use list_keep::{ListKeep, is_earlier, is_listed_before};
pub use record::Record;
pub use record_checks::{are_names_ascending, are_places_ascending, sort_distinct};
pub use retired::{are_current, find_retired};
