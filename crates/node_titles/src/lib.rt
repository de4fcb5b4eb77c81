//! The titles of the active releases that contain a text, without regard to case: what a query for titles asks for,
//! and a walk over the rows. A walk looks at 20,000 rows at most, and then says where the next one begins.
#![tactic(auto)]

mod folded;
mod laws;
mod title_search;
mod walk;

pub use laws::{walks_find_all, walks_find_first};
pub use title_search::{TitleFault, TitleSearch};
pub use walk::{ListedRow, Walk, find_titles};
