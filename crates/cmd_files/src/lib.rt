//! The commands of kbfeed without a database: `check`, `diff`, `answer` and `serve` on files, `openurl` on a query.
#![tactic(auto)]

mod address_hints;
mod answer;
mod bad_list;
mod check;
mod diff;
mod folder;
mod name_hints;
mod openurl;
mod query_hints;
mod serve;

pub use address_hints::{note_address, note_listener};
pub use answer::answer_file;
pub use check::check_files;
pub use diff::{compare_files, compare_with};
pub use name_hints::{Advice, parse_meant_name};
pub use openurl::explain_query;
pub use query_hints::parse_meant_query;
pub use serve::serve_folder;
