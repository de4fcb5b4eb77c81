//! Shared by the drivers: names, records as text, a keeper whose device fails, scripts and errors, and a standard
//! output that remembers a failure.
#![tactic(auto)]

mod events;
mod failing;
mod fault;
mod output;
mod records;

pub use events::read_events;
pub use failing::Failing;
pub use fault::Fault;
pub use output::Out;
pub use records::{name_of, print_content, print_text, records_text, write_parts};
