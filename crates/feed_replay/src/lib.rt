//! The command `kbfeed replay`, which replays a script over keepers in memory and prints the transcript; and the parser
//! of scripts: lines of text that publish files and send events to nodes.
#![tactic(auto)]

mod disk;
mod escapes;
mod events;
mod faults;
mod laws;
mod line_fault;
mod replay;
mod script;
mod words;

pub use disk::Files;
pub use escapes::unescape;
pub use faults::ScriptFault;
pub use laws::{escaped_reads_back, number_reads_back};
pub use line_fault::LineFault;
pub use replay::replay_input;
pub use script::{SCRIPT_LIMIT, Script, line_excerpt, read_script};
pub use words::{Words, read_number, split_at, split_word};
