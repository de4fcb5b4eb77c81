//! The commands of kbfeed with their options, which the command line fills and the commands take.
#![tactic(auto)]

mod command;
mod files;
mod node;

pub use command::{Command, DatabaseCommand, FetchOptions, NodeCommand};
pub use files::{CheckOptions, ComparisonForm, DiffOptions, Form, ServeOptions};
pub use node::{LogOptions, NodeOptions, SitePath, Source};
