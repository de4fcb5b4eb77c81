//! Code that the commands of kbfeed share: the console, exit statuses, the report of a fault, names and queries from
//! arguments, the bytes of an input, and the stack.
#![tactic(auto)]

mod arguments;
mod console;
mod faults;
mod input;

pub use arguments::{parse_name, parse_query};
pub use console::{Console, take_stack};
pub use faults::{DONE, FAILED, Faults, MISUSED, REFUSED};
pub use input::{Watched, open_file, open_plain, open_plain_file, read_front};
