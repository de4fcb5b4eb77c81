//! Understands the OpenURLs that real sources send: the citation of each, and the query of the core that means the same
//! (ANSI/NISO Z39.88-2004, and OpenURL 0.1 before it).
//!
//! `Citation::read` and `OpenUrl::read` read an OpenURL in any such form, and `OpenUrl::write` writes the OpenURL 1.0
//! query that `feed_answer` reads.
#![tactic(auto)]

mod choice;
mod citation;
mod date;
mod dates;
mod digits;
mod dropped;
mod fault;
mod identifiers;
mod key;
mod kind;
mod laws;
mod lenient_date;
mod links;
mod number;
mod numbers;
mod offer;
mod openurl;
mod plain;
mod roman;
mod sets;
mod shown;
mod tokens;
mod value;
mod volume;
mod volumes;
mod words;
mod writing;

pub use citation::Citation;
pub use dropped::{Dropped, dropped_keys};
pub use fault::{OpenUrlFault, ReadFault};
pub use laws::{
    answered_is_contained, blank_is_uncited, dropped_is_uncited, dropped_is_unread, order_is_free,
    people_are_dropped, written_is_accepted, written_is_itself, written_is_short,
    written_is_understood,
};
pub use openurl::{IDENTIFIER_LIMIT, OpenUrl};
