//! Answers OpenURL queries for serials and books from a holdings list (ANSI/NISO Z39.88-2004).
//!
//! `Query::read` parses a query, `answer` returns the matching rows of a holdings list, each with its grade, and
//! `Answer::write` writes them as text. `places_of`, `hit_at` and `write_hit` do the same row by row. `availability_of`
//! says how the days of a query lie in those that the embargo of a row leaves open (NISO RP-9-2014).
#![tactic(auto)]

mod availability;
mod decode;
mod embargo;
mod fault;
mod grade;
mod hits;
mod laws;
mod matching;
mod pair;
mod query;
mod row_places;
mod statement;
mod today;
mod wall;

pub use availability::{Availability, availability_of};
pub use decode::{decode_pairs, decode_text};
pub use embargo::{Embargo, OpenDays};
pub use fault::{QueryFault, WriteFault};
pub use grade::{Grade, days_grade, named_grade, volume_grade};
pub use hits::{Answer, Hit, write_head, write_hit};
pub use laws::{
    availability_tells_of_days, grades_follow_days, one_month_for_day, open_days_are_open,
    serial_answers_are_unchanged, set_has_exactly_its_identifiers, sets_ascend,
    starts_move_forward,
};
pub use matching::{answer, hit_at};
pub use pair::{BOOK, JOURNAL, Pair};
pub use query::{QUERY_LIMIT, Query};
pub use row_places::{RowPlaces, places_of};
pub use today::Today;
pub use wall::Span;
