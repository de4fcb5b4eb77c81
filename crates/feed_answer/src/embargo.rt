//! The embargo of a row, and the days that it leaves open.
ghost use Rattle.std.specs.Prelude.{◌≡◌, ◌-ℤ◌, None, option_map, pos};
ghost use Rattle.feed_answer.specs.Embargo.{eve, start, earlier, later};

use crate::statement::{Statement, read_statement};
use crate::today::Today;
use crate::wall::{Span, start_of};
use feed_bytes::{split_once, trim_spaces};

/// The embargo of a row, from its `embargo_info` (NISO RP-9-2014).
#[derive(Clone, Copy, Debug, PartialEq, Eq)]
pub struct Embargo {
    /// Type R, the beginning of access: only the most recent days, months or years are open.
    pub begins: Option<Span>,
    /// Type P, the end of access: the most recent days, months or years are not open.
    pub ends: Option<Span>,
}

fn starts(span: Option<Span>, today: &Today) -> Option<i64>
    ensures { result ≡ option_map (start today.now) span }
{
    match span {
        Some(span) => Some(start_of(span, today)),
        None => None,
    }
}

fn eves(span: Option<Span>, today: &Today) -> Option<i64>
    ensures { result ≡ option_map (eve today.now) span }
{
    match span {
        Some(span) => Some(start_of(span, today) - 1),
        None => None,
    }
}

impl Embargo {
    ghost use Rattle.feed_answer.specs.Embargo.{open_days};
    ghost use Rattle.feed_answer.specs.Form.{both, embargo_in, embargo_of, one};

    /// The embargo of a row that has none.
    pub const NONE: Embargo = Embargo {
        begins: None,
        ends: None,
    };

    fn of_one(statement: Option<Statement>) -> Option<Embargo>
        ensures { result ≡ one statement }
    {
        match statement? {
            Statement::Begins(span) => Some(Embargo {
                begins: Some(span),
                ends: None,
            }),
            Statement::Ends(span) => Some(Embargo {
                begins: None,
                ends: Some(span),
            }),
        }
    }

    fn of_both(first: Option<Statement>, second: Option<Statement>) -> Option<Embargo>
        ensures { result ≡ both first second }
    {
        match (first?, second?) {
            (Statement::Begins(begins), Statement::Ends(ends))
            | (Statement::Ends(ends), Statement::Begins(begins)) => Some(Embargo {
                begins: Some(begins),
                ends: Some(ends),
            }),
            _ => None,
        }
    }

    fn read_trimmed(text: &[u8]) -> Option<Embargo>
        ensures { result ≡ embargo_in text.now }
    {
        if text.is_empty() {
            return Some(Embargo::NONE);
        }
        match split_once(text, b';') {
            Some((first, second)) => Embargo::of_both(
                read_statement(trim_spaces(first)),
                read_statement(trim_spaces(second)),
            ),
            None => Embargo::of_one(read_statement(text)),
        }
    }

    /// Parses `embargo_info`: nothing, or one statement or two joined by `;`, each `R` or `P`, a length of one to nine
    /// digits that is not 0, and `D`, `M` or `Y`, in any case. Of two, one is `R` and one is `P`. Spaces at the ends of
    /// the text and of each statement do not count. Returns `None` for any other text.
    pub fn read(text: &[u8]) -> Option<Embargo>
        ensures { result ≡ embargo_of text.now }
    {
        Embargo::read_trimmed(trim_spaces(text))
    }

    /// Returns the days of a coverage that are open today. The coverage is from a first day to a last one, counted from
    /// 1970-01-01, as far as there are such.
    pub fn open_days(&self, today: &Today, first: Option<i32>, last: Option<i32>) -> OpenDays
        ensures { result ≡ open_days today.now self.now first last }
    {
        OpenDays {
            first: later(first.map(i64::from), starts(self.begins, today)),
            last: earlier(last.map(i64::from), eves(self.ends, today)),
        }
    }
}

/// The days that are open to readers, counted from 1970-01-01: from a first one to a last one, both included, as far as
/// there are such. If the last one is before the first one, no day is open.
#[derive(Clone, Copy, Debug, PartialEq, Eq)]
pub struct OpenDays {
    pub first: Option<i64>,
    pub last: Option<i64>,
}

// The later of two first days.
pub(crate) fn later(one: Option<i64>, other: Option<i64>) -> Option<i64>
    ensures { result ≡ later one other }
{
    match (one, other) {
        (Some(one), Some(other)) => Some(one.max(other)),
        (Some(one), None) => Some(one),
        (None, other) => other,
    }
}

// The earlier of two last days.
pub(crate) fn earlier(one: Option<i64>, other: Option<i64>) -> Option<i64>
    ensures { result ≡ earlier one other }
{
    match (one, other) {
        (Some(one), Some(other)) => Some(one.min(other)),
        (Some(one), None) => Some(one),
        (None, other) => other,
    }
}
