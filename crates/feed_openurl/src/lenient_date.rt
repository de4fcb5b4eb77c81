//! The first date in a value that has another form than the core's.
ghost use Rattle.std.specs.Prelude.{◌≡◌, ◌≤◌, IfOk, filter, length};
ghost use Rattle.std.specs.List.{list_any};
ghost use Rattle.feed_openurl.specs.Fronts.{front_len};
ghost use Rattle.feed_openurl.specs.Dates.{date_after_year, date_among, date_of_part, date_with_year_last, day_after};
ghost use Rattle.feed_openurl.specs.Dates.{closed, date_in_month, day_behind, first_year, has_year, is_before};
ghost use Rattle.feed_openurl.specs.Dates.{is_between, is_month, is_open, numbered};
ghost use Rattle.feed_openurl.specs.Dates.{is_no_semicolon, is_season, is_single, is_small, lenient_date};
ghost use Rattle.feed_openurl.specs.Dates.{named_date, named_month, numeric_date, pass_a_year};
ghost use Rattle.feed_openurl.specs.Dates.{plausible, year_first_of, year_last, year_of};

use crate::date::DateText;
use crate::tokens::{Token, tokens};
use feed_bytes::trim_spaces;
use std::alloc::{AllocError, Global};

// A year from 1000 to 2099.
fn plausible(year: [u8; 4]) -> Option<[u8; 4]>
    ensures { result ≡ plausible year }
{
    let [a, b, _, _] = year;
    if a == b'1' || (a == b'2' && b == b'0') {
        Some(year)
    } else {
        None
    }
}

fn year_of(token: Token) -> Option<[u8; 4]>
    ensures { result ≡ year_of token }
{
    match token {
        Token::Year(year) => plausible(year),
        Token::Packed(year, _, _) => plausible(year),
        _ => None,
    }
}

fn first_year(tokens: &[Token]) -> Option<[u8; 4]>
    ensures { result ≡ first_year tokens.now }
{
    for token in tokens {
        if let Some(year) = year_of(*token) {
            return Some(year);
        }
    }
    None
}

// Whether a mark separates the parts of a date.
fn is_between(mark: u8) -> bool
    ensures { result ≡ is_between mark }
{
    mark == b'-' || mark == b'/' || mark == b'.'
}

// The small number at the front, or 0. A mark may be before it.
fn day_after(tokens: &[Token]) -> u8
    ensures { result ≡ day_after tokens.now }
{
    match tokens {
        [Token::Small(day), ..] => *day,
        [Token::Mark(mark), Token::Small(day), ..] => {
            if is_between(*mark) || *mark == b',' {
                *day
            } else {
                0
            }
        }
        _ => 0,
    }
}

// The first month that is named, with the small number beside it, or 0.
fn named_month(tokens: &[Token]) -> Option<(u8, u8)>
    ensures { result ≡ named_month 0 tokens.now }
{
    let mut before = 0;
    for place in 0..tokens.len() {
        match tokens[place] {
            Token::Month(month) => {
                let day = if before > 0 {
                    before
                } else {
                    day_after(&tokens[place + 1..])
                };
                return Some((month, day));
            }
            Token::Small(day) => before = day,
            Token::Mark(mark) => {
                if !is_between(mark) {
                    before = 0;
                }
            }
            _ => before = 0,
        }
    }
    None
}

// How many small numbers there are.
fn count_of_small(tokens: &[Token]) -> usize
    ensures { result ≡ length (filter is_small tokens.now) }
{
    let mut count = 0;
    for token in tokens {
        if let Token::Small(_) = token {
            count += 1;
        }
    }
    count
}

// How many names of months there are.
fn count_of_months(tokens: &[Token]) -> usize
    ensures { result ≡ length (filter is_month tokens.now) }
{
    let mut count = 0;
    for token in tokens {
        if let Token::Month(_) = token {
            count += 1;
        }
    }
    count
}

// Whether there is one small number, and one name of a month.
fn is_single(tokens: &[Token]) -> bool
    ensures { result ≡ is_single tokens.now }
{
    count_of_small(tokens) == 1 && count_of_months(tokens) == 1
}

// Whether a month before this one is named.
fn has_month_before(tokens: &[Token], month: u8) -> bool
    ensures { result ≡ list_any (is_before month) tokens.now }
{
    for token in tokens {
        if let Token::Month(other) = token {
            if *other < month {
                return true;
            }
        }
    }
    false
}

// How many years there are.
fn count_of_years(tokens: &[Token]) -> usize
    ensures { result ≡ length (filter has_year tokens.now) }
{
    let mut count = 0;
    for token in tokens {
        if year_of(*token).is_some() {
            count += 1;
        }
    }
    count
}

// Whether the months pass the end of a year, and only one year is named, as in `Dec-Jan 2006`.
fn pass_a_year(tokens: &[Token], month: u8) -> bool
    ensures { result ≡ pass_a_year tokens.now month }
{
    has_month_before(tokens, month) && count_of_years(tokens) == 1
}

// The date of a year and a month that is named. The only small number beside the only month is the day.
fn date_in_month(tokens: &[Token], year: [u8; 4], month: u8, day: u8) -> Option<DateText>
    ensures { result ≡ date_in_month tokens.now year (month, day) }
{
    if is_single(tokens) {
        DateText::of_parts(year, month, day)
    } else {
        DateText::of_parts(year, month, 0)
    }
}

// The date of a year and the first month that is named.
fn named_date(tokens: &[Token], year: [u8; 4], month: u8, day: u8) -> Option<DateText>
    ensures { result ≡ named_date tokens.now year (month, day) }
{
    if pass_a_year(tokens, month) {
        DateText::of_parts(year, 0, 0)
    } else {
        date_in_month(tokens, year, month, day)
    }
}

// The date of three numbers with the year last. With dots the day is first. Otherwise the number above 12 is the day,
// and two that could change places are neither.
fn date_with_year_last(first: u8, mark: u8, second: u8, year: [u8; 4]) -> Option<DateText>
    ensures { result ≡ date_with_year_last first mark second year }
{
    if mark == b'.' || first > 12 || first == second {
        DateText::of_parts(year, second, first)
    } else if second > 12 {
        DateText::of_parts(year, first, second)
    } else {
        DateText::of_parts(year, 0, 0)
    }
}

// The date at the front of some tokens, if it has the year last.
fn year_last(tokens: &[Token]) -> Option<DateText>
    ensures { result ≡ year_last tokens.now }
{
    match tokens {
        [
            Token::Small(first),
            Token::Mark(mark),
            Token::Small(second),
            Token::Mark(other),
            last,
            ..
        ] => {
            if !is_between(*mark) || *mark != *other {
                return None;
            }
            let year = year_of(*last)?;
            date_with_year_last(*first, *mark, *second, year)
        }
        _ => None,
    }
}

// The small number behind the same mark, or 0.
fn day_behind(mark: u8, tokens: &[Token]) -> u8
    ensures { result ≡ day_behind mark tokens.now }
{
    match tokens {
        [Token::Mark(other), Token::Small(day), ..] => { if mark == *other { *day } else { 0 } }
        _ => 0,
    }
}

fn numbered(year: [u8; 4], mark: u8, month: u8, day: u8) -> Option<DateText>
    ensures { result ≡ numbered year mark month day }
{
    if is_between(mark) {
        DateText::of_parts(year, month, day)
    } else {
        DateText::of_parts(year, 0, 0)
    }
}

// The date of a year and of the numbers behind it.
fn date_after_year(year: [u8; 4], tokens: &[Token]) -> Option<DateText>
    ensures { result ≡ date_after_year year tokens.now }
{
    match tokens {
        [Token::Mark(mark), Token::Small(month), rest @ ..] => {
            numbered(year, *mark, *month, day_behind(*mark, rest))
        }
        _ => DateText::of_parts(year, 0, 0),
    }
}

// The date of a token and of the tokens behind it, if the token has a year.
fn year_first(token: Token, tokens: &[Token]) -> Option<DateText>
    ensures { result ≡ year_first_of (year_of token) token tokens.now }
{
    let year = year_of(token)?;
    match token {
        Token::Packed(_, month, day) => DateText::of_parts(year, month, day),
        _ => date_after_year(year, tokens),
    }
}

// The first date in numbers.
fn numeric_date(tokens: &[Token]) -> Option<DateText>
    ensures { result ≡ numeric_date tokens.now }
{
    for place in 0..tokens.len() {
        if let Some(date) = year_last(&tokens[place..]) {
            return Some(date);
        }
        if let Some(date) = year_first(tokens[place], &tokens[place + 1..]) {
            return Some(date);
        }
    }
    None
}

// Whether a season is named.
fn has_season(tokens: &[Token]) -> bool
    ensures { result ≡ list_any is_season tokens.now }
{
    for token in tokens {
        if let Token::Season = token {
            return true;
        }
    }
    false
}

// The first date among the tokens of a part of a value.
fn date_among(tokens: &[Token]) -> Option<DateText>
    ensures { result ≡ date_among tokens.now }
{
    let year = first_year(tokens)?;
    match named_month(tokens) {
        Some((month, day)) => named_date(tokens, year, month, day),
        None => {
            if has_season(tokens) {
                DateText::of_parts(year, 0, 0)
            } else {
                numeric_date(tokens)
            }
        }
    }
}

// Whether a text ends in a hyphen, as `1936-` for all years since.
fn is_open(text: &[u8]) -> bool
    ensures { result ≡ is_open text.now }
{
    &text[text.len().saturating_sub(1)..] == b"-".as_slice()
}

// A date, unless it is the year in which a run of years begins that has no end.
fn closed(is_open_run: bool, date: Option<DateText>) -> Option<DateText>
    ensures { result ≡ closed is_open_run date }
{
    match date {
        Some(date) if is_open_run && date.as_bytes().len() == 4 => None,
        _ => date,
    }
}

fn date_of_part(alloc: Global, text: &[u8]) -> Result<Option<DateText>, AllocError>
    ensures { IfOk result (λ date. date ≡ date_of_part text.now) }
{
    let tokens = tokens(alloc, text)?;
    Ok(closed(is_open(trim_spaces(text)), date_among(&tokens)))
}

// How many bytes are before a semicolon.
fn part_length(text: &[u8]) -> usize
    ensures value { result ≡ front_len is_no_semicolon text.now }
    ensures bound { result ≤ length text.now }
{
    for place in 0..text.len() {
        if text[place] == b';' {
            return place;
        }
    }
    text.len()
}

/// Returns the first date in a value in ASCII: before a semicolon, or else behind it.
pub(crate) fn lenient_date(alloc: Global, value: &[u8]) -> Result<Option<DateText>, AllocError>
    ensures { IfOk result (λ date. date ≡ lenient_date value.now) }
{
    let (front, rest) = value.split_at(part_length(value));
    match date_of_part(alloc, front)? {
        Some(date) => Ok(Some(date)),
        None => date_of_part(alloc, rest),
    }
}
