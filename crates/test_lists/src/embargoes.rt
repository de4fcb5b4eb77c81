//! The command that evaluates an embargo on a day.
use crate::fault::ListsDriverFault;
use crate::words::CommandWords;
use feed_answer::{Availability, Embargo, OpenDays, Today, availability_of};
use feed_dates::{DayRange, read_date, write_date};
use test_support::Out;

pub fn embargo(out: &mut Out<'_>, mut words: CommandWords<'_>) -> Result<(), ListsDriverFault> {
    let today = today_of(words.word());
    let first = days_of(words.word());
    let last = days_of(words.word());
    let asked = days_of(words.word());
    words.check()?;
    match today {
        Some(today) => print_embargo(
            out,
            &today,
            words.rest.as_bytes(),
            (first_of(first), last_of(last)),
            asked,
        ),
        None => out.line("none"),
    }
    Ok(())
}

fn today_of(word: &str) -> Option<Today> {
    Today::new(read_date(word.as_bytes())?)
}

fn days_of(word: &str) -> Option<DayRange> {
    DayRange::of_text(word.as_bytes())
}

fn first_of(days: Option<DayRange>) -> Option<i32> {
    Some(days?.first)
}

fn last_of(days: Option<DayRange>) -> Option<i32> {
    Some(days?.last)
}

// Prints the open days of the covered ones, and how the days of a date lie in them.
fn print_embargo(
    out: &mut Out<'_>,
    today: &Today,
    text: &[u8],
    covered: (Option<i32>, Option<i32>),
    asked: Option<DayRange>,
) {
    let (first, last) = covered;
    match Embargo::read(text) {
        Some(embargo) => print_open(out, embargo.open_days(today, first, last)),
        None => out.word("bad\tform"),
    }
    print_availability(out, availability_of(today, text, first, last, asked));
}

fn print_availability(out: &mut Out<'_>, availability: Availability) {
    out.print(format_args!("\t{availability:?}\n"));
}

// Prints the first and the last of the open days. Days before the year 1 do not count.
fn print_open(out: &mut Out<'_>, opened: OpenDays) {
    let is_empty = match (opened.first, opened.last) {
        (Some(first), Some(last)) => last < first,
        (None, Some(last)) => date_of(last).is_none(),
        _ => false,
    };
    if is_empty {
        return out.word("none\tnone");
    }
    print_day(out, opened.first);
    out.word("\t");
    print_day(out, opened.last);
}

fn print_day(out: &mut Out<'_>, day: Option<i64>) {
    if let Some(day) = day {
        print_date(out, date_of(day));
    }
}

fn print_date(out: &mut Out<'_>, date: Option<[u8; 10]>) {
    match date {
        Some(date) => out.text(&date),
        None => out.word("before the year 1"),
    }
}

fn date_of(day: i64) -> Option<[u8; 10]> {
    write_date(i32::try_from(day).ok()?)
}
