//! The standard output of the drivers of lists and of HTTP.
use std::fmt::Display;

/// Prints on the standard output. It remembers a failure, and prints nothing after it, so that no caller has an error
/// to pass on before the end of the line.
#[derive(Drop)]
pub struct Out<'a> {
    /// The process of the driver.
    pub rt: &'a HostRuntime,
    has_failed: bool,
}

impl<'a> Out<'a> {
    /// Returns an output on which nothing was printed.
    pub fn new(rt: &'a HostRuntime) -> Out<'a> {
        Out {
            rt,
            has_failed: false,
        }
    }

    /// Returns whether a print has failed.
    pub fn has_failed(&self) -> bool {
        self.has_failed
    }

    /// Prints a value.
    pub fn print<T: Display + Drop>(&mut self, value: T) {
        if !self.has_failed {
            self.has_failed = self.rt.print(value).is_err();
        }
    }

    /// Prints a word.
    pub fn word(&mut self, word: &str) {
        self.print(word);
    }

    /// Prints a word, and ends the line.
    pub fn line(&mut self, word: &str) {
        self.print(word);
        self.print("\n");
    }

    /// Prints bytes that are text.
    pub fn text(&mut self, text: &[u8]) {
        self.print(str::from_utf8(text).unwrap_or("not UTF-8"));
    }

    /// Prints a number.
    pub fn number(&mut self, number: u64) {
        self.print(number);
    }

    /// Prints a text and a number.
    pub fn labelled(&mut self, before: &str, number: u64) {
        self.print(before);
        self.print(number);
    }

    /// Prints `Some(NUMBER)` or `None`.
    pub fn option(&mut self, number: Option<u64>) {
        match number {
            Some(number) => self.some(number),
            None => self.print("None"),
        }
    }

    fn some(&mut self, number: u64) {
        self.labelled("Some(", number);
        self.print(")");
    }

    /// Prints a number, or `none`.
    pub fn maybe_number(&mut self, number: Option<u32>) {
        match number {
            Some(number) => self.number(u64::from(number)),
            None => self.word("none"),
        }
    }

    /// Prints a day, counted from 1970-01-01.
    pub fn day(&mut self, day: i32) {
        self.print(day);
    }

    /// Prints a day, counted from 1970-01-01, or `none`.
    pub fn maybe_day(&mut self, day: Option<i32>) {
        match day {
            Some(day) => self.day(day),
            None => self.word("none"),
        }
    }

    /// Prints `true` or `false`.
    pub fn flag(&mut self, flag: bool) {
        self.print(if flag { "true" } else { "false" });
    }
}
