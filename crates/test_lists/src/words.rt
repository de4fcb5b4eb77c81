//! Splits a line into its words.
use crate::fault::ListsDriverFault;
use crate::slow::Calls;

/// The text before the first space, and the text after it.
pub fn split_word(text: &str) -> (&str, &str) {
    text.split_once(' ').unwrap_or((text, ""))
}

/// The words that are left of a line. It remembers the first fault, so that a command checks its words once.
#[derive(Clone, Copy)]
pub struct CommandWords<'a> {
    pub rest: &'a str,
    fault: Option<ListsDriverFault>,
}

impl<'a> CommandWords<'a> {
    pub fn new(rest: &'a str) -> CommandWords<'a> {
        CommandWords { rest, fault: None }
    }

    /// Returns the first fault of the words.
    pub fn check(&self) -> Result<(), ListsDriverFault> {
        match self.fault {
            Some(fault) => Err(fault),
            None => Ok(()),
        }
    }

    fn reject(&mut self, why: &'static str) {
        if self.fault.is_none() {
            self.fault = Some(ListsDriverFault(why));
        }
    }

    /// Returns the next word, or an empty text if it is missing.
    pub fn word(&mut self) -> &'a str {
        let (word, rest) = split_word(self.rest);
        if word.is_empty() {
            self.reject("a word is missing");
        } else {
            self.rest = rest;
        }
        word
    }

    /// Returns the next word as a number, or 0 if it is not one.
    pub fn number(&mut self) -> usize {
        let word = self.word();
        self.parse(word)
    }

    /// Returns a number of calls. With a `+` at its end the reader fails once.
    pub fn calls(&mut self) -> Calls {
        let word = self.word();
        let (digits, fails_once) = match word.strip_suffix('+') {
            Some(digits) => (digits, true),
            None => (word, false),
        };
        let count = self.parse(digits);
        Calls { count, fails_once }
    }

    fn parse(&mut self, word: &str) -> usize {
        if let Ok(number) = word.parse::<usize>() {
            return number;
        }
        self.reject("not a number");
        0
    }
}
