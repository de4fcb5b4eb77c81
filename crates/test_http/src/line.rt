//! Splits a line into words.
use crate::escapes::unescaped;
use crate::fault::{HttpDriverFault, NO_NUMBER};
use feed_http::Method;
use feed_names::ReleaseName;
use std::alloc::Global;

/// The rest of a line. It remembers the first fault of its words, so that a command checks them once.
#[derive(Clone, Copy)]
pub struct CommandLine<'a> {
    rest: Option<&'a str>,
    fault: Option<HttpDriverFault>,
}

impl<'a> CommandLine<'a> {
    pub fn new(text: &'a str) -> CommandLine<'a> {
        CommandLine {
            rest: Some(text),
            fault: None,
        }
    }

    /// Returns the first fault of the words.
    pub fn check(&self) -> Result<(), HttpDriverFault> {
        match self.fault {
            Some(fault) => Err(fault),
            None => Ok(()),
        }
    }

    fn reject(&mut self, fault: HttpDriverFault) {
        if self.fault.is_none() {
            self.fault = Some(fault);
        }
    }

    /// Returns the next word, and moves past it. It is empty if it is missing.
    pub fn word(&mut self) -> &'a str {
        let Some(text) = self.rest else {
            self.reject(HttpDriverFault("a word is missing"));
            return "";
        };
        let Some((word, rest)) = text.split_once(' ') else {
            self.rest = None;
            return text;
        };
        self.rest = Some(rest);
        word
    }

    /// Returns the next word as a number, or 0 if it is not one.
    pub fn number(&mut self) -> u64 {
        if let Ok(number) = self.word().parse::<u64>() {
            return number;
        }
        self.reject(NO_NUMBER);
        0
    }

    /// Returns the next word as a number, or 0 if it is not one.
    pub fn count(&mut self) -> usize {
        if let Ok(count) = self.word().parse::<usize>() {
            return count;
        }
        self.reject(NO_NUMBER);
        0
    }

    /// Returns whether the next word is the first of two.
    pub fn flag(&mut self, yes: &str, no: &str) -> bool {
        let word = self.word();
        let is_first = word == yes;
        if !is_first && word != no {
            self.reject(HttpDriverFault("not one of the two words that are allowed here"));
        }
        is_first
    }

    /// Returns the next word as a method, or GET if it is not one.
    pub fn method(&mut self) -> Method {
        match self.word() {
            "head" => return Method::Head,
            "get" => {}
            _ => self.reject(HttpDriverFault("not a method: get or head")),
        }
        Method::Get
    }

    pub fn name(&mut self, alloc: Global) -> Result<ReleaseName, HttpDriverFault> {
        let word = self.word();
        self.check()?;
        match ReleaseName::parse(alloc, word.as_bytes()) {
            Ok(name) => Ok(name),
            Err(_) => Err(HttpDriverFault("not the name of a release")),
        }
    }

    /// Returns the bytes that the rest denotes. They are none if the line ended before.
    pub fn text(&self, alloc: Global) -> Result<Vec<u8>, HttpDriverFault> {
        self.check()?;
        unescaped(alloc, self.rest.unwrap_or(""))
    }
}
