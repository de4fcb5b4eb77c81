//! Exit statuses, and a writer that reports faults.
ghost use Rattle.std.specs.Prelude.{◌≡◌, ◌⊎◌, IfErr, IfOk};

use std::io::{ErrorKind, Write};
use std::{fmt, io};

/// Success.
pub const DONE: u8 = 0;

/// Refused because of the content of a script, a file, a query or a database.
pub const REFUSED: u8 = 1;

/// Invalid arguments.
pub const MISUSED: u8 = 2;

/// A failing device, or running out of memory.
pub const FAILED: u8 = 3;

/// A writer of faults, each a line with its name. If it is verbose, a second line says what the fault is about and its
/// cause.
#[derive(Drop)]
pub struct Faults<F: Write + Drop> {
    out: F,
    is_verbose: bool,
}

impl<F: Write + Drop> Faults<F> {
    pub fn new(out: F, is_verbose: bool) -> Faults<F> {
        Faults { out, is_verbose }
    }

    /// Returns the writer of the lines.
    pub fn out(&mut self) -> &mut F {
        &mut self.out
    }

    /// Prints a fault and returns the status, or `FAILED` if the line is not printed.
    pub fn report<D: fmt::Display + Drop>(&mut self, fault: D, status: u8) -> u8
        ensures { (result ≡ status) ⊎ (result ≡ FAILED) }
    {
        match writeln!(&mut self.out, "kbfeed: {fault}") {
            Ok(()) => status,
            Err(_) => FAILED,
        }
    }

    /// Prints the cause of something, if it is verbose, and returns the status, or `FAILED` if the line is not printed.
    pub fn explain<C: fmt::Display + Drop>(&mut self, about: &str, cause: C, status: u8) -> u8
        ensures { (result ≡ status) ⊎ (result ≡ FAILED) }
    {
        if !self.is_verbose {
            return status;
        }
        match writeln!(&mut self.out, "{about}: {cause}") {
            Ok(()) => status,
            Err(_) => FAILED,
        }
    }

    /// Prints a fault and then its cause, as `report` and `explain` do, and returns the status.
    pub fn report_with<D: fmt::Display + Drop, C: fmt::Display + Drop>(
        &mut self,
        fault: D,
        about: &str,
        cause: C,
        status: u8,
    ) -> u8
        ensures { (result ≡ status) ⊎ (result ≡ FAILED) }
    {
        let status = self.report(fault, status);
        self.explain(about, cause, status)
    }

    /// Prints a note, if it is verbose. A note that is not printed changes no status.
    pub fn note<D: fmt::Display + Drop>(&mut self, about: &str, what: D) {
        let _ = self.explain(about, what, DONE);
    }

    /// Reports that something does not open or read, with the system's error, and returns the status.
    pub fn report_read(&mut self, about: &str, error: io::Error) -> u8
        ensures { result ≡ FAILED }
    {
        match error.kind() {
            ErrorKind::OutOfMemory => self.report("Memory", FAILED),
            _ => self.report_with("Read", about, error, FAILED),
        }
    }

    /// Returns the status of a run whose output was printed, or reports the error. A reader that has closed the pipe is
    /// not reported.
    pub fn check_print(&mut self, outcome: io::Result<()>, status: u8) -> u8
        ensures printed { IfOk outcome (λ _. result ≡ status) }
        ensures failed { IfErr outcome (λ _. result ≡ FAILED) }
    {
        match outcome {
            Ok(()) => status,
            Err(error) => match error.kind() {
                ErrorKind::BrokenPipe => FAILED,
                ErrorKind::OutOfMemory => self.report("Memory", FAILED),
                _ => self.report_with("Write", "standard output", error, FAILED),
            },
        }
    }

    /// Reports that the output was not printed, for an error that the caller does not have: the rest of the output
    /// meets it again. Returns the status.
    pub fn report_unprinted<O: Write>(&mut self, out: &mut O) -> u8
        ensures { result ≡ FAILED }
    {
        match out.flush() {
            Ok(()) => self.report("Write", FAILED),
            Err(error) => self.check_print(Err(error), FAILED),
        }
    }
}
