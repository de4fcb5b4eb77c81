//! Prints the faults of the crates of HTTP, each value with its text.
use crate::fault::HttpDriverFault;
use feed_dial::DialFault;
use feed_http::ShelfFault;
use feed_http_heads::HttpFault;
use feed_range::{RangeFault, WriteFault};
use std::fmt::{Debug, Display};
use test_support::Out;

// More values than any of the types has.
const MOST: usize = 20;

/// A type of faults whose values can be listed. A value that is added to the type has to be added to `next`, which has
/// a case for each.
trait Listed: Copy + Debug + Display {
    /// Returns the value after this one, if it is not the last.
    fn next(self) -> Option<Self>;
}

impl Listed for HttpFault {
    fn next(self) -> Option<HttpFault> {
        match self {
            HttpFault::Read => Some(HttpFault::Write),
            HttpFault::Write => Some(HttpFault::HeadTooLong),
            HttpFault::HeadTooLong => Some(HttpFault::BadHead),
            HttpFault::BadHead => Some(HttpFault::Status(302)),
            HttpFault::Status(_) => Some(HttpFault::Coding),
            HttpFault::Coding => Some(HttpFault::Length),
            HttpFault::Length => Some(HttpFault::Range),
            HttpFault::Range => Some(HttpFault::Short),
            HttpFault::Short => Some(HttpFault::BodyTooLong),
            HttpFault::BodyTooLong => Some(HttpFault::Memory),
            HttpFault::Memory => Some(HttpFault::Shelf),
            HttpFault::Shelf => None,
        }
    }
}

impl Listed for ShelfFault {
    fn next(self) -> Option<ShelfFault> {
        match self {
            ShelfFault::Device => Some(ShelfFault::Memory),
            ShelfFault::Memory => None,
        }
    }
}

impl Listed for DialFault {
    fn next(self) -> Option<DialFault> {
        match self {
            DialFault::Connect => Some(DialFault::Memory),
            DialFault::Memory => None,
        }
    }
}

impl Listed for RangeFault {
    fn next(self) -> Option<RangeFault> {
        match self {
            RangeFault::BadSyntax => Some(RangeFault::Invalid),
            RangeFault::Invalid => Some(RangeFault::TooBig),
            RangeFault::TooBig => None,
        }
    }
}

impl Listed for WriteFault {
    fn next(self) -> Option<WriteFault> {
        match self {
            WriteFault::Write => None,
        }
    }
}

/// Prints each fault: its type, its value and its text.
pub fn print_faults(out: &mut Out<'_>) -> Result<(), HttpDriverFault> {
    print_from(out, "HttpFault", HttpFault::Read);
    print_from(out, "ShelfFault", ShelfFault::Device);
    print_from(out, "DialFault", DialFault::Connect);
    print_from(out, "RangeFault", RangeFault::BadSyntax);
    print_from(out, "WriteFault", WriteFault::Write);
    Ok(())
}

fn print_from<F: Listed>(out: &mut Out<'_>, name: &str, first: F) {
    let mut fault = first;
    for _ in 0..MOST {
        print_fault(out, name, fault);
        let Some(next) = fault.next() else {
            break;
        };
        fault = next;
    }
}

fn print_fault<F: Listed>(out: &mut Out<'_>, name: &str, fault: F) {
    out.print(format_args!("{name} {fault:?}: {fault}\n"));
}
