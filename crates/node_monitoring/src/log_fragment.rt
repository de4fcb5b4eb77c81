//! The fragments of a line.
ghost use Rattle.std.specs.Prelude.{◌≡◌, ◌++◌, OnOk};
ghost use Rattle.node_monitoring.specs.LogFragments.{or_dash};

use crate::log_escape::{put, put_escaped};
use crate::log_time::put_time;
use feed_bytes::{PutFragment, put_number};
use std::alloc::AllocError;

/// A fragment of a line.
#[derive(Clone, Copy)]
pub(crate) enum LogFragment<'a, 's> {
    /// These bytes.
    Plain(&'a [u8]),
    /// A text of a client, escaped.
    Escaped(&'a [u8]),
    /// A text of a client, escaped, or a dash if it is empty.
    OrDash(&'a [u8]),
    /// The name of a site's file, escaped, or a dash if it is empty.
    Site(&'s [u8]),
    /// A number in decimal digits.
    Number(u64),
    /// A time in seconds since 1970-01-01, in UTC.
    Time(u64),
}

fn put_or_dash(out: &mut Vec<u8>, text: &[u8]) -> Result<(), AllocError>
    ensures { OnOk result (out.new.items ≡ out.old.items ++ or_dash text.now) }
{
    if text.is_empty() {
        put(out, b"-")
    } else {
        put_escaped(out, text)
    }
}

impl PutFragment for LogFragment<'_, '_> {
    ghost use Rattle.node_monitoring.specs.LogFragments.{fragment_text};

    ghost text = { fragment_text };

    fn put(&self, out: &mut Vec<u8>) -> Result<(), AllocError> {
        match self {
            LogFragment::Plain(text) => put(out, text),
            LogFragment::Escaped(text) => put_escaped(out, text),
            LogFragment::OrDash(text) => put_or_dash(out, text),
            LogFragment::Site(name) => put_or_dash(out, name),
            LogFragment::Number(number) => put_number(out, *number),
            LogFragment::Time(seconds) => put_time(out, *seconds),
        }
    }
}
