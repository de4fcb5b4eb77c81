//! The version and the formats that an OpenURL names, as proxies and older sources write them.
ghost use Rattle.std.specs.Prelude.{◌≡◌, IfOk};
ghost use Rattle.std.specs.List.{list_any};
ghost use Rattle.feed_openurl.specs.Kinds.{is_text, names_format, names_other_format, names_other_version};

use crate::value::Value;
use feed_answer::{BOOK, JOURNAL, decode_text};
use feed_bytes::trim_spaces;
use std::alloc::{AllocError, Global};

const VERSION: &str = "Z39.88-2004";

/// The formats that an OpenURL names.
#[derive(Clone, Copy)]
pub(crate) struct FormatNames {
    pub(crate) journal: bool,
    pub(crate) book: bool,
}

// Whether a value is this text, ignoring its case, spaces at its ends, and that it was encoded twice.
fn is_text(alloc: Global, value: &[u8], text: &str) -> Result<bool, AllocError>
    ensures { IfOk result (λ is. is ≡ is_text text.now value.now) }
{
    let value = decode_text(alloc, value)?;
    Ok(trim_spaces(value.as_slice()).eq_ignore_ascii_case(text.as_bytes()))
}

fn names_other_version(alloc: Global, value: &Value<'_>) -> Result<bool, AllocError>
    ensures { IfOk result (λ is. is ≡ names_other_version value.now) }
{
    Ok(
        value.is_version()
            && !is_text(alloc, value.text(), "")?
            && !is_text(alloc, value.text(), VERSION)?,
    )
}

/// Returns whether a value names another version.
pub(crate) fn has_other_version(alloc: Global, values: &[Value<'_>]) -> Result<bool, AllocError>
    ensures { IfOk result (λ has. has ≡ list_any names_other_version values.now) }
{
    for value in values {
        if names_other_version(alloc, value)? {
            return Ok(true);
        }
    }
    Ok(false)
}

fn names_other_format(alloc: Global, value: &Value<'_>) -> Result<bool, AllocError>
    ensures { IfOk result (λ is. is ≡ names_other_format value.now) }
{
    if !value.is_format() || is_text(alloc, value.text(), "")? {
        return Ok(false);
    }
    Ok(!is_text(alloc, value.text(), JOURNAL)? && !is_text(alloc, value.text(), BOOK)?)
}

/// Returns whether a value names a format other than those of journals and of books.
pub(crate) fn has_other_format(alloc: Global, values: &[Value<'_>]) -> Result<bool, AllocError>
    ensures { IfOk result (λ has. has ≡ list_any names_other_format values.now) }
{
    for value in values {
        if names_other_format(alloc, value)? {
            return Ok(true);
        }
    }
    Ok(false)
}

/// Returns whether a value names this format.
pub(crate) fn has_format(
    alloc: Global,
    values: &[Value<'_>],
    format: &str,
) -> Result<bool, AllocError>
    ensures { IfOk result (λ has. has ≡ list_any (names_format format.now) values.now) }
{
    for value in values {
        if value.is_format() && is_text(alloc, value.text(), format)? {
            return Ok(true);
        }
    }
    Ok(false)
}
