//! Texts without their case, and whether one occurs in another.
ghost use Rattle.std.specs.Prelude.{◌≡◌, IfOk, OnOk, map};
ghost use Rattle.std.specs.Char.{is_ascii, to_ascii_lowercase};
ghost use Rattle.std.specs.List.{list_all};
ghost use Rattle.std.specs.Str.{chars, encode_utf8_all};
ghost use Rattle.caseless.specs.Caseless.{default_case_fold};
ghost use Rattle.node_titles.specs.Titles.{folded, has_part};

use caseless::default_case_fold_str;
use memchr::memmem::Finder;
use std::alloc::AllocError;

fn is_ascii(text: &[u8]) -> bool
    ensures { result ≡ list_all is_ascii text.now }
{
    text.iter().all(|byte| byte.is_ascii())
}

// Replaces a text by another one with its ASCII letters in lower case.
fn put_lowercase(buffer: &mut Vec<u8>, text: &[u8]) -> Result<(), AllocError>
    ensures { OnOk result (buffer.new.items ≡ map to_ascii_lowercase text.now) }
{
    buffer.clear();
    buffer.extend_from_slice(text)?;
    buffer.make_ascii_lowercase();
    Ok(())
}

// Replaces a text by another one with its case folded.
fn put_case_folded(buffer: &mut Vec<u8>, text: &str) -> Result<(), AllocError>
    ensures { OnOk result (buffer.new.items ≡ encode_utf8_all (default_case_fold (chars text.now))) }
{
    let text = default_case_fold_str(*buffer.allocator(), text)?;
    buffer.clear();
    Ok(buffer.extend_from_slice(text.as_bytes())?)
}

/// Replaces a text by another one without its case.
#[tactic(auto, unfolding(crate::specs::Titles::folded))]
pub(crate) fn fold_case(buffer: &mut Vec<u8>, text: &[u8]) -> Result<(), AllocError>
    ensures { OnOk result (buffer.new.items ≡ folded text.now) }
{
    if is_ascii(text) {
        return put_lowercase(buffer, text);
    }
    match str::from_utf8(text) {
        Ok(text) => put_case_folded(buffer, text),
        Err(_) => put_lowercase(buffer, text),
    }
}

fn is_in(finder: &Finder<'_>, text: &[u8]) -> bool
    ensures { result ≡ has_part finder.now text.now }
{
    finder.find(text).is_some()
}

/// Returns whether a text without its case contains what is searched for. Keeps that text in a buffer.
pub(crate) fn contains(
    finder: &Finder<'_>,
    buffer: &mut Vec<u8>,
    text: &[u8],
) -> Result<bool, AllocError>
    ensures { IfOk result (λ is. is ≡ has_part finder.now (folded text.now)) }
{
    fold_case(buffer, text)?;
    Ok(is_in(finder, buffer))
}
