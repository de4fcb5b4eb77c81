//! Tags of languages, colours, names of packages, and dates.
ghost use Rattle.std.specs.Prelude.{◌≡◌};
ghost use Rattle.std.specs.List.{list_all};
ghost use Rattle.node_site.specs.Kinds.{begins_with_dot, is_color, is_date, is_language, is_package, is_primary};
ghost use Rattle.node_site.specs.Kinds.{is_subtag};
ghost use Rattle.node_site.specs.Urls.{parts_between};

use crate::bytes::ByteClass;
use crate::cuts::{before, is_sized};
use feed_dates::DayRange;

// The most bytes of a package's name.
const LONGEST_PACKAGE: usize = 100;

fn is_primary(subtag: &[u8]) -> bool
    ensures { result ≡ is_primary subtag.now }
{
    is_sized(2, 8, subtag) && ByteClass::Letter.has_all(subtag)
}

fn is_subtag(subtag: &[u8]) -> bool
    ensures { result ≡ is_subtag subtag.now }
{
    is_sized(1, 8, subtag) && ByteClass::LetterOrDigit.has_all(subtag)
}

fn are_subtags(tag: &[u8]) -> bool
    ensures { result ≡ list_all is_subtag (parts_between 45 tag.now) }
{
    tag.split(|byte| *byte == b'-')
        .all(|subtag| is_subtag(subtag))
}

/// Returns whether a text is a tag of a language (RFC 5646, section 2.1): letters and digits between hyphens, at most 8
/// each, and at first 2 to 8 letters.
pub(crate) fn is_language(tag: &[u8]) -> bool
    ensures { result ≡ is_language tag.now }
{
    is_primary(before(b'-', tag)) && are_subtags(tag)
}

/// Returns whether a text is `#` and six hexadecimal digits.
pub(crate) fn is_color(text: &[u8]) -> bool
    ensures { result ≡ is_color text.now }
{
    match text.split_first() {
        Some((hash, digits)) => {
            *hash == b'#' && is_sized(6, 6, digits) && ByteClass::HexDigit.has_all(digits)
        }
        None => false,
    }
}

fn begins_with_dot(name: &[u8]) -> bool
    ensures { result ≡ begins_with_dot name.now }
{
    match name.first() {
        Some(byte) => *byte == b'.',
        None => false,
    }
}

/// Returns whether a text is the name of a package, as the name of a release begins with it.
pub(crate) fn is_package(name: &[u8]) -> bool
    ensures { result ≡ is_package name.now }
{
    is_sized(1, LONGEST_PACKAGE, name) && ByteClass::Stem.has_all(name) && !begins_with_dot(name)
}

/// Returns whether a text is a year, a month or a day.
pub(crate) fn is_date(text: &[u8]) -> bool
    ensures { result ≡ is_date text.now }
{
    DayRange::of_text(text).is_some()
}
