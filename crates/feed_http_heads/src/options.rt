//! The options that a field lists, as Connection lists `close` (RFC 9110, sections 5.6.1 and 7.6.1).
ghost use Rattle.std.specs.Prelude.{◌≡◌, not, length, List};
ghost use Rattle.httparse.specs.Grammar.{Field, is_ows, trim_ows};
ghost use Rattle.httparse.specs.Spans.{IsHeaderWithin};
ghost use Rattle.feed_http_heads.specs.Fields.{has_other_name_or, AreWithin, AreFieldsOf};
ghost use Rattle.feed_http_heads.specs.Options.{is_option, lists, lacks_option};

use crate::fields::{Fields, is_named};
use feed_bytes::split_once;
use httparse::spans::HeaderSpan;

fn is_ows(byte: u8) -> bool
    ensures { result ≡ is_ows byte }
{
    byte == b' ' || byte == b'\t'
}

#[tactic(auto, unfolding(httparse::specs::Grammar::trim_ows))]
fn trim_ows(text: &[u8]) -> &[u8]
    ensures { result.now ≡ trim_ows text.now }
{
    let mut rest = text;
    while let Some((first, tail)) = rest.split_first()
        && is_ows(*first)
    {
        rest = tail;
    }
    while let Some((last, front)) = rest.split_last()
        && is_ows(*last)
    {
        rest = front;
    }
    rest
}

fn is_option(option: &[u8], element: &[u8]) -> bool
    ensures { result ≡ is_option option.now element.now }
{
    trim_ows(element).eq_ignore_ascii_case(option)
}

fn lists(option: &[u8], value: &[u8]) -> bool
    ensures { result ≡ lists option.now value.now }
{
    let mut rest = value;
    while let Some((element, more)) = split_once(rest, b',') {
        if is_option(option, element) {
            return true;
        }
        rest = more;
    }
    is_option(option, rest)
}

fn has_other_name_or_lacks(buffer: &[u8], header: HeaderSpan, name: &[u8], option: &[u8]) -> bool
    requires { IsHeaderWithin (length buffer.now) header }
    ensures { result ≡ has_other_name_or (λ value. not (lists option.now value)) buffer.now name.now header }
{
    !is_named(buffer, header, name) || !lists(option, header.value.of(buffer))
}

impl<'b> Fields<'b> {
    /// Returns whether no field of this name lists the option, ignoring case.
    pub fn lacks_option(&self, name: &[u8], option: &[u8]) -> bool
        requires { AreWithin self.now }
        ensures { (fields : List Field) → AreFieldsOf self.now fields
            → result ≡ lacks_option name.now option.now fields }
    {
        for header in self.headers {
            if !has_other_name_or_lacks(self.buffer, *header, name, option) {
                return false;
            }
        }
        true
    }
}
