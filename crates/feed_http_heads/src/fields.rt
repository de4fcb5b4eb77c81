//! Finding the fields of a head by name (RFC 9110, section 5.1).
ghost use Rattle.std.specs.Prelude.{◌≡◌, List, length, All, IfSome, option_copied};
ghost use Rattle.std.specs.List.{list_all};
ghost use Rattle.std.specs.Str.{str_eq_ignore_ascii_case};
ghost use Rattle.httparse.specs.Grammar.{Field};
ghost use Rattle.httparse.specs.Spans.{IsWithin, IsHeaderWithin};
ghost use Rattle.feed_http_heads.specs.Fields.{is_named, only, has_any, first_of, values_named, spans_named};
ghost use Rattle.feed_http_heads.specs.Fields.{has_other_name_or, AreWithin, AreFieldsOf};

use httparse::spans::{HeaderSpan, Span};

/// The fields of a head, as places in the buffer into which it was read.
#[derive(Clone, Copy)]
pub struct Fields<'b> {
    pub buffer: &'b [u8],
    pub headers: &'b [HeaderSpan],
}

pub fn is_named(buffer: &[u8], header: HeaderSpan, name: &[u8]) -> bool
    requires { IsHeaderWithin (length buffer.now) header }
    ensures { result ≡ is_named buffer.now name.now header }
{
    header.name.of(buffer).eq_ignore_ascii_case(name)
}

fn has_other_name_or_text(buffer: &[u8], header: HeaderSpan, name: &[u8], text: &[u8]) -> bool
    requires { IsHeaderWithin (length buffer.now) header }
    ensures { result ≡ has_other_name_or (λ value. str_eq_ignore_ascii_case value text.now) buffer.now name.now header }
{
    !is_named(buffer, header, name) || header.value.of(buffer).eq_ignore_ascii_case(text)
}

impl<'b> Fields<'b> {
    fn sole_span(&self, name: &[u8]) -> Option<Span>
        requires { AreWithin self.now }
        ensures sole { result ≡ only (spans_named self.now.buffer.now name.now self.now.headers.now) }
        ensures within { IfSome result (IsWithin (length self.now.buffer.now)) }
    {
        let mut found = None;
        for header in self.headers {
            if is_named(self.buffer, *header, name) {
                if found.is_some() {
                    return None;
                }
                found = Some(header.value);
            }
        }
        found
    }

    /// Returns the value of the field of this name, if there is exactly one such field.
    pub fn sole_value(&self, name: &[u8]) -> Option<&'b [u8]>
        requires { AreWithin self.now }
        ensures { (fields : List Field) → AreFieldsOf self.now fields
            → option_copied result ≡ only (values_named name.now fields) }
    {
        match self.sole_span(name) {
            Some(span) => Some(span.of(self.buffer)),
            None => None,
        }
    }

    /// Returns whether there is a field of this name.
    pub fn has_field(&self, name: &[u8]) -> bool
        requires { AreWithin self.now }
        ensures { (fields : List Field) → AreFieldsOf self.now fields
            → result ≡ has_any (values_named name.now fields) }
    {
        for header in self.headers {
            if is_named(self.buffer, *header, name) {
                return true;
            }
        }
        false
    }

    /// Returns the place of the value of the first field of this name.
    pub fn first_span(&self, name: &[u8]) -> Option<Span>
        requires { AreWithin self.now }
        ensures first { result ≡ first_of (spans_named self.now.buffer.now name.now self.now.headers.now) }
        ensures within { IfSome result (IsWithin (length self.now.buffer.now)) }
    {
        for header in self.headers {
            if is_named(self.buffer, *header, name) {
                return Some(header.value);
            }
        }
        None
    }

    /// Returns whether each value of the fields of this name is this text, ignoring case.
    pub fn all_values_are(&self, name: &[u8], text: &[u8]) -> bool
        requires { AreWithin self.now }
        ensures { (fields : List Field) → AreFieldsOf self.now fields
            → result ≡ list_all (λ value. str_eq_ignore_ascii_case value text.now)
            (values_named name.now fields) }
    {
        for header in self.headers {
            if !has_other_name_or_text(self.buffer, *header, name, text) {
                return false;
            }
        }
        true
    }
}
