//! Tells whether a client has what the response to its request would send (RFC 9110, section 13.1.2).
ghost use Rattle.std.specs.Prelude.{◌≡◌};
ghost use Rattle.httparse.specs.Grammar.{RequestHead};
ghost use Rattle.feed_http_heads.specs.Fields.{AreWithin, AreFieldsOf};
ghost use Rattle.node_request.specs.Conditions.{opaque_tag, is_tag, lists_tag, names_tag, has_tag};

use feed_bytes::{split_once, trim_spaces};
use feed_http_heads::Fields;

fn opaque_tag(element: &[u8]) -> &[u8]
    ensures { result.now ≡ opaque_tag element.now }
{
    match element.split_at_checked(2) {
        Some((mark, rest)) => {
            if mark == b"W/".as_slice() {
                rest
            } else {
                element
            }
        }
        None => element,
    }
}

fn is_tag(tag: &[u8], element: &[u8]) -> bool
    ensures { result ≡ is_tag tag.now element.now }
{
    opaque_tag(trim_spaces(element)) == tag
}

fn lists_tag(tag: &[u8], value: &[u8]) -> bool
    ensures { result ≡ lists_tag tag.now value.now }
{
    let mut rest = value;
    while let Some((element, more)) = split_once(rest, b',') {
        if is_tag(tag, element) {
            return true;
        }
        rest = more;
    }
    is_tag(tag, rest)
}

fn names_tag(tag: &[u8], value: &[u8]) -> bool
    ensures { result ≡ names_tag tag.now value.now }
{
    value == b"*".as_slice() || lists_tag(tag, value)
}

/// Returns whether the If-None-Match field is `*`, or lists the entity tag by the weak comparison. It is false if there
/// is no such field, or several.
pub fn has_tag(tag: &[u8], fields: &Fields<'_>) -> bool
    requires { AreWithin fields.now }
    ensures { (head : RequestHead) → AreFieldsOf fields.now head.fields → result ≡ has_tag tag.now head }
{
    match fields.sole_value(b"if-none-match") {
        Some(value) => names_tag(tag, value),
        None => false,
    }
}
