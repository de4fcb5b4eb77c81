//! Interprets a form that a client submits: a POST of `/resolve`, of `/resolve/` and a package, or of `/go`
//! (RFC 9110, section 9.3.3).
ghost use Rattle.std.specs.Prelude.{◌≡◌};
ghost use Rattle.httparse.specs.Grammar.{RequestHead};
ghost use Rattle.feed_http_heads.specs.Fields.{AreWithin, AreFieldsOf};
ghost use Rattle.feed_http_heads.specs.Requests.{HasHead};
ghost use Rattle.node_request.specs.Forms.{takes_form, is_form_post, is_form_type, has_form_type};
ghost use Rattle.node_request.specs.Forms.{stated_length, form_in, form_of, form_length};

use crate::received::ParsedRequest;
use crate::route::Route;
use feed_bytes::{read_number, split_once, trim_spaces};
use feed_http_heads::Fields;

// The most bytes of a form.
const FORM_LIMIT: u64 = 8_192;

/// Why a form is not read.
#[derive(Clone, Copy, Debug, PartialEq, Eq)]
pub enum FormFault {
    /// The body has a transfer coding.
    Coding,
    /// The head does not state a length.
    NoLength,
    /// The head states several lengths, or one that is not a number.
    BadLength,
    /// The form has more than 8,192 bytes.
    TooLong,
    /// The body is not of the media type of forms.
    MediaType,
}

/// Returns whether a route takes a form: whether it answers a query.
pub fn takes_form(route: Route) -> bool
    ensures { result ≡ takes_form route }
{
    matches!(route, Route::Resolve | Route::Package | Route::Go)
}

fn is_form_post(parsed: &ParsedRequest<'_>) -> bool
    ensures { (head : RequestHead) → HasHead parsed.now.request head → result ≡ is_form_post head }
{
    parsed.request.method() == b"POST".as_slice()
        && !parsed.request.lacks_host()
        && takes_form(parsed.route)
}

fn is_form_type(value: &[u8]) -> bool
    ensures { result ≡ is_form_type value.now }
{
    let media = match split_once(value, b';') {
        Some((media, _)) => media,
        None => value,
    };
    trim_spaces(media).eq_ignore_ascii_case(b"application/x-www-form-urlencoded")
}

fn has_form_type(fields: &Fields<'_>) -> bool
    requires { AreWithin fields.now }
    ensures { (head : RequestHead) → AreFieldsOf fields.now head.fields → result ≡ has_form_type head }
{
    match fields.sole_value(b"content-type") {
        Some(value) => is_form_type(value),
        None => false,
    }
}

fn stated_length(fields: &Fields<'_>) -> Result<u64, FormFault>
    requires { AreWithin fields.now }
    ensures { (head : RequestHead) → AreFieldsOf fields.now head.fields → result ≡ stated_length head }
{
    if !fields.has_field(b"content-length") {
        return Err(FormFault::NoLength);
    }
    match fields.sole_value(b"content-length") {
        Some(value) => match read_number(value) {
            Some(length) => Ok(length),
            None => Err(FormFault::BadLength),
        },
        None => Err(FormFault::BadLength),
    }
}

fn form_in(fields: &Fields<'_>) -> Result<u64, FormFault>
    requires { AreWithin fields.now }
    ensures { (head : RequestHead) → AreFieldsOf fields.now head.fields → result ≡ form_in head }
{
    if fields.has_field(b"transfer-encoding") {
        return Err(FormFault::Coding);
    }
    match stated_length(fields) {
        Err(fault) => Err(fault),
        Ok(length) if length > FORM_LIMIT => Err(FormFault::TooLong),
        Ok(length) => {
            if has_form_type(fields) {
                Ok(length)
            } else {
                Err(FormFault::MediaType)
            }
        }
    }
}

/// Returns the length of the form that a request submits, or why it is not read. Returns none if the request is not
/// such a POST.
pub fn form_of(parsed: &ParsedRequest<'_>) -> Option<Result<u64, FormFault>>
    ensures { (head : RequestHead) → HasHead parsed.now.request head → result ≡ form_of head }
{
    if is_form_post(parsed) {
        Some(form_in(&parsed.request.fields()))
    } else {
        None
    }
}

/// Returns the number of bytes of body to be read after the head of a request: those of its form, at most 8,192, and 0
/// for every other request.
pub fn form_length(parsed: &ParsedRequest<'_>) -> u64
    ensures { (head : RequestHead) → HasHead parsed.now.request head → result ≡ form_length head }
{
    match form_of(parsed) {
        Some(Ok(length)) => length,
        _ => 0,
    }
}
