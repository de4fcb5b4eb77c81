//! Chooses the representation that a request prefers (RFC 9110, sections 12.4.2 and 12.5.1).
ghost use Rattle.std.specs.Prelude.{◌≡◌, ◌∷◌};
ghost use Rattle.std.specs.List.{list_all};
ghost use Rattle.std.specs.Char.{is_ascii_digit};
ghost use Rattle.httparse.specs.Grammar.{RequestHead};
ghost use Rattle.feed_http_heads.specs.Fields.{AreWithin, AreFieldsOf};
ghost use Rattle.node_request.specs.Representations.{digit_at, thousandths, fraction, weight_value};
ghost use Rattle.node_request.specs.Representations.{weight_of, weight_in, weight_under, type_weight};
ghost use Rattle.node_request.specs.Representations.{most_preferred, preferred_in, accepted_representation};
ghost use Rattle.node_request.specs.Representations.{common_format_in, format_in, format_of, has_hits};
ghost use Rattle.node_request.specs.Representations.{hits_format_in, representation_of};

use crate::route::Route;
use crate::sfx_query::sfx_form_in;
use feed_bytes::{split_once, strip_prefix, trim_spaces};
use feed_http_heads::Fields;

/// The format of an answer.
#[derive(Clone, Copy, Debug, PartialEq, Eq)]
pub enum Representation {
    /// `text/plain`, as `Answer::write` prints it.
    Text,
    /// `application/json`.
    Json,
    /// `text/html`.
    Html,
    /// `text/html` without the frame of a page, for a page of another site. Only hits have it.
    Fragment,
    /// `application/xml`, as SFX replies. Only hits have it.
    Sfx,
}

fn digit_at(digits: &[u8], place: usize) -> u16
    ensures { result ≡ digit_at digits.now place }
{
    match digits.get(place) {
        Some(digit) => u16::from(digit.saturating_sub(48)),
        None => 0,
    }
}

fn are_digits(digits: &[u8]) -> bool
    ensures { result ≡ list_all is_ascii_digit digits.now }
{
    digits.iter().all(|digit| digit.is_ascii_digit())
}

fn thousandths(digits: &[u8]) -> Option<u16>
    ensures { result ≡ thousandths digits.now }
{
    if digits.len() <= 3 && are_digits(digits) {
        Some(digit_at(digits, 0) * 100 + digit_at(digits, 1) * 10 + digit_at(digits, 2))
    } else {
        None
    }
}

fn fraction(rest: &[u8]) -> Option<u16>
    ensures { result ≡ fraction rest.now }
{
    match rest.split_first() {
        None => Some(0),
        Some((point, digits)) => {
            if *point == b'.' {
                thousandths(digits)
            } else {
                None
            }
        }
    }
}

fn whole_weight(rest: &[u8]) -> Option<u16>
    ensures { result ≡ weight_value (49 ∷ rest.now) }
{
    if fraction(rest)? == 0 {
        Some(1000)
    } else {
        None
    }
}

fn weight_value(text: &[u8]) -> Option<u16>
    ensures { result ≡ weight_value text.now }
{
    let (first, rest) = text.split_first()?;
    match *first {
        b'0' => fraction(rest),
        b'1' => whole_weight(rest),
        _ => None,
    }
}

fn weight_of(parameters: &[u8]) -> Option<u16>
    ensures { result ≡ weight_of parameters.now }
{
    weight_value(strip_prefix(trim_spaces(parameters), b"q=")?)
}

fn weight_in(range: &[u8], element: &[u8]) -> Option<u16>
    ensures { result ≡ weight_in range.now element.now }
{
    match split_once(element, b';') {
        Some((name, parameters)) => {
            if trim_spaces(name).eq_ignore_ascii_case(range) {
                weight_of(parameters)
            } else {
                None
            }
        }
        None => {
            if trim_spaces(element).eq_ignore_ascii_case(range) {
                Some(1000)
            } else {
                None
            }
        }
    }
}

fn weight_under(range: &[u8], value: &[u8]) -> Option<u16>
    ensures { result ≡ weight_under range.now value.now }
{
    let mut rest = value;
    while let Some((element, more)) = split_once(rest, b',') {
        if let Some(weight) = weight_in(range, element) {
            return Some(weight);
        }
        rest = more;
    }
    weight_in(range, rest)
}

fn type_weight(name: &[u8], family: &[u8], value: &[u8]) -> u16
    ensures { result ≡ type_weight name.now family.now value.now }
{
    if let Some(weight) = weight_under(name, value) {
        return weight;
    }
    if let Some(weight) = weight_under(family, value) {
        return weight;
    }
    weight_under(b"*/*", value).unwrap_or(0)
}

fn most_preferred(text: u16, json: u16, html: u16) -> Representation
    ensures { result ≡ most_preferred text json html }
{
    if html <= text && json <= text {
        Representation::Text
    } else if json <= html {
        Representation::Html
    } else {
        Representation::Json
    }
}

fn preferred_in(value: &[u8]) -> Representation
    ensures { result ≡ preferred_in value.now }
{
    most_preferred(
        type_weight(b"text/plain", b"text/*", value),
        type_weight(b"application/json", b"application/*", value),
        type_weight(b"text/html", b"text/*", value),
    )
}

/// Returns the representation that the Accept field prefers. It is text if there is no such field, or several.
pub fn accepted_representation(fields: &Fields<'_>) -> Representation
    requires { AreWithin fields.now }
    ensures { (head : RequestHead) → AreFieldsOf fields.now head.fields → result ≡ accepted_representation head }
{
    match fields.sole_value(b"accept") {
        Some(value) => preferred_in(value),
        None => Representation::Text,
    }
}

fn common_format_in(piece: &[u8]) -> Option<Representation>
    ensures { result ≡ common_format_in piece.now }
{
    if piece == b"format=text".as_slice() {
        Some(Representation::Text)
    } else if piece == b"format=json".as_slice() {
        Some(Representation::Json)
    } else if piece == b"format=html".as_slice() {
        Some(Representation::Html)
    } else {
        None
    }
}

fn hits_format_in(piece: &[u8]) -> Option<Representation>
    ensures { result ≡ hits_format_in piece.now }
{
    if piece == b"format=fragment".as_slice() {
        Some(Representation::Fragment)
    } else if sfx_form_in(piece).is_some() {
        Some(Representation::Sfx)
    } else {
        None
    }
}

fn format_in(hits: bool, piece: &[u8]) -> Option<Representation>
    ensures { result ≡ format_in hits piece.now }
{
    match common_format_in(piece) {
        Some(format) => Some(format),
        None if hits => hits_format_in(piece),
        None => None,
    }
}

fn format_of(hits: bool, query: &[u8]) -> Option<Representation>
    ensures { result ≡ format_of hits query.now }
{
    let mut rest = query;
    while let Some((piece, more)) = split_once(rest, b'&') {
        if let Some(format) = format_in(hits, piece) {
            return Some(format);
        }
        rest = more;
    }
    format_in(hits, rest)
}

fn has_hits(route: Route) -> bool
    ensures { result ≡ has_hits route }
{
    matches!(route, Route::Resolve | Route::Package)
}

/// Returns the representation that a query names on a route, or otherwise that of the Accept field.
pub fn representation_of(route: Route, query: &[u8], fields: &Fields<'_>) -> Representation
    requires { AreWithin fields.now }
    ensures { (head : RequestHead) → AreFieldsOf fields.now head.fields
        → result ≡ representation_of route query.now head }
{
    match format_of(has_hits(route), query) {
        Some(format) => format,
        None => accepted_representation(fields),
    }
}
