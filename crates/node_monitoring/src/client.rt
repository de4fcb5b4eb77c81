//! The address of the client of a request, which a proxy in front of the node states.
ghost use Rattle.std.specs.Prelude.{◌≡◌, List, length};
ghost use Rattle.std.specs.List.{list_all};
ghost use Rattle.httparse.specs.Grammar.{Field};
ghost use Rattle.feed_http_heads.specs.Fields.{AreWithin, AreFieldsOf, values_named};
ghost use Rattle.node_monitoring.specs.Exchanges.{is_address_byte, is_address, address_or, client_of};
ghost use Rattle.httparse.specs.Spans.{IsHeaderWithin};
ghost use Rattle.node_monitoring.specs.Forwarded.{forwarded_element, last_of, last_element, last_part, IsClientAddr};
ghost use Rattle.node_monitoring.specs.LastValues.{value_or};

use feed_bytes::{split_once, trim_spaces};
use feed_http_heads::{Fields, is_named};
use httparse::spans::HeaderSpan;
use std::net::IpAddr;

fn is_address_byte(byte: u8) -> bool
    ensures { result ≡ is_address_byte byte }
{
    byte.is_ascii_hexdigit() || byte == b'.' || byte == b':'
}

fn has_address_bytes(text: &[u8]) -> bool
    ensures { result ≡ list_all is_address_byte text.now }
{
    text.iter().all(|byte| is_address_byte(*byte))
}

// Returns whether a text may be an IP address: at most 45 bytes, as the longest one has.
fn is_address(text: &[u8]) -> bool
    ensures { result ≡ is_address text.now }
{
    0 < text.len() && text.len() <= 45 && has_address_bytes(text)
}

fn address_or<'a>(text: &'a [u8], peer: &'a [u8]) -> &'a [u8]
    ensures { result.now ≡ address_or text.now peer.now }
{
    if is_address(text) { text } else { peer }
}

/// Returns the address of the client: if the peer is a proxy, the last one of X-Forwarded-For, which the proxy itself
/// has added, and otherwise that of the peer.
pub(crate) fn client_of<'a>(is_proxy: bool, fields: &Fields<'a>, peer: &'a [u8]) -> &'a [u8]
    requires { AreWithin fields.now }
    ensures { (list : List Field) → AreFieldsOf fields.now list → result.now ≡ client_of is_proxy list peer.now }
{
    if !is_proxy {
        return peer;
    }
    address_or(forwarded_element(fields), peer)
}

// Returns the last element of X-Forwarded-For. It is empty if there is none.
fn forwarded_element<'a>(fields: &Fields<'a>) -> &'a [u8]
    requires { AreWithin fields.now }
    ensures { (list : List Field) → AreFieldsOf fields.now list → result.now ≡ forwarded_element list }
{
    last_element(last_value(fields, b"x-forwarded-for"))
}

/// Returns the address of the client of a request whose peer is a proxy: the last one of X-Forwarded-For. If that is
/// not an address, returns that of the peer.
pub fn client_addr(fields: &Fields<'_>, peer: IpAddr) -> IpAddr
    requires { AreWithin fields.now }
    ensures { (list : List Field) → AreFieldsOf fields.now list → IsClientAddr list peer result }
{
    match IpAddr::parse_ascii(forwarded_element(fields)) {
        Ok(addr) => addr,
        Err(_) => peer,
    }
}

// Returns the value of a field of this name, or of another one the value given.
fn value_or<'b>(buffer: &'b [u8], header: HeaderSpan, name: &[u8], value: &'b [u8]) -> &'b [u8]
    requires { IsHeaderWithin (length buffer.now) header }
    ensures { result.now ≡ value_or buffer.now name.now header value.now }
{
    if is_named(buffer, header, name) {
        header.value.of(buffer)
    } else {
        value
    }
}

/// Returns the value of the last field of this name. It is empty if there is none.
pub(crate) fn last_value<'b>(fields: &Fields<'b>, name: &[u8]) -> &'b [u8]
    requires { AreWithin fields.now }
    ensures { (list : List Field) → AreFieldsOf fields.now list
        → result.now ≡ last_of (values_named name.now list) }
{
    let mut value: &'b [u8] = b"";
    for header in fields.headers {
        value = value_or(fields.buffer, *header, name, value);
    }
    value
}

fn last_part(value: &[u8]) -> &[u8]
    ensures { result.now ≡ last_part value.now }
{
    let mut rest = value;
    while let Some((_, more)) = split_once(rest, b',') {
        rest = more;
    }
    rest
}

/// Returns the last element of a list: the text after the last comma, or all of it, without spaces around it.
pub fn last_element(value: &[u8]) -> &[u8]
    ensures { result.now ≡ last_element value.now }
{
    trim_spaces(last_part(value))
}
