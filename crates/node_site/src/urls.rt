//! The parts of URLs of `http` and `https`, and the names of hosts.
ghost use Rattle.std.specs.Prelude.{◌≡◌, ◌≤◌, length, option_copied};
ghost use Rattle.std.specs.List.{list_all, position_or_len};
ghost use Rattle.node_site.specs.Urls.{after_scheme, authority_of, begins_with, ends_authority, is_host};
ghost use Rattle.node_site.specs.Urls.{is_hyphen, is_label, is_visible};
ghost use Rattle.node_site.specs.Urls.{parts_between};

use crate::bytes::ByteClass;
use crate::cuts::is_sized;

/// The most bytes of the name of a host (RFC 1035, section 2.3.4).
pub(crate) const HOST_LIMIT: usize = 253;

/// Returns whether a text begins with another one, in any case of letters, and is longer.
pub fn begins_with(url: &[u8], front: &[u8]) -> bool
    ensures { result ≡ begins_with front.now url.now }
{
    front.len() < url.len() && url[..front.len()].eq_ignore_ascii_case(front)
}

/// Returns whether each byte is visible ASCII: no space, no control byte, and none above 126.
pub fn is_all_visible(url: &[u8]) -> bool
    ensures { result ≡ list_all is_visible url.now }
{
    ByteClass::Visible.has_all(url)
}

/// Returns the rest of a URL after `http://` or `https://`.
pub(crate) fn after_scheme(url: &[u8]) -> Option<&[u8]>
    ensures { option_copied result ≡ after_scheme url.now }
{
    if begins_with(url, b"https://") {
        Some(&url[8..])
    } else if begins_with(url, b"http://") {
        Some(&url[7..])
    } else {
        None
    }
}

fn ends_authority(byte: u8) -> bool
    ensures { result ≡ ends_authority byte }
{
    matches!(byte, b'/' | b'?' | b'#' | b'\\')
}

fn authority_len(text: &[u8]) -> usize
    ensures value { result ≡ position_or_len ends_authority text.now }
    ensures bound { result ≤ length text.now }
{
    for place in 0..text.len() {
        if ends_authority(text[place]) {
            return place;
        }
    }
    text.len()
}

/// Returns the authority at the front of a text: `/`, `?`, `#` or a backslash ends it.
pub(crate) fn authority_of(text: &[u8]) -> &[u8]
    ensures { result.now ≡ authority_of text.now }
{
    &text[..authority_len(text)]
}

fn is_hyphen(byte: u8) -> bool
    ensures { result ≡ is_hyphen byte }
{
    byte == b'-'
}

fn is_label(label: &[u8]) -> bool
    ensures { result ≡ is_label label.now }
{
    is_sized(1, 63, label)
        && ByteClass::Label.has_all(label)
        && !is_hyphen(label[0])
        && !is_hyphen(label[label.len() - 1])
}

fn are_labels(host: &[u8]) -> bool
    ensures { result ≡ list_all is_label (parts_between 46 host.now) }
{
    host.split(|byte| *byte == b'.')
        .all(|label| is_label(label))
}

/// Returns whether a text is the name of a host: at most 253 bytes, and 1 to 63 letters, digits and hyphens between
/// dots, no hyphen first or last (RFC 1123, section 2.1). An IPv4 address is one too.
pub(crate) fn is_host(host: &[u8]) -> bool
    ensures { result ≡ is_host host.now }
{
    host.len() <= HOST_LIMIT && are_labels(host)
}
