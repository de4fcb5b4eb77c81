//! Names of an article or a serial that are written as URIs: DOIs, PMIDs, `urn:ISSN:`, `urn:ISBN:`.
ghost use Rattle.std.specs.Prelude.{◌≡◌, ◌≤◌, length, option_copied};
ghost use Rattle.std.specs.Char.{is_ascii_digit};
ghost use Rattle.std.specs.List.{list_all};
ghost use Rattle.feed_openurl.specs.Fronts.{front_len};
ghost use Rattle.feed_openurl.specs.Identifiers.{after_portal, after_urn, host_of, number_in};
ghost use Rattle.feed_openurl.specs.Links.{after_doi_host, after_doi_name};
ghost use Rattle.feed_openurl.specs.Links.{after_pmid, after_pmid_host, after_pmid_name};
ghost use Rattle.feed_openurl.specs.Links.{bare_pmid_of, begins_suffix, doi_of, is_doi, is_registered, is_registrant};
ghost use Rattle.feed_openurl.specs.Links.{is_pmid, only_pmid, pmid_of, without_doi, without_slash};

use crate::key::after;
use feed_bytes::trim_spaces;

// The rest of a name after the name of a scheme of DOIs.
fn after_doi_name(name: &[u8]) -> Option<&[u8]>
    ensures { option_copied result ≡ after_doi_name name.now }
{
    if let Some(rest) = after(name, "info:doi/") {
        return Some(rest);
    }
    if let Some(rest) = after(name, "info:doi:") {
        return Some(rest);
    }
    match after(name, "urn:doi:") {
        Some(rest) => Some(rest),
        None => after(name, "doi:"),
    }
}

// The rest of a name after the address of a resolver of DOIs.
fn after_doi_host(name: &[u8]) -> Option<&[u8]>
    ensures { option_copied result ≡ after_doi_host name.now }
{
    let host = host_of(name)?;
    match after(host, "doi.org/") {
        Some(rest) => Some(rest),
        None => after(host, "dx.doi.org/"),
    }
}

// The name without what makes a DOI a URI.
fn without_doi(name: &[u8]) -> &[u8]
    ensures { result.now ≡ without_doi name.now }
{
    if let Some(rest) = after_doi_name(name) {
        return trim_spaces(rest);
    }
    match after_doi_host(name) {
        Some(rest) => trim_spaces(rest),
        None => name,
    }
}

fn is_registrant(byte: u8) -> bool
    ensures { result ≡ is_registrant byte }
{
    byte.is_ascii_digit() || byte == b'.'
}

// How many bytes of the number of a registrant are at the front of a text.
fn registrant_len(text: &[u8]) -> usize
    ensures value { result ≡ front_len is_registrant text.now }
    ensures bound { result ≤ length text.now }
{
    for place in 0..text.len() {
        if !is_registrant(text[place]) {
            return place;
        }
    }
    text.len()
}

// Whether a text is a slash, and something after it.
fn begins_suffix(text: &[u8]) -> bool
    ensures { result ≡ begins_suffix text.now }
{
    match text {
        [slash, _, ..] => *slash == b'/',
        _ => false,
    }
}

fn is_registered(text: &[u8]) -> bool
    ensures { result ≡ is_registered text.now }
{
    let count = registrant_len(text);
    count > 0 && begins_suffix(&text[count..])
}

fn is_doi(name: &[u8]) -> bool
    ensures { result ≡ is_doi name.now }
{
    match after(name, "10.") {
        Some(text) => is_registered(text),
        None => false,
    }
}

/// Returns the DOI of a value, without up to three fronts that make it a URI: `10.`, digits and dots, a slash, and
/// something after it (ISO 26324).
pub(crate) fn doi_of(value: &[u8]) -> Option<&[u8]>
    ensures { option_copied result ≡ doi_of value.now }
{
    let name = without_doi(without_doi(without_doi(trim_spaces(value))));
    if is_doi(name) { Some(name) } else { None }
}

// The text without a slash at its end.
fn without_slash(text: &[u8]) -> &[u8]
    ensures { result.now ≡ without_slash text.now }
{
    let end = text.len().saturating_sub(1);
    if &text[end..] == b"/".as_slice() {
        &text[..end]
    } else {
        text
    }
}

fn are_digits(bytes: &[u8]) -> bool
    ensures { result ≡ list_all is_ascii_digit bytes.now }
{
    bytes.iter().all(|byte| byte.is_ascii_digit())
}

// Whether a number has one to nine digits.
fn is_pmid(number: &[u8]) -> bool
    ensures { result ≡ is_pmid number.now }
{
    !number.is_empty() && number.len() < 10 && are_digits(number)
}

fn only_pmid(number: &[u8]) -> Option<&[u8]>
    ensures { option_copied result ≡ only_pmid number.now }
{
    if is_pmid(number) { Some(number) } else { None }
}

// The rest of a name after the name of a scheme of PubMed.
fn after_pmid_name(name: &[u8]) -> Option<&[u8]>
    ensures { option_copied result ≡ after_pmid_name name.now }
{
    if let Some(rest) = after(name, "info:pmid/") {
        return Some(rest);
    }
    match after(name, "pmid:") {
        Some(rest) => Some(rest),
        None => after(name, "medline:"),
    }
}

// The rest of a name after an address of PubMed.
fn after_pmid_host(name: &[u8]) -> Option<&[u8]>
    ensures { option_copied result ≡ after_pmid_host name.now }
{
    let host = host_of(name)?;
    match after(host, "pubmed.ncbi.nlm.nih.gov/") {
        Some(rest) => Some(rest),
        None => after(host, "www.ncbi.nlm.nih.gov/pubmed/"),
    }
}

fn after_pmid(name: &[u8]) -> Option<&[u8]>
    ensures { option_copied result ≡ after_pmid name.now }
{
    match after_pmid_name(name) {
        Some(rest) => Some(rest),
        None => after_pmid_host(name),
    }
}

/// Returns the PMID of a value that says that it is one: one to nine digits.
pub(crate) fn pmid_of(value: &[u8]) -> Option<&[u8]>
    ensures { option_copied result ≡ pmid_of value.now }
{
    let text = after_pmid(trim_spaces(value))?;
    only_pmid(without_slash(trim_spaces(text)))
}

/// Returns a PMID without a prefix or with one.
pub(crate) fn bare_pmid_of(value: &[u8]) -> Option<&[u8]>
    ensures { option_copied result ≡ bare_pmid_of value.now }
{
    match pmid_of(value) {
        Some(pmid) => Some(pmid),
        None => only_pmid(without_slash(trim_spaces(value))),
    }
}

// The number in a `urn:ISSN:` name (RFC 3044) or a `urn:ISBN:` name (RFC 3187, RFC 8254).
fn after_urn(name: &[u8]) -> Option<&[u8]>
    ensures { option_copied result ≡ after_urn name.now }
{
    match after(name, "urn:issn:") {
        Some(number) => Some(number),
        None => after(name, "urn:isbn:"),
    }
}

// The host and the path of an address.
fn host_of(name: &[u8]) -> Option<&[u8]>
    ensures { option_copied result ≡ host_of name.now }
{
    match after(name, "https://") {
        Some(host) => Some(host),
        None => after(name, "http://"),
    }
}

// The number in an address of the ISSN Portal.
fn after_portal(name: &[u8]) -> Option<&[u8]>
    ensures { option_copied result ≡ after_portal name.now }
{
    let host = host_of(name)?;
    match after(host, "portal.issn.org/resource/issn/") {
        Some(number) => Some(number),
        None => after(host, "issn.org/resource/issn/"),
    }
}

/// Returns the number in a name.
pub(crate) fn number_in(value: &[u8]) -> Option<&[u8]>
    ensures { option_copied result ≡ number_in value.now }
{
    let name = trim_spaces(value);
    match after_urn(name) {
        Some(number) => Some(number),
        None => after_portal(name),
    }
}
