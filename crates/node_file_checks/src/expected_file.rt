//! A description of the file that a client has the node fetch.
ghost use Rattle.std.specs.Prelude.{◌≡◌, ◌==◌, Some};
ghost use Rattle.std.specs.List.{slice_split};
ghost use Rattle.feed_bytes.specs.Split.{number_in_64_bits};
ghost use Rattle.node_file_checks.specs.FileChecks.{has_size};
ghost use Rattle.node_file_checks.specs.ExpectedFiles.{IsExpectedBy, any_file, file_by_query, with_fields, with_next};
ghost use Rattle.node_file_checks.specs.ExpectedFiles.{sum_of, with_accept, with_field, with_size, with_sum};

use feed_bytes::{read_number, strip_prefix};
use feed_http_heads::origin_form;
use hex::FromHex;
use node_request::{ReceivedRequest, query_in};

/// A description of a file by a client: its length in bytes, its SHA-256 digest, and whether any list is accepted.
#[derive(Clone, Copy)]
pub struct ExpectedFile {
    pub size: Option<u64>,
    pub sum: Option<[u8; 32]>,
    /// Whether the list may have any number of rows.
    pub is_accepted: bool,
}

/// A file of any length and digest, with a bound on its rows.
const ANY_FILE: ExpectedFile = ExpectedFile {
    size: None,
    sum: None,
    is_accepted: false,
};

// Returns the digest that 64 hexadecimal digits denote.
fn sum_of(digits: &[u8]) -> Option<[u8; 32]>
    ensures { result ≡ sum_of digits.now }
{
    <[u8; 32] as FromHex>::from_hex(digits).ok()
}

// Returns the file with what a field says besides.
fn with_next(said: Option<ExpectedFile>, field: &[u8]) -> Option<ExpectedFile>
    ensures { result ≡ with_next said field.now }
{
    said?.with_field(field)
}

// Returns the file by all fields of a query.
fn expected_among(query: &[u8]) -> Option<ExpectedFile>
    ensures { result ≡ with_fields (Some any_file) (slice_split (λ b. b == 38) query.now) }
{
    query
        .split(|byte| *byte == b'&')
        .fold(Some(ANY_FILE), |said, field| with_next(said, field))
}

impl ExpectedFile {
    /// Parses the query of a request to fetch: `size=` and a number, `sha256=` and 64 hexadecimal digits, and `accept`,
    /// each at most once and in any order. Returns none for any other query.
    pub fn read(query: &[u8]) -> Option<ExpectedFile>
        ensures { result ≡ file_by_query query.now }
    {
        if query.is_empty() {
            return Some(ANY_FILE);
        }
        expected_among(query)
    }

    /// Returns what the query of a request says, or none if it is invalid.
    pub fn of_request(received: &ReceivedRequest<'_>) -> Option<ExpectedFile>
        ensures { IsExpectedBy received.now.bytes.now result }
    {
        let parsed = received.parsed()?;
        ExpectedFile::read(query_in(origin_form(parsed.request.target())))
    }

    fn with_size(self, size: Option<u64>) -> Option<ExpectedFile>
        ensures { result ≡ with_size self size }
    {
        match (self.size, size) {
            (None, Some(_)) => Some(ExpectedFile { size, ..self }),
            _ => None,
        }
    }

    fn with_sum(self, sum: Option<[u8; 32]>) -> Option<ExpectedFile>
        ensures { result ≡ with_sum self sum }
    {
        match (self.sum, sum) {
            (None, Some(_)) => Some(ExpectedFile { sum, ..self }),
            _ => None,
        }
    }

    fn with_accept(self) -> Option<ExpectedFile>
        ensures { result ≡ with_accept self }
    {
        if self.is_accepted {
            return None;
        }
        Some(ExpectedFile {
            is_accepted: true,
            ..self
        })
    }

    // Returns the file with what a field of a query says besides, if the field is valid and the first of its name.
    fn with_field(self, field: &[u8]) -> Option<ExpectedFile>
        ensures { result ≡ with_field self field.now }
    {
        if let Some(digits) = strip_prefix(field, b"size=") {
            return self.with_size(read_number(digits));
        }
        if let Some(digits) = strip_prefix(field, b"sha256=") {
            return self.with_sum(sum_of(digits));
        }
        if field == b"accept".as_slice() {
            self.with_accept()
        } else {
            None
        }
    }

    /// Returns whether a file of this length may be the one that the client means.
    pub fn has_size(&self, size: u64) -> bool
        ensures { result ≡ has_size self.now.size size }
    {
        match self.size {
            Some(expected) => expected == size,
            None => true,
        }
    }
}
