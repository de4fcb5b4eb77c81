//! One key/value pair of a query, and its meaning (ANSI/NISO Z39.88-2004).
ghost use Rattle.std.specs.Prelude.{◌≡◌};
ghost use Rattle.feed_answer.specs.Pairs.{days_of_pair, has_format, has_key, identifier_of_pair, is_other};
ghost use Rattle.feed_answer.specs.Pairs.{is_other_format, is_other_version, issn_of_urn, volume_of_pair};

use feed_bytes::trim_spaces;
use feed_dates::DayRange;
use feed_identifiers::{Identifier, Isbn, Issn};
use feed_kbart::read_volume;
use std::alloc::Global;
use std::borrow::CowSlice;
use std::marker::Model;

const VERSION: &str = "Z39.88-2004";

/// The format of journals, as a value of `rft_val_fmt`.
pub const JOURNAL: &str = "info:ofi/fmt:kev:mtx:journal";

/// The format of books, as a value of `rft_val_fmt`.
pub const BOOK: &str = "info:ofi/fmt:kev:mtx:book";

/// A decoded key and its value. They need not be UTF-8.
#[derive(Drop)]
pub struct Pair<'a> {
    key: CowSlice<'a, u8, Global>,
    value: CowSlice<'a, u8, Global>,
}

impl<'a> Model for Pair<'a> {
    ghost use Rattle.std.specs.Prelude.{ℕ, List};
    ghost use Rattle.std.specs.Cow.{cow_slice_items};

    ghost Value = { List ℕ × List ℕ };

    ghost view = { λ pair. (cow_slice_items pair.key, cow_slice_items pair.value) };
}

impl<'a> Pair<'a> {
    ghost use Rattle.std.specs.Cow.{cow_slice_items};

    /// Returns the pair of a key and a value.
    pub fn of(key: CowSlice<'a, u8, Global>, value: CowSlice<'a, u8, Global>) -> Pair<'a>
        ensures { result ≡ (cow_slice_items key.entry, cow_slice_items value.entry) }
    {
        Pair { key, value }
    }

    /// Returns the key as it is decoded.
    pub fn key(&self) -> &[u8]
        ensures { result.now ≡ self.now.0 }
    {
        self.key.as_slice()
    }

    /// Returns the value as it is decoded.
    pub fn value(&self) -> &[u8]
        ensures { result.now ≡ self.now.1 }
    {
        self.value.as_slice()
    }

    /// Returns whether the key is this text.
    pub fn has_key(&self, key: &str) -> bool
        ensures { result ≡ has_key key.now self.now }
    {
        self.key.as_slice() == key.as_bytes()
    }

    // Returns whether it has this key, and a value that is neither empty nor the expected one.
    fn is_other(&self, key: &str, wanted: &str) -> bool
        ensures { result ≡ is_other key.now wanted.now self.now }
    {
        let value = self.value.as_slice();
        self.has_key(key) && !value.is_empty() && value != wanted.as_bytes()
    }

    /// Returns whether it names another version of the standard.
    pub fn is_other_version(&self) -> bool
        ensures { result ≡ is_other_version self.now }
    {
        self.is_other("url_ver", VERSION) || self.is_other("ctx_ver", VERSION)
    }

    /// Returns whether it names this format.
    pub fn has_format(&self, format: &str) -> bool
        ensures { result ≡ has_format format.now self.now }
    {
        self.has_key("rft_val_fmt") && self.value.as_slice() == format.as_bytes()
    }

    /// Returns whether it names a format other than those of journals and of books.
    pub fn is_other_format(&self) -> bool
        ensures { result ≡ is_other_format self.now }
    {
        self.is_other("rft_val_fmt", JOURNAL) && self.value.as_slice() != BOOK.as_bytes()
    }

    /// Returns the identifier that it names, if any.
    pub fn identifier(&self) -> Option<Identifier>
        ensures { result ≡ identifier_of_pair self.now }
    {
        let value = self.value.as_slice();
        if self.has_key("rft.issn") || self.has_key("rft.eissn") {
            Some(Identifier::Issn(Issn::parse(value)?))
        } else if self.has_key("rft_id") {
            Some(Identifier::Issn(issn_of_urn(value)?))
        } else if self.has_key("rft.isbn") {
            Some(Identifier::Isbn(Isbn::parse(value)?))
        } else {
            None
        }
    }

    /// Returns the days of its date, if it has a valid one.
    pub fn days(&self) -> Option<DayRange>
        ensures { result ≡ days_of_pair self.now }
    {
        if self.has_key("rft.date") {
            DayRange::of_query(trim_spaces(self.value.as_slice()))
        } else {
            None
        }
    }

    /// Returns the number of its volume, if it has a valid one.
    pub fn volume(&self) -> Option<u32>
        ensures { result ≡ volume_of_pair self.now }
    {
        if self.has_key("rft.volume") {
            read_volume(trim_spaces(self.value.as_slice()))
        } else {
            None
        }
    }
}

// The ISSN of a `urn:ISSN:` name (RFC 3044).
fn issn_of_urn(name: &[u8]) -> Option<Issn>
    ensures { result ≡ issn_of_urn name.now }
{
    let (scheme, number) = name.split_at_checked(9)?;
    if scheme.eq_ignore_ascii_case(b"urn:ISSN:") {
        Issn::parse(number)
    } else {
        None
    }
}
