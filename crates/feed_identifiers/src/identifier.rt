//! The identifier of a serial or a book: an ISSN or an ISBN.
ghost use Rattle.std.specs.Prelude.{◌≡◌};

use crate::isbn::Isbn;
use crate::issn::Issn;

/// An ISSN or an ISBN. ISSNs come before ISBNs, and those of one kind are ordered by their texts.
#[derive(Clone, Copy, Debug, PartialEq, Eq, PartialOrd, Ord)]
pub enum Identifier {
    Issn(Issn),
    Isbn(Isbn),
}

impl Identifier {
    ghost use Rattle.feed_identifiers.specs.Identifier.{IsIdentifier, isbn_in, issn_in, key_of, text_of};

    /// Returns the printed form: the nine bytes of an ISSN, or the thirteen digits of an ISBN.
    pub fn text(&self) -> &[u8]
        ensures { result.now ≡ text_of self.now }
    {
        match self {
            Identifier::Issn(issn) => issn.bytes(),
            Identifier::Isbn(isbn) => isbn.bytes(),
        }
    }

    /// Returns the number that an index has for it. It determines the identifier: those of ISSNs have seven digits, and
    /// those of ISBNs are above them.
    pub fn key(&self) -> u32
        ensures key { result ≡ key_of self.now }
        ensures valid { IsIdentifier self.now }
    {
        match self {
            Identifier::Issn(issn) => issn.number(),
            Identifier::Isbn(isbn) => 10_000_000 + isbn.number(),
        }
    }

    /// Returns the ISSN, if it is one.
    pub fn issn(self) -> Option<Issn>
        ensures { result ≡ issn_in self }
    {
        match self {
            Identifier::Issn(issn) => Some(issn),
            Identifier::Isbn(_) => None,
        }
    }

    /// Returns the ISBN, if it is one.
    pub fn isbn(self) -> Option<Isbn>
        ensures { result ≡ isbn_in self }
    {
        match self {
            Identifier::Issn(_) => None,
            Identifier::Isbn(isbn) => Some(isbn),
        }
    }
}
