//! The identifiers of a row, and their numbers in the index.
ghost use Rattle.std.specs.Prelude.{◌≡◌, IfSome, option_map};
ghost use Rattle.feed_identifiers.specs.Identifier.{IsIdentifier, key_of};

use crate::fault::Reason;
use feed_identifiers::{Identifier, Isbn, Issn};

/// The kind of a row's title.
#[derive(Clone, Copy, Debug, PartialEq, Eq)]
pub enum Kind {
    /// A serial: `publication_type` is empty or `serial`.
    Serial,
    /// A book: `publication_type` is `monograph`.
    Book,
}

impl Kind {
    ghost use Rattle.feed_kbart.specs.Coverage.{without};
    ghost use Rattle.feed_kbart.specs.Identifiers.{identifier_of};

    /// Parses an identifier of a title of this kind: the ISSN of a serial, or the ISBN of a book.
    pub(crate) fn identifier(self, text: &[u8]) -> Option<Identifier>
        ensures { result ≡ identifier_of self text.now }
    {
        match self {
            Kind::Serial => Some(Identifier::Issn(Issn::parse(text)?)),
            Kind::Book => Some(Identifier::Isbn(Isbn::parse(text)?)),
        }
    }

    /// Returns why a record without an identifier is skipped.
    pub(crate) fn without(self) -> Reason
        ensures { result ≡ without self }
    {
        match self {
            Kind::Serial => Reason::NoIssn,
            Kind::Book => Reason::NoIsbn,
        }
    }
}

/// The kind of a row, and its identifiers in print and online: ISSNs for a serial, ISBNs for a book.
#[derive(Clone, Copy, Debug)]
pub struct Identifiers {
    pub kind: Kind,
    pub print: Option<Identifier>,
    pub online: Option<Identifier>,
}

// The number of an identifier in the index, if there is one.
fn number_of(identifier: Option<Identifier>) -> Option<u32>
    ensures number { result ≡ option_map key_of identifier }
    ensures printed { IfSome identifier IsIdentifier }
{
    let identifier = identifier?;
    Some(identifier.key())
}

impl Identifiers {
    ghost use Rattle.feed_kbart.specs.Identifiers.{AreIdentifiers, are_none, identifiers_of, numbers};

    /// Parses the identifiers of a title of this kind.
    pub(crate) fn of(kind: Kind, print: &[u8], online: &[u8]) -> Identifiers
        ensures { result ≡ identifiers_of kind print.now online.now }
    {
        Identifiers {
            kind,
            print: kind.identifier(print),
            online: kind.identifier(online),
        }
    }

    /// Returns whether neither is valid.
    pub(crate) fn are_none(&self) -> bool
        ensures { result ≡ are_none self.now }
    {
        self.print.is_none() && self.online.is_none()
    }

    /// Returns their numbers in the index.
    pub(crate) fn numbers(&self) -> (Option<u32>, Option<u32>)
        ensures numbers { result ≡ numbers self.now }
        ensures printed { AreIdentifiers self.now }
    {
        (number_of(self.print), number_of(self.online))
    }
}
