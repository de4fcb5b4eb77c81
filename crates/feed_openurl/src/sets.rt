//! Sets of identifiers.
ghost use Rattle.std.specs.Prelude.{◌≡◌, ◌<◌, ◌↔◌, [], IsTrue, IfOk, fold};
ghost use Rattle.std.specs.BTreeSet.{insert_key};
ghost use Rattle.feed_openurl.specs.Identifiers.{identifiers_among};

use feed_identifiers::{Identifier, Isbn, Issn};
use std::alloc::{AllocError, Global};
use std::collections::BTreeSet;
use std::marker::Model;

/// The most ISSNs and ISBNs that an OpenURL may have.
pub const IDENTIFIER_LIMIT: usize = 64;

/// ISSNs and ISBNs.
#[derive(Drop)]
pub(crate) struct Identifiers {
    pub(crate) issns: Vec<Issn>,
    pub(crate) isbns: Vec<Isbn>,
}

impl Model for Identifiers {
    ghost use Rattle.feed_openurl.specs.Identifiers.{IdentifiersValue};

    ghost Value = { IdentifiersValue };

    ghost view = { λ found. record { issns = found.issns.items; isbns = found.isbns.items } };
}

impl Identifiers {
    ghost use Rattle.feed_openurl.specs.Identifiers.{are_none, count, identifier_limit};

    pub(crate) fn is_empty(&self) -> bool
        ensures { result ≡ are_none self.now }
    {
        self.issns.is_empty() && self.isbns.is_empty()
    }

    /// Returns whether there are more than the limit.
    pub(crate) fn are_too_many(&self) -> bool
        ensures { IsTrue result ↔ (identifier_limit < count self.now.issns self.now.isbns) }
    {
        let issns = self.issns.len();
        issns > IDENTIFIER_LIMIT || self.isbns.len() > IDENTIFIER_LIMIT - issns
    }
}

// Returns the set of some identifiers: ascending, each once.
fn set_of<T: Ord + Copy>(alloc: Global, identifiers: &[T]) -> Result<Vec<T>, AllocError>
    ensures { IfOk result (λ set. set.items ≡ fold (insert_key T.cmp) [] identifiers.now) }
{
    let mut set = BTreeSet::new(alloc);
    for identifier in identifiers {
        set.insert(*identifier)?;
    }
    let mut ascending = Vec::new(alloc);
    for identifier in &set {
        ascending.push(*identifier)?;
    }
    Ok(ascending)
}

/// Returns the identifiers among some numbers, as sets.
pub(crate) fn identifiers_among(
    alloc: Global,
    numbers: &[Identifier],
) -> Result<Identifiers, AllocError>
    ensures { IfOk result (λ found. found ≡ identifiers_among numbers.now) }
{
    let mut issns = Vec::new(alloc);
    let mut isbns = Vec::new(alloc);
    for number in numbers {
        match number {
            Identifier::Issn(issn) => issns.push(*issn)?,
            Identifier::Isbn(isbn) => isbns.push(*isbn)?,
        }
    }
    let issns = set_of(alloc, &issns)?;
    let isbns = set_of(alloc, &isbns)?;
    Ok(Identifiers { issns, isbns })
}
