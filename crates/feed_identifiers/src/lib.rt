//! Identifiers of serials and books: ISSNs (ISO 3297) and ISBNs (ISO 2108), with a number for each that an index can
//! use.
#![tactic(auto)]

mod check;
mod identifier;
mod isbn;
mod issn;
mod laws;

pub use identifier::Identifier;
pub use isbn::Isbn;
pub use issn::Issn;
pub use laws::{
    an_isbn_10_is_its_isbn_13, one_identifier_for_key, printed_isbn_parses, printed_issn_parses,
};
