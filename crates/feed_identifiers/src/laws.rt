//! Laws of identifiers, each stated as the contract of a function with an empty body.
ghost use Rattle.feed_identifiers.specs.Isbn.{isbn_of};
ghost use Rattle.feed_identifiers.specs.Issn.{issn_of};
ghost use Rattle.feed_identifiers.specs.Laws.{OneIdentifierForKey, PrintedFormParses, TenAreThirteen};

/// The printed form of an ISSN parses as itself.
pub fn printed_issn_parses()
    ensures { PrintedFormParses issn_of }
{}

/// The thirteen digits of an ISBN parse as themselves, also if the ISBN was written in ten characters.
pub fn printed_isbn_parses()
    ensures { PrintedFormParses isbn_of }
{}

/// An ISBN of ten characters equals the one of thirteen digits that begins with 978, has the same nine digits and the
/// right check digit.
pub fn an_isbn_10_is_its_isbn_13()
    ensures { TenAreThirteen }
{}

/// The key of an identifier determines the identifier.
pub fn one_identifier_for_key()
    ensures { OneIdentifierForKey }
{}
