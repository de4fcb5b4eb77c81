//! Laws of the parts of a citation, each stated as the contract of a function with an empty body.
ghost use Rattle.feed_citation.specs.CitationParts.{PartsAreInPlace, PartsAreNamed};

/// Each part has the name by which sources and site files know it, and no other part has it.
pub fn parts_are_named()
    ensures { PartsAreNamed }
{}

/// The list of all parts has each part at its place.
pub fn parts_are_in_place()
    ensures { PartsAreInPlace }
{}
