//! Laws of the reply of SFX, each stated as the contract of a function with an empty body.
ghost use Rattle.node_hits.specs.SfxLaws.{FullTextsAreAlone, ReplyHasTargets, ReplyNamesMore, SfxIsBalanced};
ghost use Rattle.node_hits.specs.SfxLaws.{SfxReadsBack, TargetsAreHitsAndLinks, TargetsAreLinks};

/// A reader of XML gets the tags and the characters of a reply back from the text after the declaration. So no `<`, `>`
/// or `&` of an address or of another text is read as markup.
pub fn sfx_reads_back()
    ensures { SfxReadsBack }
{}

/// Each end tag of a reply closes the innermost element that is open, and none is open at the end.
pub fn sfx_is_balanced()
    ensures { SfxIsBalanced }
{}

/// A reader finds the address, the type and the public name of each target, in their order, and no others, whatever
/// packages may have more.
pub fn reply_has_targets()
    ensures { ReplyHasTargets }
{}

/// A reader finds the names of the first five packages that may have more, in their order and no others, and how many
/// more there are.
pub fn reply_names_more()
    ensures { ReplyNamesMore }
{}

/// The targets are the hits that are shown and may be linked to, in the order of their ranks, each with its link, and
/// then the links of the library, unless full texts alone are asked for.
pub fn targets_are_hits_and_links()
    ensures { TargetsAreHitsAndLinks }
{}

/// The address of each target is a URL of `http` or `https` in at most 8,000 bytes of visible ASCII.
pub fn targets_are_links()
    ensures { TargetsAreLinks }
{}

/// If full texts alone are asked for, each target is one.
pub fn full_texts_are_alone()
    ensures { FullTextsAreAlone }
{}
