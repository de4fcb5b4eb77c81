//! Laws of all templates and values, each stated as the contract of a function with an empty body.
ghost use Rattle.node_templates.specs.Laws.{FragmentsKeepTags, PagesKeepTags, TemplatesAreSound};

/// States that no value can change the tags, the addresses or the style of a template.
pub fn templates_are_sound()
    ensures { TemplatesAreSound }
{}

/// States that a page has the tags of its templates alone, whatever its values are: those of the lines that are
/// written, in order, with the same attributes. Each of its addresses is one of this site, of `http` or of `https`, and
/// its style has the rules of the template alone. None of its elements is a script.
pub fn pages_keep_tags()
    ensures { PagesKeepTags }
{}

/// States the same of a fragment, which is in a page of another site, if each of its templates may be in one. It has
/// neither a form nor a style, and each of its addresses is one of `http` or of `https`.
pub fn fragments_keep_tags()
    ensures { FragmentsKeepTags }
{}
