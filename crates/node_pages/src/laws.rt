//! Laws of the pages, each stated as the contract of a function with an empty body.
ghost use Rattle.node_pages.specs.Laws.{FragmentsSuitOtherPages, PackagesAreListed, PagesHaveTheirTags, SlotsAreGiven};

/// States that each slot of a template has a value in each page, but for the fields of the empty form.
pub fn slots_are_given()
    ensures { SlotsAreGiven }
{}

/// States that each page has the tags of its templates alone, and that its addresses are safe, whatever a list, a query
/// or a site file says.
pub fn pages_have_their_tags()
    ensures { PagesHaveTheirTags }
{}

/// States that each fragment has the tags of its templates alone, whatever a list, a query or a site file says. It has
/// neither a form, nor a style, nor a script, and each of its addresses is one of `http` or of `https`.
pub fn fragments_suit_other_pages()
    ensures { FragmentsSuitOtherPages }
{}

/// States that the page of `/status` lists all packages whose lists have rows. The home page lists the first 200, and
/// has the number of the others as a link to that page.
pub fn packages_are_listed()
    ensures { PackagesAreListed }
{}
