//! Templates: lines of HTML, each with its condition and with holes for values and texts.
use crate::slot::Slot;
use node_site::Text;

/// A hole behind a fragment of HTML.
#[derive(Clone, Copy)]
pub enum Hole {
    /// Nothing.
    Nothing,
    /// The value of a slot.
    Value(Slot),
    /// A text in the language of the library.
    Words(Text),
}

/// The condition of a line.
#[derive(Clone, Copy)]
pub enum When {
    /// The line is always written.
    Always,
    /// If the slot has a value.
    Given(Slot),
    /// If the value of the slot is safe in a link.
    Linked(Slot),
    /// If the value of the slot is safe in a style.
    Styled(Slot),
}

/// A fragment of HTML, and the hole behind it.
pub type HtmlFragment = (&'static str, Hole);

/// A line: its condition and its fragments.
pub type TemplateLine = (When, &'static [HtmlFragment]);

/// A template.
#[derive(Clone, Copy)]
pub enum Template {
    /// A page up to and including its heading.
    Top,
    /// The library's help and contact, and the end of a page.
    Foot,
    /// The form for a journal or a book.
    SearchForm,
    /// The form for titles.
    TitlesForm,
    /// A statement, if there is one.
    Note,
    /// The name of an error, if there is one.
    Fault,
    /// A heading for the form behind an error.
    AskAgain,
    /// The rows of a citation: those of the work with its numbers, those of the place, and those of the names.
    CitedWork,
    CitedPlace,
    CitedNames,
    /// The citation for programs that collect citations, if there is one.
    Coins,
    /// The beginning of a list of cards, if it has any.
    Cards,
    /// The card of a hit.
    Card,
    /// The end of the list, the number of hits that are left out, if any are, and the packages that may have more.
    LeftOut,
    /// The beginning of the list of the library's links, if it has any, such a link, and the end of the list with a
    /// heading for the form of a new search.
    Ways,
    Way,
    WaysEnd,
    /// The card of a title.
    TitleCard,
    /// The end of the list, the order of titles, and the link to the next ones.
    TitlesEnd,
    /// The faults of the ISSN and of the ISBN, if they have any.
    NumberFaults,
    /// The beginning of the list of packages, if it has any, a package, and the end of the list with the number of
    /// packages that are left out, if any are.
    Packages,
    Package,
    PackagesEnd,
    /// A fragment of a page of another site up to and including its heading, the beginning of its list of the library's
    /// links, if it has any, and the end of that list and of the fragment.
    FragmentTop,
    FragmentWays,
    FragmentEnd,
}
