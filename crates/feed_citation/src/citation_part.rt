//! The parts of a citation, and the names that they have in JSON and in the template of a request form.
ghost use Rattle.std.specs.Prelude.{◌≡◌};
ghost use Rattle.feed_citation.specs.CitationParts.{is_called, name_of, part_named, place_of};

/// A part of a citation.
#[derive(Clone, Copy)]
pub enum CitationPart {
    /// The title of the article or the chapter.
    Article,
    /// The title of the journal or the book.
    Title,
    /// All authors, with `; ` between two.
    Author,
    /// The date, also if none is read of it.
    Date,
    /// The volume, also if none is read of it.
    Volume,
    Issue,
    /// The first page.
    Page,
    /// The DOI, without what makes it a URI.
    Doi,
    /// The number in PubMed.
    Pmid,
    /// The kind of work, such as `article`.
    Genre,
    /// The last name of the first author.
    LastName,
    /// The first name of the first author, or the initials.
    FirstName,
    /// The last page.
    LastPage,
    /// All pages, such as `10-15`.
    Pages,
    /// The series of a book.
    Series,
    Edition,
    /// The publisher.
    Publisher,
    /// The place of publication.
    Place,
    /// The institution of a dissertation.
    Institution,
}

/// All parts, in the order of their members in JSON.
pub const PARTS: [CitationPart; 19] = [
    CitationPart::Article,
    CitationPart::Title,
    CitationPart::Author,
    CitationPart::Date,
    CitationPart::Volume,
    CitationPart::Issue,
    CitationPart::Page,
    CitationPart::Doi,
    CitationPart::Pmid,
    CitationPart::Genre,
    CitationPart::LastName,
    CitationPart::FirstName,
    CitationPart::LastPage,
    CitationPart::Pages,
    CitationPart::Series,
    CitationPart::Edition,
    CitationPart::Publisher,
    CitationPart::Place,
    CitationPart::Institution,
];

/// The name of each part, in the order of the parts.
const NAMES: [&str; 19] = [
    "article", "title", "author", "date", "volume", "issue", "page", "doi", "pmid", "genre",
    "aulast", "aufirst", "epage", "pages", "series", "edition", "pub", "place", "inst",
];

impl CitationPart {
    /// Returns the name of a part.
    pub fn name(self) -> &'static str
        ensures { result.now ≡ name_of self }
    {
        NAMES[self as usize]
    }

    /// Returns the place of a part among all parts.
    pub fn place(self) -> usize
        ensures { result ≡ place_of self }
    {
        self as usize
    }

    fn is_called(self, name: &[u8]) -> bool
        ensures { result ≡ is_called name.now self }
    {
        name == self.name().as_bytes()
    }

    /// Returns the part of this name.
    pub fn named(name: &[u8]) -> Option<CitationPart>
        ensures { result ≡ part_named name.now }
    {
        PARTS.iter().copied().find(|part| part.is_called(name))
    }
}
