//! The fields of the templates of addresses: the parts of a citation, and what is made of them.
ghost use Rattle.std.specs.Prelude.{◌≡◌};
ghost use Rattle.std.specs.Str.{bytes_eq};
ghost use Rattle.node_site.specs.Fields.{field_named, is_allowed, is_for_article, is_for_link, part_field};

use feed_citation::CitationPart;

/// A field of a template.
#[derive(Clone, Copy)]
pub enum Field {
    Issn,
    /// The ISSN without its hyphen.
    IssnPlain,
    Isbn,
    /// The `title_id` of a row.
    TitleId,
    Year,
    /// The month, in two digits.
    Month,
    /// The whole citation, as the query of an OpenURL.
    Query,
    Cited(CitationPart),
}

/// Which names a template may have in braces.
#[derive(Clone, Copy)]
pub enum Names {
    /// Those of a link of the library: all fields but that of a row.
    OfLink,
    /// Those of the address of an article: all fields but the whole citation.
    OfArticle,
    /// `url` alone: that of the prefix of a proxy.
    OfPrefix,
}

fn is(name: &[u8], word: &str) -> bool
    ensures { result ≡ bytes_eq name.now word.now }
{
    name == word.as_bytes()
}

fn part_field(name: &[u8]) -> Option<Field>
    ensures { result ≡ part_field name.now }
{
    if is(name, "spage") {
        return Some(Field::Cited(CitationPart::Page));
    }
    match CitationPart::named(name) {
        Some(part) => Some(Field::Cited(part)),
        None => None,
    }
}

impl Field {
    /// Returns the field of this name.
    pub fn named(name: &[u8]) -> Option<Field>
        ensures { result ≡ field_named name.now }
    {
        if is(name, "issn") {
            Some(Field::Issn)
        } else if is(name, "issn_plain") {
            Some(Field::IssnPlain)
        } else if is(name, "isbn") {
            Some(Field::Isbn)
        } else if is(name, "title_id") {
            Some(Field::TitleId)
        } else if is(name, "year") {
            Some(Field::Year)
        } else if is(name, "month") {
            Some(Field::Month)
        } else if is(name, "query") {
            Some(Field::Query)
        } else {
            part_field(name)
        }
    }
}

fn is_for_link(field: Option<Field>) -> bool
    ensures { result ≡ is_for_link field }
{
    match field {
        Some(Field::TitleId) | None => false,
        Some(_) => true,
    }
}

fn is_for_article(field: Option<Field>) -> bool
    ensures { result ≡ is_for_article field }
{
    match field {
        Some(Field::Query) | None => false,
        Some(_) => true,
    }
}

impl Names {
    /// Returns whether a template may have this name in braces.
    #[tactic(auto, unfolding(crate::specs::Fields::is_allowed))]
    pub(crate) fn allow(self, name: &[u8]) -> bool
        ensures { result ≡ is_allowed self name.now }
    {
        match self {
            Names::OfLink => is_for_link(Field::named(name)),
            Names::OfArticle => is_for_article(Field::named(name)),
            Names::OfPrefix => is(name, "url"),
        }
    }
}
