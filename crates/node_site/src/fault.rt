//! Why a site file is refused, and at which of its keys.
use std::marker::Model;

/// Why the value of a key is not accepted.
#[derive(Clone, Copy, Debug, PartialEq, Eq)]
pub enum ValueFault {
    /// The section does not have this key, or the file this section.
    UnknownKey,
    /// The table lacks this key.
    Missing,
    /// The section has to be a table.
    NotTable,
    /// The section has to be a list of tables, or the value a list of texts.
    NotList,
    /// The value has to be a text.
    NotText,
    /// The value has to be `true` or `false`.
    NotSwitch,
    /// The text does not have 1 to 250 bytes.
    TextSize,
    /// The text does not have 1 to 500 bytes.
    NoteSize,
    /// The text is not a tag of a language.
    Language,
    /// The text is not a colour.
    Color,
    /// The text is not a URL of `http` or `https` with a host.
    Url,
    /// The text is not such a URL, a brace does not enclose a name of a field, or there are more than 20 names.
    Template,
    /// The same of the address of an article, or it has no name.
    Article,
    /// The same of a prefix, in which the only name is `url`.
    Prefix,
    /// The text does not say when a link is shown.
    Occasion,
    /// The text is not the name of a package.
    Package,
    /// The text is not the name of a file beside the site file.
    FileName,
    /// The text is not a year, a month or a day.
    Date,
    /// The text is not the name of a host.
    Host,
    /// The last day is before the first.
    Order,
    /// An earlier table is about the same host.
    Twice,
    /// There are more tables than the section may have.
    TooMany,
    /// The first line of a holdings file is not its header.
    Header,
    /// The line does not have five cells.
    Columns,
    /// The cell is neither `yes` nor `no`.
    NotYesOrNo,
    /// An earlier line says something else of the same title or package.
    Contradicts,
}

impl ValueFault {
    /// Returns the reason in words.
    pub fn words(self) -> &'static str {
        match self {
            ValueFault::UnknownKey => "the key is unknown",
            ValueFault::Missing => "the key is missing",
            ValueFault::NotTable => "it is not a table",
            ValueFault::NotList => "it is not a list",
            ValueFault::NotText => "it is not a text in quotation marks",
            ValueFault::NotSwitch => "it is neither true nor false",
            ValueFault::TextSize => "the text does not have 1 to 250 bytes",
            ValueFault::NoteSize => "the text does not have 1 to 500 bytes",
            ValueFault::Language => "it is not a tag of a language, as en-GB",
            ValueFault::Color => "it is not a colour, as #00539f",
            ValueFault::Url => {
                "it is not a URL of http or https with a host, as https://library.example/"
            }
            ValueFault::Template => {
                "it is not a URL of http or https with at most 20 parts of a citation in braces, \
                as https://library.example/ill?issn={issn}"
            }
            ValueFault::Article => {
                "it is not a URL of http or https with 1 to 20 names in braces, \
                as https://platform.example/{issn}/{volume}/{spage}"
            }
            ValueFault::Prefix => {
                "it is not a URL of http or https with a / behind its host, \
                as https://proxy.example/login?url= or https://proxy.example/?to={url}"
            }
            ValueFault::Occasion => "it is not always, hits, no-hits or embargoed",
            ValueFault::Package => {
                "it is not the name of a package: 1 to 100 letters, digits, -, _ and ., not beginning with ."
            }
            ValueFault::FileName => {
                "it is not the name of a file beside the site file: 1 to 100 letters, digits, -, _ and ., \
                not beginning with ."
            }
            ValueFault::Date => {
                "it is not a year, a month or a day, as \"1996\", \"1996-03\" or \"1996-03-01\""
            }
            ValueFault::Host => "it is not the name of a host, as library.example",
            ValueFault::Order => "it is before the first day",
            ValueFault::Twice => "an earlier table has the same host",
            ValueFault::TooMany => "there are too many tables: at most 256 platforms and 20 links",
            ValueFault::Header => {
                "the first line does not have the names package, title_id, first, last and held, with tabs between them"
            }
            ValueFault::Columns => "it does not have five cells with tabs between them",
            ValueFault::NotYesOrNo => "it is neither yes nor no",
            ValueFault::Contradicts => {
                "an earlier line says something else of the same title or package"
            }
        }
    }
}

/// The reason why a value is not accepted, and the number of the item if it is a list, counted from 1.
#[derive(Clone, Copy)]
pub(crate) struct Flaw {
    pub(crate) item: Option<usize>,
    pub(crate) reason: ValueFault,
}

/// The key of a site file whose value is not accepted, and the reason.
#[derive(Drop)]
pub(crate) struct Misfit<'a> {
    /// The key at the top of the file.
    section: &'a str,
    /// The number of the table, if the section is a list.
    row: Option<usize>,
    /// The key in the table, unless it is the whole table.
    key: Option<&'a str>,
    /// The number of the item, if the value is a list.
    item: Option<usize>,
    reason: ValueFault,
}

impl<'a> Model for Misfit<'a> {
    ghost use Rattle.std.specs.Prelude.{option_copied};
    ghost use Rattle.node_site.specs.Faults.{MisfitValue};

    ghost Value = { MisfitValue };

    ghost view = { λ m. record {
      place = record { section = m.section.now; row = m.row };
      key = option_copied m.key;
      item = m.item;
      reason = m.reason;
    } };
}

impl<'a> Misfit<'a> {
    ghost use Rattle.std.specs.Prelude.{◌≡◌, option_copied};
    ghost use Rattle.node_site.specs.Faults.{at_key, at_table, place_of};

    pub(crate) fn at_key(
        section: &'a str,
        row: Option<usize>,
        key: &'a str,
        flaw: Flaw,
    ) -> Misfit<'a>
        ensures { result ≡ at_key (place_of section.now row) key.now flaw }
    {
        Misfit {
            section,
            row,
            key: Some(key),
            item: flaw.item,
            reason: flaw.reason,
        }
    }

    pub(crate) fn at_table(section: &'a str, row: Option<usize>, reason: ValueFault) -> Misfit<'a>
        ensures { result ≡ at_table (place_of section.now row) reason }
    {
        Misfit {
            section,
            row,
            key: None,
            item: None,
            reason,
        }
    }

    pub(crate) fn section(&self) -> &'a str
        ensures { result.now ≡ self.now.place.section }
    {
        self.section
    }

    pub(crate) fn row(&self) -> Option<usize>
        ensures { result ≡ self.now.place.row }
    {
        self.row
    }

    pub(crate) fn key(&self) -> Option<&'a str>
        ensures { option_copied result ≡ self.now.key }
    {
        self.key
    }

    pub(crate) fn item(&self) -> Option<usize>
        ensures { result ≡ self.now.item }
    {
        self.item
    }

    pub(crate) fn reason(&self) -> ValueFault
        ensures { result ≡ self.now.reason }
    {
        self.reason
    }
}
