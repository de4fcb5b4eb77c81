//! The kinds of values that a site file has.
ghost use Rattle.std.specs.Prelude.{◌≡◌};
ghost use Rattle.node_site.specs.Kinds.{is_of};

use crate::cuts::is_sized;
use crate::field::Names;
use crate::hosts::is_link;
use crate::occasion::is_occasion;
use crate::template::{is_article, is_prefix, is_template};
use crate::text::{is_color, is_date, is_language, is_package};
use crate::urls::is_host;

/// A kind of value.
#[derive(Clone, Copy)]
pub enum ValueKind {
    /// A text of at most 250 bytes that is not empty. A page may have it a thousand times.
    Text,
    /// A note of at most 500 bytes that is not empty.
    Note,
    /// A tag of a language, such as `en-GB`.
    Language,
    /// A colour, such as `#00539f`.
    Color,
    /// A URL of `http` or `https`.
    Url,
    /// Such a URL with names of fields in braces, for a link of the library.
    Template,
    /// The same for the address of an article.
    Article,
    /// The prefix of a proxy, maybe with `{url}`.
    Prefix,
    /// When a link of the library is shown.
    Occasion,
    /// The name of a package.
    Package,
    /// The name of a file beside the site file.
    FileName,
    /// The name of a host.
    Host,
    /// A year, a month or a day.
    Date,
    /// `true` or `false`.
    Switch,
    /// A list of names of hosts.
    Hosts,
}

impl ValueKind {
    /// Returns whether a text is a value of this kind. A text is never a switch or a list.
    pub(crate) fn has(self, text: &[u8]) -> bool
        ensures { result ≡ is_of self text.now }
    {
        match self {
            ValueKind::Text => is_sized(1, 250, text),
            ValueKind::Note => is_sized(1, 500, text),
            ValueKind::Language => is_language(text),
            ValueKind::Color => is_color(text),
            ValueKind::Url => is_link(text),
            ValueKind::Template => is_template(Names::OfLink, text),
            ValueKind::Article => is_article(text),
            ValueKind::Prefix => is_prefix(text),
            ValueKind::Occasion => is_occasion(text),
            ValueKind::Package | ValueKind::FileName => is_package(text),
            ValueKind::Host => is_host(text),
            ValueKind::Date => is_date(text),
            ValueKind::Switch | ValueKind::Hosts => false,
        }
    }
}
