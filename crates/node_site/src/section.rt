//! The sections of a site file, and the kind of value of each key.
ghost use Rattle.std.specs.Prelude.{◌≡◌};
ghost use Rattle.node_site.specs.Schema.{holding_kind, is_list, kind_of, library_kind, link_kind, package_kind};
ghost use Rattle.node_site.specs.Schema.{platform_kind, proxy_kind, section_of, table_limit, texts_kind, title_kind};

use crate::kind::ValueKind;
use crate::site_file::SITE_LIMIT;
use crate::text_words::is_name;

/// A section of a site file.
#[derive(Clone, Copy)]
pub(crate) enum Section {
    /// `[library]`: the names, the addresses and the colour of the page, whether a sole hit is redirected to, and what
    /// the library has of what no table mentions.
    Library,
    /// `[texts]`: the texts of the pages that the site replaces.
    Texts,
    /// `[proxy]`: the prefix of links, and the hosts that need none.
    Proxy,
    /// `[[platform]]`: the address of the articles at a host, and the prefix of the links to it.
    Platform,
    /// `[[package]]`: the name of a package, the address of its articles, a note, and what the library has of it.
    Package,
    /// `[[title]]`: a note on a title, and what the library has of it.
    Title,
    /// `[[link]]`: a link of the library beside the hits.
    Link,
}

/// Returns the section of a key at the top of the file.
pub(crate) fn section_of(key: &str) -> Option<Section>
    ensures { result ≡ section_of key.now }
{
    match key {
        "library" => Some(Section::Library),
        "texts" => Some(Section::Texts),
        "proxy" => Some(Section::Proxy),
        "platform" => Some(Section::Platform),
        "package" => Some(Section::Package),
        "title" => Some(Section::Title),
        "link" => Some(Section::Link),
        _ => None,
    }
}

fn library_kind(key: &str) -> Option<ValueKind>
    ensures { result ≡ library_kind key.now }
{
    match key {
        "name" => Some(ValueKind::Text),
        "language" => Some(ValueKind::Language),
        "color" => Some(ValueKind::Color),
        "help" => Some(ValueKind::Url),
        "contact" => Some(ValueKind::Url),
        "request" => Some(ValueKind::Template),
        "redirect_sole_hit" => Some(ValueKind::Switch),
        "held" => Some(ValueKind::Switch),
        "holdings" => Some(ValueKind::FileName),
        _ => None,
    }
}

fn texts_kind(key: &str) -> Option<ValueKind>
    ensures { result ≡ texts_kind key.now }
{
    if is_name(key) {
        Some(ValueKind::Text)
    } else {
        None
    }
}

fn proxy_kind(key: &str) -> Option<ValueKind>
    ensures { result ≡ proxy_kind key.now }
{
    match key {
        "prefix" => Some(ValueKind::Prefix),
        "encode" => Some(ValueKind::Switch),
        "except" => Some(ValueKind::Hosts),
        _ => None,
    }
}

fn platform_kind(key: &str) -> Option<ValueKind>
    ensures { result ≡ platform_kind key.now }
{
    match key {
        "host" => Some(ValueKind::Host),
        "article" => Some(ValueKind::Article),
        "prefix" => Some(ValueKind::Prefix),
        "encode" => Some(ValueKind::Switch),
        _ => None,
    }
}

fn holding_kind(key: &str) -> Option<ValueKind>
    ensures { result ≡ holding_kind key.now }
{
    match key {
        "held" => Some(ValueKind::Switch),
        "first" => Some(ValueKind::Date),
        "last" => Some(ValueKind::Date),
        _ => None,
    }
}

fn package_kind(key: &str) -> Option<ValueKind>
    ensures { result ≡ package_kind key.now }
{
    match key {
        "id" => Some(ValueKind::Package),
        "name" => Some(ValueKind::Text),
        "article" => Some(ValueKind::Article),
        "note" => Some(ValueKind::Note),
        "proxy" => Some(ValueKind::Switch),
        _ => holding_kind(key),
    }
}

fn title_kind(key: &str) -> Option<ValueKind>
    ensures { result ≡ title_kind key.now }
{
    match key {
        "package" => Some(ValueKind::Package),
        "id" => Some(ValueKind::Text),
        "note" => Some(ValueKind::Note),
        _ => holding_kind(key),
    }
}

fn link_kind(key: &str) -> Option<ValueKind>
    ensures { result ≡ link_kind key.now }
{
    match key {
        "label" => Some(ValueKind::Text),
        "address" => Some(ValueKind::Template),
        "when" => Some(ValueKind::Occasion),
        _ => None,
    }
}

impl Section {
    /// Returns whether the section is a list of tables.
    pub(crate) fn is_list(self) -> bool
        ensures { result ≡ is_list self }
    {
        match self {
            Section::Library | Section::Texts | Section::Proxy => false,
            Section::Platform | Section::Package | Section::Title | Section::Link => true,
        }
    }

    /// Returns the most tables of the section.
    pub(crate) fn table_limit(self) -> usize
        ensures { result ≡ table_limit self }
    {
        match self {
            Section::Platform => 256,
            Section::Link => 20,
            _ => SITE_LIMIT,
        }
    }

    /// Returns the kind of value of a key.
    pub(crate) fn kind_of(self, key: &str) -> Option<ValueKind>
        ensures { result ≡ kind_of self key.now }
    {
        match self {
            Section::Library => library_kind(key),
            Section::Texts => texts_kind(key),
            Section::Proxy => proxy_kind(key),
            Section::Platform => platform_kind(key),
            Section::Package => package_kind(key),
            Section::Title => title_kind(key),
            Section::Link => link_kind(key),
        }
    }
}
