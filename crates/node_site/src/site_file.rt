//! The site file, and how it is read.
ghost use Rattle.std.specs.Prelude.{◌≡◌, ◌≤◌, IfErr, IfOk, Some, is_some, length, option_copied, option_map, take};
ghost use Rattle.std.specs.List.{find, position_or_len};
ghost use Rattle.toml.specs.Errors.{IsMemory, IsWithin, span_start};
ghost use Rattle.toml.specs.Parse.{parse_document};
ghost use Rattle.toml.specs.View.{array_view, table_view};
ghost use Rattle.node_site.specs.Held.{is_on_listed, is_on_title, is_package, is_title, title_holding};
ghost use Rattle.node_site.specs.HoldingsFiles.{rows_of};
ghost use Rattle.node_site.specs.Indexes.{count_in, row_at, row_in};
ghost use Rattle.node_site.specs.Limits.{site_limit};
ghost use Rattle.node_site.specs.Positions.{position_of};
ghost use Rattle.node_site.specs.Platforms.{platform_at};
ghost use Rattle.node_site.specs.Site.{except_in, link_of, package_of, platform_of, replacement, rows_in, switch_in};
ghost use Rattle.node_site.specs.Site.{text_in, title_of};
ghost use Rattle.node_site.specs.Syntax.{IsTextFault};

use crate::checks::fault_of;
use crate::domains::Domains;
use crate::holding::Holding;
use crate::holdings_file::HoldingsFile;
use crate::lookup::{items_at, switch_at, table_at, text_at};
use crate::on_titles::on_title_places;
use crate::packages::package_places;
use crate::places::Places;
use crate::platforms::{place_of_host, platform_places};
use crate::position::position_of;
use crate::site_fault::{KeyFault, SiteFault};
use crate::title_places::{TitlePlaces, title_places};
use std::alloc::{AllocError, Global};
use std::marker::Model;
use std::str;
use toml::Table;
use toml::de::Error;
use toml::value::Array;

/// The most bytes of a site file.
pub const SITE_LIMIT: usize = 65_536;

/// A site file: a TOML document in which no key is wrong.
#[derive(Drop)]
pub struct SiteFile {
    document: Table,
    platforms: Places,
    packages: Places,
    titles: TitlePlaces,
    on_titles: Places,
    domains: Domains,
    /// The holdings file that the document names, once it is read.
    listing: Option<HoldingsFile>,
}

impl Model for SiteFile {
    ghost use Rattle.std.specs.Prelude.{◌≡◌, None, [], unwrap_or};
    ghost use Rattle.toml.specs.View.{table_view};
    ghost use Rattle.node_site.specs.Faults.{fault_of};
    ghost use Rattle.node_site.specs.Indexes.{AreIndexes};
    ghost use Rattle.node_site.specs.Site.{SiteValue, site_of, with_listing};

    ghost Value = { SiteValue };

    ghost view = { λ s. with_listing (unwrap_or s.listing []) (site_of (table_view s.document)) };

    ghost invariant = { λ s. (fault_of (table_view s.document) ≡ None)
        × AreIndexes (table_view s.document) s.platforms s.packages s.titles s.on_titles s.domains };
}

// Returns the text at a key of a section.
fn text_in<'a>(section: &str, key: &str, document: &'a Table) -> Option<&'a str>
    ensures { option_copied result ≡ text_in section.now key.now (table_view document.now) }
{
    match table_at(section, document) {
        Some(table) => text_at(key, table),
        None => None,
    }
}

// Returns whether a switch of a section is on, and what it is without the key.
fn switch_in(section: &str, key: &str, otherwise: bool, document: &Table) -> bool
    ensures { result ≡ switch_in section.now key.now otherwise (table_view document.now) }
{
    match table_at(section, document) {
        Some(table) => switch_at(key, table).unwrap_or(otherwise),
        None => otherwise,
    }
}

// Why a text is not read: it is not TOML, or an allocation failed.
fn syntax_fault(text: &str, error: &Error) -> SiteFault
    requires within { IsWithin text.now error.now }
    requires short { length text.now ≤ site_limit }
    ensures memory { IsMemory error.now → result ≡ SiteFault.Memory }
    ensures syntax { ¬ IsMemory error.now
        → result ≡ SiteFault.Syntax (position_of (take (span_start error.now) text.now)) }
{
    match error.span() {
        Some(range) => SiteFault::Syntax(position_of(&text.as_bytes()[..range.start])),
        None => SiteFault::Memory,
    }
}

// Reads a text within the limit as TOML.
fn document_of(alloc: Global, text: &str) -> Result<Table, SiteFault>
    requires { length text.now ≤ site_limit }
    ensures read { IfOk result (λ t. parse_document text.now ≡ Some (table_view t)) }
    ensures refused { IfErr result (IsTextFault text.now) }
{
    match toml::table_from_str(alloc, text) {
        Ok(document) => Ok(document),
        Err(error) => Err(syntax_fault(text, &error)),
    }
}

// Returns the list of the hosts that need no proxy.
fn except_in(document: &Table) -> Option<&Array>
    ensures { option_map (λ v. array_view v.now) result ≡ except_in (table_view document.now) }
{
    match table_at("proxy", document) {
        Some(proxy) => items_at("except", proxy),
        None => None,
    }
}

// Returns the table at a place of a list.
#[tactic(auto, using(crate::proofs::FirstRows::row_here, crate::proofs::FirstRows::row_past))]
fn row_at<'a>(place: usize, rows: &'a Array) -> Option<&'a Table>
    ensures { option_map (λ m. table_view m.now) result ≡ row_at place (array_view rows.now) }
{
    if place < rows.len() {
        rows[place].as_table()
    } else {
        None
    }
}

fn row_in<'a>(place: Option<usize>, rows: Option<&'a Array>) -> Option<&'a Table>
    ensures { option_map (λ m. table_view m.now) result ≡ row_in place (option_map (λ v. array_view v.now) rows.entry) }
{
    match (place, rows) {
        (Some(place), Some(rows)) => row_at(place, rows),
        _ => None,
    }
}

#[tactic(auto, using(crate::proofs::FirstRows::count_rows))]
fn count_in(rows: Option<&Array>) -> usize
    ensures { result ≡ count_in (option_map (λ v. array_view v.now) rows.entry) }
{
    match rows {
        Some(rows) => rows.len(),
        None => 0,
    }
}

impl SiteFile {
    ghost use Rattle.std.specs.Prelude.{IfErr, IfOk};
    ghost use Rattle.node_site.specs.Reading.{IsSiteFault, IsSiteOf};
    ghost use Rattle.node_site.specs.Faults.{fault_of};
    ghost use Rattle.node_site.specs.Site.{site_of};
    ghost use Rattle.node_site.specs.Valid.{IsSite};

    // Makes the look-ups of a document.
    fn of(alloc: Global, document: Table) -> Result<SiteFile, AllocError>
        requires { fault_of (table_view document) ≡ None }
        ensures value { IfOk result (λ site. site ≡ site_of (table_view document)) }
        ensures valid { IfOk result IsSite }
    {
        let platforms = platform_places(alloc, items_at("platform", &document))?;
        let packages = package_places(alloc, items_at("package", &document))?;
        let titles = title_places(alloc, items_at("title", &document))?;
        let on_titles = on_title_places(alloc, items_at("title", &document))?;
        let domains = Domains::of(alloc, except_in(&document))?;
        Ok(SiteFile {
            document,
            platforms,
            packages,
            titles,
            on_titles,
            domains,
            listing: None,
        })
    }

    /// Reads a site file.
    ///
    /// # Errors
    ///
    /// The bytes are too long, not UTF-8 or not TOML, a key is unknown or its value is not accepted, or an allocation
    /// fails.
    pub fn read(alloc: Global, bytes: &[u8]) -> Result<SiteFile, SiteFault>
        ensures read { IfOk result (IsSiteOf bytes.now) }
        ensures valid { IfOk result IsSite }
        ensures refused { IfErr result (IsSiteFault bytes.now) }
    {
        if bytes.len() > SITE_LIMIT {
            return Err(SiteFault::TooLong);
        }
        let text = match str::from_utf8(bytes) {
            Ok(text) => text,
            Err(_) => return Err(SiteFault::NotUtf8),
        };
        let document = match document_of(alloc, text) {
            Ok(document) => document,
            Err(fault) => return Err(fault),
        };
        match fault_of(&document) {
            Some(misfit) => match KeyFault::of(alloc, &misfit) {
                Ok(fault) => Err(SiteFault::Key(fault)),
                Err(_) => Err(SiteFault::Memory),
            },
            None => match SiteFile::of(alloc, document) {
                Ok(site) => Ok(site),
                Err(_) => Err(SiteFault::Memory),
            },
        }
    }
}

impl SiteFile {
    ghost use Rattle.node_site.specs.Site.{with_listing};
    ghost use Rattle.node_site.specs.Valid.{IsSite};

    /// States that each text of a site file is of its kind.
    pub fn texts_are_valid(&self)
        ensures { IsSite self.now }
    {
        let _document = &self.document;
    }

    /// Sets the holdings file that the site file names. It replaces one that was set before.
    pub fn set_holdings(&mut self, file: HoldingsFile)
        ensures { self.new ≡ with_listing file self.old }
    {
        self.listing = Some(file);
    }
}

#[tactic(auto, unfolding(crate::specs::Site::site_of))]
impl SiteFile {
    ghost use Rattle.node_site.specs.Proxies.{is_excepted};

    /// Returns the name of the library.
    pub fn name(&self) -> Option<&str>
        ensures { option_copied result ≡ self.now.name }
    {
        text_in("library", "name", &self.document)
    }

    /// Returns the tag of the page's language.
    pub fn language(&self) -> Option<&str>
        ensures { option_copied result ≡ self.now.language }
    {
        text_in("library", "language", &self.document)
    }

    /// Returns the colour of the page.
    pub fn color(&self) -> Option<&str>
        ensures { option_copied result ≡ self.now.color }
    {
        text_in("library", "color", &self.document)
    }

    /// Returns the address of the library's help.
    pub fn help(&self) -> Option<&str>
        ensures { option_copied result ≡ self.now.help }
    {
        text_in("library", "help", &self.document)
    }

    /// Returns the address at which readers contact the library.
    pub fn contact(&self) -> Option<&str>
        ensures { option_copied result ≡ self.now.contact }
    {
        text_in("library", "contact", &self.document)
    }

    /// Returns the template of the address at which readers request a copy from another library.
    pub fn request(&self) -> Option<&str>
        ensures { option_copied result ≡ self.now.request }
    {
        text_in("library", "request", &self.document)
    }

    /// Returns whether `/resolve` redirects a browser to a sole hit.
    pub fn redirects_sole_hit(&self) -> bool
        ensures { result ≡ self.now.redirects_sole_hit }
    {
        switch_in("library", "redirect_sole_hit", false, &self.document)
    }

    /// Returns whether the library has what no table mentions.
    pub(crate) fn holds_unlisted(&self) -> bool
        ensures { result ≡ self.now.holds_unlisted }
    {
        switch_in("library", "held", true, &self.document)
    }

    /// Returns the name of the holdings file, which is beside the site file.
    pub fn holdings(&self) -> Option<&str>
        ensures { option_copied result ≡ self.now.holdings }
    {
        text_in("library", "holdings", &self.document)
    }

    /// Returns the text that the site has in place of the one of a name.
    #[tactic(auto, unfolding(crate::specs::Site::site_of), using(crate::proofs::Replaced::text_is))]
    pub(crate) fn replacement(&self, name: &str) -> Option<&str>
        ensures { option_copied result ≡ replacement name.now self.now.replaced }
    {
        text_in("texts", name, &self.document)
    }

    /// Returns the prefix of links that go through the proxy.
    pub fn prefix(&self) -> Option<&str>
        ensures { option_copied result ≡ self.now.prefix }
    {
        text_in("proxy", "prefix", &self.document)
    }

    /// Returns whether the prefix takes the address percent-encoded.
    pub fn encodes(&self) -> bool
        ensures { result ≡ self.now.encodes }
    {
        switch_in("proxy", "encode", false, &self.document)
    }

    /// Returns the table about the platform of a host, in any case of letters.
    pub(crate) fn platform_table(&self, host: &[u8]) -> Option<&Table>
        ensures { option_map (λ m. platform_of (table_view m.now)) result ≡ platform_at self.now.platforms host.now }
    {
        row_in(
            place_of_host(&self.platforms, host),
            items_at("platform", &self.document),
        )
    }

    /// Returns the tables about platforms.
    pub(crate) fn platform_tables(&self) -> Option<&Array>
        ensures { rows_in platform_of (option_map (λ v. array_view v.now) result) ≡ self.now.platforms }
    {
        items_at("platform", &self.document)
    }

    /// Returns the tables about the links of the library.
    pub fn link_tables(&self) -> Option<&Array>
        ensures { rows_in link_of (option_map (λ v. array_view v.now) result) ≡ self.now.links }
    {
        items_at("link", &self.document)
    }

    /// Returns the first table about a package.
    pub(crate) fn package_table(&self, id: &[u8]) -> Option<&Table>
        ensures { option_map (λ m. package_of (table_view m.now)) result ≡ find (is_package id.now) self.now.packages }
    {
        row_in(self.packages.get(id), items_at("package", &self.document))
    }

    /// Returns the place of the first table about a package, or how many tables there are.
    pub(crate) fn package_place(&self, id: &[u8]) -> usize
        ensures { result ≡ position_or_len (is_package id.now) self.now.packages }
    {
        match self.packages.get(id) {
            Some(place) => place,
            None => count_in(items_at("package", &self.document)),
        }
    }

    /// Returns the first table about a title of a package.
    pub(crate) fn title_table(&self, package_id: &[u8], id: &[u8]) -> Option<&Table>
        ensures { option_map (λ m. title_of (table_view m.now)) result
            ≡ find (is_title package_id.now id.now) self.now.titles }
    {
        row_in(
            self.titles.get(package_id, id),
            items_at("title", &self.document),
        )
    }

    /// Returns the first table that switches a title of a package on.
    pub(crate) fn on_title_table(&self, package_id: &[u8]) -> Option<&Table>
        ensures { option_map (λ m. title_of (table_view m.now)) result
            ≡ find (is_on_title package_id.now) self.now.titles }
    {
        row_in(
            self.on_titles.get(package_id),
            items_at("title", &self.document),
        )
    }

    /// Returns the bytes of the holdings file, or none if none was read.
    pub fn listing(&self) -> &[u8]
        ensures { result.now ≡ self.now.listing }
    {
        match &self.listing {
            Some(listing) => listing.text(),
            None => b"",
        }
    }

    /// Returns what the holdings file says of a title of a package, or without one of the whole package.
    pub(crate) fn listed_holding(&self, package_id: &[u8], id: &[u8]) -> Option<Holding>
        ensures { result ≡ title_holding package_id.now id.now (rows_of self.now.listing) }
    {
        match &self.listing {
            Some(listing) => listing.holding(package_id, id),
            None => None,
        }
    }

    /// Returns whether a row of the holdings file says that the library has a title of a package.
    pub(crate) fn has_on_listed(&self, package_id: &[u8]) -> bool
        ensures { result ≡ is_some (find (is_on_listed package_id.now) (rows_of self.now.listing)) }
    {
        match &self.listing {
            Some(listing) => listing.has_on(package_id),
            None => false,
        }
    }

    /// Returns whether links to a host never go through the proxy.
    pub(crate) fn is_excepted(&self, host: &[u8]) -> bool
        ensures { result ≡ is_excepted self.now.except host.now }
    {
        self.domains.cover(host)
    }
}
