//! The holdings of a library among the rows of a list.
ghost use Rattle.std.specs.Prelude.{◌≡◌};
ghost use Rattle.toml.specs.View.{table_view};
ghost use Rattle.node_site.specs.Held.{holding_at, holding_beside, library_has, listed_package, listed_title};
ghost use Rattle.node_site.specs.Held.{may_hold, package_holding, title_holding, unlisted};
ghost use Rattle.node_site.specs.HoldingsFiles.{rows_of};
ghost use Rattle.node_site.specs.Site.{holding_of, package_of, title_of};

use crate::checks::days_at;
use crate::holding::Holding;
use crate::lookup::switch_at;
use crate::site_file::SiteFile;
use feed_dates::DayRange;
use toml::Table;

// Returns what the library has of a title or a package that no table mentions.
fn unlisted(site: &SiteFile) -> Holding
    ensures { result ≡ unlisted site.now }
{
    Holding {
        is_held: site.holds_unlisted(),
        first: None,
        last: None,
    }
}

fn holding_of(table: &Table) -> Holding
    ensures { result ≡ holding_of (table_view table.now) }
{
    Holding {
        is_held: switch_at("held", table).unwrap_or(true),
        first: days_at("first", table).map(|days| days.first),
        last: days_at("last", table).map(|days| days.last),
    }
}

fn package_holding(site: &SiteFile, id: &[u8]) -> Option<Holding>
    ensures { result ≡ package_holding id.now site.now.packages }
{
    match site.package_table(id) {
        Some(table) => Some(holding_of(table)),
        None => None,
    }
}

fn title_holding(site: &SiteFile, package_id: &[u8], id: &[u8]) -> Option<Holding>
    ensures { result ≡ title_holding package_id.now id.now site.now.titles }
{
    match site.title_table(package_id, id) {
        Some(table) => Some(holding_of(table)),
        None => None,
    }
}

// Returns what the holdings file says of a title.
fn listed_title(site: &SiteFile, package_id: &[u8], id: &[u8]) -> Option<Holding>
    ensures { result ≡ listed_title package_id.now id.now (rows_of site.now.listing) }
{
    match id {
        [] => None,
        [_, ..] => site.listed_holding(package_id, id),
    }
}

fn listed_package(site: &SiteFile, package_id: &[u8]) -> Option<Holding>
    ensures { result ≡ listed_package package_id.now (rows_of site.now.listing) }
{
    site.listed_holding(package_id, b"")
}

// Returns what the library has of the titles of a package, unless something is said of the title.
fn holding_beside(site: &SiteFile, package_id: &[u8]) -> Holding
    ensures { result ≡ holding_beside site.now package_id.now }
{
    if let Some(holding) = package_holding(site, package_id) {
        return holding;
    }
    match listed_package(site, package_id) {
        Some(holding) => holding,
        None => unlisted(site),
    }
}

// Returns the holdings of the library in a title of a package: those of the first place that says something.
fn holding_at(site: &SiteFile, package_id: &[u8], id: &[u8]) -> Holding
    ensures { result ≡ holding_at site.now package_id.now id.now }
{
    if let Some(holding) = title_holding(site, package_id, id) {
        return holding;
    }
    if let Some(holding) = listed_title(site, package_id, id) {
        return holding;
    }
    holding_beside(site, package_id)
}

/// Returns whether a library may have titles of a package. If not, it has none: the package is switched off, no table
/// switches a title of it on, and no row of the holdings file does.
pub fn may_hold(site: &SiteFile, package_id: &[u8]) -> bool
    ensures { result ≡ may_hold site.now package_id.now }
{
    holding_beside(site, package_id).is_held
        || (site.on_title_table(package_id).is_some() || site.has_on_listed(package_id))
}

/// Returns whether a library has what is asked for of a row of this package, with this `title_id` and this coverage,
/// from a first day to a last one, as far as there are such: it has the package or the title, and its own days share
/// one with the coverage and one with the days that are asked for.
#[tactic(auto, unfolding(crate::specs::Held::library_has))]
pub fn library_has(
    site: &SiteFile,
    package_id: &[u8],
    title_id: &[u8],
    first: Option<i32>,
    last: Option<i32>,
    asked: Option<DayRange>,
) -> bool
    ensures { result ≡ library_has site.now package_id.now title_id.now first last asked }
{
    holding_at(site, package_id, title_id).has_days(first, last, asked)
}
