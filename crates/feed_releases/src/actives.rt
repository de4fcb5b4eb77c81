//! The active releases of a feed, ordered by package. There are at most 4,096 of them.
ghost use Rattle.std.specs.Prelude.{◌≡◌, ◌≢◌, ◌<◌, ◌≤◌, All, IfOk, IfNone, IfSome, OnOk, length, insert};
ghost use Rattle.std.specs.List.{HoldsAt};
ghost use Rattle.std.specs.Cmp.Lexicographic.{slice_cmp};
ghost use Rattle.std.specs.Ordering.{nat_cmp};
ghost use Rattle.feed_releases.specs.Actives.{active_of, actives_of, is_package_before, insert_active};
ghost use Rattle.feed_releases.specs.Actives.{AreInOrder, IsKnownRelease, AreKnown};

use crate::release::Release;
use feed_kbart::Holdings;
use feed_names::ReleaseName;
use std::alloc::{AllocError, Global};
use std::cmp::Ordering;
use std::marker::Model;

/// An active release: its name and its holdings.
#[derive(Drop)]
pub struct ActiveRelease<'a> {
    name: &'a ReleaseName,
    holdings: &'a Holdings,
}

impl<'a> Model for ActiveRelease<'a> {
    ghost use Rattle.feed_releases.specs.Actives.{ActiveValue};

    ghost Value = { ActiveValue };

    ghost view = { λ a. record { name = a.name.now; holdings = a.holdings.now } };
}

impl<'a> ActiveRelease<'a> {
    /// Returns an active release with this name and these holdings.
    pub fn new(name: &'a ReleaseName, holdings: &'a Holdings) -> ActiveRelease<'a>
        ensures { result ≡ record { name = name.now; holdings = holdings.now } }
    {
        ActiveRelease { name, holdings }
    }

    /// Returns its name.
    pub fn name(&self) -> &'a ReleaseName
        ensures { result.now ≡ self.now.name }
    {
        self.name
    }

    /// Returns its holdings.
    pub fn holdings(&self) -> &'a Holdings
        ensures { result.now ≡ self.now.holdings }
    {
        self.holdings
    }
}

/// Returns the place of a package's release among active ones that are in the order of their packages.
pub fn find_package(actives: &[ActiveRelease<'_>], package: &[u8]) -> Option<usize>
    requires { AreInOrder actives.now }
    ensures within { IfSome result (λ at. at < length actives.now) }
    ensures found { IfSome result (HoldsAt (λ active. active.name.package_name ≡ «package».now) actives.now) }
    ensures none { IfNone result (All (λ active. active.name.package_name ≢ «package».now) actives.now) }
{
    let place = actives.binary_search_by(
        |active: &ActiveRelease<'_>| -> Ordering
            ensures { result ≡ slice_cmp nat_cmp active.now.name.package_name «package».entry.now }
        { active.name.package().cmp(&package) },
    );
    match place {
        Ok(at) => Some(at),
        Err(_) => None,
    }
}

fn is_listed_before(active: &ActiveRelease<'_>, other: &ActiveRelease<'_>) -> bool
    ensures { result ≡ is_package_before active.now other.now }
{
    active.name.package().cmp(&other.name.package()).is_lt()
}

// Returns the place for an active release, behind those whose packages are less than its own. It looks from the end,
// since the releases of a feed are mostly in this order.
fn place_for(actives: &[ActiveRelease<'_>], active: &ActiveRelease<'_>) -> usize
    requires { AreInOrder actives.now }
    ensures within { result ≤ length actives.now }
    ensures place { insert actives.now result active.now ≡ insert_active active.now actives.now }
{
    let mut at = actives.len();
    while at > 0 {
        if is_listed_before(&actives[at - 1], active) {
            return at;
        }
        at -= 1;
    }
    0
}

fn add<'a>(
    actives: &mut Vec<ActiveRelease<'a>>,
    active: ActiveRelease<'a>,
) -> Result<(), AllocError>
    requires { AreInOrder actives.old.items }
    ensures items { OnOk result (actives.new.items ≡ insert_active active.entry actives.old.items) }
    ensures order { OnOk result (AreInOrder actives.new.items) }
{
    let place = place_for(actives, &active);
    actives.insert(place, active)?;
    Ok(())
}

/// Returns a release with its holdings, if it is active.
pub(crate) fn active_of(release: &Release) -> Option<ActiveRelease<'_>>
    ensures value { result ≡ active_of release.now }
    ensures known { IsKnownRelease release.now }
{
    match release.holdings() {
        Some(holdings) => Some(ActiveRelease {
            name: release.name(),
            holdings,
        }),
        None => None,
    }
}

/// Returns the active ones among all releases, ordered by package.
pub(crate) fn actives_of(
    alloc: Global,
    releases: &[Release],
) -> Result<Vec<ActiveRelease<'_>>, AllocError>
    ensures value { IfOk result (λ actives. actives.items ≡ actives_of releases.now) }
    ensures order { IfOk result (λ actives. AreInOrder actives.items) }
    ensures known { OnOk result (AreKnown releases.now) }
{
    let mut actives = Vec::new(alloc);
    for release in releases {
        if let Some(active) = active_of(release) {
            add(&mut actives, active)?;
        }
    }
    Ok(actives)
}
