//! Looking up releases by name or by package in a feed's list, which has at most 4,096 of them.
ghost use Rattle.std.specs.Prelude.{◌≡◌, ◌<◌, ◌≤◌, ℕ};
ghost use Rattle.std.specs.Prelude.{false, None, IsTrue, IfSome, IfNone, MatchOption, length};
ghost use Rattle.std.specs.Prelude.{slice_index_or, insert};
ghost use Rattle.feed_model.specs.Content.{record_of};
ghost use Rattle.feed_model.specs.Change.{insert_record, without_earlier};
ghost use Rattle.feed_releases.specs.ReleaseValue.{ReleaseValue, content_of, IsPlaceOf, IsActiveAfter, IsActiveOf};

use crate::leftovers::{Leftover, add};
use crate::release::Release;
use feed_keep::{is_earlier, is_listed_before};
use feed_model::State;
use feed_names::ReleaseName;

/// Returns the place of a name's release.
pub(crate) fn find(releases: &[Release], name: &ReleaseName) -> Option<usize>
    ensures found { IfSome result (λ i. IsPlaceOf releases.now name.now i) }
    ensures none { IfNone result (record_of (content_of releases.now) name.now ≡ None) }
{
    for (at, release) in releases.iter().enumerate() {
        if release.name() == name {
            return Some(at);
        }
    }
    None
}

/// Returns whether the active release of the name's package is of a later day.
pub(crate) fn is_passed(releases: &[Release], name: &ReleaseName) -> bool
    ensures later { IsTrue result → (k : ℕ) × (k < length releases.now)
        × ((d : ReleaseValue) → IsActiveAfter name.now (slice_index_or releases.now k d)) }
    ensures none { result ≡ false → (k : ℕ) (d : ReleaseValue) → k < length releases.now
        → IsActiveAfter name.now (slice_index_or releases.now k d) → ⊥ }
{
    for release in releases {
        if release.state() == State::Active && name.earlier_than(release.name()) {
            return true;
        }
    }
    false
}

/// Returns the place of a package's active release.
pub(crate) fn active_of(releases: &[Release], package: &[u8]) -> Option<usize>
    ensures found { IfSome result (λ i. (i < length releases.now)
        × ((d : ReleaseValue) → IsActiveOf «package».now (slice_index_or releases.now i d))) }
    ensures none { IfNone result ((k : ℕ) (d : ReleaseValue) → k < length releases.now
        → IsActiveOf «package».now (slice_index_or releases.now k d) → ⊥) }
{
    for (at, release) in releases.iter().enumerate() {
        if release.state() == State::Active && release.name().package() == package {
            return Some(at);
        }
    }
    None
}

/// Returns the place for a new release: behind those whose names are less than its own.
pub(crate) fn place_for(releases: &[Release], name: &ReleaseName) -> usize
    ensures within { result ≤ length releases.now }
    ensures place { (r : ReleaseValue) → r.kept.name ≡ name.now
        → content_of (insert releases.now result r) ≡ insert_record r.kept (content_of releases.now) }
{
    for (at, release) in releases.iter().enumerate() {
        if !is_listed_before(release.name(), name) {
            return at;
        }
    }
    releases.len()
}

/// Removes the releases of the name's package that are of earlier days. What is left of them is added to the leftovers,
/// or freed at once if memory runs out.
pub(crate) fn drop_earlier(
    releases: &mut Vec<Release>,
    leftovers: &mut Vec<Leftover>,
    name: &ReleaseName,
)
    ensures dropped { content_of releases.new.items ≡ without_earlier name.now (content_of releases.old.items) }
    ensures fewer { length releases.new.items ≤ length releases.old.items }
{
    let mut at = 0;
    while at < releases.len() {
        if is_earlier(releases[at].name(), name) {
            add(leftovers, releases.remove(at));
        } else {
            at += 1;
        }
    }
}
