//! Finds the records that a later active one of their package has replaced.
ghost use Rattle.std.specs.Prelude.{◌≡◌, ◌↔◌, All, IfOk, IsTrue, map, not};
ghost use Rattle.std.specs.Ordering.{is_lt};
ghost use Rattle.std.specs.List.{IsDistinct, list_any};
ghost use Rattle.feed_names.specs.ReleaseName.{Name, name_eq};
ghost use Rattle.feed_model.specs.Content.{names};
ghost use Rattle.feed_model.specs.Change.{is_earlier};
ghost use Rattle.feed_model.specs.Handles.{HasLaterActive};
ghost use Rattle.feed_keep.specs.Retired.{AreInDayOrder, day_cmp, is_retired};
ghost use Rattle.feed_keep.specs.Shown.{shown};

use crate::record::Record;
use feed_model::State;
use feed_names::ReleaseName;
use std::alloc::{AllocError, Global};
use std::cmp::Ordering;

/// Returns whether no record has a later active one in its package.
pub fn are_current(alloc: Global, records: &[Record]) -> Result<bool, AllocError>
    requires distinct { IsDistinct name_eq (names (shown records.now)) }
    ensures { IfOk result (λ is. IsTrue is ↔ All (λ r. ¬ (HasLaterActive (shown records.now) r.name))
        (shown records.now)) }
{
    let actives = active_names(alloc, records)?;
    for record in records {
        if has_later(&actives, &record.name) {
            return Ok(false);
        }
    }
    Ok(true)
}

/// Returns for each record whether a later active one is in its package.
pub fn find_retired(alloc: Global, records: &[Record]) -> Result<Vec<bool>, AllocError>
    ensures { IfOk result (λ retired. retired.items ≡ map (λ r. is_retired (shown records.now) r.name) records.now) }
{
    let actives = active_names(alloc, records)?;
    let mut retired = Vec::with_capacity(alloc, records.len())?;
    for record in records {
        retired.push(has_later(&actives, &record.name))?;
    }
    Ok(retired)
}

// Returns the names of the active records, by their packages and days.
fn active_names(alloc: Global, records: &[Record]) -> Result<Vec<&ReleaseName>, AllocError>
    ensures order { IfOk result (λ actives. AreInDayOrder actives.items) }
    ensures later { IfOk result (λ actives. (n : Name)
        → list_any (λ m. is_earlier n m.now) actives.items ≡ is_retired (shown records.now) n) }
{
    let mut actives = Vec::new(alloc);
    for record in records {
        if record.state == State::Active {
            actives.push(&record.name)?;
        }
    }
    actives.sort_unstable_by(
        |one: &&ReleaseName, other: &&ReleaseName| -> Ordering
            ensures { result ≡ day_cmp one.now.now other.now.now }
        { compare(one, other) },
    );
    Ok(actives)
}

// Compares names by their packages, and those of one package by their days.
fn compare(one: &ReleaseName, other: &ReleaseName) -> Ordering
    ensures { result ≡ day_cmp one.now other.now }
{
    one.package()
        .cmp(&other.package())
        .then(one.day().cmp(&other.day()))
}

// Returns whether one of the names is of a later day of the same package. The first one that is greater decides.
fn has_later(actives: &[&ReleaseName], name: &ReleaseName) -> bool
    requires order { AreInDayOrder actives.now }
    ensures { result ≡ list_any (λ m. is_earlier name.now m.now) actives.now }
{
    let at = actives.partition_point(
        |active: &&ReleaseName| -> bool
            ensures { result ≡ not (is_lt (day_cmp name.entry.now active.now.now)) }
        { !compare(name, active).is_lt() },
    );
    match actives.get(at) {
        Some(active) => name.earlier_than(active),
        None => false,
    }
}
