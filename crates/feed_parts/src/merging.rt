//! Merging new parts into the stored ones.
ghost use Rattle.std.specs.Prelude.{◌≡◌, ◌+◌, ◌≤◌, []};
ghost use Rattle.std.specs.Prelude.{IfOk, take, drop, length, vec_len, vec_capacity, IsPermutation};
ghost use Rattle.std.specs.List.Sorted.{IsNonDecreasingBy};
ghost use Rattle.feed_model.specs.Content.{AreParts};
ghost use Rattle.feed_model.specs.Change.{merged};
ghost use Rattle.feed_parts.specs.Shown.{shown_parts};

use crate::part::{Part, copy_parts};
use std::alloc::{AllocError, Global};

// Merges new parts, which are in order, into the stored ones. There is room for them, so this does not allocate. It
// moves the parts behind the new ones once, and sorts only the range that the new ones fall in.
pub(crate) fn merge(parts: &mut Vec<Part>, mut new: Vec<Part>)
    requires room { vec_len parts.old + vec_len new ≤ vec_capacity parts.old }
    requires order { AreParts (shown_parts new.items) }
    requires apart { AreParts (merged (shown_parts parts.old.items) (shown_parts new.items)) }
    ensures { shown_parts parts.new.items ≡ merged (shown_parts parts.old.items) (shown_parts new.items) }
{
    let kept = parts.len();
    match parts.append(&mut new) {
        Ok(()) => merge_runs(parts, kept),
        Err(_) => unreachable!(),
    }
}

// Merges two sorted runs in place: the first `kept` parts, and the others.
fn merge_runs(parts: &mut [Part], kept: usize)
    requires within { kept ≤ length parts.old }
    requires front { IsNonDecreasingBy (λ p. p.first) (take kept parts.old) }
    requires back { IsNonDecreasingBy (λ p. p.first) (drop kept parts.old) }
    ensures permutation { IsPermutation parts.old parts.new }
    ensures sorted { IsNonDecreasingBy (λ p. p.first) parts.new }
{
    let count = parts.len() - kept;
    if count == 0 {
        return;
    }
    let from = parts[kept].first;
    let to = parts[kept + count - 1].first;
    let front = &parts[..kept];
    let begin = front.partition_point(|part| part.first < from);
    let end = front.partition_point(|part| part.first < to).max(begin);
    parts[end..].rotate_right(count);
    parts[begin..end + count].sort_unstable_by_key(|part| part.first);
}

/// Copies the parts and sorts them. Parts that begin at the same place keep their order.
pub fn copy_in_order(alloc: Global, parts: &[Part]) -> Result<Vec<Part>, AllocError>
    ensures { IfOk result (λ copy. shown_parts copy.items ≡ merged [] (shown_parts parts.now)) }
{
    let mut copy = copy_parts(alloc, parts)?;
    copy.sort_by_key(|part| part.first)?;
    Ok(copy)
}
