//! The keys of an OpenURL that nobody reads.
ghost use Rattle.std.specs.Prelude.{◌≡◌, ◌++◌, ◌∷◌, [], map, IfOk, OnOk};
ghost use Rattle.std.specs.List.Sorted.{IsSortedByKey};
ghost use Rattle.std.specs.Ordering.{nat_cmp};
ghost use Rattle.std.specs.Cmp.Lexicographic.{slice_cmp};
ghost use Rattle.form_urlencoded.specs.Form as form;
ghost use Rattle.feed_openurl.specs.Dropped.{AreCounted, dropped, dropped_in, is_dropped};

use crate::key::Key;
use crate::offer::is_cited;
use crate::shown::shown_text;
use feed_answer::{Pair, decode_pairs};
use std::alloc::{AllocError, Global};
use std::marker::Model;

/// A key that nobody reads, and how often it appears.
#[derive(Drop)]
pub struct Dropped {
    pub key: String,
    pub count: u64,
}

impl Model for Dropped {
    ghost use Rattle.std.specs.Prelude.{string_bytes};
    ghost use Rattle.feed_openurl.specs.Dropped.{DroppedValue};

    ghost Value = { DroppedValue };

    ghost view = { λ d. record { key = string_bytes d.key; count = d.count } };
}

fn is_dropped(key: &[u8]) -> bool
    ensures { result ≡ is_dropped key.now }
{
    match Key::of(key) {
        Key::Other => !is_cited(key),
        _ => false,
    }
}

// The keys that nobody reads, each as often as it appears.
fn dropped_in<'a>(alloc: Global, pairs: &'a [Pair<'_>]) -> Result<Vec<&'a [u8]>, AllocError>
    ensures { IfOk result (λ keys. map (λ key. key.now) keys.items ≡ dropped_in pairs.now) }
{
    let mut keys = Vec::new(alloc);
    for pair in pairs {
        if is_dropped(pair.key()) {
            keys.push(pair.key())?;
        }
    }
    Ok(keys)
}

fn push_key(
    alloc: Global,
    found: &mut Vec<Dropped>,
    key: &[u8],
    count: u64,
) -> Result<(), AllocError>
    ensures { OnOk result (found.new.items ≡ found.old.items ++ dropped (key.now, count) ∷ []) }
{
    let key = shown_text(alloc, key)?;
    found.push(Dropped { key, count })?;
    Ok(())
}

// Counts keys that are in order.
fn count_keys(alloc: Global, keys: &[&[u8]]) -> Result<Vec<Dropped>, AllocError>
    requires { IsSortedByKey (λ key. key.now) (slice_cmp nat_cmp) keys.now }
    ensures { IfOk result (λ found. AreCounted (map (λ key. key.now) keys.now) found.items) }
{
    let mut found = Vec::new(alloc);
    let Some((first, rest)) = keys.split_first() else {
        return Ok(found);
    };
    let mut current: &[u8] = first;
    let mut count = 1;
    for key in rest {
        if *key == current {
            count += 1;
        } else {
            push_key(alloc, &mut found, current, count)?;
            current = key;
            count = 1;
        }
    }
    push_key(alloc, &mut found, current, count)?;
    Ok(found)
}

/// Returns the keys of an OpenURL that nobody reads, each once with how often it appears, in the order of their bytes.
pub fn dropped_keys(alloc: Global, text: &[u8]) -> Result<Vec<Dropped>, AllocError>
    ensures { IfOk result (λ found. AreCounted (dropped_in (form.parse text.now)) found.items) }
{
    let pairs = decode_pairs(alloc, text)?;
    let mut keys = dropped_in(alloc, &pairs)?;
    keys.sort_unstable();
    count_keys(alloc, &keys)
}
