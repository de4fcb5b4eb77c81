//! A list that is checked in bounded steps, while its bytes arrive.
ghost use Rattle.std.specs.Prelude.{◌≡◌, ◌≤◌, ◌<◌, ◌⊎◌, ◌++◌, List, ℕ, [], MatchResult, flat_map, length};
ghost use Rattle.feed_kbart.specs.Files.{IsReadOf};
ghost use Rattle.feed_kbart.specs.declared.fault.KbartFault.TheVariants as fault;
ghost use Rattle.feed_limits.specs.Limits.{file_limit};
ghost use Rattle.feed_text.specs.Checks.{bytes_seen};

use crate::fault::KbartFault;
use crate::holdings::Holdings;
use crate::indexed_store::IndexedStore;
use crate::list_text::ListText;
use feed_limits::FILE_LIMIT;
use feed_text::TextCheck;
use std::alloc::Global;

/// A check of a holdings list that receives the bytes of the list in windows, cut anywhere.
#[derive(Drop)]
pub struct ListCheck {
    text: TextCheck,
    list: ListText<IndexedStore>,
    ghost within: { bytes_seen text ≤ file_limit },
}

impl ListCheck {
    ghost use Rattle.feed_kbart.specs.ListChecks.{IsCheckOfList};

    /// Returns a check that has received no bytes.
    pub fn new(alloc: Global) -> ListCheck
        ensures { IsCheckOfList [] result }
    {
        ListCheck {
            text: TextCheck::new(),
            list: ListText::new(alloc),
        }
    }

    /// Receives the next bytes, cut anywhere. Takes time in proportion to these bytes, the short record that they end,
    /// and the hyphens of an ISBN that ends there. A record of more than 32,768 bytes is read while it arrives.
    ///
    /// # Errors
    ///
    /// `TooLong` as soon as there are more than `FILE_LIMIT` bytes, and `Memory`.
    pub fn step(self, alloc: Global, bytes: &[u8]) -> Result<ListCheck, KbartFault>
        ensures { (text : List ℕ) → IsCheckOfList text self → MatchResult result
            (λ check. IsCheckOfList (text ++ bytes.now) check)
            (λ why. (why ≡ fault.Memory) ⊎ ((why ≡ fault.TooLong) × (file_limit < length (text ++ bytes.now)))) }
    {
        let ListCheck {
            mut text,
            mut list,
            ..
        } = self;
        text.feed(bytes);
        if text.bytes_seen() > FILE_LIMIT {
            return Err(KbartFault::TooLong);
        }
        list.add(alloc, bytes)?;
        Ok(ListCheck { text, list })
    }

    /// Returns what `read_file` returns for all bytes received. Takes time in proportion to the entries of
    /// the index, whose last runs are merged: mostly one pass and a quarter.
    ///
    /// # Errors
    ///
    /// `Bad` with the first reason if the list is bad, and `Memory`.
    pub fn finish(self, alloc: Global) -> Result<Holdings, KbartFault>
        ensures { (text : List ℕ) → IsCheckOfList text self → IsReadOf text result }
    {
        let ListCheck { text, list, .. } = self;
        text.finish()?;
        Holdings::of(alloc, list.finish(alloc)?)
    }
}

/// Reads a list whose bytes are in windows, cut anywhere, as `read_file` reads all of them.
///
/// # Errors
///
/// `Bad` with the first reason if the list is bad, `TooLong`, and `Memory`.
pub fn read_windows(alloc: Global, windows: &[&[u8]]) -> Result<Holdings, KbartFault>
    ensures { IsReadOf (flat_map (λ window. window.now) windows.now) result }
{
    let mut check = ListCheck::new(alloc);
    for window in windows {
        check = check.step(alloc, window)?;
    }
    check.finish(alloc)
}
