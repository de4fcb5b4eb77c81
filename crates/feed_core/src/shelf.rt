//! The published files of a world.
ghost use Rattle.std.specs.Prelude.{◌≡◌, ◌≢◌, ◌↔◌, [], Err, IfOk, IsTrue, option_map};
ghost use Rattle.feed_world.specs.World.{World, Shelf as files, Publish, Offer, Deliver, Lose, Happens, arriving};
ghost use Rattle.feed_world.specs.World.{file_on};
ghost use Rattle.feed_world.specs.Shown.{shown_line, shown_sent};
ghost use Rattle.feed_core.specs.Nodes.{shown_arrived};
ghost use Rattle.feed_core.specs.Step.{IsShelf};

use feed_model::Refusal;
use feed_names::{ReleaseName, one_release_for_text, one_text_for_release};
use feed_releases::Event;
use feed_world::{Line, Sent, Why};
use std::alloc::{AllocError, Global};
use std::collections::BTreeMap;

/// The published files, by the texts of their names.
#[derive(Drop)]
pub(crate) struct Shelf<'a> {
    files: BTreeMap<&'a [u8], &'a [u8]>,
}

impl<'a> Shelf<'a> {
    /// Returns a shelf without files.
    pub(crate) fn new(alloc: Global) -> Shelf<'a>
        ensures { IsShelf result.files.entries [] }
    {
        Shelf {
            files: BTreeMap::new(alloc),
        }
    }

    /// Publishes a file. A name belongs to one file for ever.
    pub(crate) fn publish(
        &mut self,
        name: &'a ReleaseName,
        bytes: &'a [u8],
    ) -> Result<Line, AllocError>
        ensures { IfOk result (λ line. (w : World) → IsShelf self.old.files.entries w.shelf → (v : World)
            × Happens w (Publish name.now bytes.now) (shown_line line) v × IsShelf self.new.files.entries v.shelf
            × (v.nodes ≡ w.nodes)) }
    {
        one_release_for_text();
        one_text_for_release();
        if let Some(file) = self.file_of(name) {
            if !is_same(file, bytes) {
                return Ok(Line::Refused(Why::Republished));
            }
            return Ok(Line::Published);
        }
        self.files.insert(name.text(), bytes)?;
        Ok(Line::Published)
    }

    // Returns the file published under a name.
    fn file_of(&self, name: &'a ReleaseName) -> Option<&'a [u8]>
        ensures { (shelf : files) → IsShelf self.now.files.entries shelf
            → file_on shelf name.now ≡ option_map (λ file. file.now) result }
    {
        match self.files.get(&name.text()) {
            Some(file) => Some(*file),
            None => None,
        }
    }

    /// Returns an offer of a published release as it arrives at a node: with the size of its file.
    pub(crate) fn offer(&self, name: &'a ReleaseName) -> Result<Event<'a>, Why>
        ensures arrives { (shelf : files) → IsShelf self.now.files.entries shelf
            → arriving shelf (Offer name.now) ≡ shown_arrived result }
        ensures unsent { result ≢ Err (Why.Feed Refusal.Device) }
    {
        match self.file_of(name) {
            Some(file) => Ok(Event::Offered {
                name,
                size: file.len() as u64,
            }),
            None => Err(Why::Unpublished),
        }
    }

    /// Returns a delivery as it arrives at a node: the slice of the published file, and the size of the file.
    pub(crate) fn deliver(
        &self,
        name: &'a ReleaseName,
        first: u64,
        len: u64,
    ) -> Result<Event<'a>, Why>
        ensures arrives { (shelf : files) → IsShelf self.now.files.entries shelf
            → arriving shelf (Deliver name.now first len) ≡ shown_arrived result }
        ensures unsent { result ≢ Err (Why.Feed Refusal.Device) }
    {
        let Some(file) = self.file_of(name) else {
            return Err(Why::Unpublished);
        };
        let total = file.len() as u64;
        let Some(end) = first.checked_add(len) else {
            return Err(Why::NoSlice);
        };
        if end > total {
            return Err(Why::NoSlice);
        }
        Ok(Event::Piece {
            name,
            first,
            total: Some(total),
            bytes: &file[first as usize..end as usize],
        })
    }

    /// Returns a loss as it arrives at a node.
    pub(crate) fn lose(&self, name: &'a ReleaseName) -> Result<Event<'a>, Why>
        ensures arrives { (shelf : files) → IsShelf self.now.files.entries shelf
            → arriving shelf (Lose name.now) ≡ shown_arrived result }
        ensures unsent { result ≢ Err (Why.Feed Refusal.Device) }
    {
        match self.file_of(name) {
            Some(_) => Ok(Event::Lost { name }),
            None => Err(Why::Unpublished),
        }
    }

    /// Returns what is sent to a node that stops during it, as it arrives.
    pub(crate) fn send(&self, what: &'a Sent) -> Result<Event<'a>, Why>
        ensures arrives { (shelf : files) → IsShelf self.now.files.entries shelf
            → arriving shelf (shown_sent what.now) ≡ shown_arrived result }
        ensures unsent { result ≢ Err (Why.Feed Refusal.Device) }
    {
        match what {
            Sent::Offer { name } => self.offer(name),
            Sent::Deliver { name, first, len } => self.deliver(name, *first, *len),
        }
    }
}

fn is_same(file: &[u8], bytes: &[u8]) -> bool
    ensures { IsTrue result ↔ (file.now ≡ bytes.now) }
{
    file == bytes
}
