//! A fetch from a server over files in memory.
ghost use Rattle.std.specs.Prelude.{ℕ, List, [], ◌≡◌, ◌<◌, ◌⊎◌, ◌||◌, Some, None};
ghost use Rattle.feed_http.specs.MemoryShelves.{file_named};
ghost use Rattle.feed_model.specs.Content.{IsContent};
ghost use Rattle.feed_model.specs.History.{History};
ghost use Rattle.feed_releases.specs.Feeds.{most_of, recorded};
ghost use Rattle.feed_dial.specs.Responses.{Known};
ghost use Rattle.feed_fetch.specs.Printing.{has_failed};
ghost use Rattle.feed_fetch.specs.Servers.{IsServed};
ghost use Rattle.feed_fetch.specs.Orders.{IsOrder};
ghost use Rattle.feed_fetch.specs.Effects.{IsExtension, IsFetchEvent, EndsWithStatus, IsFetchable, IsOpenTo};

use crate::events::Observe;
use crate::fetch_loop::fetch_with;
use crate::memory_dial::{Archive, MemoryDial};
use crate::printer::Printer;
use feed_http::NamedFile;
use feed_keep::Keep;
use feed_names::ReleaseName;
use feed_releases::Feed;
use std::alloc::Global;
use std::io::Write;
use std::marker::Brand;

/// The release to fetch, the host, and for how many places a request may ask.
#[derive(Clone, Copy)]
pub struct Order<'a> {
    pub host: &'a [u8],
    pub name: &'a ReleaseName,
    pub piece: u64,
}

fn fetch_from<A: Archive, K: Keep, O: Observe, F: Write>(
    alloc: Global,
    archive: &[NamedFile],
    feed: &mut Feed<K>,
    order: &Order<'_>,
    out: &mut O,
    faults: &mut Printer<F>,
) -> u8
    requires archive { file_named archive.now ≡ A.files }
    requires order { IsOrder order.now }
    ensures extends { IsExtension (IsFetchEvent (Known (IsServed A.files)) order.now.host.now order.now.name.now)
        (EndsWithStatus order.now.name.now result (O.has_failed out.new || has_failed faults.new) None)
        (recorded feed.old) (recorded feed.new) }
    ensures gets { (file : List ℕ) → A.files order.now.name.now ≡ Some file → IsFetchable file → (h : History)
        → IsContent (recorded feed.old) h → IsOpenTo (most_of feed.old) order.now.name.now file h
        → (result ≡ 0) ⊎ (result ≡ 3) }
{
    // The requests have this text, which names the release.
    let _text = order.name.text();
    let mut dial = MemoryDial::<A>::new(alloc, archive);
    fetch_with(
        alloc,
        &mut dial,
        feed,
        order.host,
        order.name,
        order.piece,
        out,
        faults,
    )
}

/// Fetches the file of a release with `fetch_with` from a server over these files. If a name appears twice, the first
/// file counts. Its contract is that of `fetch_with` for a known peer, here without a premise about the peer.
pub fn fetch_from_memory<K: Keep, O: Observe, F: Write>(
    alloc: Global,
    files: &[NamedFile],
    feed: &mut Feed<K>,
    order: &Order<'_>,
    out: &mut O,
    faults: &mut Printer<F>,
) -> u8
    requires { IsOrder order.now }
    ensures extends { IsExtension
        (IsFetchEvent (Known (IsServed (file_named files.now))) order.now.host.now order.now.name.now)
        (EndsWithStatus order.now.name.now result (O.has_failed out.new || has_failed faults.new) None)
        (recorded feed.old) (recorded feed.new) }

    // If the file is there and good and the feed is open to it, the fetch ends with 0, or with 3 for a failure.
    ensures gets { (file : List ℕ) → file_named files.now order.now.name.now ≡ Some file → IsFetchable file
        → (h : History) → IsContent (recorded feed.old) h → IsOpenTo (most_of feed.old) order.now.name.now file h
        → (result ≡ 0) ⊎ (result ≡ 3) }

    // An empty feed is open to each good file.
    ensures first { (file : List ℕ) → file_named files.now order.now.name.now ≡ Some file → IsFetchable file
        → (recorded feed.old).content ≡ [] → (result ≡ 0) ⊎ (result ≡ 3) }
{
    // It may record a release.
    let _most = feed.most();
    fetch_from::<Brand, K, O, F>(alloc, files, feed, order, out, faults)
}
