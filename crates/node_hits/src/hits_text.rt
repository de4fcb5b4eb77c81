//! Writes the hits of a query in a release as text.
ghost use Rattle.std.specs.Prelude.{◌≡◌, ◌≤◌, ◌++◌, OnOk, drop, true};
ghost use Rattle.std.specs.List.{flat_map};
ghost use Rattle.feed_names.specs.ReleaseName.{text_of};
ghost use Rattle.node_hits.specs.Hits.{links_of};
ghost use Rattle.node_hits.specs.HitsText.{cut_head_line, release_head_line, release_hit_line, release_text};
ghost use Rattle.node_hits.specs.Looks.{release_found};
ghost use Rattle.node_hits.specs.Tallying.{tally_from, with_release};

use crate::hits::{LibraryRelease, ReleaseHit};
use crate::search::Search;
use crate::shares::Shares;
use crate::tally::Tally;
use feed_answer::{write_head, write_hit};
use feed_bytes::put_all;
use feed_names::ReleaseName;
use node_links::CitedLinks;
use node_response::Fragment;
use std::alloc::{AllocError, Global};

#[tactic(auto, unfolding(crate::specs::HitsText::cut_head_line))]
fn put_cut_head(out: &mut Vec<u8>, name: &ReleaseName, count: usize) -> Result<(), AllocError>
    ensures { OnOk result (out.new.items ≡ out.old.items ++ cut_head_line (text_of name.now) count) }
{
    put_all(
        out,
        &[
            Fragment::Plain(b"release "),
            Fragment::Plain(name.text()),
            Fragment::Plain(b" hits at least "),
            Fragment::Number(count as u64),
            Fragment::Plain(b"\n"),
        ],
    )
}

fn put_whole_head(out: &mut Vec<u8>, name: &ReleaseName, count: usize) -> Result<(), AllocError>
    ensures { OnOk result (out.new.items ≡ out.old.items ++ release_head_line (text_of name.now) count true) }
{
    match write_head(out, name, count) {
        Ok(()) => Ok(()),
        Err(_) => Err(AllocError),
    }
}

fn put_line(out: &mut Vec<u8>, found: &ReleaseHit<'_>) -> Result<(), AllocError>
    ensures { OnOk result (out.new.items ≡ out.old.items ++ release_hit_line found.now) }
{
    match write_hit(out, found.row(), found.grade()) {
        Ok(()) => Ok(()),
        Err(_) => Err(AllocError),
    }
}

fn hits_from<'h, 'a>(hits: &'h [ReleaseHit<'a>], first: usize) -> &'h [ReleaseHit<'a>]
    ensures { result.now ≡ drop first hits.now }
{
    &hits[hits.len().min(first)..]
}

fn put_lines(out: &mut Vec<u8>, hits: &[ReleaseHit<'_>]) -> Result<(), AllocError>
    ensures { OnOk result (out.new.items ≡ out.old.items ++ flat_map release_hit_line hits.now) }
{
    for found in hits {
        put_line(out, found)?;
    }
    Ok(())
}

fn put_head(
    out: &mut Vec<u8>,
    name: &ReleaseName,
    count: usize,
    is_whole: bool,
) -> Result<(), AllocError>
    ensures { OnOk result (out.new.items ≡ out.old.items ++ release_head_line (text_of name.now) count is_whole) }
{
    if is_whole {
        put_whole_head(out, name, count)
    } else {
        put_cut_head(out, name, count)
    }
}

/// Adds the hits of a search in a release that the library has to a tally, and writes the answer of the release: the
/// number of its hits, whether these are all, and a line for each that the tally shows.
#[tactic(auto, unfolding(crate::specs::HitsText::release_text))]
pub fn put_release<'a>(
    alloc: Global,
    out: &mut Vec<u8>,
    tally: &mut Tally<'a>,
    release: &LibraryRelease<'a>,
    search: &Search<'a>,
    links: &mut CitedLinks<'a>,
    shares: Shares,
) -> Result<(), AllocError>
    requires rows { shares.rows ≤ 10000 }
    requires site { links.old ≡ links_of release.now.site.now search.now }
    ensures kept { links.new ≡ links.old }
    ensures tally { OnOk result (tally.new
        ≡ with_release tally.old (release_found shares release.now.site.now release.now.today.now search.now
        release.now.name.now release.now.holdings.now.rows)) }
    ensures text { OnOk result (out.new.items
        ≡ out.old.items ++ release_text (tally_from tally.old) (tally_from tally.new) release.now.name.now) }
{
    let counted = tally.count();
    let shown = tally.shown().len();
    let partial = tally.partial().len();
    tally.add_release(alloc, release, search, links, shares)?;
    let count = tally.count().saturating_sub(counted);
    let is_whole = tally.partial().len() == partial;
    put_head(out, release.name, count, is_whole)?;
    put_lines(out, hits_from(tally.shown(), shown))
}
