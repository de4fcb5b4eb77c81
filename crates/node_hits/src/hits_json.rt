//! Writes the hits of a query as JSON.
ghost use Rattle.std.specs.Prelude.{◌≡◌, ◌++◌, OnOk};
ghost use Rattle.feed_answer.specs.Grades.{grade_text};
ghost use Rattle.node_response.specs.JsonLists.{items_from};
ghost use Rattle.node_hits.specs.HitsJson.{availability_text, release_members, grade_members, title_members};
ghost use Rattle.node_hits.specs.HitsJson.{access_members, days_members, hit_object};
ghost use Rattle.node_hits.specs.HitsJson.{row_members, target_members, volumes_members};
ghost use Rattle.node_hits.specs.HitsJson.{also_json, hits_json, list_json};
ghost use Rattle.node_hits.specs.HitsJson.{more_start, more_object, more_items};
ghost use Rattle.node_hits.specs.Tallying.{tally_from};
ghost use Rattle.node_site.specs.Hosts.{shown_host};

use crate::coverage::{day_text, days_words, volume_text, volumes_words};
use crate::embargo_words::embargo_words;
use crate::hits::{ReleaseHit, name_text};
use crate::ranked_hit::RankedHit;
use crate::tally::Tally;
use feed_answer::{Availability, Grade};
use feed_bytes::put_all;
use feed_kbart::Row;
use feed_names::ReleaseName;
use node_response::{Fragment, put_comma, put_list_end, put_list_start};
use node_site::shown_host;
use std::alloc::AllocError;

fn grade_name(grade: Grade) -> &'static [u8]
    ensures { result.now ≡ grade_text grade }
{
    match grade {
        Grade::Inside => b"inside",
        Grade::Overlap => b"overlap",
        Grade::Untested => b"untested",
    }
}

fn availability_name(availability: Availability) -> &'static [u8]
    ensures { result.now ≡ availability_text availability }
{
    match availability {
        Availability::Available => b"available",
        Availability::Partly => b"partly",
        Availability::NotCompared => b"not compared",
        Availability::Embargoed => b"embargoed",
    }
}

/// Writes the beginning of an object: the members that identify a release.
#[tactic(auto, unfolding(crate::specs::HitsJson::release_members))]
pub fn put_release_members(out: &mut Vec<u8>, name: &ReleaseName) -> Result<(), AllocError>
    ensures { OnOk result (out.new.items ≡ out.old.items ++ release_members name.now) }
{
    put_all(
        out,
        &[
            Fragment::Plain(b"{\"package\":"),
            Fragment::Quoted(name.package()),
            Fragment::Plain(b",\"release\":"),
            Fragment::Quoted(name_text(name)),
        ],
    )
}

#[tactic(auto, unfolding(crate::specs::HitsJson::grade_members))]
fn put_grade_members(out: &mut Vec<u8>, found: &ReleaseHit<'_>) -> Result<(), AllocError>
    ensures { OnOk result (out.new.items ≡ out.old.items ++ grade_members found.now) }
{
    put_all(
        out,
        &[
            Fragment::Plain(b",\"record\":"),
            Fragment::Number(u64::from(found.row().number())),
            Fragment::Plain(b",\"grade\":"),
            Fragment::Quoted(grade_name(found.grade())),
            Fragment::Plain(b",\"availability\":"),
            Fragment::Quoted(availability_name(found.availability())),
        ],
    )
}

#[tactic(auto, unfolding(crate::specs::HitsJson::title_members))]
fn put_title_members<'a>(out: &mut Vec<u8>, row: &'a Row, link: &'a [u8]) -> Result<(), AllocError>
    ensures { OnOk result (out.new.items ≡ out.old.items ++ title_members row.now link.now) }
{
    let cells = row.cells();
    put_all(
        out,
        &[
            Fragment::Plain(b",\"title\":"),
            Fragment::Quoted(cells.publication_title),
            Fragment::Plain(b",\"url\":"),
            Fragment::Quoted(link),
            Fragment::Plain(b",\"title_id\":"),
            Fragment::Quoted(cells.title_id),
            Fragment::Plain(b",\"depth\":"),
            Fragment::Quoted(cells.coverage_depth),
        ],
    )
}

#[tactic(auto, unfolding(crate::specs::HitsJson::target_members))]
fn put_target<'a>(out: &mut Vec<u8>, row: &'a Row, host: &'a [u8]) -> Result<(), AllocError>
    requires { host.now ≡ shown_host row.now.url }
    ensures { OnOk result (out.new.items ≡ out.old.items ++ target_members row.now) }
{
    put_all(
        out,
        &[
            Fragment::Plain(b",\"target\":"),
            Fragment::Quoted(row.url()),
            Fragment::Plain(b",\"host\":"),
            Fragment::Quoted(host),
        ],
    )
}

fn put_target_members(out: &mut Vec<u8>, row: &Row) -> Result<(), AllocError>
    ensures { OnOk result (out.new.items ≡ out.old.items ++ target_members row.now) }
{
    let host = shown_host(*out.allocator(), row.url())?;
    put_target(out, row, &host)
}

fn put_days_members(out: &mut Vec<u8>, row: &Row) -> Result<(), AllocError>
    ensures { OnOk result (out.new.items ≡ out.old.items ++ days_members row.now) }
{
    let cells = row.cells();
    let first = day_text(*out.allocator(), cells.first_day())?;
    let last = day_text(*out.allocator(), cells.last_day())?;
    let words = days_words(*out.allocator(), row)?;
    put_all(
        out,
        &[
            Fragment::Plain(b",\"first_day\":"),
            Fragment::Quoted(&first),
            Fragment::Plain(b",\"last_day\":"),
            Fragment::Quoted(&last),
            Fragment::Plain(b",\"days_words\":"),
            Fragment::Quoted(&words),
        ],
    )
}

fn put_volumes_members(out: &mut Vec<u8>, row: &Row) -> Result<(), AllocError>
    ensures { OnOk result (out.new.items ≡ out.old.items ++ volumes_members row.now) }
{
    let (first, last) = row.cells().volumes();
    let first = volume_text(*out.allocator(), first)?;
    let last = volume_text(*out.allocator(), last)?;
    let words = volumes_words(*out.allocator(), row)?;
    put_all(
        out,
        &[
            Fragment::Plain(b",\"first_volume\":"),
            Fragment::Quoted(&first),
            Fragment::Plain(b",\"last_volume\":"),
            Fragment::Quoted(&last),
            Fragment::Plain(b",\"volumes_words\":"),
            Fragment::Quoted(&words),
        ],
    )
}

#[tactic(auto, unfolding(crate::specs::HitsJson::row_members))]
fn put_row_members(out: &mut Vec<u8>, row: &Row, link: &[u8]) -> Result<(), AllocError>
    ensures { OnOk result (out.new.items ≡ out.old.items ++ row_members row.now link.now) }
{
    put_title_members(out, row, link)?;
    put_target_members(out, row)?;
    put_days_members(out, row)?;
    put_volumes_members(out, row)
}

fn put_access_members<'a>(
    out: &mut Vec<u8>,
    row: &'a Row,
    words: &'a [u8],
    article: &'a [u8],
    note: &'a [u8],
    end: &'a [u8],
) -> Result<(), AllocError>
    ensures { OnOk result (out.new.items
        ≡ out.old.items ++ access_members row.now words.now article.now note.now end.now) }
{
    let cells = row.cells();
    put_all(
        out,
        &[
            Fragment::Plain(b",\"embargo\":"),
            Fragment::Quoted(cells.embargo_info),
            Fragment::Plain(b",\"embargo_words\":"),
            Fragment::Quoted(words),
            Fragment::Plain(b",\"access\":"),
            Fragment::Quoted(cells.access_type),
            Fragment::Plain(b",\"article\":"),
            Fragment::Quoted(article),
            Fragment::Plain(b",\"note\":"),
            Fragment::Quoted(note),
            Fragment::Plain(end),
        ],
    )
}

#[tactic(auto, unfolding(crate::specs::HitsJson::hit_object))]
fn put_object(out: &mut Vec<u8>, end: &[u8], found: &ReleaseHit<'_>) -> Result<(), AllocError>
    ensures { OnOk result (out.new.items ≡ out.old.items ++ hit_object end.now found.now) }
{
    let row = found.row();
    let words = embargo_words(*out.allocator(), row.embargo())?;
    let page = found.page(*out.allocator())?;
    let article = found.article_text(*out.allocator())?;
    put_release_members(out, found.name())?;
    put_grade_members(out, found)?;
    put_row_members(out, row, &page)?;
    put_access_members(out, row, &words, &article, found.note(), end)
}

fn put_objects(out: &mut Vec<u8>, end: &[u8], hits: &[RankedHit<'_>]) -> Result<(), AllocError>
    ensures { OnOk result (out.new.items ≡ out.old.items ++ items_from (hit_object end.now) 0 hits.now) }
{
    for (place, found) in hits.iter().enumerate() {
        put_comma(out, place)?;
        put_object(out, end, found.hit())?;
    }
    Ok(())
}

fn more_start(is_whole: bool) -> &'static [u8]
    ensures { result.now ≡ more_start is_whole }
{
    if is_whole {
        b"{\"more\":"
    } else {
        b"{\"more_at_least\":"
    }
}

#[tactic(auto, unfolding(crate::specs::HitsJson::more_object))]
fn put_more_object(out: &mut Vec<u8>, left_out: u64, is_whole: bool) -> Result<(), AllocError>
    ensures { OnOk result (out.new.items ≡ out.old.items ++ more_object left_out is_whole) }
{
    put_all(
        out,
        &[
            Fragment::Plain(more_start(is_whole)),
            Fragment::Number(left_out),
            Fragment::Plain(b"}"),
        ],
    )
}

// Writes how many hits are left out, if any are.
fn put_more(out: &mut Vec<u8>, tally: &Tally<'_>) -> Result<(), AllocError>
    ensures { OnOk result (out.new.items ≡ out.old.items ++ more_items (tally_from tally.now)) }
{
    if tally.shows_all() {
        return Ok(());
    }
    put_comma(out, tally.top().len())?;
    put_more_object(out, tally.left_out() as u64, tally.is_whole())
}

// Writes the hits that a tally shows as a list of objects with this end. If others are left out, the last item says how
// many.
#[tactic(auto, unfolding(crate::specs::HitsJson::list_json))]
fn put_list(out: &mut Vec<u8>, end: &[u8], tally: &Tally<'_>) -> Result<(), AllocError>
    ensures { OnOk result (out.new.items ≡ out.old.items ++ list_json end.now (tally_from tally.now)) }
{
    put_list_start(out)?;
    put_objects(out, end, tally.top())?;
    put_more(out, tally)?;
    put_list_end(out)
}

/// Writes the hits that a tally shows as a list of objects. If others are left out, the last item says how many.
pub(crate) fn put_hits_json(out: &mut Vec<u8>, tally: &Tally<'_>) -> Result<(), AllocError>
    ensures { OnOk result (out.new.items ≡ out.old.items ++ hits_json (tally_from tally.now)) }
{
    put_list(out, b"}", tally)
}

/// Writes the same of titles whose date is covered and whose volume is not: each object says why it is not a hit.
pub(crate) fn put_also_json(out: &mut Vec<u8>, also: &Tally<'_>) -> Result<(), AllocError>
    ensures { OnOk result (out.new.items ≡ out.old.items ++ also_json (tally_from also.now)) }
{
    put_list(out, b",\"why\":\"volume\"}", also)
}
