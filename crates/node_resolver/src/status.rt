//! Writes the active releases as text, as JSON and as an HTML page.
ghost use Rattle.std.specs.Prelude.{◌≡◌, ◌++◌, OnOk};
ghost use Rattle.std.specs.List.{flat_map};
ghost use Rattle.node_response.specs.JsonLists.{items_from, json_list};
ghost use Rattle.node_resolver.specs.Status.{active_line, active_object, counts_end, status_body};

use feed_bytes::put_all;
use feed_kbart::Holdings;
use feed_releases::ActiveRelease;
use node_hits::{name_text, put_release_members};
use node_pages::put_status_page;
use node_request::Representation;
use node_response::{Fragment, put, put_comma, put_list_end, put_list_start};
use node_site::SiteFile;
use std::alloc::AllocError;

#[tactic(auto, unfolding(crate::specs::Status::active_line))]
fn put_line(out: &mut Vec<u8>, active: &ActiveRelease<'_>) -> Result<(), AllocError>
    ensures { OnOk result (out.new.items ≡ out.old.items ++ active_line active.now) }
{
    put(out, name_text(active.name()))?;
    put(out, b"\n")
}

/// Writes the active releases, a line for the name of each.
pub(crate) fn put_lines(out: &mut Vec<u8>, actives: &[ActiveRelease<'_>]) -> Result<(), AllocError>
    ensures { OnOk result (out.new.items ≡ out.old.items ++ flat_map active_line actives.now) }
{
    for active in actives {
        put_line(out, active)?;
    }
    Ok(())
}

// Writes the members for the rows and the skipped records of a list, and the end of the object.
#[tactic(auto, unfolding(crate::specs::Status::counts_end))]
fn put_counts_end(out: &mut Vec<u8>, holdings: &Holdings) -> Result<(), AllocError>
    ensures { OnOk result (out.new.items ≡ out.old.items ++ counts_end holdings.now) }
{
    put_all(
        out,
        &[
            Fragment::Plain(b",\"rows\":"),
            Fragment::Number(holdings.rows().len() as u64),
            Fragment::Plain(b",\"skipped\":"),
            Fragment::Number(holdings.aside().len() as u64),
            Fragment::Plain(b"}"),
        ],
    )
}

#[tactic(auto, unfolding(crate::specs::Status::active_object))]
fn put_object(out: &mut Vec<u8>, active: &ActiveRelease<'_>) -> Result<(), AllocError>
    ensures { OnOk result (out.new.items ≡ out.old.items ++ active_object active.now) }
{
    put_release_members(out, active.name())?;
    put_counts_end(out, active.holdings())
}

fn put_objects(out: &mut Vec<u8>, actives: &[ActiveRelease<'_>]) -> Result<(), AllocError>
    ensures { OnOk result (out.new.items ≡ out.old.items ++ items_from active_object 0 actives.now) }
{
    for (place, active) in actives.iter().enumerate() {
        put_comma(out, place)?;
        put_object(out, active)?;
    }
    Ok(())
}

fn put_json(out: &mut Vec<u8>, actives: &[ActiveRelease<'_>]) -> Result<(), AllocError>
    ensures { OnOk result (out.new.items ≡ out.old.items ++ json_list active_object actives.now) }
{
    put_list_start(out)?;
    put_objects(out, actives)?;
    put_list_end(out)
}

/// Writes the active releases; as a page, behind the form.
#[tactic(auto, unfolding(crate::specs::Status::status_body))]
pub(crate) fn put_status(
    out: &mut Vec<u8>,
    site: &SiteFile,
    representation: Representation,
    actives: &[ActiveRelease<'_>],
) -> Result<(), AllocError>
    ensures { OnOk result (out.new.items
        ≡ out.old.items ++ status_body site.now representation actives.now) }
{
    match representation {
        Representation::Text | Representation::Sfx => put_lines(out, actives),
        Representation::Json => put_json(out, actives),
        Representation::Html | Representation::Fragment => put_status_page(out, site, actives),
    }
}
