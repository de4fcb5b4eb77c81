//! Writes the titles that contain a text, as text and as JSON.
ghost use Rattle.std.specs.Prelude.{◌≡◌, ◌++◌, IfOk, OnOk};
ghost use Rattle.std.specs.List.{flat_map};
ghost use Rattle.node_response.specs.JsonLists.{items_from, json_list};
ghost use Rattle.node_pages.specs.Titles.{ask_members, back_fields, between, coverage_members, end_members};
ghost use Rattle.node_pages.specs.Titles.{front_fields, isbn_pairs, issn_pairs, next_line, next_member, next_value};
ghost use Rattle.node_pages.specs.Titles.{number_text, row_members, title_line, title_object, title_pairs};
ghost use Rattle.node_pages.specs.Titles.{title_target, titles_json, titles_text};

use feed_bytes::{put_all, put_number};
use feed_identifiers::{Isbn, Issn};
use feed_kbart::Row;
use node_hits::{days_words, put_release_members, volumes_words};
use node_response::{Fragment, put, put_comma, put_list_end, put_list_start};
use node_titles::{ListedRow, TitleSearch, Walk};
use std::alloc::{AllocError, Global};

/// Writes an ISSN between two texts, if there is one.
pub(crate) fn put_issn(
    out: &mut Vec<u8>,
    front: &[u8],
    issn: Option<Issn>,
    back: &[u8],
) -> Result<(), AllocError>
    ensures { OnOk result (out.new.items ≡ out.old.items ++ between front.now issn back.now) }
{
    match issn {
        Some(issn) => {
            put(out, front)?;
            put(out, &issn.text())?;
            put(out, back)
        }
        None => Ok(()),
    }
}

/// Writes an ISBN between two texts, if there is one.
pub(crate) fn put_isbn(
    out: &mut Vec<u8>,
    front: &[u8],
    isbn: Option<Isbn>,
    back: &[u8],
) -> Result<(), AllocError>
    ensures { OnOk result (out.new.items ≡ out.old.items ++ between front.now isbn back.now) }
{
    match isbn {
        Some(isbn) => {
            put(out, front)?;
            put(out, &isbn.text())?;
            put(out, back)
        }
        None => Ok(()),
    }
}

// Returns an ISSN or an ISBN, or nothing.
fn number_text(alloc: Global, issn: Option<Issn>, isbn: Option<Isbn>) -> Result<Vec<u8>, AllocError>
    ensures { IfOk result (λ text. text.items ≡ number_text issn isbn) }
{
    let mut text = Vec::new(alloc);
    put_issn(&mut text, b"", issn, b"")?;
    put_isbn(&mut text, b"", isbn, b"")?;
    Ok(text)
}

#[tactic(auto, unfolding(crate::specs::Titles::issn_pairs))]
fn put_issn_pairs(out: &mut Vec<u8>, row: &Row) -> Result<(), AllocError>
    ensures { OnOk result (out.new.items ≡ out.old.items ++ issn_pairs row.now.identifiers) }
{
    put_issn(out, b"&rft.issn=", row.print(), b"")?;
    put_issn(out, b"&rft.eissn=", row.online(), b"")
}

#[tactic(auto, unfolding(crate::specs::Titles::isbn_pairs))]
fn put_isbn_pairs(out: &mut Vec<u8>, row: &Row) -> Result<(), AllocError>
    ensures { OnOk result (out.new.items ≡ out.old.items ++ isbn_pairs row.now.identifiers) }
{
    put_isbn(out, b"&rft.isbn=", row.print_isbn(), b"")?;
    put_isbn(out, b"&rft.isbn=", row.online_isbn(), b"")
}

fn put_title_pairs(out: &mut Vec<u8>, row: &Row) -> Result<(), AllocError>
    ensures { OnOk result (out.new.items ≡ out.old.items ++ title_pairs row.now.identifiers) }
{
    put_issn_pairs(out, row)?;
    put_isbn_pairs(out, row)
}

/// Returns the pairs of the query for a title in all packages, each behind `&`.
pub(crate) fn title_pairs(alloc: Global, row: &Row) -> Result<Vec<u8>, AllocError>
    ensures { IfOk result (λ pairs. pairs.items ≡ title_pairs row.now.identifiers) }
{
    let mut pairs = Vec::new(alloc);
    put_title_pairs(&mut pairs, row)?;
    Ok(pairs)
}

// Returns the target of that query, whose response is JSON.
#[tactic(auto, unfolding(crate::specs::Titles::title_target))]
fn title_target(alloc: Global, row: &Row) -> Result<Vec<u8>, AllocError>
    ensures { IfOk result (λ target. target.items ≡ title_target row.now.identifiers) }
{
    let mut target = Vec::new(alloc);
    put(&mut target, b"/resolve?format=json")?;
    put_title_pairs(&mut target, row)?;
    Ok(target)
}

#[tactic(auto, unfolding(crate::specs::Titles::front_fields))]
fn put_front_fields<'a>(
    out: &mut Vec<u8>,
    key: &'a [u8],
    number: u32,
    title: &'a [u8],
) -> Result<(), AllocError>
    ensures { OnOk result (out.new.items ≡ out.old.items ++ front_fields key.now number title.now) }
{
    put_all(
        out,
        &[
            Fragment::Plain(key),
            Fragment::Plain(b"\t"),
            Fragment::Number(u64::from(number)),
            Fragment::Plain(b"\t"),
            Fragment::Plain(title),
            Fragment::Plain(b"\t"),
        ],
    )
}

#[tactic(auto, unfolding(crate::specs::Titles::back_fields))]
fn put_back_fields<'a>(
    out: &mut Vec<u8>,
    print: &'a [u8],
    online: &'a [u8],
    days: &'a [u8],
    volumes: &'a [u8],
) -> Result<(), AllocError>
    ensures { OnOk result (out.new.items
        ≡ out.old.items ++ back_fields print.now online.now days.now volumes.now) }
{
    put_all(
        out,
        &[
            Fragment::Plain(print),
            Fragment::Plain(b"\t"),
            Fragment::Plain(online),
            Fragment::Plain(b"\t"),
            Fragment::Plain(days),
            Fragment::Plain(b"\t"),
            Fragment::Plain(volumes),
            Fragment::Plain(b"\n"),
        ],
    )
}

#[tactic(auto, unfolding(crate::specs::Titles::title_line))]
fn put_line(out: &mut Vec<u8>, entry: &ListedRow<'_>) -> Result<(), AllocError>
    ensures { OnOk result (out.new.items ≡ out.old.items ++ title_line entry.now) }
{
    let row = entry.row();
    let print = number_text(*out.allocator(), row.print(), row.print_isbn())?;
    let online = number_text(*out.allocator(), row.online(), row.online_isbn())?;
    let days = days_words(*out.allocator(), row)?;
    let volumes = volumes_words(*out.allocator(), row)?;
    put_front_fields(out, entry.name().package(), row.number(), row.title())?;
    put_back_fields(out, &print, &online, &days, &volumes)
}

fn put_lines(out: &mut Vec<u8>, found: &[ListedRow<'_>]) -> Result<(), AllocError>
    ensures { OnOk result (out.new.items ≡ out.old.items ++ flat_map title_line found.now) }
{
    for entry in found {
        put_line(out, entry)?;
    }
    Ok(())
}

fn put_next_line(out: &mut Vec<u8>, next: Option<usize>) -> Result<(), AllocError>
    ensures { OnOk result (out.new.items ≡ out.old.items ++ next_line next) }
{
    match next {
        Some(place) => put_all(
            out,
            &[
                Fragment::Plain(b"next "),
                Fragment::Number(place as u64),
                Fragment::Plain(b"\n"),
            ],
        ),
        None => Ok(()),
    }
}

/// Writes the rows that a walk found as text: a line for each, and the place where the next walk begins.
#[tactic(auto, unfolding(crate::specs::Titles::titles_text))]
pub(crate) fn put_titles_text(out: &mut Vec<u8>, walk: &Walk<'_>) -> Result<(), AllocError>
    ensures { OnOk result (out.new.items ≡ out.old.items ++ titles_text walk.now) }
{
    put_lines(out, walk.found())?;
    put_next_line(out, walk.next())
}

#[tactic(auto, unfolding(crate::specs::Titles::row_members))]
fn put_row_members(out: &mut Vec<u8>, row: &Row) -> Result<(), AllocError>
    ensures { OnOk result (out.new.items ≡ out.old.items ++ row_members row.now) }
{
    let print = number_text(*out.allocator(), row.print(), row.print_isbn())?;
    let online = number_text(*out.allocator(), row.online(), row.online_isbn())?;
    put_all(
        out,
        &[
            Fragment::Plain(b",\"record\":"),
            Fragment::Number(u64::from(row.number())),
            Fragment::Plain(b",\"title\":"),
            Fragment::Quoted(row.title()),
            Fragment::Plain(b",\"print_identifier\":"),
            Fragment::Quoted(&print),
            Fragment::Plain(b",\"online_identifier\":"),
            Fragment::Quoted(&online),
        ],
    )
}

#[tactic(auto, unfolding(crate::specs::Titles::coverage_members))]
fn put_coverage_members<'a>(
    out: &mut Vec<u8>,
    days: &'a [u8],
    volumes: &'a [u8],
    link: &'a [u8],
) -> Result<(), AllocError>
    ensures { OnOk result (out.new.items ≡ out.old.items ++ coverage_members days.now volumes.now link.now) }
{
    put_all(
        out,
        &[
            Fragment::Plain(b",\"days_words\":"),
            Fragment::Quoted(days),
            Fragment::Plain(b",\"volumes_words\":"),
            Fragment::Quoted(volumes),
            Fragment::Plain(b",\"resolve\":"),
            Fragment::Quoted(link),
            Fragment::Plain(b"}"),
        ],
    )
}

#[tactic(auto, unfolding(crate::specs::Titles::end_members))]
fn put_end_members(out: &mut Vec<u8>, row: &Row) -> Result<(), AllocError>
    ensures { OnOk result (out.new.items ≡ out.old.items ++ end_members row.now) }
{
    let days = days_words(*out.allocator(), row)?;
    let volumes = volumes_words(*out.allocator(), row)?;
    let link = title_target(*out.allocator(), row)?;
    put_coverage_members(out, &days, &volumes, &link)
}

#[tactic(auto, unfolding(crate::specs::Titles::title_object))]
fn put_object(out: &mut Vec<u8>, entry: &ListedRow<'_>) -> Result<(), AllocError>
    ensures { OnOk result (out.new.items ≡ out.old.items ++ title_object entry.now) }
{
    put_release_members(out, entry.name())?;
    put_row_members(out, entry.row())?;
    put_end_members(out, entry.row())
}

fn put_objects(out: &mut Vec<u8>, found: &[ListedRow<'_>]) -> Result<(), AllocError>
    ensures { OnOk result (out.new.items ≡ out.old.items ++ items_from title_object 0 found.now) }
{
    for (place, entry) in found.iter().enumerate() {
        put_comma(out, place)?;
        put_object(out, entry)?;
    }
    Ok(())
}

fn put_list(out: &mut Vec<u8>, found: &[ListedRow<'_>]) -> Result<(), AllocError>
    ensures { OnOk result (out.new.items ≡ out.old.items ++ json_list title_object found.now) }
{
    put_list_start(out)?;
    put_objects(out, found)?;
    put_list_end(out)
}

#[tactic(auto, unfolding(crate::specs::Titles::ask_members))]
fn put_ask_members(out: &mut Vec<u8>, ask: &TitleSearch) -> Result<(), AllocError>
    ensures { OnOk result (out.new.items ≡ out.old.items ++ ask_members ask.now) }
{
    put_all(
        out,
        &[
            Fragment::Plain(b"{\"version\":1,\"q\":"),
            Fragment::Quoted(ask.text()),
            Fragment::Plain(b",\"start\":"),
            Fragment::Number(u64::from(ask.start())),
            Fragment::Plain(b",\"titles\":"),
        ],
    )
}

fn put_next_value(out: &mut Vec<u8>, next: Option<usize>) -> Result<(), AllocError>
    ensures { OnOk result (out.new.items ≡ out.old.items ++ next_value next) }
{
    match next {
        Some(place) => put_number(out, place as u64),
        None => put(out, b"null"),
    }
}

#[tactic(auto, unfolding(crate::specs::Titles::next_member))]
fn put_next_member(out: &mut Vec<u8>, next: Option<usize>) -> Result<(), AllocError>
    ensures { OnOk result (out.new.items ≡ out.old.items ++ next_member next) }
{
    put(out, b",\"next\":")?;
    put_next_value(out, next)?;
    put(out, b"}\n")
}

/// Writes the rows that a walk found as JSON, with the version of the form, what was asked for, and the place where the
/// next walk begins.
#[tactic(auto, unfolding(crate::specs::Titles::titles_json))]
pub(crate) fn put_titles_json(
    out: &mut Vec<u8>,
    ask: &TitleSearch,
    walk: &Walk<'_>,
) -> Result<(), AllocError>
    ensures { OnOk result (out.new.items ≡ out.old.items ++ titles_json ask.now walk.now) }
{
    put_ask_members(out, ask)?;
    put_list(out, walk.found())?;
    put_next_member(out, walk.next())
}
