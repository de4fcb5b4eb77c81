//! Writes a target of the reply of SFX.
ghost use Rattle.std.specs.Prelude.{◌≡◌, ◌++◌, IfOk, None, OnOk};
ghost use Rattle.feed_xml.specs.Elements.{leaf};
ghost use Rattle.feed_xml.specs.Marks.{element, xml_text};
ghost use Rattle.node_hits.specs.Sfx.{both_words, coverage_marks, coverage_words, embargo_marks, if_detailed};
ghost use Rattle.node_hits.specs.Sfx.{names_marks, place_marks, statement_marks, stated_marks, target_marks};
ghost use Rattle.node_hits.specs.Sfx.{target_with, words_marks};

use crate::coverage::{days_words, volumes_words};
use crate::embargo_words::embargo_words;
use crate::sfx_names::{
    COVERAGE, COVERAGE_STATEMENT, COVERAGE_TEXT, DISPLAYER, EMBARGO_STATEMENT, EMBARGO_TEXT,
    IS_RELATED, NO, NOTE, PARSER, SERVICE_TYPE, TARGET, TARGET_NAME, TARGET_PUBLIC_NAME,
    TARGET_SERVICE_ID, TARGET_URL, THRESHOLD_TEXT,
};
use feed_kbart::Row;
use feed_xml::{put_closed, put_leaf, put_number_leaf, put_opened};
use node_response::put;
use std::alloc::{AllocError, Global};
use std::marker::Model;

/// The service of a target: its name, the one that readers see, a number, its type, its address and a note.
#[derive(Drop)]
pub(crate) struct Service<'a> {
    pub(crate) name: &'a [u8],
    pub(crate) public_name: &'a [u8],
    pub(crate) number: u32,
    pub(crate) service_type: &'a [u8],
    pub(crate) url: &'a [u8],
    pub(crate) note: &'a [u8],
}

impl<'a> Model for Service<'a> {
    ghost use Rattle.node_hits.specs.Sfx.{ServiceValue};

    ghost Value = { ServiceValue };

    ghost view = { λ s. record {
      name = s.name.now;
      public_name = s.public_name.now;
      number = s.number;
      service_type = s.service_type.now;
      url = s.url.now;
      note = s.note.now;
    } };
}

fn put_both(out: &mut Vec<u8>, days: &[u8], volumes: &[u8]) -> Result<(), AllocError>
    ensures { OnOk result (out.new.items ≡ out.old.items ++ both_words days.now volumes.now) }
{
    if days.is_empty() {
        return put(out, volumes);
    }
    put(out, days)?;
    if volumes.is_empty() {
        return Ok(());
    }
    put(out, b", ")?;
    put(out, volumes)
}

// Returns what a row covers, in words.
fn coverage_words(alloc: Global, row: &Row) -> Result<Vec<u8>, AllocError>
    ensures { IfOk result (λ words. words.items ≡ coverage_words row.now) }
{
    let days = days_words(alloc, row)?;
    let volumes = volumes_words(alloc, row)?;
    let mut words = Vec::new(alloc);
    put_both(&mut words, &days, &volumes)?;
    Ok(words)
}

// Writes an element whose content is one element with a text.
fn put_statement(
    out: &mut Vec<u8>,
    name: &[u8],
    inner: &[u8],
    text: &[u8],
) -> Result<(), AllocError>
    ensures { OnOk result (out.new.items
        ≡ out.old.items ++ xml_text (element name.now name.now (leaf inner.now text.now))) }
{
    put_opened(out, name)?;
    put_leaf(out, inner, text)?;
    put_closed(out, name)
}

fn put_embargo(out: &mut Vec<u8>, words: &[u8]) -> Result<(), AllocError>
    ensures { OnOk result (out.new.items ≡ out.old.items ++ xml_text (embargo_marks words.now)) }
{
    if words.is_empty() {
        return Ok(());
    }
    put_statement(out, EMBARGO_TEXT, EMBARGO_STATEMENT, words)
}

fn put_statements(out: &mut Vec<u8>, covered: &[u8], embargo: &[u8]) -> Result<(), AllocError>
    ensures { OnOk result (out.new.items ≡ out.old.items ++ xml_text (statement_marks covered.now embargo.now)) }
{
    put_statement(out, THRESHOLD_TEXT, COVERAGE_STATEMENT, covered)?;
    put_embargo(out, embargo)
}

fn put_words(out: &mut Vec<u8>, covered: &[u8], embargo: &[u8]) -> Result<(), AllocError>
    ensures { OnOk result (out.new.items ≡ out.old.items ++ xml_text (words_marks covered.now embargo.now)) }
{
    put_opened(out, COVERAGE_TEXT)?;
    put_statements(out, covered, embargo)?;
    put_closed(out, COVERAGE_TEXT)
}

fn put_stated(out: &mut Vec<u8>, covered: &[u8], embargo: &[u8]) -> Result<(), AllocError>
    ensures { OnOk result (out.new.items ≡ out.old.items ++ xml_text (stated_marks covered.now embargo.now)) }
{
    put_opened(out, COVERAGE)?;
    put_words(out, covered, embargo)?;
    put_closed(out, COVERAGE)
}

// Writes what a row covers, if it is stated.
fn put_coverage(out: &mut Vec<u8>, is_detailed: bool, row: &Row) -> Result<(), AllocError>
    ensures { OnOk result (out.new.items
        ≡ out.old.items ++ xml_text (coverage_marks (if_detailed is_detailed row.now))) }
{
    if !is_detailed {
        return Ok(());
    }
    let covered = coverage_words(*out.allocator(), row)?;
    let embargo = embargo_words(*out.allocator(), row.embargo())?;
    put_stated(out, &covered, &embargo)
}

#[tactic(auto, unfolding(crate::specs::Sfx::names_marks))]
fn put_names(out: &mut Vec<u8>, service: &Service<'_>) -> Result<(), AllocError>
    ensures { OnOk result (out.new.items ≡ out.old.items ++ xml_text (names_marks service.now)) }
{
    put_leaf(out, TARGET_NAME, service.name)?;
    put_leaf(out, TARGET_PUBLIC_NAME, service.public_name)?;
    put_number_leaf(out, TARGET_SERVICE_ID, u64::from(service.number))?;
    put_leaf(out, SERVICE_TYPE, service.service_type)
}

#[tactic(auto, unfolding(crate::specs::Sfx::place_marks))]
fn put_place(out: &mut Vec<u8>, service: &Service<'_>) -> Result<(), AllocError>
    ensures { OnOk result (out.new.items ≡ out.old.items ++ xml_text (place_marks service.now)) }
{
    put_leaf(out, TARGET_URL, service.url)?;
    put_leaf(out, PARSER, b"")?;
    put_leaf(out, IS_RELATED, NO)?;
    put_leaf(out, DISPLAYER, b"")?;
    put_leaf(out, NOTE, service.note)
}

// Writes the names, the address and the note of a service.
fn put_service(out: &mut Vec<u8>, service: &Service<'_>) -> Result<(), AllocError>
    ensures { OnOk result (out.new.items
        ≡ out.old.items ++ xml_text (names_marks service.now ++ place_marks service.now)) }
{
    put_names(out, service)?;
    put_place(out, service)
}

/// Writes the target of a row, and what the row covers, if it is stated.
#[tactic(auto, unfolding(crate::specs::Sfx::target_marks))]
pub(crate) fn put_row_target(
    out: &mut Vec<u8>,
    service: &Service<'_>,
    is_detailed: bool,
    row: &Row,
) -> Result<(), AllocError>
    ensures { OnOk result (out.new.items
        ≡ out.old.items ++ xml_text (target_marks (target_with (if_detailed is_detailed row.now) service.now))) }
{
    put_opened(out, TARGET)?;
    put_service(out, service)?;
    put_coverage(out, is_detailed, row)?;
    put_closed(out, TARGET)
}

/// Writes a target that states no coverage.
#[tactic(auto, unfolding(crate::specs::Sfx::target_marks))]
pub(crate) fn put_plain_target(out: &mut Vec<u8>, service: &Service<'_>) -> Result<(), AllocError>
    ensures { OnOk result (out.new.items ≡ out.old.items ++ xml_text (target_marks (target_with None service.now))) }
{
    put_opened(out, TARGET)?;
    put_service(out, service)?;
    put_closed(out, TARGET)
}
