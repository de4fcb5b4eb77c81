//! Writes families in the text format: one after another, as their table has them.
ghost use Rattle.std.specs.Prelude.{[], ◌≡◌, ◌∷◌, ◌++◌, OnOk, map};
ghost use Rattle.std.specs.List.{flat_map};
ghost use Rattle.feed_metrics.specs.Exposition.{Help, Kind, comment_text, exposition, label_pair, labels_text};
ghost use Rattle.feed_metrics.specs.Exposition.{line_text, more_labels, sample_line};
ghost use Rattle.feed_metrics.specs.Rows.{families_in, families_of, has_samples, is_shown, kind_name};
ghost use Rattle.feed_metrics.specs.Rows.{label_at, labels_at, plain_families, plain_family};
ghost use Rattle.feed_metrics.specs.Rows.{plain_label, plain_labels, plain_sample, plain_samples};
ghost use Rattle.feed_metrics.specs.Rows.{sample_at, samples_from, samples_of};

use crate::label_value::put;
use crate::row::{FamilyKind, FamilyRow, KINDS, LabelRow, SampleRow, Shown};
use crate::sources::Sources;
use std::alloc::AllocError;

fn put_pair<V: Sources>(
    out: &mut Vec<u8>,
    sources: &V,
    mark: &[u8],
    label: &LabelRow<V::Label>,
    place: usize,
) -> Result<(), AllocError>
    ensures { OnOk result (out.new.items
        ≡ out.old.items ++ label_pair mark.now (label_at (V.values sources.now) place (plain_label label.now))) }
{
    put(out, mark)?;
    put(out, label.0.as_bytes())?;
    put(out, b"=\"")?;
    sources.put_label_value(out, label.2, label.1, place)?;
    put(out, b"\"")
}

#[tactic(auto, unfolding(crate::specs::Exposition::more_labels))]
fn put_more_labels<V: Sources>(
    out: &mut Vec<u8>,
    sources: &V,
    labels: &[LabelRow<V::Label>],
    place: usize,
) -> Result<(), AllocError>
    ensures { OnOk result (out.new.items
        ≡ out.old.items ++ more_labels (labels_at (V.values sources.now) place (plain_labels labels.now))) }
{
    for label in labels {
        put_pair(out, sources, b",", label, place)?;
    }
    put(out, b"}")
}

fn put_labels<V: Sources>(
    out: &mut Vec<u8>,
    sources: &V,
    labels: &[LabelRow<V::Label>],
    place: usize,
) -> Result<(), AllocError>
    ensures { OnOk result (out.new.items
        ≡ out.old.items ++ labels_text (labels_at (V.values sources.now) place (plain_labels labels.now))) }
{
    match labels.split_first() {
        Some((label, more)) => {
            put_pair(out, sources, b"{", label, place)?;
            put_more_labels(out, sources, more, place)
        }
        None => Ok(()),
    }
}

#[tactic(auto, unfolding(crate::specs::Exposition::line_text))]
fn put_sample<V: Sources>(
    out: &mut Vec<u8>,
    sources: &V,
    name: &str,
    row: &SampleRow<V::Label, V::Sample>,
    place: usize,
) -> Result<(), AllocError>
    ensures { OnOk result (out.new.items
        ≡ out.old.items ++ line_text
        (sample_line name.now (sample_at (V.values sources.now) (plain_sample row.now) place))) }
{
    put(out, name.as_bytes())?;
    put(out, row.0.as_bytes())?;
    put_labels(out, sources, row.1, place)?;
    put(out, b" ")?;
    sources.put_value(out, row.2, place)?;
    put(out, b"\n")
}

fn put_samples<V: Sources>(
    out: &mut Vec<u8>,
    sources: &V,
    name: &str,
    row: &SampleRow<V::Label, V::Sample>,
) -> Result<(), AllocError>
    ensures { OnOk result (out.new.items
        ≡ out.old.items ++ flat_map line_text
        (map (sample_line name.now) (samples_of (V.values sources.now) (plain_sample row.now)))) }
{
    for place in 0..sources.count(row.2) {
        put_sample(out, sources, name, row, place)?;
    }
    Ok(())
}

fn has_samples<V: Sources>(sources: &V, rows: &[SampleRow<V::Label, V::Sample>]) -> bool
    ensures { result ≡ has_samples (V.values sources.now) (plain_samples rows.now) }
{
    let mut is_any = false;
    for row in rows {
        is_any = is_any || 0 < sources.count(row.2);
    }
    is_any
}

fn is_shown<V: Sources>(sources: &V, family: &FamilyRow<V::Label, V::Sample>) -> bool
    ensures { result ≡ is_shown (V.values sources.now) (plain_family family.now) }
{
    match family.3 {
        Shown::Always => true,
        Shown::IfAny => has_samples(sources, family.4),
    }
}

fn kind_name(kind: FamilyKind) -> &'static [u8]
    ensures { result.now ≡ kind_name kind }
{
    KINDS[kind as usize].as_bytes()
}

fn put_comment(out: &mut Vec<u8>, mark: &[u8], name: &[u8], text: &[u8]) -> Result<(), AllocError>
    ensures { OnOk result (out.new.items ≡ out.old.items ++ comment_text mark.now name.now text.now) }
{
    put(out, mark)?;
    put(out, name)?;
    put(out, b" ")?;
    put(out, text)?;
    put(out, b"\n")
}

#[tactic(auto, unfolding(crate::specs::Exposition::line_text))]
fn put_header(out: &mut Vec<u8>, name: &str, help: &str, kind: FamilyKind) -> Result<(), AllocError>
    ensures { OnOk result (out.new.items
        ≡ out.old.items ++ flat_map line_text (Help name.now help.now ∷ Kind name.now (kind_name kind) ∷ [])) }
{
    put_comment(out, b"# HELP ", name.as_bytes(), help.as_bytes())?;
    put_comment(out, b"# TYPE ", name.as_bytes(), kind_name(kind))
}

fn put_rows<V: Sources>(
    out: &mut Vec<u8>,
    sources: &V,
    name: &str,
    rows: &[SampleRow<V::Label, V::Sample>],
) -> Result<(), AllocError>
    ensures { OnOk result (out.new.items
        ≡ out.old.items ++ flat_map line_text
        (map (sample_line name.now) (samples_from (V.values sources.now) (plain_samples rows.now)))) }
{
    for row in rows {
        put_samples(out, sources, name, row)?;
    }
    Ok(())
}

fn put_family<V: Sources>(
    out: &mut Vec<u8>,
    sources: &V,
    family: &FamilyRow<V::Label, V::Sample>,
) -> Result<(), AllocError>
    ensures { OnOk result (out.new.items
        ≡ out.old.items ++ exposition (families_of (V.values sources.now) (plain_family family.now))) }
{
    if !is_shown(sources, family) {
        return Ok(());
    }
    put_header(out, family.0, family.1, family.2)?;
    put_rows(out, sources, family.0, family.4)
}

/// Writes the families of a table, with the values of their sources.
///
/// # Errors
///
/// Running out of memory. A part of the text may be written then.
pub fn put_families<V: Sources>(
    out: &mut Vec<u8>,
    sources: &V,
    families: &[FamilyRow<V::Label, V::Sample>],
) -> Result<(), AllocError>
    ensures { OnOk result (out.new.items
        ≡ out.old.items ++ exposition (families_in (V.values sources.now) (plain_families families.now))) }
{
    for family in families {
        put_family(out, sources, family)?;
    }
    Ok(())
}
