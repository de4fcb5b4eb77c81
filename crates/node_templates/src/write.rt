//! Writes templates and pages.
ghost use Rattle.std.specs.Prelude.{◌≡◌, ◌++◌, OnOk};
ghost use Rattle.std.specs.List.{list_all};
ghost use Rattle.node_response.specs.Escapes.{escaped};
ghost use Rattle.node_templates.specs.PlainTexts.{is_plain};
ghost use Rattle.node_templates.specs.Pages.{hole_text, is_shown, is_style, lines_text, page_text, fragments_text};
ghost use Rattle.node_templates.specs.Pages.{with_values};
ghost use Rattle.node_templates.specs.Plain.{plain_fragments, plain_template};
ghost use Rattle.node_templates.specs.Tags.{is_style_byte};
ghost use Rattle.node_templates.specs.Values.{plain};

use crate::lines::lines_of;
use crate::slot::Slot;
use crate::template::{Hole, HtmlFragment, Template, TemplateLine, When};
use crate::values::value_of;
use feed_bytes::PutFragment;
use node_response::{Fragment as Text, put};
use node_site::{SiteFile, is_link, text_of};
use std::alloc::AllocError;

// Returns whether a byte is of ASCII and stands for itself in a page. Most are letters, so these are tested first.
fn is_plain(byte: u8) -> bool
    ensures { result ≡ is_plain byte }
{
    if byte > b'>' {
        byte < 127
    } else {
        !matches!(byte, 0..=31 | b'"' | b'&' | b'\'' | b'<' | b'>')
    }
}

fn is_plain_text(text: &[u8]) -> bool
    ensures { result ≡ list_all is_plain text.now }
{
    text.iter().all(|byte| is_plain(*byte))
}

// Writes a value, escaped. Most have no byte to escape.
fn put_value(out: &mut Vec<u8>, value: &[u8]) -> Result<(), AllocError>
    ensures { OnOk result (out.new.items ≡ out.old.items ++ escaped value.now) }
{
    if is_plain_text(value) {
        put(out, value)
    } else {
        Text::Escaped(value).put(out)
    }
}

fn put_hole(
    out: &mut Vec<u8>,
    site: &SiteFile,
    values: &[(Slot, &[u8])],
    hole: Hole,
) -> Result<(), AllocError>
    ensures { OnOk result (out.new.items ≡ out.old.items ++ hole_text site.now (plain values.now) hole) }
{
    match hole {
        Hole::Nothing => Ok(()),
        Hole::Value(slot) => put_value(out, value_of(site, values, slot)),
        Hole::Words(text) => put_value(out, text_of(site, text)),
    }
}

#[tactic(auto, unfolding(crate::specs::Pages::fragments_text))]
fn put_fragments(
    out: &mut Vec<u8>,
    site: &SiteFile,
    values: &[(Slot, &[u8])],
    fragments: &[HtmlFragment],
) -> Result<(), AllocError>
    ensures { OnOk result (out.new.items
        ≡ out.old.items ++ fragments_text site.now (plain values.now) (plain_fragments fragments.now)) }
{
    for (html, hole) in fragments {
        put(out, html.as_bytes())?;
        put_hole(out, site, values, *hole)?;
    }
    Ok(())
}

fn is_style_byte(byte: u8) -> bool
    ensures { result ≡ is_style_byte byte }
{
    byte == b'#' || byte.is_ascii_alphanumeric()
}

fn is_all_style(value: &[u8]) -> bool
    ensures { result ≡ list_all is_style_byte value.now }
{
    value.iter().all(|byte| is_style_byte(*byte))
}

fn is_style(value: &[u8]) -> bool
    ensures { result ≡ is_style value.now }
{
    !value.is_empty() && is_all_style(value)
}

fn is_shown(site: &SiteFile, values: &[(Slot, &[u8])], when: When) -> bool
    ensures { result ≡ is_shown site.now (plain values.now) when }
{
    match when {
        When::Always => true,
        When::Given(slot) => !value_of(site, values, slot).is_empty(),
        When::Linked(slot) => is_link(value_of(site, values, slot)),
        When::Styled(slot) => is_style(value_of(site, values, slot)),
    }
}

fn put_lines(
    out: &mut Vec<u8>,
    site: &SiteFile,
    lines: &[TemplateLine],
    values: &[(Slot, &[u8])],
) -> Result<(), AllocError>
    ensures { OnOk result (out.new.items
        ≡ out.old.items ++ lines_text site.now (plain values.now) (plain_template lines.now)) }
{
    for (when, fragments) in lines {
        if is_shown(site, values, *when) {
            put_fragments(out, site, values, fragments)?;
        }
    }
    Ok(())
}

/// Writes templates one after another, with the same values.
#[tactic(auto, unfolding(crate::specs::Pages::page_text, crate::specs::Pages::template_text))]
pub fn put_page(
    out: &mut Vec<u8>,
    site: &SiteFile,
    templates: &[Template],
    values: &[(Slot, &[u8])],
) -> Result<(), AllocError>
    ensures { OnOk result (out.new.items
        ≡ out.old.items ++ page_text site.now (with_values (plain values.now) templates.now)) }
{
    for template in templates {
        put_lines(out, site, lines_of(*template), values)?;
    }
    Ok(())
}
