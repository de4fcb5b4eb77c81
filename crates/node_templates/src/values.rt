//! The values of slots.
ghost use Rattle.std.specs.Prelude.{◌≡◌, option_copied};
ghost use Rattle.node_templates.specs.Values.{or_nothing, plain, site_value, text_if, text_or_nothing, value_of};

use crate::slot::Slot;
use node_site::{SiteFile, Text, text_of};

/// Returns a text if a test holds, or nothing.
pub fn text_if(is_shown: bool, text: &[u8]) -> &[u8]
    ensures { result.now ≡ text_if is_shown text.now }
{
    if is_shown { text } else { b"" }
}

/// Returns the text with this name in the library's language, or nothing.
pub fn text_or_nothing(site: &SiteFile, name: Option<Text>) -> &[u8]
    ensures { result.now ≡ text_or_nothing site.now name }
{
    match name {
        Some(name) => text_of(site, name),
        None => b"",
    }
}

fn or_nothing(text: Option<&str>) -> &[u8]
    ensures { result.now ≡ or_nothing (option_copied text.entry) }
{
    match text {
        Some(text) => text.as_bytes(),
        None => b"",
    }
}

// Returns the value that the site file has for a slot, or nothing. A page is in English if the library names no
// language.
fn site_value(site: &SiteFile, slot: Slot) -> &[u8]
    ensures { result.now ≡ site_value site.now slot }
{
    match slot {
        Slot::Language => match site.language() {
            Some(language) => language.as_bytes(),
            None => b"en",
        },
        Slot::Library => or_nothing(site.name()),
        Slot::Color => or_nothing(site.color()),
        Slot::Help => or_nothing(site.help()),
        Slot::Contact => or_nothing(site.contact()),
        _ => b"",
    }
}

/// Returns the value of a slot: the first that is given for it, or else that of the site file.
pub(crate) fn value_of<'a>(
    site: &'a SiteFile,
    values: &'a [(Slot, &'a [u8])],
    slot: Slot,
) -> &'a [u8]
    ensures { result.now ≡ value_of site.now (plain values.now) slot }
{
    match values.split_first() {
        Some((value, more)) => {
            if value.0 == slot {
                value.1
            } else {
                value_of(site, more, slot)
            }
        }
        None => site_value(site, slot),
    }
}
