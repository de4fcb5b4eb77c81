//! The notes for readers on titles and packages.
ghost use Rattle.std.specs.Prelude.{◌≡◌, option_copied};
ghost use Rattle.std.specs.Option.{option_and_then};
ghost use Rattle.std.specs.List.{find};
ghost use Rattle.node_site.specs.Held.{is_package, is_title};
ghost use Rattle.node_site.specs.Notes.{note_of_package, note_of_title, note_on};

use crate::lookup::text_at;
use crate::site_file::SiteFile;

fn title_note<'a>(site: &'a SiteFile, package_id: &[u8], id: &[u8]) -> Option<&'a str>
    ensures { option_copied result
        ≡ option_and_then note_of_title (find (is_title package_id.now id.now) site.now.titles) }
{
    match site.title_table(package_id, id) {
        Some(table) => text_at("note", table),
        None => None,
    }
}

fn package_note<'a>(site: &'a SiteFile, package_id: &[u8]) -> Option<&'a str>
    ensures { option_copied result
        ≡ option_and_then note_of_package (find (is_package package_id.now) site.now.packages) }
{
    match site.package_table(package_id) {
        Some(table) => text_at("note", table),
        None => None,
    }
}

/// Returns the note on a title of a package: its own, or else that of the package.
pub fn note_on<'a>(site: &'a SiteFile, package_id: &[u8], id: &[u8]) -> Option<&'a str>
    ensures { option_copied result ≡ note_on site.now package_id.now id.now }
{
    match title_note(site, package_id, id) {
        Some(note) => Some(note),
        None => package_note(site, package_id),
    }
}
