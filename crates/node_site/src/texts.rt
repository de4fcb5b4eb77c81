//! The texts of the pages of a site.
ghost use Rattle.std.specs.Prelude.{◌≡◌, option_copied};
ghost use Rattle.node_site.specs.Texts.{language_in, language_of, text_of};

use crate::cuts::before;
use crate::site_file::SiteFile;
use crate::text_table::Text;

// Returns the language of a tag such as `de-AT`; English if its language has no texts.
fn language_of(tag: &[u8]) -> Language
    ensures { result ≡ language_of tag.now }
{
    let primary = before(b'-', tag);
    if primary.eq_ignore_ascii_case(b"de") {
        Language::German
    } else if primary.eq_ignore_ascii_case(b"fr") {
        Language::French
    } else {
        Language::English
    }
}

fn language_in(tag: Option<&str>) -> Language
    ensures { result ≡ language_in (option_copied tag.entry) }
{
    match tag {
        Some(tag) => language_of(tag.as_bytes()),
        None => Language::English,
    }
}

/// Returns a text of the pages: what the site file has in its place, or else the words in the language of the site.
#[tactic(auto, unfolding(crate::specs::Texts::text_of))]
pub fn text_of(site: &SiteFile, text: Text) -> &[u8]
    ensures { result.now ≡ text_of site.now text }
{
    match site.replacement(text.name()) {
        Some(words) => words.as_bytes(),
        None => text.words(language_in(site.language())).as_bytes(),
    }
}

/// A language of the pages.
#[derive(Clone, Copy, Debug, PartialEq, Eq)]
pub enum Language {
    English,
    German,
    French,
}
