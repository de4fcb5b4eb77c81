//! The words of each text, and the names by which a site file replaces texts.
ghost use Rattle.std.specs.Prelude.{◌≡◌};
ghost use Rattle.std.specs.Str.{bytes_eq};
ghost use Rattle.node_site.specs.Words.{is_name, name_of, words_of};

use crate::english::ENGLISH;
use crate::french::FRENCH;
use crate::german::GERMAN;
use crate::text_names::NAMES;
use crate::text_table::{TEXTS, Text};
use crate::texts::Language;

#[tactic(auto, unfolding(crate::specs::Words::words_of, crate::specs::Words::name_of, crate::specs::Rows::row_of))]
impl Text {
    /// Returns the words of a text in a language.
    pub fn words(self, language: Language) -> &'static str
        ensures { result.now ≡ words_of language self }
    {
        match language {
            Language::English => ENGLISH[self as usize],
            Language::German => GERMAN[self as usize],
            Language::French => FRENCH[self as usize],
        }
    }

    /// Returns the name of a text, by which a site file replaces it.
    pub fn name(self) -> &'static str
        ensures { result.now ≡ name_of self }
    {
        NAMES[self as usize]
    }
}

fn has_name(text: Text, name: &str) -> bool
    ensures { result ≡ bytes_eq (name_of text) name.now }
{
    text.name() == name
}

/// Returns whether a text has this name.
#[tactic(auto, unfolding(crate::specs::Words::is_name))]
pub fn is_name(name: &str) -> bool
    ensures { result ≡ is_name name.now }
{
    TEXTS.iter().any(|text| has_name(*text, name))
}
