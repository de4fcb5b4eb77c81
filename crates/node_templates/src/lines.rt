//! The lines of each template.
ghost use Rattle.std.specs.Prelude.{◌≡◌};
ghost use Rattle.node_templates.specs.Plain.{plain_template};
ghost use Rattle.node_templates.specs.Templates.{lines_of};

use crate::citation::{CITED_NAMES, CITED_PLACE, CITED_WORK, COINS, NUMBER_FAULTS};
use crate::form::{SEARCH_FORM, TITLES_FORM};
use crate::fragment::{FRAGMENT_END, FRAGMENT_TOP, FRAGMENT_WAYS};
use crate::frame::{ASK_AGAIN, FAULT, FOOT, NOTE, TOP};
use crate::lists::{
    CARD, CARDS, LEFT_OUT, PACKAGE, PACKAGES, PACKAGES_END, TITLE_CARD, TITLES_END, WAY, WAYS,
    WAYS_END,
};
use crate::template::{Template, TemplateLine};

/// Returns the lines of a template.
#[tactic(auto, unfolding(crate::specs::Templates::lines_of))]
pub(crate) fn lines_of(template: Template) -> &'static [TemplateLine]
    ensures { plain_template result.now ≡ lines_of template }
{
    match template {
        Template::Top => TOP,
        Template::Foot => FOOT,
        Template::SearchForm => SEARCH_FORM,
        Template::TitlesForm => TITLES_FORM,
        Template::Note => NOTE,
        Template::Fault => FAULT,
        Template::AskAgain => ASK_AGAIN,
        Template::CitedWork => CITED_WORK,
        Template::CitedPlace => CITED_PLACE,
        Template::CitedNames => CITED_NAMES,
        Template::Coins => COINS,
        Template::Cards => CARDS,
        Template::Card => CARD,
        Template::LeftOut => LEFT_OUT,
        Template::Ways => WAYS,
        Template::Way => WAY,
        Template::WaysEnd => WAYS_END,
        Template::TitleCard => TITLE_CARD,
        Template::TitlesEnd => TITLES_END,
        Template::NumberFaults => NUMBER_FAULTS,
        Template::Packages => PACKAGES,
        Template::Package => PACKAGE,
        Template::PackagesEnd => PACKAGES_END,
        Template::FragmentTop => FRAGMENT_TOP,
        Template::FragmentWays => FRAGMENT_WAYS,
        Template::FragmentEnd => FRAGMENT_END,
    }
}
