//! The best of the texts that are offered for a part of a citation.
ghost use Rattle.std.specs.Prelude.{◌≡◌};
ghost use Rattle.feed_citation.specs.CitationParts.{same_part};
ghost use Rattle.feed_openurl.specs.Citations.{best};

use crate::offer::Offer;
use feed_citation::CitationPart;
use std::marker::Model;

/// The text that is chosen for a part so far, and its rank. It is empty if there is none.
#[derive(Drop)]
pub(crate) struct Choice<'a> {
    pub(crate) rank: u16,
    pub(crate) text: &'a str,
}

impl<'a> Model for Choice<'a> {
    ghost use Rattle.feed_openurl.specs.Citations.{ChoiceValue};

    ghost Value = { ChoiceValue };

    ghost view = { λ c. record { rank = c.rank; text = c.text.now } };
}

impl Offer {
    /// Returns whether it is for this part.
    pub(crate) fn is_for(&self, part: CitationPart) -> bool
        ensures { result ≡ same_part part self.now.part }
    {
        part.place() == self.part.place()
    }
}

impl<'a> Choice<'a> {
    ghost use Rattle.feed_openurl.specs.Citations.{is_before, no_choice, taken};

    fn new() -> Choice<'a>
        ensures { result ≡ no_choice }
    {
        Choice { rank: 0, text: "" }
    }

    // Takes an offer for the part in place of one of a later rank.
    fn take(&mut self, part: CitationPart, offered: &'a Offer)
        ensures { self.new ≡ taken part self.old offered.now }
    {
        if offered.is_for(part) && (self.text.as_bytes().is_empty() || offered.rank < self.rank) {
            self.rank = offered.rank;
            self.text = offered.text.as_str();
        }
    }

    /// Returns whether there is a choice, and it is of a better rank than another one.
    pub(crate) fn is_before(&self, other: &Choice<'_>) -> bool
        ensures { result ≡ is_before self.now other.now }
    {
        !self.text.as_bytes().is_empty()
            && (other.text.as_bytes().is_empty() || self.rank < other.rank)
    }
}

/// Returns the first of the offers for a part that are of the best rank.
pub(crate) fn best<'a>(part: CitationPart, offers: &'a [Offer]) -> Choice<'a>
    ensures { result ≡ best part offers.now }
{
    let mut choice = Choice::new();
    for offered in offers {
        choice.take(part, offered);
    }
    choice
}
