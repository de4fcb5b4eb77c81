//! When a link of the library is shown, and what a search may have found.
ghost use Rattle.std.specs.Prelude.{◌≡◌};
ghost use Rattle.node_site.specs.Kinds as kinds;
ghost use Rattle.node_site.specs.Occasions.{is_meant, is_used};
ghost use Rattle.node_site.specs.Site.{occasion_of};

/// When a link of the library is shown.
#[derive(Clone, Copy)]
pub enum LinkOccasion {
    Always,
    /// If there is a hit that is open to readers.
    Hits,
    /// If a search has no hit.
    NoHits,
    /// If there are hits, and none is open to readers.
    Embargoed,
}

/// The outcome of a search. A hit is open unless it is under an embargo or has abstracts alone.
#[derive(Clone, Copy, Debug, PartialEq, Eq)]
pub enum SearchOutcome {
    /// There is an open hit.
    Hits,
    /// No row is a hit.
    NoHits,
    /// There are hits, and none is open.
    Embargoed,
    /// No open hit was found, and not all rows were looked at.
    Unknown,
}

/// The use of the links of a library.
#[derive(Clone, Copy, Debug, PartialEq, Eq)]
pub enum LinkUse {
    /// A page shows them.
    Shown,
    /// A redirect leads to the first of them.
    Followed,
}

/// Returns whether a text names an occasion.
pub(crate) fn is_occasion(text: &[u8]) -> bool
    ensures { result ≡ kinds.is_occasion text.now }
{
    text == b"always".as_slice()
        || text == b"hits".as_slice()
        || text == b"no-hits".as_slice()
        || text == b"embargoed".as_slice()
}

impl LinkOccasion {
    /// Returns the occasion that a text names. Any other text is that of a link that is always shown.
    pub fn of(text: &[u8]) -> LinkOccasion
        ensures { result ≡ occasion_of text.now }
    {
        if text == b"hits".as_slice() {
            LinkOccasion::Hits
        } else if text == b"no-hits".as_slice() {
            LinkOccasion::NoHits
        } else if text == b"embargoed".as_slice() {
            LinkOccasion::Embargoed
        } else {
            LinkOccasion::Always
        }
    }

    fn is_meant(self, outcome: SearchOutcome) -> bool
        ensures { result ≡ is_meant self outcome }
    {
        match (self, outcome) {
            (LinkOccasion::Hits, SearchOutcome::Hits) => true,
            (LinkOccasion::NoHits, SearchOutcome::NoHits) => true,
            (LinkOccasion::Embargoed, SearchOutcome::Embargoed) => true,
            _ => false,
        }
    }

    /// Returns whether a link is used if a search had this outcome.
    pub fn is_used(self, usage: LinkUse, outcome: SearchOutcome) -> bool
        ensures { result ≡ is_used usage self outcome }
    {
        match (usage, self) {
            (LinkUse::Shown, LinkOccasion::Always) => true,
            (LinkUse::Shown, _) => self.is_meant(outcome),
            (LinkUse::Followed, LinkOccasion::NoHits) => self.is_meant(outcome),
            (LinkUse::Followed, LinkOccasion::Embargoed) => self.is_meant(outcome),
            (LinkUse::Followed, _) => false,
        }
    }
}
