//! The circumstances of a response beside its request.
use feed_answer::Today;
use feed_releases::ActiveRelease;
use node_response::{DigestedPieces, Site};
use node_site::SiteFile;
use std::marker::Model;

/// The circumstances of a response beside its request: the settings of the node, the day, and the active releases.
#[derive(Drop)]
pub struct Context<'a> {
    pub site: &'a Site,
    pub today: &'a Today,
    pub actives: &'a [ActiveRelease<'a>],
    /// A text about releases whose digest is known, mostly about these.
    pub releases: Option<&'a DigestedPieces>,
}

impl<'a> Model for Context<'a> {
    ghost use Rattle.node_resolver.specs.Answers.{ContextValue, dated};

    ghost Value = { ContextValue };

    ghost view = { λ c. record { site = c.site.now; actives = dated c.today.now c.actives.now } };
}

impl<'a> Context<'a> {
    ghost use Rattle.std.specs.Prelude.{◌≡◌, ◌<◌, length};
    ghost use Rattle.node_resolver.specs.Answers.{dated, only_at, sited_in};

    /// Returns the circumstances of a response by a site. No digest is known of the releases.
    pub(crate) fn new(
        site: &'a Site,
        today: &'a Today,
        actives: &'a [ActiveRelease<'a>],
    ) -> Context<'a>
        ensures { result ≡ record {
          site = site.entry.now;
          actives = dated today.entry.now actives.entry.now;
        } }
    {
        Context {
            site,
            today,
            actives,
            releases: None,
        }
    }

    /// Returns the site file of the library.
    pub(crate) fn library(&self) -> &'a SiteFile
        ensures { result.now ≡ self.now.site.library }
    {
        self.site.library()
    }

    /// Returns the same with the release at this place alone.
    pub(crate) fn only(&self, place: usize) -> Context<'a>
        requires { place < length self.now.actives.actives }
        ensures { sited_in result ≡ only_at place (sited_in self.now) }
    {
        Context {
            site: self.site,
            today: self.today,
            actives: &self.actives[place..place + 1],
            releases: self.releases,
        }
    }
}
