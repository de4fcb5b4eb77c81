//! A query as a reader sends it, in whatever form: its pairs, decoded once, and what they ask for, understood once.
ghost use Rattle.std.specs.Prelude.{◌≡◌, IfOk};
ghost use Rattle.form_urlencoded.specs.Form as form;
ghost use Rattle.feed_openurl.specs.Citations.{citation_of_pairs};
ghost use Rattle.feed_openurl.specs.Values as values;

use crate::lookup::Lookup;
use crate::query_facts::QueryFacts;
use feed_answer::{Pair, decode_pairs};
use feed_openurl::{Citation, OpenUrl, OpenUrlFault};
use node_request::Representation;
use std::alloc::{AllocError, Global};

/// A query as a reader sends it, and the representation of the response.
#[derive(Drop)]
pub struct ReceivedOpenUrl<'a> {
    /// The bytes behind the `?` of a target, or those of a form, of any length.
    pub text: &'a [u8],
    pub representation: Representation,
    pairs: Vec<Pair<'a>>,
    understood: OpenUrl,
    citation: Citation,
    ghost decoded: { pairs.items ≡ form.parse text.now },
    ghost read: { understood ≡ values.understood text.now },
    ghost cited: { citation ≡ citation_of_pairs (form.parse text.now) },
}

impl<'a> ReceivedOpenUrl<'a> {
    ghost use Rattle.node_hits.specs.QueryFacts.{ask_of};
    ghost use Rattle.node_hits.specs.Lookups.{asked_of};

    /// Decodes and understands a query.
    ///
    /// # Errors
    ///
    /// Running out of memory.
    pub fn read(
        alloc: Global,
        text: &'a [u8],
        representation: Representation,
    ) -> Result<ReceivedOpenUrl<'a>, AllocError>
        ensures text { IfOk result (λ query. query.text.now ≡ text.now) }
        ensures representation { IfOk result (λ query. query.representation ≡ representation) }
    {
        let pairs = decode_pairs(alloc, text)?;
        let citation = Citation::of_pairs(alloc, &pairs)?;
        match OpenUrl::of_pairs(alloc, &pairs) {
            Ok(understood) => Ok(ReceivedOpenUrl {
                text,
                representation,
                pairs,
                understood,
                citation,
            }),
            Err(_) => Err(AllocError),
        }
    }

    /// Returns its decoded pairs of a key and a value.
    pub fn pairs(&self) -> &[Pair<'a>]
        ensures { result.now ≡ form.parse self.now.text.now }
    {
        &self.pairs
    }

    /// Returns what is looked up for the query, or why nothing is.
    ///
    /// # Errors
    ///
    /// Running out of memory.
    #[tactic(auto, unfolding(crate::specs::Lookups::asked_of))]
    pub fn lookup(&self, alloc: Global) -> Result<Result<Lookup<'_>, OpenUrlFault>, AllocError>
        ensures { IfOk result (λ asked. asked ≡ asked_of self.now.text.now) }
    {
        match self.understood.query(alloc)? {
            Ok(query) => {
                let date = self.understood.date();
                Ok(Ok(Lookup::of(alloc, &self.citation, date, query)?))
            }
            Err(reason) => Ok(Err(reason)),
        }
    }

    /// Returns the facts that a response reports about the query beside its hits.
    ///
    /// # Errors
    ///
    /// Running out of memory.
    #[tactic(auto, unfolding(crate::specs::QueryFacts::ask_of))]
    pub fn ask(&self, alloc: Global) -> Result<QueryFacts<'_>, AllocError>
        ensures { IfOk result (λ ask. ask ≡ ask_of self.now.text.now) }
    {
        QueryFacts::of(alloc, &self.citation, &self.understood)
    }
}
