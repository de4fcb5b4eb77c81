//! The counters of a node, and the times that its requests, turns and commits took.
ghost use Rattle.std.specs.Prelude.{◌≡◌, ◌<◌, ℕ, IfOk, OnErr, OnOk, List, [], ◌∷◌, ◌++◌};
ghost use Rattle.std.specs.Prelude.{length, slice_index};
ghost use Rattle.feed_metrics.specs.Rows.{name_at};
ghost use Rattle.node_monitoring.specs.Counts.{Added, HasCounted, place_of, request_place};
ghost use Rattle.node_monitoring.specs.Histograms.{HasObserved, KeepsOthers, times_of};
ghost use Rattle.node_monitoring.specs.declared.histogram.Timing.{Timing};
ghost use Rattle.node_monitoring.specs.declared.histogram.Timing.TheVariants.{Request};
ghost use Rattle.node_monitoring.specs.MetricsTexts.{KeepsSites};
ghost use Rattle.node_monitoring.specs.SiteNames.{site_added, site_name};

use crate::counter::{COUNTER_COUNT, Counter};
use crate::counters::Counters;
use crate::histogram::{Histograms, Timing};
use crate::request_kind::{REQUEST_COUNT, StatusClass, Target, request_place};
use std::alloc::{AllocError, Global};
use std::marker::Model;

/// The name of the file of a site.
#[derive(Drop)]
pub struct SiteName {
    bytes: Vec<u8>,
}

impl Model for SiteName {
    ghost use Rattle.std.specs.Prelude.{List, ℕ};

    ghost Value = { List ℕ };

    ghost view = { λ name. name.bytes.items };
}

impl SiteName {
    /// Returns a name.
    pub fn new(bytes: Vec<u8>) -> SiteName
        ensures { result ≡ bytes.items }
    {
        SiteName { bytes }
    }
}

/// The counters of a node, and the times that its requests, turns and commits took.
#[derive(Drop)]
pub struct Metrics {
    pub(crate) counters: Counters,
    pub(crate) requests: Counters,
    pub(crate) site_names: Vec<SiteName>,
    /// The requests of each site, by its place.
    pub(crate) sites: Counters,
    pub(crate) times: Histograms,
}

impl Model for Metrics {
    ghost use Rattle.std.specs.Prelude.{◌≡◌, length};
    ghost use Rattle.node_monitoring.specs.MetricsTexts.{MetricsValue};
    ghost use Rattle.node_monitoring.specs.declared.counter.TheConstants.{COUNTER_COUNT};
    ghost use Rattle.node_monitoring.specs.declared.request_kind.TheConstants.{REQUEST_COUNT};

    ghost Value = { MetricsValue };

    ghost view = { λ m. record {
      counters = m.counters;
      requests = m.requests;
      site_names = m.site_names.items;
      sites = m.sites;
      times = m.times;
    } };

    ghost invariant = { λ m. (length m.counters ≡ COUNTER_COUNT) × (length m.requests ≡ REQUEST_COUNT)
        × (length m.sites ≡ length m.site_names.items) };
}

impl Metrics {
    /// Returns metrics that have counted nothing, of a node whose sites have no names.
    pub fn new(alloc: Global) -> Result<Metrics, AllocError>
        ensures counters { IfOk result (λ m. HasCounted m.counters []) }
        ensures requests { IfOk result (λ m. HasCounted m.requests []) }
        ensures names { IfOk result (λ m. m.site_names ≡ []) }
        ensures times { (timing : Timing) → IfOk result (λ m. HasObserved (times_of m.times timing) []) }
    {
        Ok(Metrics {
            counters: Counters::new(alloc, COUNTER_COUNT)?,
            requests: Counters::new(alloc, REQUEST_COUNT)?,
            site_names: Vec::new(alloc),
            sites: Counters::new(alloc, 0)?,
            times: Histograms::new(alloc)?,
        })
    }

    /// Counts the requests of the sites with these names from now on, each from 0.
    ///
    /// # Errors
    ///
    /// Running out of memory. The metrics are as before then.
    pub fn name_sites(&mut self, alloc: Global, names: Vec<SiteName>) -> Result<(), AllocError>
        ensures names { OnOk result (self.new.site_names ≡ names.items) }
        ensures sites { OnOk result (HasCounted self.new.sites []) }
        ensures same { OnErr result (KeepsSites self.old self.new) }
        ensures counters { self.new.counters ≡ self.old.counters }
        ensures requests { self.new.requests ≡ self.old.requests }
        ensures times { self.new.times ≡ self.old.times }
    {
        let sites = Counters::new(alloc, names.len())?;
        self.site_names = names;
        self.sites = sites;
        Ok(())
    }

    /// Adds an amount to a counter.
    pub fn add(&mut self, counter: Counter, amount: u64)
        ensures counted { (history : List Added) → HasCounted self.old.counters history
            → HasCounted self.new.counters (record { place = place_of counter; amount = amount } ∷ history) }
        ensures requests { self.new.requests ≡ self.old.requests }
        ensures sites { KeepsSites self.old self.new }
        ensures times { self.new.times ≡ self.old.times }
    {
        self.counters.add(counter.place(), amount);
    }

    /// Counts a request that was responded to after this many microseconds.
    pub fn count_request(&mut self, target: Target, class: StatusClass, micros: u64)
        ensures counted { (history : List Added) → HasCounted self.old.requests history
            → HasCounted self.new.requests (record { place = request_place target class; amount = 1 } ∷ history) }
        ensures observed { (observed : List ℕ) → HasObserved (times_of self.old.times Request) observed
            → HasObserved (times_of self.new.times Request) (micros ∷ observed) }
        ensures others { KeepsOthers Request self.old.times self.new.times }
        ensures counters { self.new.counters ≡ self.old.counters }
        ensures sites { KeepsSites self.old self.new }
    {
        self.requests.add(request_place(target, class), 1);
        self.times.observe(Timing::Request, micros);
    }

    /// Observes how many microseconds a turn or a commit took.
    pub fn observe(&mut self, timing: Timing, micros: u64)
        ensures observed { (observed : List ℕ) → HasObserved (times_of self.old.times timing) observed
            → HasObserved (times_of self.new.times timing) (micros ∷ observed) }
        ensures others { KeepsOthers timing self.old.times self.new.times }
        ensures counters { self.new.counters ≡ self.old.counters }
        ensures requests { self.new.requests ≡ self.old.requests }
        ensures sites { KeepsSites self.old self.new }
    {
        self.times.observe(timing, micros);
    }

    /// Counts a request to which the site at a place responded, if it has a name.
    pub(crate) fn count_site(&mut self, site: Option<usize>)
        ensures counted { (history : List Added) → HasCounted self.old.sites history
            → HasCounted self.new.sites (site_added self.old.site_names site ++ history) }
        ensures names { self.new.site_names ≡ self.old.site_names }
        ensures counters { self.new.counters ≡ self.old.counters }
        ensures requests { self.new.requests ≡ self.old.requests }
        ensures times { self.new.times ≡ self.old.times }
    {
        if let Some(place) = site {
            if place < self.site_names.len() {
                self.sites.add(place, 1);
            }
        }
    }

    /// Returns how many sites have names.
    pub(crate) fn site_count(&self) -> usize
        ensures { result ≡ length self.now.site_names }
    {
        self.site_names.len()
    }

    /// Returns the name of the site at a place, or nothing.
    pub(crate) fn name_at(&self, place: usize) -> &[u8]
        ensures { result.now ≡ name_at self.now.site_names place }
    {
        match self.site_names.get(place) {
            Some(name) => &name.bytes,
            None => b"",
        }
    }

    /// Returns the name of a site, or nothing.
    pub(crate) fn site_name(&self, site: Option<usize>) -> &[u8]
        ensures { result.now ≡ site_name self.now.site_names site }
    {
        match site {
            Some(place) => self.name_at(place),
            None => b"",
        }
    }

    pub(crate) fn counter(&self, counter: Counter) -> u64
        ensures { result ≡ slice_index self.now.counters (place_of counter) }
    {
        self.counters.get(counter.place())
    }
}
