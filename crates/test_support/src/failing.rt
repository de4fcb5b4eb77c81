//! A keeper whose device fails on demand.
ghost use Rattle.feed_keep.specs.InMemory.{IsListed, content_of_list};

use feed_keep::{Change, Keep, ListKeep, Record};
use feed_model::KeepFault;
use std::alloc::Global;

/// A keeper in memory, with a device that fails at one load, and at some commits.
#[derive(Drop)]
pub struct Failing {
    list: ListKeep,
    loads_before: u64,
    commits_before: u64,
    commits_failing: u64,
    failed: u64,
    loads: u64,
}

impl Failing {
    /// Returns a keeper over a list, whose device does not fail.
    pub fn over(list: ListKeep) -> Failing {
        Failing {
            list,
            loads_before: u64::MAX,
            commits_before: u64::MAX,
            commits_failing: 0,
            failed: 0,
            loads: 0,
        }
    }

    /// Makes the load after `loads_before` others fail.
    pub fn fail_load(&mut self, loads_before: u64) {
        self.loads_before = loads_before;
    }

    /// Makes `count` commits fail after `commits_before` others.
    pub fn fail_commits(&mut self, commits_before: u64, count: u64) {
        self.commits_before = commits_before;
        self.commits_failing = count;
    }
}

impl Keep for Failing {
    ghost content = { λ keeper. content_of_list keeper.list };

    ghost clean = { λ _. Unit {0} };

    ghost listed = { λ keeper. IsListed keeper.list };

    ghost failed = { λ keeper. keeper.failed };

    ghost loads = { λ keeper. keeper.loads };

    fn failures(&self) -> u64 {
        self.failed
    }

    fn load(&mut self, alloc: Global) -> Result<Vec<Record>, KeepFault> {
        self.loads = self.loads.saturating_add(1);
        let fails = self.loads_before == 0;
        self.loads_before = self.loads_before.wrapping_sub(1);
        if fails {
            self.failed = self.failed.saturating_add(1);
            return Err(KeepFault::Device);
        }
        self.list.load(alloc)
    }

    fn commit(&mut self, change: &Change<'_>) -> Result<(), KeepFault> {
        if self.commits_before == 0 && self.commits_failing > 0 {
            self.commits_failing -= 1;
            self.failed = self.failed.saturating_add(1);
            return Err(KeepFault::Device);
        }
        self.commits_before = self.commits_before.saturating_sub(1);
        self.list.commit(change)
    }
}
