//! The holdings of a library in a package or a title: nothing, or the days from a first to a last.
ghost use Rattle.std.specs.Prelude.{◌≡◌};
ghost use Rattle.node_site.specs.Held.{has_asked, has_days, shares_day};
ghost use Rattle.node_site.specs.Valid.{is_forward};

use feed_dates::DayRange;
use std::marker::Model;

/// The holdings of the library in a package or a title: none, or the days from a first to a last one.
#[derive(Drop)]
pub(crate) struct Holding {
    pub(crate) is_held: bool,
    pub(crate) first: Option<i32>,
    pub(crate) last: Option<i32>,
}

impl Model for Holding {
    ghost use Rattle.node_site.specs.Site.{HoldingValue};

    ghost Value = { HoldingValue };

    ghost view = { λ h. record { is_held = h.is_held; first = h.first; last = h.last } };
}

fn is_forward(first: Option<i32>, last: Option<i32>) -> bool
    ensures { result ≡ is_forward first last }
{
    match (first, last) {
        (Some(first), Some(last)) => !(last < first),
        _ => true,
    }
}

impl Holding {
    fn shares_day(&self, first: Option<i32>, last: Option<i32>) -> bool
        ensures { result ≡ shares_day self.now.first self.now.last first last }
    {
        is_forward(self.first, last) && is_forward(first, self.last)
    }

    fn has_asked(&self, asked: Option<DayRange>) -> bool
        ensures { result ≡ has_asked self.now asked }
    {
        match asked {
            Some(days) => self.shares_day(Some(days.first), Some(days.last)),
            None => true,
        }
    }

    /// Returns whether the library has a title, a day of its coverage, and a day that is asked for.
    pub(crate) fn has_days(
        &self,
        first: Option<i32>,
        last: Option<i32>,
        asked: Option<DayRange>,
    ) -> bool
        ensures { result ≡ has_days self.now first last asked }
    {
        self.is_held && self.shares_day(first, last) && self.has_asked(asked)
    }
}
