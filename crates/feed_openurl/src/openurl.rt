//! How an OpenURL is understood: the identifiers, the date and the volume by which the core looks it up.
use crate::date::DateText;
use crate::dates::date_of;
use crate::fault::{OpenUrlFault, ReadFault};
use crate::identifiers::looked_up;
pub use crate::sets::IDENTIFIER_LIMIT;
use crate::value::values_of;
use crate::volume::VolumeText;
use crate::volumes::volume_of;
use crate::writing::write_query;
use feed_answer::{Pair, Query, decode_pairs, sets_ascend};
use feed_dates::DayRange;
use feed_identifiers::{Isbn, Issn, printed_isbn_parses, printed_issn_parses};
use feed_kbart::read_volume;
use std::alloc::{AllocError, Global};
use std::marker::Model;

/// How an OpenURL is understood.
#[derive(Drop)]
pub struct OpenUrl {
    issns: Vec<Issn>,
    isbns: Vec<Isbn>,
    date: Option<DateText>,
    volume: Option<VolumeText>,
    refusal: Option<OpenUrlFault>,
}

impl Model for OpenUrl {
    ghost use Rattle.feed_openurl.specs.Values.{AreIdentifiers, IsCounted, OpenUrlValue};

    ghost Value = { OpenUrlValue };

    ghost view = { λ u. record {
      issns = u.issns.items;
      isbns = u.isbns.items;
      date = u.date;
      volume = u.volume;
      refusal = u.refusal;
    } };

    ghost invariant = { λ u.
        AreIdentifiers u.issns.items u.isbns.items × IsCounted u.issns.items u.isbns.items u.refusal };
}

impl OpenUrl {
    ghost use Rattle.std.specs.Prelude.{◌≡◌, IfOk, IfSome, option_copied};
    ghost use Rattle.feed_openurl.specs.Texts.{IsDateText, IsVolumeText};
    ghost use Rattle.std.specs.Option.{option_and_then};
    ghost use Rattle.feed_dates.specs.DayRanges.{query_days_of};
    ghost use Rattle.feed_kbart.specs.Volumes.{volume_of};
    ghost use Rattle.feed_openurl.specs.Queries.{asked_by};
    ghost use Rattle.feed_openurl.specs.Values.{AreIdentifiers, IsCounted, IsWellFormed};
    ghost use Rattle.feed_openurl.specs.Values.{understood, understood_pairs};
    ghost use Rattle.feed_openurl.specs.Written.{written};

    /// Reads the bytes after the `?` of an OpenURL, or the body of a form, of any length.
    ///
    /// # Errors
    ///
    /// `Memory`. An OpenURL with nothing to look up is not an error: `refusal` returns the reason.
    pub fn read(alloc: Global, text: &[u8]) -> Result<OpenUrl, ReadFault>
        ensures { IfOk result (λ u. u ≡ understood text.now) }
    {
        let pairs = decode_pairs(alloc, text)?;
        OpenUrl::of_pairs(alloc, &pairs)
    }

    /// Reads the decoded pairs of an OpenURL.
    ///
    /// # Errors
    ///
    /// `Memory`.
    pub fn of_pairs(alloc: Global, pairs: &[Pair<'_>]) -> Result<OpenUrl, ReadFault>
        ensures { IfOk result (λ u. u ≡ understood_pairs pairs.now) }
    {
        sets_ascend();
        printed_issn_parses();
        printed_isbn_parses();
        let values = values_of(alloc, pairs)?;
        let date = date_of(alloc, pairs, &values)?;
        let volume = volume_of(alloc, pairs, &values)?;
        let found = looked_up(alloc, pairs, &values)?;
        Ok(OpenUrl {
            issns: found.issns,
            isbns: found.isbns,
            date,
            volume,
            refusal: found.refusal,
        })
    }

    /// Returns the ISSNs to look up, ascending by their printed bytes, each once.
    pub fn issns(&self) -> &[Issn]
        ensures value { result.now ≡ self.now.issns }
        ensures valid { AreIdentifiers self.now.issns self.now.isbns }
        ensures counted { IsCounted self.now.issns self.now.isbns self.now.refusal }
    {
        &self.issns
    }

    /// Returns the ISBNs to look up, ascending by their thirteen digits, each once.
    pub fn isbns(&self) -> &[Isbn]
        ensures { result.now ≡ self.now.isbns }
    {
        &self.isbns
    }

    /// Returns the date, as `YYYY`, `YYYY-MM` or `YYYY-MM-DD`.
    pub fn date(&self) -> Option<&[u8]>
        ensures value { option_copied result ≡ self.now.date }
        ensures valid { IfSome self.now.date IsDateText }
    {
        match &self.date {
            Some(date) => Some(date.as_bytes()),
            None => None,
        }
    }

    /// Returns the volume, as one to nine digits.
    pub fn volume(&self) -> Option<&[u8]>
        ensures value { option_copied result ≡ self.now.volume }
        ensures valid { IfSome self.now.volume IsVolumeText }
    {
        match &self.volume {
            Some(volume) => Some(volume.as_bytes()),
            None => None,
        }
    }

    /// Returns why there is nothing to look up.
    pub fn refusal(&self) -> Option<OpenUrlFault>
        ensures { result ≡ self.now.refusal }
    {
        self.refusal
    }

    // Returns the days of the date.
    fn days(&self) -> Option<DayRange>
        ensures { result ≡ option_and_then query_days_of self.now.date }
    {
        DayRange::of_query(self.date()?)
    }

    // Returns the number of the volume.
    fn volume_number(&self) -> Option<u32>
        ensures { result ≡ option_and_then volume_of self.now.volume }
    {
        read_volume(self.volume()?)
    }

    /// Returns the query of the core for the same, or why there is nothing to look up.
    ///
    /// # Errors
    ///
    /// Running out of memory.
    pub fn query(&self, alloc: Global) -> Result<Result<Query, OpenUrlFault>, AllocError>
        ensures { IfOk result (λ asked. asked ≡ asked_by self.now) }
    {
        match self.refusal() {
            Some(reason) => Ok(Err(reason)),
            None => {
                let (days, volume) = (self.days(), self.volume_number());
                let query = Query::of(alloc, self.issns(), self.isbns(), days, volume)?;
                Ok(Ok(query))
            }
        }
    }

    /// Returns the OpenURL 1.0 query that asks the core for the same. If the OpenURL is refused, it has no identifiers.
    pub fn write(&self, alloc: Global) -> Result<Vec<u8>, AllocError>
        ensures value { IfOk result (λ text. text.items ≡ written self.now) }
        ensures valid { IsWellFormed self.now }
    {
        write_query(
            alloc,
            self.issns(),
            self.isbns(),
            self.date(),
            self.volume(),
        )
    }
}
