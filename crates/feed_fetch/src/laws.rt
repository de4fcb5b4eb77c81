//! Laws of files and of fetches, stated as the contracts of functions with an empty body.
ghost use Rattle.feed_fetch.specs.Effects.{IsFetchable};
ghost use Rattle.feed_fetch.specs.Exchanges.{IsBounded, IsEnding, IsExcusedAlone, NeedsWhole};
ghost use Rattle.feed_fetch.specs.GoodFiles.{header_alone};

use feed_dial::Dial;

/// A file that can be fetched exists: a header with the labels that a file must have.
pub fn header_is_fetchable()
    ensures { IsFetchable header_alone }
{}

/// A fetch ends, for any caller of `Fetch::next` and `Fetch::take`. If each exchange gets the response of a server that
/// has the file (`D` states the responses of the peer), `next` returns `Done` after one exchange for the length and one
/// for each piece of each gap, and the release is then reported. Only an excused stop ends the fetch before.
pub fn fetch_ends<D: Dial>()
    ensures bounded { IsBounded D.responses }
    ensures ending { IsEnding D.responses }
    ensures excused { IsExcusedAlone D.responses }
    ensures whole { NeedsWhole }
{}
