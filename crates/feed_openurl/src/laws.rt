//! Laws of OpenURLs as they are understood, each stated as the contract of a function with an empty body.
ghost use Rattle.feed_openurl.specs.Laws.{AnsweredIsContained, BlankIsUncited, DroppedIsUncited, DroppedIsUnread};
ghost use Rattle.feed_openurl.specs.Laws.{OrderIsFree, PeopleAreDropped, WrittenIsAccepted, WrittenIsItself};
ghost use Rattle.feed_openurl.specs.Laws.{WrittenIsShort, WrittenIsUnderstood};

use feed_answer::{set_has_exactly_its_identifiers, sets_ascend};

/// For an OpenURL that the core answers, each of its identifiers is looked up, with its days and its volume if it has
/// any, unless the OpenURL has more than `IDENTIFIER_LIMIT` identifiers.
pub fn answered_is_contained()
    ensures { AnsweredIsContained }
{
    set_has_exactly_its_identifiers();
}

/// Two pairs that change places change nothing of the identifiers that are looked up, nor of the reason if none is.
pub fn order_is_free()
    ensures { OrderIsFree }
{
    sets_ascend();
    set_has_exactly_its_identifiers();
}

/// A pair whose key nobody reads changes nothing of how an OpenURL is understood.
pub fn dropped_is_unread()
    ensures { DroppedIsUnread }
{}

/// A key that may name a person or a library is one that nobody reads.
pub fn people_are_dropped()
    ensures { PeopleAreDropped }
{}

/// The core accepts the query that is written for any OpenURL that is not refused, and it asks for exactly the
/// identifiers, the days and the volume that were understood.
pub fn written_is_accepted()
    ensures { WrittenIsAccepted }
{}

/// The query that is written has at most 1,532 bytes, so it is always within `QUERY_LIMIT`.
pub fn written_is_short()
    ensures { WrittenIsShort }
{}

/// The query that is written is understood with exactly the same identifiers, date and volume. It is refused only if
/// the OpenURL was for which it is written.
pub fn written_is_understood()
    ensures { WrittenIsUnderstood }
{}

/// A written query, understood and written again, is the same text.
pub fn written_is_itself()
    ensures { WrittenIsItself }
{}

/// A value that is empty, or has spaces alone, leaves the citation as if its pair were absent.
pub fn blank_is_uncited()
    ensures { BlankIsUncited }
{}

/// So does a value whose key nobody reads: one that `dropped_keys` returns.
pub fn dropped_is_uncited()
    ensures { DroppedIsUncited }
{}
