//! Laws of queries and grades, each stated as the contract of a function with an empty body.
ghost use Rattle.feed_answer.specs.Laws.{GradesFollowDays, SetHasExactlyItsIdentifiers, SetsAscend};
ghost use Rattle.feed_answer.specs.Serials.{SerialAnswersAreUnchanged};
ghost use Rattle.feed_answer.specs.EmbargoLaws.{AvailabilityTellsOfDays, OpenDaysAreOpen, StartsMoveForward};
ghost use Rattle.feed_answer.specs.Today.{OneMonthForDay};

/// The set of a list's identifiers has each identifier of the list, and no other.
pub fn set_has_exactly_its_identifiers()
    ensures { SetHasExactlyItsIdentifiers }
{}

/// The set of a list's identifiers ascends, so it has each once.
pub fn sets_ascend()
    ensures { SetsAscend }
{}

/// By its dates alone, a row does not match exactly if no day asked for is covered, and it is `Inside` exactly if
/// each is.
pub fn grades_follow_days()
    ensures { GradesFollowDays }
{}

/// The answers on serials are the same as in the versions that had serials only: every query that was accepted is
/// still accepted, and in every list its hits on serials' rows are the same, with the same grades.
pub fn serial_answers_are_unchanged()
    ensures { SerialAnswersAreUnchanged }
{}

/// No day is in two months.
pub fn one_month_for_day()
    ensures { OneMonthForDay }
{}

/// The days that an embargo leaves of a coverage are those that are covered, that type R has begun and that type P has
/// not ended.
pub fn open_days_are_open()
    ensures { OpenDaysAreOpen }
{}

/// If days are available, all of them are open; if they are partly available, some are and some are not; if they are
/// under an embargo, none is.
pub fn availability_tells_of_days()
    ensures { AvailabilityTellsOfDays }
{}

/// No embargo opens or hides an earlier day than it did on the day before: its starts never move back.
pub fn starts_move_forward()
    ensures { StartsMoveForward }
{}
