//! Laws of release names, each stated as the contract of a function that changes nothing.
ghost use Rattle.feed_names.specs.ReleaseName.{OneReleaseForText, OneTextForRelease};

use feed_dates::{one_date_for_day, one_day_for_date};

/// No text is the name of two releases.
pub fn one_release_for_text()
    ensures { OneReleaseForText }
{
    one_day_for_date();
}

/// A release has no name other than the one that its package and its day spell.
pub fn one_text_for_release()
    ensures { OneTextForRelease }
{
    one_date_for_day();
}
