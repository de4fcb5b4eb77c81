//! Laws of feeds: upgraded databases answer queries as before, and equal reports are listed alike.
ghost use Rattle.std.specs.Prelude.{◌↔◌, ℕ, List, Result};
ghost use Rattle.feed_answer.specs.QueryValue.{QueryValue};
ghost use Rattle.feed_answer.specs.HitValue.{HitValue};
ghost use Rattle.feed_model.specs.History.{History};
ghost use Rattle.feed_model.specs.Earlier.{without_refused};
ghost use Rattle.feed_releases.specs.Actives.{ListAlike};
ghost use Rattle.feed_releases.specs.Answered.{IsAnswered};

use crate::feed::AnswerFault;
use feed_model::{releases_stay, reports_stay};

/// Without the offers that were refused as too large, each query has the same answer.
pub fn answers_stay()
    ensures { (h : History) (package_name : List ℕ) (query : QueryValue) (answer : Result (List HitValue) AnswerFault)
        → IsAnswered h package_name query answer ↔ IsAnswered (without_refused h) package_name query answer }
{
    reports_stay();
    releases_stay();
}

/// Two feeds that report the same releases list them in the same way.
pub fn list_alike()
    ensures { ListAlike }
{}
