//! The feed of a node: it stores releases in pieces over any keeper, and reports and queries the latest complete and
//! good one of each package.
#![tactic(auto)]

mod actives;
mod ahead;
mod commit;
mod feed;
mod file_check;
mod laws;
mod leftovers;
mod release;
mod releases;
mod standing;
mod statuses;

pub use actives::{ActiveRelease, find_package};
pub use feed::{AnswerFault, Event, Feed, OpenFault, Opening, OpeningStep, Point};
pub use laws::{answers_stay, list_alike};
pub use statuses::ReleaseStatus;
