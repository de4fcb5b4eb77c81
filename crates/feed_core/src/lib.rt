//! The feed of a node, which stores releases in pieces over any keeper and reports and queries the latest complete and
//! good one of each package. Published files and nodes form a world, which is replayed from a list of events.
#![tactic(auto)]

mod node;
mod shelf;
mod slot;
mod step;
mod text;
mod transcript;
mod world;

pub use feed_answer::WriteFault;
pub use feed_kbart::BadFile;
pub use feed_keep::{Change, Keep, ListKeep, Record, bad_of};
pub use feed_model::{KeepFault, Refusal, Reply, State};
pub use feed_parts::{Part, SegmentReader, Segments};
pub use feed_releases::{AnswerFault, Event, Feed, OpenFault, Point};
pub use feed_world::{Line, Sent, Why, WorldEvent};
pub use transcript::Transcript;
pub use world::{ReplayFault, replay};
