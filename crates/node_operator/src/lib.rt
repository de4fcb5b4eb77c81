//! The responses of a node to its operator: about its releases and fetches at `/feed`, and about its folder of site
//! files at `/sites`.
#![tactic(auto)]

mod feed_responses;
mod sites_responses;

pub use feed_responses::{Activity, FeedTarget, LastFetch, ends_fetch, respond_about_feed};
pub use sites_responses::respond_about_sites;
