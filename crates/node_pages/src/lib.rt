//! The pages that a reader of a resolver sees, each as a list of templates with values for their slots. They show the
//! citation of a query with a card for each hit, the forms, and the packages. There are also fragments for pages of
//! other sites, and the responses to requests that are not answered, to queries for which nothing is looked up, and to
//! queries for titles.
#![tactic(auto)]

mod card;
mod citation;
mod coins;
mod coverage;
mod dates;
mod embargo;
mod error_page;
mod form;
mod fragment;
mod heading;
mod hits_page;
mod home_page;
mod laws;
mod lists;
mod number_faults;
mod opening;
mod openurl_text;
mod partial;
mod refusals;
mod titles;
mod titles_page;
mod ways;

pub use card::Fit;
pub use error_page::error_response;
pub use fragment::put_hits_fragment;
pub use hits_page::{Tallies, put_hits_page};
pub use home_page::{put_home_page, put_status_page};
pub use laws::{
    fragments_suit_other_pages, packages_are_listed, pages_have_their_tags, slots_are_given,
};
pub use openurl_text::OpenUrlText;
pub use refusals::unasked_response;
pub use titles_page::titles_response;
