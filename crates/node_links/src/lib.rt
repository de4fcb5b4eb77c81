//! The links of a library that have parts of a citation: to its forms and its catalogue, and to articles.
#![tactic(auto)]

mod article_sizes;
mod articles;
mod cited;
mod cited_links;
mod filling;
mod laws;
mod library_link;
mod site_links;

pub use articles::{article_link, doi_link};
pub use cited::{CitedTitle, citation_query};
pub use cited_links::CitedLinks;
pub use laws::{
    articles_are_whole, parts_add_no_marks, parts_are_no_steps, requests_are_links,
    requests_keep_host,
};
pub use library_link::{LibraryLink, library_links};
