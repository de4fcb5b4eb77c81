//! A link resolver over HTTP/1.1. The target of a request is an OpenURL (ANSI/NISO Z39.88-2004), and the response is a
//! function of the request's head, of the site of its host and of the active releases of a feed.
#![tactic(auto)]

mod answers;
mod context;
mod laws;
mod node;
mod request;
mod responses;
mod shares;
mod status;
mod targets;
mod validators;

pub use context::Context;
pub use laws::{
    each_release_is_looked_at, each_search_is_bounded, every_page_is_utf8, form_is_get,
    goes_to_best, head_is_head_of_get, hits_are_held, host_has_its_site,
    host_without_site_is_misdirected, links_are_held, not_modified_has_tag_of_good,
    other_sites_do_not_count, redirects_sole_hit, same_inputs_same_bytes, same_releases_same_bytes,
    same_releases_same_node_bytes, same_releases_same_tag, status_is_json, whole_text_is_written,
};
pub use node::respond_as_node;
pub use responses::{respond, respond_with};
pub use validators::keep_releases;
