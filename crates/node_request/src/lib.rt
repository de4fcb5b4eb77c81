//! The requests to a node: the host and the route that a target names, and the representation that a client prefers.
//! The crate also decides whether a request may make the node fetch a release or read its folder of site files again.
#![tactic(auto)]

mod authorization;
mod condition;
mod fetch_target;
mod form;
mod host;
mod received;
mod representation;
mod route;
mod sfx_query;
mod sites_target;

pub use authorization::{FetchPolicy, is_authorized};
pub use condition::has_tag;
pub use fetch_target::{fetch_request, fetch_to_begin, name_to_fetch};
pub use form::{FormFault, form_length, form_of, takes_form};
pub use host::{host_of, other_fields_do_not_count, whole_target_decides};
pub use received::{ParsedRequest, ReceivedRequest};
pub use representation::{Representation, accepted_representation, representation_of};
pub use route::{Route, is_unsupported_method, package_in, path_in, query_in, route_at};
pub use sfx_query::{SfxOptions, sfx_options_in};
pub use sites_target::{SitesRequest, sites_query, sites_request, sites_to_read};
