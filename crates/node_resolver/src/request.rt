//! A request to the resolver, with its path, its query and the representation of the response, each read once.
ghost use Rattle.std.specs.Prelude.{◌≡◌};
ghost use Rattle.httparse.specs.Grammar.{RequestHead};
ghost use Rattle.feed_http_heads.specs.Requests.{HasHead};
ghost use Rattle.node_request.specs.Representations.{representation_of};
ghost use Rattle.node_request.specs.Routes.{route_of};
ghost use Rattle.node_resolver.specs.Responses.{path_of, target_query};

use feed_http_heads::origin_form;
use node_request::{ParsedRequest, Representation, path_in, query_in, representation_of};

/// A request to the resolver.
#[derive(Clone, Copy)]
pub(crate) struct ReaderRequest<'b> {
    pub(crate) parsed: ParsedRequest<'b>,
    pub(crate) path: &'b [u8],
    pub(crate) query: &'b [u8],
    /// The representation that the query names, or otherwise the Accept field.
    pub(crate) representation: Representation,
    ghost has_path: { (head : RequestHead) → HasHead parsed.request head → path.now ≡ path_of head },
    ghost has_query: { (head : RequestHead) → HasHead parsed.request head → query.now ≡ target_query head },
    ghost prefers: { (head : RequestHead) → HasHead parsed.request head
        → representation ≡ representation_of (route_of head) (target_query head) head },
}

impl<'b> ReaderRequest<'b> {
    /// Reads what a request asks for.
    pub(crate) fn new(parsed: ParsedRequest<'b>) -> ReaderRequest<'b>
        ensures { result.parsed ≡ parsed.entry }
    {
        let target = origin_form(parsed.request.target());
        let query = query_in(target);
        ReaderRequest {
            parsed,
            path: path_in(target),
            query,
            representation: representation_of(parsed.route, query, &parsed.request.fields()),
        }
    }
}
