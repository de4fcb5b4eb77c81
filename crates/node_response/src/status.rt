//! Status codes (RFC 9110, section 15).
ghost use Rattle.std.specs.Prelude.{◌≡◌};
ghost use Rattle.node_response.specs.Responses.{status_code, reason_text, is_bodiless};

/// A status code, with its reason.
#[derive(Clone, Copy, Debug, PartialEq, Eq)]
pub enum Status {
    /// 200
    Good,
    /// 200, of the feed, which takes a DELETE too
    Listed,
    /// 204, to a request that a fetch end
    Ended,
    /// 204, to a preflight of a target that takes a GET
    Preflight,
    /// 204, to a preflight of a target that takes a GET or a POST
    QueryPreflight,
    /// 302
    Found,
    /// 304
    NotModified,
    /// 400
    BadRequest,
    /// 401
    Unauthorized,
    /// 404
    NotFound,
    /// 405
    MethodNotAllowed,
    /// 405, of a target that only a POST may have
    PostOnly,
    /// 405, of a target that takes a POST too
    GetOrPost,
    /// 405, of the feed
    GetOrDelete,
    /// 409
    Conflict,
    /// 411
    LengthRequired,
    /// 413
    ContentTooLarge,
    /// 415
    UnsupportedMediaType,
    /// 421
    Misdirected,
    /// 501
    NotImplemented,
}

/// Returns the code of a status, and the reason phrase that its line gives.
pub(crate) fn code_and_reason(status: Status) -> (u16, &'static [u8])
    ensures code { result.0 ≡ status_code status }
    ensures reason { result.1.now ≡ reason_text status }
{
    match status {
        Status::Good | Status::Listed => (200, b"OK"),
        Status::Ended | Status::Preflight | Status::QueryPreflight => (204, b"No Content"),
        Status::Found => (302, b"Found"),
        Status::NotModified => (304, b"Not Modified"),
        Status::BadRequest => (400, b"Bad Request"),
        Status::Unauthorized => (401, b"Unauthorized"),
        Status::NotFound => (404, b"Not Found"),
        Status::MethodNotAllowed | Status::PostOnly | Status::GetOrPost | Status::GetOrDelete => (
            405,
            b"Method Not Allowed",
        ),
        Status::Conflict => (409, b"Conflict"),
        Status::LengthRequired => (411, b"Length Required"),
        Status::ContentTooLarge => (413, b"Content Too Large"),
        Status::UnsupportedMediaType => (415, b"Unsupported Media Type"),
        Status::Misdirected => (421, b"Misdirected Request"),
        Status::NotImplemented => (501, b"Not Implemented"),
    }
}

/// Returns the code of a status.
pub(crate) fn status_code(status: Status) -> u16
    ensures { result ≡ status_code status }
{
    code_and_reason(status).0
}

/// Returns whether a response of this status has no body (RFC 9110, sections 15.3.5 and 15.4.5).
pub(crate) fn is_bodiless(status: Status) -> bool
    ensures { result ≡ is_bodiless (status_code status) }
{
    matches!(
        status,
        Status::Ended | Status::Preflight | Status::QueryPreflight | Status::NotModified
    )
}
