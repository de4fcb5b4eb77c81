//! The head of a response (RFC 9112, section 4).
ghost use Rattle.std.specs.Prelude.{◌≡◌};
ghost use Rattle.feed_http_heads.specs.ResponseHeads.{is_interim_status};

/// Returns whether a response with this status is interim, so that another one follows (RFC 9110, section 15.2).
pub fn is_interim(status: u16) -> bool
    ensures { result ≡ is_interim_status status }
{
    (100..200).contains(&status)
}
