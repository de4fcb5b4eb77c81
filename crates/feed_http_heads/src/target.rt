//! Finding the path in the target of a request.
ghost use Rattle.std.specs.Prelude.{◌≡◌, ◌==◌, option_copied, position};
ghost use Rattle.feed_http_heads.specs.Targets.{slash, from_slash, after_scheme, origin_form};

/// Returns a target from its path on. A target may be a complete URI, with a scheme and a host before the path
/// (RFC 9112, section 3.2.2).
pub fn origin_form(target: &[u8]) -> &[u8]
    ensures { result.now ≡ origin_form target.now }
{
    match after_scheme(target) {
        Some(rest) => from_slash(rest),
        None => target,
    }
}

fn after_scheme(target: &[u8]) -> Option<&[u8]>
    ensures { option_copied result ≡ after_scheme target.now }
{
    let (front, rest) = target.split_at_checked(7)?;
    front.eq_ignore_ascii_case(b"http://").then_some(rest)
}

fn from_slash(text: &[u8]) -> &[u8]
    ensures { result.now ≡ from_slash text.now }
{
    match first_slash(text) {
        Some(place) => &text[place..],
        None => b"",
    }
}

fn first_slash(text: &[u8]) -> Option<usize>
    ensures { result ≡ position (λ byte. byte == slash) text.now }
{
    text.iter().position(|byte| *byte == b'/')
}
