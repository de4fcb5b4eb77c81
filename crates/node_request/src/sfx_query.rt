//! The options that a query sets for the reply of SFX: the form of the reply, and which services it lists.
ghost use Rattle.std.specs.Prelude.{◌≡◌};
ghost use Rattle.node_request.specs.SfxQueries.{first_form_of, full_texts_only, is_detailed, sfx_form_in};
ghost use Rattle.node_request.specs.SfxQueries.{sfx_options_in};

use feed_bytes::split_once;

/// The options that a query sets for the reply of SFX.
#[derive(Clone, Copy, Debug, PartialEq, Eq)]
pub struct SfxOptions {
    /// Whether targets state what they cover.
    pub is_detailed: bool,
    /// Whether full texts are the only targets.
    pub full_texts_only: bool,
}

/// Returns whether the form that a field of a query asks for is the detailed one, if the field asks for one.
pub(crate) fn sfx_form_in(piece: &[u8]) -> Option<bool>
    ensures { result ≡ sfx_form_in piece.now }
{
    if piece == b"sfx.response_type=multi_obj_xml".as_slice() {
        Some(false)
    } else if piece == b"sfx.response_type=multi_obj_detailed_xml".as_slice()
        || piece == b"format=sfx".as_slice()
    {
        Some(true)
    } else {
        None
    }
}

fn first_form_of(query: &[u8]) -> Option<bool>
    ensures { result ≡ first_form_of query.now }
{
    let mut rest = query;
    while let Some((piece, more)) = split_once(rest, b'&') {
        if let Some(is_detailed) = sfx_form_in(piece) {
            return Some(is_detailed);
        }
        rest = more;
    }
    sfx_form_in(rest)
}

fn is_detailed(query: &[u8]) -> bool
    ensures { result ≡ is_detailed query.now }
{
    match first_form_of(query) {
        Some(is_detailed) => is_detailed,
        None => false,
    }
}

fn full_texts_only(query: &[u8]) -> bool
    ensures { result ≡ full_texts_only query.now }
{
    let mut rest = query;
    while let Some((piece, more)) = split_once(rest, b'&') {
        if piece == b"svc.fulltext=yes".as_slice() {
            return true;
        }
        rest = more;
    }
    rest == b"svc.fulltext=yes".as_slice()
}

/// Returns what a query asks of the reply of SFX.
pub fn sfx_options_in(query: &[u8]) -> SfxOptions
    ensures { result ≡ sfx_options_in query.now }
{
    SfxOptions {
        is_detailed: is_detailed(query),
        full_texts_only: full_texts_only(query),
    }
}
