//! The keys of an OpenURL that are looked up: those of OpenURL 1.0 (Z39.88-2004, the matrices of journals and books),
//! and those of OpenURL 0.1.
ghost use Rattle.std.specs.Prelude.{◌≡◌, codes, option_copied};
ghost use Rattle.feed_openurl.specs.Keys.{after_prefix, envelope_key, is_name, mended, referent_key, same_tier};
ghost use Rattle.feed_openurl.specs.Keys.{without_front};

use feed_bytes::trim_spaces;

/// Whether a key is one of the referent in OpenURL 1.0, such as `rft.issn`, or the same of OpenURL 0.1, such as `issn`.
#[derive(Clone, Copy)]
pub(crate) enum Tier {
    Rft,
    Old,
}

impl Tier {
    pub(crate) fn is(self, other: Tier) -> bool
        ensures { result ≡ same_tier self other }
    {
        match self {
            Tier::Rft => match other {
                Tier::Rft => true,
                Tier::Old => false,
            },
            Tier::Old => match other {
                Tier::Rft => false,
                Tier::Old => true,
            },
        }
    }
}

/// The meaning of a key for the value behind it.
#[derive(Clone, Copy)]
pub(crate) enum Key {
    /// `url_ver`, `ctx_ver`.
    Version,
    /// `rft_val_fmt`.
    Format,
    /// `issn`, `eissn`, `isbn`, `eisbn`: ISSNs and ISBNs, whatever the key says.
    Number,
    /// `rft_id`, and `id` of OpenURL 0.1: names of one kind or another.
    Name(Tier),
    /// `date`.
    Date(Tier),
    /// `volume`.
    Volume(Tier),
    /// A key by which nothing is looked up.
    Other,
}

/// Returns the rest of a text after a prefix, in any case of letters.
pub(crate) fn after<'a>(text: &'a [u8], prefix: &str) -> Option<&'a [u8]>
    ensures { option_copied result ≡ after_prefix prefix.now text.now }
{
    let (front, rest) = text.split_at_checked(prefix.len())?;
    if is_name(front, prefix) {
        Some(rest)
    } else {
        None
    }
}

// A key without what a page or a proxy leaves before it: `?` of a base address that has one already, or `amp;` of an
// ampersand that was escaped for HTML.
fn without_front(key: &[u8]) -> &[u8]
    ensures { result.now ≡ without_front key.now }
{
    match after(key, "?") {
        Some(rest) => rest,
        None => match after(key, "amp;") {
            Some(rest) => rest,
            None => key,
        },
    }
}

/// Returns a key without spaces at its ends, and without up to two of what a page or a proxy leaves before it.
pub(crate) fn mended(key: &[u8]) -> &[u8]
    ensures { result.now ≡ mended key.now }
{
    without_front(without_front(trim_spaces(key)))
}

/// Returns the rest of a key after `rft.` in any case.
pub(crate) fn after_rft(key: &[u8]) -> Option<&[u8]>
    ensures { option_copied result ≡ after_prefix (codes "rft.") key.now }
{
    after(key, "rft.")
}

/// Returns whether a key is this name, in any case of letters.
pub(crate) fn is_name(key: &[u8], name: &str) -> bool
    ensures { result ≡ is_name key.now name.now }
{
    key.eq_ignore_ascii_case(name.as_bytes())
}

// A key after `rft.`, or one of OpenURL 0.1.
fn referent_key(tier: Tier, name: &[u8]) -> Key
    ensures { result ≡ referent_key tier name.now }
{
    if is_name(name, "issn") || is_name(name, "eissn") {
        Key::Number
    } else if is_name(name, "isbn") || is_name(name, "eisbn") {
        Key::Number
    } else if is_name(name, "date") {
        Key::Date(tier)
    } else if is_name(name, "volume") {
        Key::Volume(tier)
    } else {
        Key::Other
    }
}

// A key without `rft.`.
fn envelope_key(name: &[u8]) -> Key
    ensures { result ≡ envelope_key name.now }
{
    if is_name(name, "rft_id") {
        Key::Name(Tier::Rft)
    } else if is_name(name, "id") {
        Key::Name(Tier::Old)
    } else if is_name(name, "rft_val_fmt") {
        Key::Format
    } else if is_name(name, "url_ver") || is_name(name, "ctx_ver") {
        Key::Version
    } else {
        referent_key(Tier::Old, name)
    }
}

impl Key {
    ghost use Rattle.feed_openurl.specs.Keys.{key_of};

    /// Returns what a decoded key asks for, in any case of letters.
    pub(crate) fn of(key: &[u8]) -> Key
        ensures { result ≡ key_of key.now }
    {
        let name = mended(key);
        match after_rft(name) {
            Some(rest) => referent_key(Tier::Rft, rest),
            None => envelope_key(name),
        }
    }
}
