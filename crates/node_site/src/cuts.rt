//! Where a byte cuts a text, and how long a text is.
ghost use Rattle.std.specs.Prelude.{◌≡◌, ◌≤◌, ◌==◌, length};
ghost use Rattle.std.specs.List.{position_or_len};
ghost use Rattle.node_site.specs.Urls.{after_byte, before_byte, has_byte, is_sized};

// The place of the first such byte, or the length of the text.
fn place_of(byte: u8, text: &[u8]) -> usize
    ensures value { result ≡ position_or_len (λ b. b == byte) text.now }
    ensures bound { result ≤ length text.now }
{
    for place in 0..text.len() {
        if text[place] == byte {
            return place;
        }
    }
    text.len()
}

/// Returns what is before the first such byte, or the whole text.
pub(crate) fn before(byte: u8, text: &[u8]) -> &[u8]
    ensures { result.now ≡ before_byte byte text.now }
{
    &text[..place_of(byte, text)]
}

/// Returns what is after the first such byte, or nothing.
pub(crate) fn after(byte: u8, text: &[u8]) -> &[u8]
    ensures { result.now ≡ after_byte byte text.now }
{
    let place = place_of(byte, text);
    if place < text.len() {
        &text[place + 1..]
    } else {
        &[]
    }
}

/// Returns whether a text has such a byte.
pub(crate) fn has(byte: u8, text: &[u8]) -> bool
    ensures { result ≡ has_byte byte text.now }
{
    text.contains(&byte)
}

/// Returns whether a text has at least and at most so many bytes.
pub(crate) fn is_sized(least: usize, most: usize, text: &[u8]) -> bool
    ensures { result ≡ is_sized least most text.now }
{
    least <= text.len() && text.len() <= most
}
