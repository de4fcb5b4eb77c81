//! Trimming the spaces of a field, and skipping its hyphens.
ghost use Rattle.std.specs.Prelude.{◌≡◌, ◌<◌, ◌++◌, ◌∷◌, ℕ, [], IfNone, IfSome, length, replicate};
ghost use Rattle.std.specs.Bool.{OnTrue};
ghost use Rattle.std.specs.Int.{to_le_bytes, w64};
ghost use Rattle.std.specs.List.{filter};
ghost use Rattle.feed_bytes.specs.Trim.{is_no_hyphen, skip_spaces, trimmed, trimmed_back};

// Eight spaces, and eight hyphens.
const SPACES: u64 = 0x2020_2020_2020_2020;

const HYPHENS: u64 = 0x2d2d_2d2d_2d2d_2d2d;

// Returns whether eight bytes are those of a word, by one comparison.
fn is_word(bytes: &[u8; 8], word: u64) -> bool
    ensures { OnTrue result (bytes.now ≡ to_le_bytes w64 word) }
{
    u64::from_le_bytes(*bytes) == word
}

// Skips the byte that a word repeats, at the front of a text, eight at a time, since a field may have millions. Some
// may be left.
fn skip_many(text: &[u8], word: u64) -> &[u8]
    ensures { (byte : ℕ) → to_le_bytes w64 word ≡ replicate 8 byte
        → (count : ℕ) × (text.now ≡ replicate count byte ++ result.now) }
{
    let mut rest = text;
    while let Some((bytes, tail)) = rest.split_first_chunk::<8>() {
        if !is_word(bytes, word) {
            break;
        }
        rest = tail;
    }
    rest
}

/// Returns the first character other than a hyphen, and what follows it.
pub fn next_character(text: &[u8]) -> Option<(u8, &[u8])>
    ensures some { IfSome result (λ found.
        filter is_no_hyphen text.now ≡ found.0 ∷ filter is_no_hyphen found.1.now) }
    ensures shorter { IfSome result (λ found. length found.1.now < length text.now) }
    ensures none { IfNone result (filter is_no_hyphen text.now ≡ []) }
{
    let mut rest = skip_many(text, HYPHENS);
    while let Some((character, tail)) = rest.split_first() {
        if *character != b'-' {
            return Some((*character, tail));
        }
        rest = tail;
    }
    None
}

// Skips spaces at the back, eight at a time. Some may be left.
fn skip_many_back(text: &[u8]) -> &[u8]
    ensures { trimmed_back result.now ≡ trimmed_back text.now }
{
    let mut rest = text;
    while let Some((front, bytes)) = rest.split_last_chunk::<8>() {
        if !is_word(bytes, SPACES) {
            break;
        }
        rest = front;
    }
    rest
}

/// Returns the text without the spaces (byte 20 hexadecimal) at its front.
pub fn trim_spaces_start(text: &[u8]) -> &[u8]
    ensures { result.now ≡ skip_spaces text.now }
{
    let mut rest = skip_many(text, SPACES);
    while let Some((b' ', tail)) = rest.split_first() {
        rest = tail;
    }
    rest
}

/// Returns the text without the spaces (byte 20 hexadecimal) at its back.
pub fn trim_spaces_end(text: &[u8]) -> &[u8]
    ensures { result.now ≡ trimmed_back text.now }
{
    let mut rest = skip_many_back(text);
    while let Some((b' ', front)) = rest.split_last() {
        rest = front;
    }
    rest
}

/// Returns the text without the spaces (byte 20 hexadecimal) at both ends. Keeps other white space.
pub fn trim_spaces(text: &[u8]) -> &[u8]
    ensures { result.now ≡ trimmed text.now }
{
    trim_spaces_end(trim_spaces_start(text))
}
