//! Runs of digits and of letters at the front of a text.
ghost use Rattle.std.specs.Prelude.{◌≡◌, ◌≤◌, length};
ghost use Rattle.std.specs.Char.{is_ascii_digit};
ghost use Rattle.feed_openurl.specs.Fronts.{front_len};
ghost use Rattle.feed_openurl.specs.Volumes.{after_digits, after_letters, begins_with_digit, digits};
ghost use Rattle.feed_openurl.specs.Volumes.{is_letter, letters};

/// Returns whether a byte of a value in ASCII is a letter; `_` is one beyond ASCII.
pub(crate) fn is_letter(byte: u8) -> bool
    ensures { result ≡ is_letter byte }
{
    byte.is_ascii_alphabetic() || byte == b'_'
}

// How many digits are at the front of a text.
fn digit_count(text: &[u8]) -> usize
    ensures value { result ≡ front_len is_ascii_digit text.now }
    ensures bound { result ≤ length text.now }
{
    for place in 0..text.len() {
        if !text[place].is_ascii_digit() {
            return place;
        }
    }
    text.len()
}

// How many letters are at the front of a text.
fn letter_count(text: &[u8]) -> usize
    ensures value { result ≡ front_len is_letter text.now }
    ensures bound { result ≤ length text.now }
{
    for place in 0..text.len() {
        if !is_letter(text[place]) {
            return place;
        }
    }
    text.len()
}

/// Returns the digits at the front of a text, and the rest.
pub(crate) fn split_digits(text: &[u8]) -> (&[u8], &[u8])
    ensures digits { result.0.now ≡ digits text.now }
    ensures rest { result.1.now ≡ after_digits text.now }
{
    text.split_at(digit_count(text))
}

/// Returns the letters at the front of a text, and the rest.
pub(crate) fn split_letters(text: &[u8]) -> (&[u8], &[u8])
    ensures letters { result.0.now ≡ letters text.now }
    ensures rest { result.1.now ≡ after_letters text.now }
{
    text.split_at(letter_count(text))
}

/// Returns whether a text begins with a digit.
pub(crate) fn begins_with_digit(text: &[u8]) -> bool
    ensures { result ≡ begins_with_digit text.now }
{
    match text {
        [first, ..] => first.is_ascii_digit(),
        [] => false,
    }
}
