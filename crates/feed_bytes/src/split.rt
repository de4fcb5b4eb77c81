//! Splitting a field value: its prefix, the texts around a byte, and numbers.
ghost use Rattle.std.specs.Prelude.{◌≡◌, ◌==◌, All, false, IfNone, IfSome, IsTrue, option_copied};
ghost use Rattle.std.specs.Char.{is_ascii_digit};
ghost use Rattle.std.specs.List.{list_all, position};
ghost use Rattle.std.specs.Option.{option_map};
ghost use Rattle.std.specs.Str.Parse.{digits_value};
ghost use Rattle.feed_bytes.specs.Split.{strip_prefix, split_once, is_number, number_of, in_64_bits, number_in_64_bits};
ghost use Rattle.feed_bytes.specs.Split.{capped_number};
ghost use Rattle.feed_bytes.specs.Parts.{IsFirstPart, IsOnePart};

/// Returns the text after a leading prefix, ignoring case.
pub fn strip_prefix<'a>(text: &'a [u8], prefix: &[u8]) -> Option<&'a [u8]>
    ensures { option_copied result ≡ strip_prefix prefix.now text.now }
{
    let (front, rest) = text.split_at_checked(prefix.len())?;
    front.eq_ignore_ascii_case(prefix).then_some(rest)
}

fn place_of(text: &[u8], byte: u8) -> Option<usize>
    ensures value { result ≡ position (λ other. other == byte) text.now }
    ensures none { IfNone result (All (λ other. (other == byte) ≡ false) text.now) }
{
    text.iter().position(|other| *other == byte)
}

/// Returns the texts before and after the first such byte.
pub fn split_once(text: &[u8], byte: u8) -> Option<(&[u8], &[u8])>
    ensures value { option_map (λ parts. (parts.0.now, parts.1.now)) result ≡ split_once byte text.now }
    ensures parts { IfSome result (λ parts. IsFirstPart byte text.now parts.0.now parts.1.now) }
    ensures whole { IfNone result (IsOnePart byte text.now) }
{
    match place_of(text, byte) {
        Some(place) => Some((&text[..place], &text[place + 1..])),
        None => None,
    }
}

fn has_digits_alone(text: &[u8]) -> bool
    ensures { result ≡ list_all is_ascii_digit text.now }
{
    text.iter().all(|byte| byte.is_ascii_digit())
}

/// Returns whether the text is a number: one digit or more.
pub fn is_number(text: &[u8]) -> bool
    ensures { result ≡ is_number text.now }
{
    !text.is_empty() && has_digits_alone(text)
}

/// Returns the number that the digits denote, or `None` past 64 bits.
pub fn parse_number(digits: &[u8]) -> Option<u64>
    requires { IsTrue (is_number digits.now) }
    ensures { result ≡ in_64_bits (digits_value 10 digits.now) }
{
    let Ok(text) = str::from_utf8(digits) else {
        return None;
    };
    text.parse().ok()
}

/// Returns the number that the digits of the text denote, or `None` if the text is not a number or does not fit in 64
/// bits.
pub fn read_number(text: &[u8]) -> Option<u64>
    ensures { result ≡ number_in_64_bits text.now }
{
    if !is_number(text) {
        return None;
    }
    parse_number(text)
}

/// Returns the number that the text denotes, if it is one. A number past 64 bits counts as the greatest that fits.
pub fn read_capped(text: &[u8]) -> Option<u64>
    ensures { result ≡ option_map capped_number (number_of text.now) }
{
    if !is_number(text) {
        return None;
    }
    Some(parse_number(text).unwrap_or(u64::MAX))
}
