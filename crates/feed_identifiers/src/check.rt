//! Digits and check characters of ISSNs and ISBNs: the sums that they make, and an X that counts as ten.
ghost use Rattle.std.specs.Prelude.{◌≡◌, ◌-◌, ◌<◌, ◌≤◌, length, true};
ghost use Rattle.std.specs.Char.{is_ascii_digit};
ghost use Rattle.std.specs.List.{list_all};
ghost use Rattle.std.specs.Str.Parse.{digits_value};
ghost use Rattle.feed_identifiers.specs.Check.{capital, check_value, is_check, is_check_of, is_x, weighted_sum};

// Returns whether a character is an x of either case.
fn is_x(check: u8) -> bool
    ensures { result ≡ is_x check }
{
    check == b'X' || check == b'x'
}

// Returns whether a character is a digit or an x.
fn is_check(check: u8) -> bool
    ensures { result ≡ is_check check }
{
    check.is_ascii_digit() || is_x(check)
}

// Returns the value of a digit.
fn digit_value(digit: u8) -> u32
    ensures value { result ≡ digit - 48 }
    ensures small { result ≤ 255 }
{
    digit.saturating_sub(b'0') as u32
}

// Returns the value of a check character: an x counts as ten.
fn check_value(check: u8) -> u32
    ensures value { result ≡ check_value check }
    ensures small { result ≤ 255 }
{
    if is_x(check) { 10 } else { digit_value(check) }
}

/// Returns a check character as it is printed, with a capital X.
pub(crate) fn capital(check: u8) -> u8
    ensures { result ≡ capital check }
{
    if is_x(check) { b'X' } else { check }
}

/// Returns whether all characters are digits.
pub(crate) fn are_digits(characters: &[u8]) -> bool
    ensures { result ≡ list_all is_ascii_digit characters.now }
{
    characters
        .iter()
        .all(|character| character.is_ascii_digit())
}

/// Returns the sum of the values of digits, each multiplied by the weight at its place.
pub(crate) fn weighted_sum(weights: &[u8], digits: &[u8]) -> u32
    requires weights { length digits.now ≤ length weights.now }
    requires few { length digits.now ≤ 12 }
    ensures sum { result ≡ weighted_sum weights.now digits.now }
    ensures small { result < 1000000 }
{
    let mut sum = 0;
    for (place, digit) in digits.iter().enumerate() {
        sum += weights[place] as u32 * digit_value(*digit);
    }
    sum
}

/// Returns whether a character is the check character of the digits before it: their weighted sum, in which the check
/// character has the weight 1, is divisible by 11.
pub(crate) fn is_check_of(weights: &[u8], digits: &[u8], check: u8) -> bool
    requires weights { length digits.now ≤ length weights.now }
    requires few { length digits.now ≤ 12 }
    ensures { result ≡ is_check_of weights.now digits.now check }
{
    are_digits(digits)
        && is_check(check)
        && (weighted_sum(weights, digits) + check_value(check)) % 11 == 0
}

/// Returns the number that at most nine digits form.
pub(crate) fn number_of_digits(digits: &[u8]) -> u32
    requires few { length digits.now ≤ 9 }
    requires digits { list_all is_ascii_digit digits.now ≡ true }
    ensures { result ≡ digits_value 10 digits.now }
{
    let mut number = 0;
    for digit in digits {
        number = 10 * number + digit_value(*digit);
    }
    number
}
