//! One statement of `embargo_info`: its type, its length and its unit.
ghost use Rattle.std.specs.Prelude.{◌≡◌, ◌<◌, ◌-◌, IfSome, length, slice_index, slice_range};
ghost use Rattle.feed_answer.specs.Form.{length_of, span_of, statement_of, typed};

use crate::wall::Span;
use feed_bytes::read_number;

/// One statement of `embargo_info`.
#[derive(Clone, Copy)]
pub(crate) enum Statement {
    /// Type R, the beginning of access.
    Begins(Span),
    /// Type P, the end of access.
    Ends(Span),
}

// The length: one to nine digits that are not all 0.
fn length_of(digits: &[u8]) -> Option<u32>
    ensures { result ≡ length_of digits.now }
{
    if digits.len() > 9 {
        return None;
    }
    match read_number(digits)? {
        0 => None,
        number => Some(number as u32),
    }
}

fn span_of(length: u32, unit: u8) -> Option<Span>
    ensures { result ≡ span_of length unit }
{
    match unit {
        b'D' | b'd' => Some(Span::Days(length)),
        b'M' | b'm' => Some(Span::Months(length)),
        b'Y' | b'y' => Some(Span::Years(length)),
        _ => None,
    }
}

fn typed(kind: u8, span: Span) -> Option<Statement>
    ensures { result ≡ typed kind span }
{
    match kind {
        b'R' | b'r' => Some(Statement::Begins(span)),
        b'P' | b'p' => Some(Statement::Ends(span)),
        _ => None,
    }
}

/// Parses a statement: `R` or `P`, a length and `D`, `M` or `Y`, in any case. Does not trim.
pub(crate) fn read_statement(text: &[u8]) -> Option<Statement>
    ensures { result ≡ statement_of text.now }
{
    if text.len() < 3 {
        return None;
    }
    let end = text.len() - 1;
    let length = length_of(&text[1..end])?;
    let span = span_of(length, text[end])?;
    typed(text[0], span)
}
