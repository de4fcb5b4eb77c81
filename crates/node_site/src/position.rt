//! Lines and columns of a text.
ghost use Rattle.std.specs.Prelude.{◌≡◌, ◌+◌, ◌^◌, ◌<◌, length};
ghost use Rattle.node_site.specs.Positions.{begins_char, position_after, position_of};

/// A place in a text: its line, and its column in characters, both counted from 1.
#[derive(Clone, Copy, Debug, PartialEq, Eq)]
pub struct Position {
    pub line: usize,
    pub column: usize,
}

fn begins_char(byte: u8) -> bool
    ensures { result ≡ begins_char byte }
{
    byte < 128 || byte >= 192
}

fn position_after(at: Position, byte: u8) -> Position
    requires line { at.line + 1 < 2 ^ 64 }
    requires column { at.column + 1 < 2 ^ 64 }
    ensures { result ≡ position_after at byte }
{
    if byte == b'\n' {
        Position {
            line: at.line + 1,
            column: 1,
        }
    } else if begins_char(byte) {
        Position {
            line: at.line,
            column: at.column + 1,
        }
    } else {
        at
    }
}

/// Returns the position after some bytes of UTF-8.
pub(crate) fn position_of(before: &[u8]) -> Position
    requires { length before.now < 2 ^ 32 }
    ensures { result ≡ position_of before.now }
{
    let mut at = Position { line: 1, column: 1 };
    for byte in before {
        at = position_after(at, *byte);
    }
    at
}
