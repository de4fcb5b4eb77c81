//! The bearer token that authorizes a fetch.
ghost use Rattle.std.specs.Prelude.{◌≡◌, ◌↔◌, IfOk, IfSome, IsTrue, length, take};
ghost use Rattle.cmd_node.specs.Tokens.{first_line, IsToken, IsTokenOf, token_reach};

use feed_console::read_front;
use std::alloc::{AllocError, Global};
use std::io;
use std::io::Read;
use std::marker::Model;

// The fewest bytes of a token and the most, and how many bytes of a file are read for it.
const FEWEST: usize = 16;

const MOST: usize = 4_096;

const REACH: usize = 65_536;

/// A token: 16 to 4,096 bytes of visible ASCII, which include all bytes of a token of RFC 6750, section 2.1.
#[derive(Drop)]
pub struct Token {
    text: Vec<u8>,
}

impl Model for Token {
    ghost use Rattle.std.specs.Prelude.{List, ℕ};
    ghost use Rattle.cmd_node.specs.Tokens.{IsToken};

    ghost Value = { List ℕ };

    ghost view = { λ token. token.text.items };

    ghost invariant = { λ token. IsToken token.text.items };
}

impl Token {
    /// Returns the first line of a file, if that is a token.
    pub fn read<R: Read>(alloc: Global, file: &mut R) -> io::Result<Option<Token>>
        ensures { IfSome (R.remaining file.old) (λ given. IfOk result (IsTokenOf (take token_reach given))) }
    {
        let bytes = read_front(alloc, file, REACH)?;
        Ok(token_in(alloc, &bytes)?)
    }

    /// Returns its bytes.
    pub fn text(&self) -> &[u8]
        ensures { result.now ≡ self.now }
    {
        &self.text
    }
}

fn token_in(alloc: Global, bytes: &[u8]) -> Result<Option<Token>, AllocError>
    ensures { IfOk result (IsTokenOf bytes.now) }
{
    let line = bytes[..line_len(bytes)].trim_ascii_end();
    if !is_token(line) {
        return Ok(None);
    }
    let text = Vec::from_slice(alloc, line)?;
    Ok(Some(Token { text }))
}

// Returns the length of the first line, with the white space at its end.
fn line_len(bytes: &[u8]) -> usize
    ensures { result ≡ length (first_line bytes.now) }
{
    bytes.iter().take_while(|byte| **byte != b'\n').count()
}

fn is_token(line: &[u8]) -> bool
    ensures { IsTrue result ↔ IsToken line.now }
{
    FEWEST <= line.len() && line.len() <= MOST && line.iter().all(|byte| byte.is_ascii_graphic())
}
