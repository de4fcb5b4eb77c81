//! A long text with a digest, most of which stays when little of the text changes.
ghost use Rattle.std.specs.Prelude.{◌≡◌, ◌↔◌, IfOk, IsTrue};
ghost use Rattle.node_response.specs.Pieces.{pieces_digest};

use crate::digested::Digested;
use sha2::{Digest, Sha256};
use std::alloc::{AllocError, Global};
use std::marker::Model;

/// The bytes of a piece.
const PIECE: usize = 4096;

/// A text with the digest of the digests of its pieces, which have 4,096 bytes each. The active releases of a node are
/// such a text: a switch changes one name in it, and so one piece.
#[derive(Drop)]
pub struct DigestedPieces {
    pieces: Vec<Digested>,
    digest: [u8; 32],
}

impl Model for DigestedPieces {
    ghost use Rattle.std.specs.Prelude.{◌≡◌, ℕ, List};
    ghost use Rattle.std.specs.List.{concat};
    ghost use Rattle.node_response.specs.Pieces.{digest_of_pieces, pieces_of};

    ghost Value = { List ℕ };

    ghost view = { λ p. concat p.pieces.items };

    ghost invariant = { λ p. (p.pieces.items ≡ pieces_of (concat p.pieces.items))
        × (p.digest ≡ digest_of_pieces p.pieces.items) };
}

// Returns a piece with its digest. Computes it only if another piece is known.
fn digested(alloc: Global, known: Option<&Digested>, piece: &[u8]) -> Result<Digested, AllocError>
    ensures { IfOk result (λ digested. digested ≡ piece.now) }
{
    let text = Vec::from_slice(alloc, piece)?;
    match known {
        Some(known) => Ok(known.renewed(text)),
        None => Ok(Digested::new(text)),
    }
}

impl DigestedPieces {
    ghost use Rattle.std.specs.Prelude.{[]};

    /// Begins with a text without bytes.
    pub fn new(alloc: Global) -> DigestedPieces
        ensures { result ≡ [] }
    {
        DigestedPieces {
            pieces: Vec::new(alloc),
            digest: Sha256::digest(b""),
        }
    }

    /// Returns another text. Computes the digests of the pieces that differ from those of this one.
    ///
    /// # Errors
    ///
    /// Running out of memory.
    pub fn renewed(&self, alloc: Global, text: &[u8]) -> Result<DigestedPieces, AllocError>
        ensures { IfOk result (λ renewed. renewed ≡ text.now) }
    {
        let mut pieces = Vec::new(alloc);
        let mut hasher = Sha256::new();
        for chunk in text.chunks(PIECE) {
            let piece = digested(alloc, self.pieces.get(pieces.len()), chunk)?;
            hasher.update(piece.digest().as_slice());
            pieces.push(piece)?;
        }
        Ok(DigestedPieces {
            pieces,
            digest: hasher.finalize(),
        })
    }

    /// Returns whether this is the text.
    pub fn is_of(&self, text: &[u8]) -> bool
        ensures { IsTrue result ↔ (self.now ≡ text.now) }
    {
        let mut rest = text;
        for piece in &self.pieces {
            match rest.strip_prefix(piece.text()) {
                Some(after) => rest = after,
                None => return false,
            }
        }
        rest.is_empty()
    }

    /// Returns the digest.
    pub(crate) fn digest(&self) -> &[u8; 32]
        ensures { result.now ≡ pieces_digest self.now }
    {
        &self.digest
    }
}
