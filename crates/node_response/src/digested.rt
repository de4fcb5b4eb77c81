//! A text with its digest, which is computed once.
ghost use Rattle.std.specs.Prelude.{◌≡◌};
ghost use Rattle.sha2.specs.Sha256.{sha256};

use sha2::{Digest, Sha256};
use std::marker::Model;

/// A text with its SHA-256 digest (FIPS 180-4, section 6.2).
#[derive(Drop)]
pub(crate) struct Digested {
    text: Vec<u8>,
    digest: [u8; 32],
}

impl Model for Digested {
    ghost use Rattle.std.specs.Prelude.{◌≡◌, ℕ, List};
    ghost use Rattle.sha2.specs.Sha256.{sha256};

    ghost Value = { List ℕ };

    ghost view = { λ d. d.text.items };

    ghost invariant = { λ d. d.digest ≡ sha256 d.text.items };
}

impl Digested {
    /// Computes the digest of a text.
    pub(crate) fn new(text: Vec<u8>) -> Digested
        ensures { result ≡ text.items }
    {
        let digest = Sha256::digest(text.as_slice());
        Digested { text, digest }
    }

    /// Returns another text. Computes its digest only if it differs from this one.
    pub(crate) fn renewed(&self, text: Vec<u8>) -> Digested
        ensures { result ≡ text.items }
    {
        if self.text.as_slice() == text.as_slice() {
            Digested {
                text,
                digest: self.digest,
            }
        } else {
            Digested::new(text)
        }
    }

    /// Returns the text.
    pub(crate) fn text(&self) -> &[u8]
        ensures { result.now ≡ self.now }
    {
        &self.text
    }

    /// Returns the digest.
    pub(crate) fn digest(&self) -> &[u8; 32]
        ensures { result.now ≡ sha256 self.now }
    {
        &self.digest
    }
}
