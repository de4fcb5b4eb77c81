//! The sum of the bytes of a file, from its front on, as they arrive.
ghost use Rattle.std.specs.Prelude.{◌≡◌, ◌↔◌, ◌≤◌, ◌+◌, ℕ, List, [], length, IsTrue};
ghost use Rattle.sha2.specs.Sha256.{sha256};
ghost use Rattle.node_file_checks.specs.RowCounts.{seen_with};
ghost use Rattle.node_file_checks.specs.FileChecks.{HasSeen, MayTake};

use sha2::{Digest, Sha256};

/// The SHA-256 digest of the bytes of a file that have arrived, up to the first that has not.
#[derive(Drop)]
pub struct FrontSum {
    pub(crate) hasher: Sha256,
    pub(crate) count: u64,
}

impl FrontSum {
    /// Begins before the first byte.
    pub fn new() -> FrontSum
        ensures { HasSeen result [] }
    {
        FrontSum {
            hasher: Sha256::new(),
            count: 0,
        }
    }

    /// Returns the number of bytes.
    pub fn count(&self) -> u64
        ensures { (seen : List ℕ) → HasSeen self.now seen → result ≡ length seen }
    {
        self.count
    }

    // Adds the bytes from the place `first` to before `end` that are behind those that arrived before.
    fn add(&mut self, first: u64, end: u64, bytes: &[u8])
        requires { end ≡ first + length bytes.now }
        ensures { (seen : List ℕ) → HasSeen self.old seen → first ≤ length seen
            → HasSeen self.new (seen_with seen first bytes.now) }
    {
        if end > self.count {
            let known = self.count.saturating_sub(first) as usize;
            self.hasher.update(&bytes[known..]);
            self.count = end;
        }
    }

    fn has_sum(&self, sum: &[u8; 32]) -> bool
        ensures { (seen : List ℕ) → HasSeen self.now seen → IsTrue result ↔ (sha256 seen ≡ sum.now) }
    {
        match self.hasher.clone() {
            Ok(hasher) => hasher.finalize() == *sum,
            Err(_) => false,
        }
    }

    /// Adds the bytes of a file of this length from the place `first` on, before they are submitted. Returns whether
    /// they may be: none before them is missing, they are inside the file, and if it ends with them it has this sum.
    pub fn may_take(&mut self, first: u64, bytes: &[u8], size: u64, sum: &[u8; 32]) -> bool
        ensures seen { (seen : List ℕ) → HasSeen self.old seen → IsTrue result
            → HasSeen self.new (seen_with seen first bytes.now) }
        ensures allowed { (seen : List ℕ) → HasSeen self.old seen
            → IsTrue result ↔ MayTake seen first bytes.now size sum.now }
    {
        let Some(end) = first.checked_add(bytes.len() as u64) else {
            return false;
        };
        if first > self.count || end > size {
            return false;
        }
        self.add(first, end, bytes);
        self.count < size || self.has_sum(sum)
    }
}
