//! A holdings file with its digest, and how both are made in steps that are each bounded.
ghost use Rattle.std.specs.Prelude.{◌≡◌, ◌≤◌, ◌<◌, IfErr, IfOk, OnOk, length, take};
ghost use Rattle.sha2.specs.Hashers.{Holds256};
ghost use Rattle.sha2.specs.Sha256.{sha256};
ghost use Rattle.node_site.specs.HoldingsFaults.{IsHoldingsFault, IsHoldingsFile};

use node_site::{HoldingsFault, HoldingsFile, HoldingsReading, ReadingStep};
use sha2::{Digest, Sha256};
use std::alloc::Global;
use std::marker::Model;

// How many bytes of the text a step adds to the digest.
const DIGEST_LEN: usize = 65_536;

/// A holdings file with the SHA-256 digest of its text.
#[derive(Drop)]
pub struct DigestedHoldings {
    pub(crate) file: HoldingsFile,
    pub(crate) digest: [u8; 32],
}

impl Model for DigestedHoldings {
    ghost use Rattle.std.specs.Prelude.{◌≡◌, ℕ, List};
    ghost use Rattle.sha2.specs.Sha256.{sha256};

    ghost Value = { List ℕ };

    ghost view = { λ d. d.file };

    ghost invariant = { λ d. d.digest ≡ sha256 d.file };
}

/// A holdings file that is being read. The digest of its text is computed first, and then its rows are read.
#[derive(Drop)]
pub struct DigestedReading {
    hasher: Sha256,
    // How many bytes the hasher has.
    count: usize,
    reading: HoldingsReading,
}

impl Model for DigestedReading {
    ghost use Rattle.std.specs.Prelude.{◌≤◌, ◌+◌, ◌-◌, length, take};
    ghost use Rattle.sha2.specs.Hashers.{Holds256};
    ghost use Rattle.node_site.specs.ReadingValue.{ReadingValue};

    ghost Value = { ReadingValue };

    ghost view = { λ r. record { text = r.reading.text; left = (length r.reading.text - r.count) + r.reading.left } };

    ghost invariant = { λ r. (r.count ≤ length r.reading.text) × Holds256 r.hasher (take r.count r.reading.text) };
}

/// The outcome of a step of a reading.
#[derive(Drop)]
pub enum DigestedStep {
    /// More of the file is to be read.
    More(DigestedReading),
    /// The file is read.
    Done(DigestedHoldings),
}

// Adds the next bytes of a text to its digest, and returns how many it has then.
fn add_bytes(hasher: &mut Sha256, text: &[u8], count: usize) -> usize
    requires { count < length text.now }
    ensures holds { Holds256 hasher.old (take count text.now) → Holds256 hasher.new (take result text.now) }
    ensures more { count < result }
    ensures within { result ≤ length text.now }
{
    let to = text.len().min(count.saturating_add(DIGEST_LEN));
    hasher.update(&text[count..to]);
    to
}

impl DigestedReading {
    ghost use Rattle.node_response.specs.DigestedSteps.{IsDigestedStep};

    /// Begins to read a holdings file. Its length is checked, whether it is UTF-8, and its header.
    ///
    /// # Errors
    ///
    /// The text is too long, is not UTF-8, or begins with another line.
    pub fn begin(alloc: Global, bytes: Vec<u8>) -> Result<DigestedReading, HoldingsFault>
        ensures text { IfOk result (λ reading. reading.text ≡ bytes.items) }
        ensures refused { IfErr result (IsHoldingsFault bytes.items) }
    {
        match HoldingsReading::begin(alloc, bytes) {
            Ok(reading) => Ok(DigestedReading {
                hasher: Sha256::new(),
                count: 0,
                reading,
            }),
            Err(fault) => Err(fault),
        }
    }

    /// Adds at most 65,536 bytes to the digest, or reads a bounded number of bytes or of rows.
    ///
    /// # Errors
    ///
    /// A line is not accepted or contradicts another one, or an allocation fails.
    pub fn step(self, alloc: Global) -> Result<DigestedStep, HoldingsFault>
        ensures step { IfOk result (IsDigestedStep self) }
        ensures refused { IfErr result (IsHoldingsFault self.text) }
    {
        let DigestedReading {
            mut hasher,
            count,
            reading,
        } = self;
        if count < reading.text().len() {
            let count = add_bytes(&mut hasher, reading.text(), count);
            return Ok(DigestedStep::More(DigestedReading {
                hasher,
                count,
                reading,
            }));
        }
        match reading.step(alloc) {
            Ok(ReadingStep::More(reading)) => Ok(DigestedStep::More(DigestedReading {
                hasher,
                count,
                reading,
            })),
            Ok(ReadingStep::Done(file)) => Ok(DigestedStep::Done(DigestedHoldings {
                file,
                digest: hasher.finalize(),
            })),
            Err(fault) => Err(fault),
        }
    }

    /// Makes all steps that are left.
    ///
    /// # Errors
    ///
    /// A line is not accepted or contradicts another one, or an allocation fails.
    pub(crate) fn finish(self, alloc: Global) -> Result<DigestedHoldings, HoldingsFault>
        ensures text { IfOk result (λ holdings. holdings ≡ self.text) }
        ensures read { OnOk result (IsHoldingsFile self.text) }
        ensures refused { IfErr result (IsHoldingsFault self.text) }
    {
        let mut reading = self;
        'steps: loop {
            match reading.step(alloc) {
                Ok(DigestedStep::More(next)) => reading = next,
                Ok(DigestedStep::Done(holdings)) => return Ok(holdings),
                Err(fault) => return Err(fault),
            }
        }
    }
}
