//! The digests of a day's tags, one for each representation.
ghost use Rattle.std.specs.Prelude.{◌≡◌, IfOk};
ghost use Rattle.node_response.specs.Tags.{kind_and_day, kind_of, message_of};
ghost use Rattle.sha2.specs.Sha256.{sha256};

use feed_answer::Today;
use node_request::Representation;
use sha2::{Digest, Sha256};
use std::alloc::{AllocError, Global};
use std::io::Write;

/// The digests of the tags of a day. They are those of one source, which is the digest of all else that responses
/// depend on.
#[derive(Clone, Copy)]
pub(crate) struct DayDigests {
    /// The day's number, counted from 1970-01-01.
    pub(crate) day: i32,
    text: [u8; 32],
    json: [u8; 32],
    html: [u8; 32],
    fragment: [u8; 32],
    sfx: [u8; 32],
}

fn kind_of(representation: Representation) -> u8
    ensures { result ≡ kind_of representation }
{
    match representation {
        Representation::Text => b't',
        Representation::Json => b'j',
        Representation::Html => b'h',
        Representation::Fragment => b'f',
        Representation::Sfx => b'x',
    }
}

fn kind_and_day(
    alloc: Global,
    representation: Representation,
    today: &Today,
) -> Result<Vec<u8>, AllocError>
    ensures { IfOk result (λ text. text.items ≡ kind_and_day representation today.now.day) }
{
    let day = today.day();
    let mut text = Vec::new(alloc);
    text.push(kind_of(representation))?;
    match write!(&mut text, "{day}") {
        Ok(()) => Ok(text),
        Err(_) => Err(AllocError),
    }
}

fn digest_of(source: &[u8; 32], last: &[u8]) -> [u8; 32]
    ensures { result ≡ sha256 (message_of source.now last.now) }
{
    let mut hasher = Sha256::new();
    hasher.update(source.as_slice());
    hasher.update(last);
    hasher.finalize()
}

/// Returns the digest of a source, of a representation and of a day.
pub(crate) fn digest_on(
    alloc: Global,
    source: &[u8; 32],
    today: &Today,
    representation: Representation,
) -> Result<[u8; 32], AllocError>
    ensures { IfOk result (λ digest. digest
        ≡ sha256 (message_of source.now (kind_and_day representation today.now.day))) }
{
    let last = kind_and_day(alloc, representation, today)?;
    Ok(digest_of(source, last.as_slice()))
}

impl DayDigests {
    ghost use Rattle.std.specs.Prelude.{Some};
    ghost use Rattle.node_response.specs.DayDigests.{AreDigestsOf, digest_for};

    /// Computes the digests of a day.
    pub(crate) fn new(
        alloc: Global,
        source: &[u8; 32],
        today: &Today,
    ) -> Result<DayDigests, AllocError>
        ensures { IfOk result (λ digests. AreDigestsOf source.now (Some digests)) }
    {
        Ok(DayDigests {
            day: today.day(),
            text: digest_on(alloc, source, today, Representation::Text)?,
            json: digest_on(alloc, source, today, Representation::Json)?,
            html: digest_on(alloc, source, today, Representation::Html)?,
            fragment: digest_on(alloc, source, today, Representation::Fragment)?,
            sfx: digest_on(alloc, source, today, Representation::Sfx)?,
        })
    }

    /// Returns that of a representation.
    pub(crate) fn of(&self, representation: Representation) -> [u8; 32]
        ensures { result ≡ digest_for representation self.now }
    {
        match representation {
            Representation::Text => self.text,
            Representation::Json => self.json,
            Representation::Html => self.html,
            Representation::Fragment => self.fragment,
            Representation::Sfx => self.sfx,
        }
    }
}
