//! The version, the settings, the site file and the holdings file of a node, on which its responses depend, and the
//! tags that follow.
ghost use Rattle.std.specs.Prelude.{◌≡◌, IfErr, IfOk, OnErr, OnOk};
ghost use Rattle.std.specs.Fmt.{decimal};
ghost use Rattle.node_response.specs.Tags.{digest_of_digests, entity_tag, inputs_of, kind_and_day};
ghost use Rattle.node_response.specs.Tags.{message_of, quoted_hex, source_digest};
ghost use Rattle.sha2.specs.Sha256.{sha256};

use crate::day_digests::{DayDigests, digest_on};
use crate::digested::Digested;
use crate::digested_holdings::{DigestedHoldings, DigestedReading};
use crate::digested_pieces::DigestedPieces;
use feed_answer::Today;
use node_request::Representation;
use node_site::{HoldingsFault, SiteFault, SiteFile};
use sha2::{Digest, Sha256};
use std::alloc::{AllocError, Global};
use std::io::Write;
use std::marker::Model;

/// The version of the program, the settings and the site file of a library, on which the responses of a node depend
/// beside its releases and the day. They stay the same while a node runs. Of the releases it keeps only a digest, since
/// a node may have many sites.
#[derive(Drop)]
pub struct Site {
    version: Digested,
    /// The settings as a text.
    settings: Digested,
    /// The bytes of the site file.
    file: Digested,
    /// The settings of the library in it, with the holdings file that it names.
    library: SiteFile,
    /// The digest of the holdings file.
    listing: [u8; 32],
    /// The digest of the text about the releases for which the tags are prepared.
    releases: [u8; 32],
    /// The digest of the digests of all five.
    source: [u8; 32],
    /// The digests of the tags of a day, if they are kept.
    kept: Option<DayDigests>,
    /// For how many seconds a cache may use a response without asking again; 0 if it always has to ask.
    max_age: u32,
}

impl Model for Site {
    ghost use Rattle.std.specs.Prelude.{◌≡◌};
    ghost use Rattle.std.specs.Fmt.{decimal};
    ghost use Rattle.sha2.specs.Sha256.{sha256};
    ghost use Rattle.node_response.specs.Tags.{SiteValue, digest_of_digests};
    ghost use Rattle.node_response.specs.DayDigests.{AreDigestsOf};

    ghost Value = { SiteValue };

    ghost view = { λ s. record { version = s.version; max_age = s.max_age; file = s.file; library = s.library } };

    ghost invariant = { λ s. (s.settings ≡ decimal s.max_age) × ((s.listing ≡ sha256 s.library.listing)
        × ((s.source ≡ digest_of_digests s.version s.settings s.file s.listing s.releases)
        × AreDigestsOf s.source s.kept)) };
}

fn decimal(alloc: Global, number: u32) -> Result<Vec<u8>, AllocError>
    ensures { IfOk result (λ text. text.items ≡ decimal number) }
{
    let mut text = Vec::new(alloc);
    match write!(&mut text, "{number}") {
        Ok(()) => Ok(text),
        Err(_) => Err(AllocError),
    }
}

// Returns the digest of the digests of five texts. The last two are given as digests.
fn digest_of_digests(
    version: &Digested,
    settings: &Digested,
    file: &Digested,
    listing: &[u8; 32],
    releases: &[u8; 32],
) -> [u8; 32]
    ensures { result ≡ digest_of_digests version.now settings.now file.now listing.now releases.now }
{
    let mut hasher = Sha256::new();
    hasher.update(version.digest().as_slice());
    hasher.update(settings.digest().as_slice());
    hasher.update(file.digest().as_slice());
    hasher.update(listing.as_slice());
    hasher.update(releases.as_slice());
    hasher.finalize()
}

fn quoted_hex(alloc: Global, digest: &[u8]) -> Result<Vec<u8>, AllocError>
    ensures { IfOk result (λ text. text.items ≡ quoted_hex digest.now) }
{
    let digits = hex::encode(alloc, digest)?;
    let mut text = Vec::new(alloc);
    text.push(b'"')?;
    text.extend_from_slice(digits.as_bytes())?;
    text.push(b'"')?;
    Ok(text)
}

impl Site {
    ghost use Rattle.node_site.specs.HoldingsFaults.{IsHoldingsFault, IsHoldingsFile};
    ghost use Rattle.node_site.specs.Reading.{IsSiteFault};
    ghost use Rattle.node_response.specs.Tags.{IsSiteWith, with_listing};

    /// Begins with the version of the program, for how many seconds a cache may use a response without asking again,
    /// and the bytes of the site file, which are none if there is no such file.
    ///
    /// # Errors
    ///
    /// The bytes are not a site file, or an allocation fails.
    pub fn read(
        alloc: Global,
        version: &[u8],
        max_age: u32,
        file: Vec<u8>,
    ) -> Result<Site, SiteFault>
        ensures read { IfOk result (IsSiteWith version.now max_age file.items) }
        ensures refused { IfErr result (IsSiteFault file.items) }
    {
        let library = match SiteFile::read(alloc, &file) {
            Ok(library) => library,
            Err(fault) => return Err(fault),
        };
        match Site::with(alloc, version, max_age, file, library) {
            Ok(site) => Ok(site),
            Err(_) => Err(SiteFault::Memory),
        }
    }

    fn with(
        alloc: Global,
        version: &[u8],
        max_age: u32,
        file: Vec<u8>,
        library: SiteFile,
    ) -> Result<Site, AllocError>
        ensures { IfOk result (λ site. site ≡ record {
          version = version.now;
          max_age = max_age;
          file = file.items;
          library = library;
        }) }
    {
        let settings = Digested::new(decimal(alloc, max_age)?);
        let version = Digested::new(Vec::from_slice(alloc, version)?);
        let file = Digested::new(file);
        let releases = Sha256::digest(b"");
        let listing = Sha256::digest(library.listing());
        let source = digest_of_digests(&version, &settings, &file, &listing, &releases);
        Ok(Site {
            version,
            settings,
            file,
            library,
            listing,
            releases,
            source,
            kept: None,
            max_age,
        })
    }

    /// Reads the holdings file that the site file names. The tags depend on its bytes.
    ///
    /// # Errors
    ///
    /// The bytes are not a holdings file, or an allocation fails. The site is as before then.
    pub fn read_holdings(&mut self, alloc: Global, bytes: Vec<u8>) -> Result<(), HoldingsFault>
        ensures read { OnOk result (IsHoldingsFile bytes.items) }
        ensures listed { OnOk result (self.new ≡ with_listing bytes.items self.old) }
        ensures refused { IfErr result (IsHoldingsFault bytes.items) }
        ensures same { OnErr result (self.new ≡ self.old) }
    {
        let reading = match DigestedReading::begin(alloc, bytes) {
            Ok(reading) => reading,
            Err(fault) => return Err(fault),
        };
        match reading.finish(alloc) {
            Ok(holdings) => {
                self.set_holdings(holdings);
                Ok(())
            }
            Err(fault) => Err(fault),
        }
    }

    /// Sets the holdings file that the site file names. The tags depend on its bytes.
    pub fn set_holdings(&mut self, holdings: DigestedHoldings)
        ensures { self.new ≡ with_listing holdings self.old }
    {
        let DigestedHoldings { file, digest } = holdings;
        self.library.set_holdings(file);
        self.kept = None;
        self.listing = digest;
        self.source = digest_of_digests(
            &self.version,
            &self.settings,
            &self.file,
            &self.listing,
            &self.releases,
        );
    }

    /// Returns what the site file says.
    pub fn library(&self) -> &SiteFile
        ensures { result.now ≡ self.now.library }
    {
        &self.library
    }

    /// Prepares the tags for a text about the releases. Changes no tag.
    pub fn keep_releases(&mut self, releases: &DigestedPieces)
        ensures { self.new ≡ self.old }
    {
        let source = self.source_with(releases);
        self.kept = None;
        self.releases = *releases.digest();
        self.source = source;
    }

    /// Keeps the digests of a day's tags, for the releases that the tags are prepared for. Changes no tag.
    ///
    /// # Errors
    ///
    /// Running out of memory, after which each response computes its own.
    pub fn keep_day(&mut self, alloc: Global, today: &Today) -> Result<(), AllocError>
        ensures { self.new ≡ self.old }
    {
        self.kept = Some(DayDigests::new(alloc, &self.source, today)?);
        Ok(())
    }

    // Returns the digest of what the responses depend on, of a representation and of a day. Computes it only if it is
    // not kept.
    fn day_digest(
        &self,
        alloc: Global,
        source: &[u8; 32],
        today: &Today,
        representation: Representation,
    ) -> Result<[u8; 32], AllocError>
        ensures { IfOk result (λ digest. digest
            ≡ sha256 (message_of source.now (kind_and_day representation today.now.day))) }
    {
        match &self.kept {
            Some(kept) if kept.day == today.day() && *source == self.source => {
                Ok(kept.of(representation))
            }
            _ => digest_on(alloc, source, today, representation),
        }
    }

    // Returns the digest of what the responses depend on, with a text about the releases. Computes it only if the tags
    // are prepared for another text.
    fn source_with(&self, releases: &DigestedPieces) -> [u8; 32]
        ensures { result
            ≡ source_digest self.now.version (decimal self.now.max_age) self.now.file self.now.library.listing
            releases.now }
    {
        if *releases.digest() == self.releases {
            return self.source;
        }
        digest_of_digests(
            &self.version,
            &self.settings,
            &self.file,
            &self.listing,
            releases.digest(),
        )
    }

    /// Returns for how many seconds a cache may use a response without asking again.
    pub fn max_age(&self) -> u32
        ensures { result ≡ self.now.max_age }
    {
        self.max_age
    }

    /// Returns the entity tag of a representation that this text about the active releases determines on a day.
    ///
    /// # Errors
    ///
    /// Running out of memory.
    pub fn tag(
        &self,
        alloc: Global,
        today: &Today,
        releases: &DigestedPieces,
        representation: Representation,
    ) -> Result<Vec<u8>, AllocError>
        ensures { IfOk result (λ tag. tag.items
            ≡ entity_tag (inputs_of self.now today.now releases.now representation)) }
    {
        let source = self.source_with(releases);
        let digest = self.day_digest(alloc, &source, today, representation)?;
        quoted_hex(alloc, &digest)
    }
}
