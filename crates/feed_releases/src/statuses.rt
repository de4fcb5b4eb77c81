//! The status of each recorded release: its state, its size and how many bytes of it are missing.
ghost use Rattle.std.specs.Prelude.{◌≡◌, IfOk, map};
ghost use Rattle.feed_releases.specs.ReleaseValue.{content_of};
ghost use Rattle.feed_releases.specs.Statuses.{status_of};

use crate::release::Release;
use feed_kbart::BadFile;
use feed_model::State;
use feed_names::ReleaseName;
use std::alloc::{AllocError, Global};
use std::io;
use std::io::Write;
use std::marker::Model;

/// The status of a recorded release.
#[derive(Debug, Drop)]
pub struct ReleaseStatus<'a> {
    pub name: &'a ReleaseName,
    /// The size of the file, in bytes.
    pub size: u64,
    pub state: State,
    /// The number of bytes that are not stored.
    pub missing: u64,
    /// Why the file of a broken release is bad.
    pub reason: Option<BadFile>,
}

impl<'a> Model for ReleaseStatus<'a> {
    ghost use Rattle.feed_releases.specs.Statuses.{StatusValue};

    ghost Value = { StatusValue };

    ghost view = { λ s. record {
      name = s.name.now;
      size = s.size;
      state = s.state;
      missing = s.missing;
      reason = s.reason;
    } };
}

impl<'a> ReleaseStatus<'a> {
    /// Returns the name of the state.
    pub fn state_name(&self) -> &'static str {
        match self.state {
            State::Staged => "staged",
            State::Active => "active",
            State::Broken => "broken",
        }
    }

    /// Writes a line with the name, the state, the size, the number of missing bytes, and the reason of a broken
    /// release, with a tab between each two.
    pub fn write_line<W: Write>(&self, out: &mut W) -> io::Result<()> {
        let state = self.state_name();
        let size = self.size;
        let missing = self.missing;
        out.write_all(self.name.text())?;
        write!(out, "\t{state}\t{size}\t{missing}")?;
        if let Some(why) = self.reason {
            write!(out, "\t{why}")?;
        }
        writeln!(out)
    }
}

fn status_of(release: &Release) -> ReleaseStatus<'_>
    ensures { result ≡ status_of release.now.kept }
{
    ReleaseStatus {
        name: release.name(),
        size: release.size(),
        state: release.state(),
        missing: release.missing(),
        reason: release.reason(),
    }
}

/// Returns the statuses of releases, in their order.
pub(crate) fn statuses_of(
    alloc: Global,
    releases: &[Release],
) -> Result<Vec<ReleaseStatus<'_>>, AllocError>
    ensures { IfOk result (λ statuses. statuses.items ≡ map status_of (content_of releases.now)) }
{
    let mut statuses = Vec::new(alloc);
    for release in releases {
        statuses.push(status_of(release))?;
    }
    Ok(statuses)
}
