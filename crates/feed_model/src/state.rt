//! The state of a release.

/// The state of a release in its package.
#[derive(Clone, Copy, Debug, PartialEq, Eq)]
pub enum State {
    /// Places of its file are missing.
    Staged,
    /// Its file is complete and bad.
    Broken,
    /// Its file is complete and good, and queries of its package are answered from it.
    Active,
}
