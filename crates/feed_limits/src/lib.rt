//! The limits that all crates of a feed share, with their numbers for contracts in `specs/Limits.antt`. No standard
//! sets them.
#![tactic(auto)]

/// The most bytes that a file may have: 256 MiB.
pub const FILE_LIMIT: usize = 268_435_456;

/// The most bytes that a piece, and so a stored part, may have: 1 MiB. It has at least one.
pub const PIECE_LIMIT: usize = 1_048_576;

/// The most releases that a feed records, over all packages.
pub const RELEASE_LIMIT: usize = 256;
