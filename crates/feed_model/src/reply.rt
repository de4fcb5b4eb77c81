//! The replies and refusals with which a feed answers an event.
use feed_kbart::BadFile;
use std::error::Error;
use std::fmt;

/// The effect of an event that a feed accepted.
#[derive(Clone, Copy, Debug, PartialEq, Eq)]
pub enum Reply {
    /// The offer is recorded.
    Noted,
    /// The release was recorded before, with the same size.
    Known,
    /// The new bytes are kept, and this many places of the file are still missing.
    Stored { missing: u64 },
    /// Every byte of the piece was kept before.
    Repeated,
    /// The file is complete and good, and its release is the active one of its package.
    Activated,
    /// The file is complete and bad.
    Broken(BadFile),
    /// A later release of the package is active.
    Older,
    /// There was nothing to do.
    Nothing,
}

impl fmt::Display for Reply {
    ghost use Rattle.std.specs.Prelude.{Some};
    ghost use Rattle.feed_model.specs.Texts.{reply_text};

    ghost output = { λ reply. Some (reply_text reply) };

    fn fmt<W: fmt::Write>(&self, f: &mut fmt::Formatter<W>) -> fmt::Result {
        match self {
            Reply::Noted => f.write_str("noted"),
            Reply::Known => f.write_str("known"),
            Reply::Stored { missing } => write!(f, "stored missing {missing}"),
            Reply::Repeated => f.write_str("repeated"),
            Reply::Activated => f.write_str("activated"),
            Reply::Broken(why) => write!(f, "broken {why}"),
            Reply::Older => f.write_str("older"),
            Reply::Nothing => f.write_str("nothing"),
        }
    }
}

/// Why a feed refused an event. A refused event has changed nothing.
#[derive(Clone, Copy, Debug, PartialEq, Eq)]
pub enum Refusal {
    /// The offered size is above the limit of a file.
    TooLarge,
    /// The release was recorded with another size.
    WrongSize,
    /// The feed already has the maximum number of releases.
    Full,
    /// The piece is empty or above the limit of a piece.
    BadPiece,
    /// The release is not recorded.
    Unknown,
    /// The piece extends past the end of the file.
    Outside,
    /// The piece differs from a kept byte.
    Conflict,
    /// Memory ran out. This replaces an answer that keeps something.
    Memory,
    /// The keeper's device failed. This replaces an answer that keeps something.
    Device,
}

impl fmt::Display for Refusal {
    ghost use Rattle.std.specs.Prelude.{Some};
    ghost use Rattle.feed_model.specs.Texts.{refusal_text};

    ghost output = { λ refusal. Some (refusal_text refusal) };

    fn fmt<W: fmt::Write>(&self, f: &mut fmt::Formatter<W>) -> fmt::Result {
        f.write_str(match self {
            Refusal::TooLarge => "TooLarge",
            Refusal::WrongSize => "WrongSize",
            Refusal::Full => "Full",
            Refusal::BadPiece => "BadPiece",
            Refusal::Unknown => "Unknown",
            Refusal::Outside => "Outside",
            Refusal::Conflict => "Conflict",
            Refusal::Memory => "Memory",
            Refusal::Device => "Device",
        })
    }
}

impl Error for Refusal {}
