//! The errors of an HTTP exchange.
use thiserror::Error;

/// Why an exchange failed.
#[derive(Clone, Copy, Debug, PartialEq, Eq, Error)]
pub enum HttpFault {
    /// The reader failed.
    #[error("Read")]
    Read,
    /// The writer did not accept all bytes.
    #[error("Write")]
    Write,
    /// The head of a message is longer than 8,192 bytes, including its interim heads.
    #[error("HeadTooLong")]
    HeadTooLong,
    /// The bytes are not a head of a message, or the head has more than 64 fields.
    #[error("BadHead")]
    BadHead,
    /// The status of the response is neither a success nor one that says where the file is.
    #[error("Status {0}")]
    Status(u16),
    /// The body has a coding that is not supported, or its chunks are invalid.
    #[error("Coding")]
    Coding,
    /// The response does not state a valid length, or its body has another one.
    #[error("Length")]
    Length,
    /// The response does not state its range in exactly one Content-Range field.
    #[error("Range")]
    Range,
    /// The message is incomplete.
    #[error("Short")]
    Short,
    /// The body is longer than a file or a piece may be.
    #[error("BodyTooLong")]
    BodyTooLong,
    /// Memory ran out.
    #[error("Memory")]
    Memory,
    /// The device of the shelf failed.
    #[error("Shelf")]
    Shelf,
}
