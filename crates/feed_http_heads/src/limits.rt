//! The limits of heads, with their numbers for contracts in `specs/Limits.antt`.

/// The most bytes of a request's head, and of all heads of a response together.
pub const HEAD_LIMIT: usize = 8_192;

/// The most fields of a head.
pub const FIELD_LIMIT: usize = 64;
