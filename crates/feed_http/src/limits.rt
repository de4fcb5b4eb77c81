//! The limits of bodies and chunks, with their numbers for contracts in `specs/Limits.antt`; heads have theirs in
//! `feed_http_heads`.

pub(crate) const CHUNK_LINE_LIMIT: usize = 1_024;

pub(crate) const HOST_LIMIT: usize = 255;
