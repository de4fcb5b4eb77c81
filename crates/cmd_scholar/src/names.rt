//! The names of the elements, in one table. They are those of the programme's page, from memory.

/// The root element.
pub(crate) const HOLDINGS: &[u8] = b"institutional_holdings";

/// The element of a title, with its attribute, and its name alone.
pub(crate) const ITEM: &[u8] = b"item type=\"electronic\"";

pub(crate) const ITEM_END: &[u8] = b"item";

pub(crate) const TITLE: &[u8] = b"title";

pub(crate) const ISSN: &[u8] = b"issn";

pub(crate) const COVERAGE: &[u8] = b"coverage";

pub(crate) const FROM: &[u8] = b"from";

pub(crate) const TO: &[u8] = b"to";

pub(crate) const YEAR: &[u8] = b"year";

pub(crate) const MONTH: &[u8] = b"month";

pub(crate) const DAY: &[u8] = b"day";

pub(crate) const EMBARGO: &[u8] = b"embargo";

/// How many of the most recent days are hidden.
pub(crate) const HIDDEN_DAYS: &[u8] = b"days_not_available";

/// How many of the most recent days are open.
pub(crate) const OPEN_DAYS: &[u8] = b"days_available";
