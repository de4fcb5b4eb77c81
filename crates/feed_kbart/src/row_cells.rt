//! The cells of a row, and the values that they have.
ghost use Rattle.std.specs.Prelude.{◌≡◌};

use crate::coverage::{read_days, read_kind, read_volumes};
use crate::identifiers::Kind;
use crate::stored_text::split_text;
use feed_identifiers::Identifier;

/// The cells of a row, in the order in which they are stored. The identifiers, the publication type, the dates and the
/// volumes have no spaces at their ends. The other cells are as in the file. The cell of an absent column is empty.
#[derive(Clone, Copy, Debug, PartialEq, Eq)]
pub struct RowCells<'a> {
    pub print_identifier: &'a [u8],
    pub online_identifier: &'a [u8],
    pub publication_type: &'a [u8],
    pub date_first_issue_online: &'a [u8],
    pub date_last_issue_online: &'a [u8],
    pub num_first_vol_online: &'a [u8],
    pub num_last_vol_online: &'a [u8],
    pub title_id: &'a [u8],
    pub title_url: &'a [u8],
    pub publication_title: &'a [u8],
    pub coverage_depth: &'a [u8],
    pub embargo_info: &'a [u8],
    pub access_type: &'a [u8],
}

impl RowCells<'_> {
    ghost use Rattle.feed_kbart.specs.Identifiers.{kind};
    ghost use Rattle.feed_kbart.specs.Labels.{label_count};
    ghost use Rattle.feed_kbart.specs.RowCells.{content_of, in_order};
    ghost use Rattle.feed_kbart.specs.Stored.{texts_in};

    /// Returns the texts at the front of bytes as cells.
    #[inline(always)]
    #[tactic(auto, unfolding(crate::specs::Stored::texts_in))]
    pub(crate) fn of_texts(bytes: &[u8]) -> RowCells<'_>
        ensures { in_order result ≡ texts_in label_count bytes.now }
    {
        let (print_identifier, rest) = split_text(bytes);
        let (online_identifier, rest) = split_text(rest);
        let (publication_type, rest) = split_text(rest);
        let (date_first_issue_online, rest) = split_text(rest);
        let (date_last_issue_online, rest) = split_text(rest);
        let (num_first_vol_online, rest) = split_text(rest);
        let (num_last_vol_online, rest) = split_text(rest);
        let (title_id, rest) = split_text(rest);
        let (title_url, rest) = split_text(rest);
        let (publication_title, rest) = split_text(rest);
        let (coverage_depth, rest) = split_text(rest);
        let (embargo_info, rest) = split_text(rest);
        let (access_type, _rest) = split_text(rest);
        RowCells {
            print_identifier,
            online_identifier,
            publication_type,
            date_first_issue_online,
            date_last_issue_online,
            num_first_vol_online,
            num_last_vol_online,
            title_id,
            title_url,
            publication_title,
            coverage_depth,
            embargo_info,
            access_type,
        }
    }

    /// Returns whether the row is a serial's or a book's.
    pub fn kind(&self) -> Kind
        ensures { result ≡ kind (content_of self.now).identifiers }
    {
        read_kind(self.publication_type).unwrap_or(Kind::Serial)
    }

    /// Returns the ISSN of a serial's `print_identifier` or the ISBN of a book's, if it is valid.
    pub fn print(&self) -> Option<Identifier>
        ensures { result ≡ (content_of self.now).identifiers.print }
    {
        self.kind().identifier(self.print_identifier)
    }

    /// Returns the ISSN of a serial's `online_identifier` or the ISBN of a book's, if it is valid.
    pub fn online(&self) -> Option<Identifier>
        ensures { result ≡ (content_of self.now).identifiers.online }
    {
        self.kind().identifier(self.online_identifier)
    }

    /// Returns the first day of `date_first_issue_online`, counted from 1970-01-01, or `None` if coverage has no
    /// beginning.
    pub fn first_day(&self) -> Option<i32>
        ensures { result ≡ (content_of self.now).first_day }
    {
        if self.kind() == Kind::Book {
            return None;
        }
        let days = read_days(self.date_first_issue_online)?;
        Some(days.first)
    }

    /// Returns the last day of `date_last_issue_online`, counted from 1970-01-01, or `None` if coverage extends to the
    /// present (NISO RP-9-2014).
    pub fn last_day(&self) -> Option<i32>
        ensures { result ≡ (content_of self.now).last_day }
    {
        if self.kind() == Kind::Book {
            return None;
        }
        let days = read_days(self.date_last_issue_online)?;
        Some(days.last)
    }

    /// Returns the numbers of `num_first_vol_online` and `num_last_vol_online`, each at most 999,999,999. Neither
    /// counts if the first exceeds the last.
    pub fn volumes(&self) -> (Option<u32>, Option<u32>)
        ensures { result ≡ ((content_of self.now).first_volume, (content_of self.now).last_volume) }
    {
        if self.kind() == Kind::Book {
            return (None, None);
        }
        read_volumes(self.num_first_vol_online, self.num_last_vol_online)
    }
}
