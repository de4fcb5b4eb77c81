//! `ReleaseName`, a validated file name of the form `PACKAGE_YYYY-MM-DD.txt`.
ghost use Rattle.std.specs.Prelude.{◌≡◌, ◌↔◌, ℕ, ℤ, List, MatchOption, IsTrue, IfOk, IfErr};
ghost use Rattle.feed_names.specs.ReleaseName.{EndsInDate, IsEarlier, IsName, IsNameFault, IsPackageName};
ghost use Rattle.feed_names.specs.ReleaseName.{is_package_byte, text_of};

use feed_dates::{day_numbers_fit, one_date_for_day, read_date};
use std::alloc::{AllocError, Global};
use std::marker::Model;
use thiserror::Error;

// The length of `_` and the date, without and with `.txt`.
const DATE_LENGTH: usize = 11;

const TAIL_LENGTH: usize = 15;

const LONGEST_PACKAGE: usize = 100;

/// The name of a release, such as `Acme_Global_All_2024-01-01.txt`: the package, `_`, the release's day and `.txt`. The
/// text before the last `_` is not interpreted. It is the key of the package.
#[derive(Debug, Drop)]
pub struct ReleaseName {
    text: Vec<u8>,
    day: i32,
}

impl Model for ReleaseName {
    ghost use Rattle.std.specs.Prelude.{◌-◌, take, length};
    ghost use Rattle.feed_names.specs.ReleaseName.{Name, IsName};

    ghost Value = { Name };

    ghost view = { λ r. record { package_name = take (length r.text.items - 15) r.text.items; day = r.day } };

    ghost invariant = { λ r.
        let package_name = take (length r.text.items - 15) r.text.items in
        IsName r.text.items (record { package_name = package_name; day = r.day }) };
}

impl ReleaseName {
    /// Parses a name. Allocates memory for the text only, and only once the text is known to be a name.
    pub fn parse(alloc: Global, text: &[u8]) -> Result<ReleaseName, NameFault>
        ensures named { IfOk result (IsName text.now) }
        ensures refused { IfErr result (IsNameFault text.now) }
    {
        let Some(front) = text.strip_suffix(b".txt".as_slice()) else {
            return Err(NameFault::BadEnding);
        };
        let Some((package_name, day)) = split_date(front) else {
            return Err(NameFault::BadDate);
        };
        if !is_package_name(package_name) {
            return Err(NameFault::BadStem);
        }
        day_numbers_fit();
        match Vec::from_slice(alloc, text) {
            Ok(text) => Ok(ReleaseName { text, day }),
            Err(_) => Err(NameFault::Memory),
        }
    }

    /// Returns the key of the package: the bytes before `_` and the date.
    pub fn package(&self) -> &[u8]
        ensures value { result.now ≡ self.now.package_name }
        ensures package_name { IsPackageName self.now.package_name }
    {
        &self.text[..self.text.len() - TAIL_LENGTH]
    }

    /// Returns the release's day, counted from 1970-01-01. It is negative before that day.
    pub fn day(&self) -> i32
        ensures { result ≡ self.now.day }
    {
        self.day
    }

    /// Returns the name as text.
    pub fn text(&self) -> &[u8]
        ensures name { IsName result.now self.now }
        ensures value { result.now ≡ text_of self.now }
    {
        one_date_for_day();
        &self.text
    }

    /// Returns whether both are releases of one package and this one is of an earlier day.
    pub fn earlier_than(&self, other: &ReleaseName) -> bool
        ensures { IsTrue result ↔ IsEarlier self.now other.now }
    {
        self.day < other.day && self.package() == other.package()
    }

    /// Copies the name.
    pub fn try_clone(&self) -> Result<ReleaseName, AllocError>
        ensures { IfOk result (λ name. name ≡ self.now) }
    {
        Ok(ReleaseName {
            text: self.text.clone()?,
            day: self.day,
        })
    }
}

// Splits off `_` and a date at the end of a text: what precedes them, and the day of the date.
fn split_date(front: &[u8]) -> Option<(&[u8], i32)>
    ensures { MatchOption result
        ((package_name : List ℕ) (day : ℤ) → ¬ (EndsInDate front.now package_name day))
        (λ split. EndsInDate front.now split.0.now split.1) }
{
    let at = front.len().checked_sub(DATE_LENGTH)?;
    let (package_name, dated) = front.split_at(at);
    let date = dated.strip_prefix(b"_".as_slice())?;
    day_numbers_fit();
    match read_date(date) {
        Some(day) => Some((package_name, day)),
        None => None,
    }
}

fn is_package_name(package_name: &[u8]) -> bool
    ensures { IsTrue result ↔ IsPackageName package_name.now }
{
    match package_name {
        [] | [b'.', ..] => false,
        _ => package_name.len() <= LONGEST_PACKAGE
            && package_name.iter().all(|byte| is_package_byte(*byte)),
    }
}

fn is_package_byte(byte: u8) -> bool
    ensures { result ≡ is_package_byte byte }
{
    byte.is_ascii_alphanumeric() || byte == b'-' || byte == b'_' || byte == b'.'
}

/// Two names are equal if their packages and their days are equal.
impl PartialEq for ReleaseName {
    ghost use Rattle.std.proofs.Common.{rules};
    ghost use Rattle.std.specs.Cmp.Rules.{comparing};
    ghost use Rattle.feed_names.specs.ReleaseName.{name_eq};

    ghost eq = { name_eq };

    ghost laws = { Prim.search (comparing, rules) };

    fn eq(&self, other: &ReleaseName) -> bool {
        self.package() == other.package() && self.day == other.day
    }
}

impl Eq for ReleaseName {
    ghost use Rattle.std.proofs.Common.{rules};
    ghost use Rattle.std.specs.Cmp.Rules.{comparing};

    ghost laws = { Prim.search (comparing, rules) };
}

/// Why a text is not a release name. The ending is checked first, then the date, then the package_name.
#[derive(Clone, Copy, Debug, PartialEq, Eq, Error)]
pub enum NameFault {
    /// The text before `_`, the date and `.txt` is not 1 to 100 ASCII letters, digits, `-`, `_` and `.`, or it begins
    /// with `.`.
    #[error("BadStem")]
    BadStem,
    /// The text before `.txt` does not end in `_` and the date of a real day of the years 0001 to 9999.
    #[error("BadDate")]
    BadDate,
    /// The text does not end in `.txt` (lower case).
    #[error("BadEnding")]
    BadEnding,
    /// The text is a name, but there was not enough memory to store it.
    #[error("Memory")]
    Memory,
}
