//! A value of an OpenURL, with what its key asks for.
ghost use Rattle.std.specs.Prelude.{◌≡◌, IfOk, map, option_copied};
ghost use Rattle.feed_openurl.specs.Keys.{keyed};

use crate::key::{Key, Tier};
use crate::links::number_in;
use feed_answer::Pair;
use std::alloc::{AllocError, Global};
use std::marker::Model;

/// A pair: the meaning of its key, and its value, which need not be UTF-8.
#[derive(Drop)]
pub(crate) struct Value<'a> {
    pub(crate) key: Key,
    pub(crate) text: &'a [u8],
}

impl<'a> Model for Value<'a> {
    ghost use Rattle.std.specs.Prelude.{ℕ, List};
    ghost use Rattle.feed_openurl.specs.declared.key.Key.{Key};

    ghost Value = { Key × List ℕ };

    ghost view = { λ value. (value.key, value.text.now) };
}

impl<'a> Value<'a> {
    ghost use Rattle.feed_openurl.specs.Identifiers.{number_text};
    ghost use Rattle.feed_openurl.specs.Kinds.{is_format, is_version};
    ghost use Rattle.feed_openurl.specs.Tiers.{is_date, is_volume};

    /// Returns the bytes.
    pub(crate) fn text(&self) -> &[u8]
        ensures { result.now ≡ self.now.1 }
    {
        self.text
    }

    /// Returns the text in which its numbers are looked for, if its key has some.
    pub(crate) fn number_text(&self) -> Option<&[u8]>
        ensures { option_copied result ≡ number_text self.now }
    {
        match self.key {
            Key::Number => Some(self.text),
            Key::Name(_) => number_in(self.text),
            _ => None,
        }
    }

    /// Returns whether it has a date in this tier.
    pub(crate) fn is_date(&self, tier: Tier) -> bool
        ensures { result ≡ is_date tier self.now }
    {
        match self.key {
            Key::Date(own) => own.is(tier),
            _ => false,
        }
    }

    /// Returns whether it has a volume in this tier.
    pub(crate) fn is_volume(&self, tier: Tier) -> bool
        ensures { result ≡ is_volume tier self.now }
    {
        match self.key {
            Key::Volume(own) => own.is(tier),
            _ => false,
        }
    }

    /// Returns whether it has a version.
    pub(crate) fn is_version(&self) -> bool
        ensures { result ≡ is_version self.now }
    {
        matches!(self.key, Key::Version)
    }

    /// Returns whether it has a format.
    pub(crate) fn is_format(&self) -> bool
        ensures { result ≡ is_format self.now }
    {
        matches!(self.key, Key::Format)
    }
}

/// Returns what the key of a pair asks for, with its value.
pub(crate) fn value_of<'a>(pair: &'a Pair<'_>) -> Value<'a>
    ensures { result ≡ keyed pair.now }
{
    Value {
        key: Key::of(pair.key()),
        text: pair.value(),
    }
}

/// Returns what the keys of the pairs ask for, with their values.
pub(crate) fn values_of<'a>(
    alloc: Global,
    pairs: &'a [Pair<'_>],
) -> Result<Vec<Value<'a>>, AllocError>
    ensures { IfOk result (λ values. values.items ≡ map keyed pairs.now) }
{
    let mut values = Vec::new(alloc);
    for pair in pairs {
        values.push(value_of(pair))?;
    }
    Ok(values)
}
