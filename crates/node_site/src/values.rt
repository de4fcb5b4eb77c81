//! Checks of single values.
ghost use Rattle.std.specs.Prelude.{◌≡◌, option_copied};
ghost use Rattle.toml.specs.Data.{as_str};
ghost use Rattle.toml.specs.View.{view, array_view};
ghost use Rattle.node_site.specs.Faults.{flaw, host_flaws, host_reason, reason_of, text_flaw, value_flaw};

use crate::fault::{Flaw, ValueFault};
use crate::kind::ValueKind;
use crate::urls::is_host;
use toml::Value;
use toml::value::Array;

fn flaw(reason: ValueFault) -> Flaw
    ensures { result ≡ flaw reason }
{
    Flaw { item: None, reason }
}

fn reason_of(kind: ValueKind) -> ValueFault
    ensures { result ≡ reason_of kind }
{
    match kind {
        ValueKind::Text => ValueFault::TextSize,
        ValueKind::Note => ValueFault::NoteSize,
        ValueKind::Language => ValueFault::Language,
        ValueKind::Color => ValueFault::Color,
        ValueKind::Url => ValueFault::Url,
        ValueKind::Template => ValueFault::Template,
        ValueKind::Article => ValueFault::Article,
        ValueKind::Prefix => ValueFault::Prefix,
        ValueKind::Occasion => ValueFault::Occasion,
        ValueKind::Package => ValueFault::Package,
        ValueKind::FileName => ValueFault::FileName,
        ValueKind::Host => ValueFault::Host,
        ValueKind::Date => ValueFault::Date,
        ValueKind::Switch => ValueFault::NotSwitch,
        ValueKind::Hosts => ValueFault::NotList,
    }
}

fn text_flaw(kind: ValueKind, value: &Value) -> Option<Flaw>
    ensures { result ≡ text_flaw kind (as_str (view value.now)) }
{
    match value.as_str() {
        Some(text) => {
            if kind.has(text.as_bytes()) {
                None
            } else {
                Some(flaw(reason_of(kind)))
            }
        }
        None => Some(flaw(ValueFault::NotText)),
    }
}

fn host_reason(value: &Value) -> Option<ValueFault>
    ensures { result ≡ host_reason (as_str (view value.now)) }
{
    match value.as_str() {
        Some(text) => {
            if is_host(text.as_bytes()) {
                None
            } else {
                Some(ValueFault::Host)
            }
        }
        None => Some(ValueFault::NotText),
    }
}

// Returns the first item that is not the name of a host.
fn host_flaws(items: &Array) -> Option<Flaw>
    ensures { result ≡ host_flaws 1 (array_view items.now) }
{
    for index in 0..items.len() {
        if let Some(reason) = host_reason(&items[index]) {
            return Some(Flaw {
                item: Some(index + 1),
                reason,
            });
        }
    }
    None
}

/// Returns what is wrong with a value of this kind.
pub(crate) fn value_flaw(kind: ValueKind, value: &Value) -> Option<Flaw>
    ensures { result ≡ value_flaw kind (view value.now) }
{
    match kind {
        ValueKind::Switch => match value.as_bool() {
            Some(_) => None,
            None => Some(flaw(ValueFault::NotSwitch)),
        },
        ValueKind::Hosts => match value.as_array() {
            Some(items) => host_flaws(items),
            None => Some(flaw(ValueFault::NotList)),
        },
        _ => text_flaw(kind, value),
    }
}
