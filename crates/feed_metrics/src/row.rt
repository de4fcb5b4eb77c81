//! The rows of families. A table of them is a constant, and names each family once.

/// The type of a family.
#[derive(Clone, Copy)]
pub enum FamilyKind {
    Counter,
    Gauge,
    Histogram,
}

/// The name of each type, in their order.
pub(crate) const KINDS: [&str; 3] = ["counter", "gauge", "histogram"];

/// Whether a family is written.
#[derive(Clone, Copy)]
pub enum Shown {
    Always,
    /// If it has samples.
    IfAny,
}

/// A label: its name, its value if that is constant, and where the value is from.
pub type LabelRow<L> = (&'static str, &'static str, L);

/// Samples: what follows the name of the family, the labels, and where the values are from.
pub type SampleRow<L, S> = (&'static str, &'static [LabelRow<L>], S);

/// A family: its name, its help, its type, whether it is written, and its samples.
pub type FamilyRow<L, S> = (
    &'static str,
    &'static str,
    FamilyKind,
    Shown,
    &'static [SampleRow<L, S>],
);
