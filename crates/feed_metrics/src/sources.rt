//! The trait `Sources`, which has the values of the rows.
use std::alloc::AllocError;

/// The values of the rows of a table. Some sources have a sample for each of several places.
pub trait Sources {
    /// Where the value of a label is from.
    type Label: Copy;
    /// Where the values of samples are from.
    type Sample: Copy;

    ghost use Rattle.std.specs.Prelude.{◌≡◌, ◌++◌, ℕ, OnOk};
    ghost use Rattle.feed_metrics.specs.Labels.{label_text};
    ghost use Rattle.feed_metrics.specs.Rows.{Values};

    /// The values of the sources.
    ghost values: { Self → Values Self.Label Self.Sample };

    /// Returns how many samples a source has.
    fn count(&self, source: Self::Sample) -> usize
        ensures { result ≡ (values self.now).count source };

    /// Writes the value of the sample of a source at a place.
    fn put_value(
        &self,
        out: &mut Vec<u8>,
        source: Self::Sample,
        place: usize,
    ) -> Result<(), AllocError>
        ensures { OnOk result (out.new.items ≡ out.old.items ++ (values self.now).value source place) };

    /// Writes the value of a label of the sample at a place. `text` is that of the row.
    fn put_label_value(
        &self,
        out: &mut Vec<u8>,
        source: Self::Label,
        text: &str,
        place: usize,
    ) -> Result<(), AllocError>
        ensures { OnOk result (out.new.items
            ≡ out.old.items ++ label_text ((values self.now).label source text.now place)) };
}
