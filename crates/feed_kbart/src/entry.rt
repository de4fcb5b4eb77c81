//! An entry of the index: the number of an identifier, and the place of a row that has it.
ghost use Rattle.std.specs.Prelude.{◌≡◌};
ghost use Rattle.feed_kbart.specs.Entries.{key_of};

/// The place of a row, and the number of an identifier that it has. In this order the bytes of an entry are those of
/// its key.
#[derive(Clone, Copy)]
pub(crate) struct Entry {
    pub(crate) place: u32,
    pub(crate) number: u32,
}

impl Entry {
    /// Returns the key by which entries are sorted: those of a smaller number come first, and those of one number in
    /// the order of their places.
    pub(crate) fn key(&self) -> u64
        ensures { result ≡ key_of self.now }
    {
        self.number as u64 * 0x1_0000_0000 + self.place as u64
    }
}
