//! Classes of bytes, texts that have bytes of one class alone, and how often a byte is in a text.
ghost use Rattle.std.specs.Prelude.{◌≡◌, ◌==◌, count_by};
ghost use Rattle.std.specs.List.{list_all};
ghost use Rattle.node_site.specs.Bytes.{is_in};

/// A class of bytes.
#[derive(Clone, Copy)]
pub(crate) enum ByteClass {
    /// ASCII letters.
    Letter,
    /// ASCII letters and digits.
    LetterOrDigit,
    /// Hexadecimal digits.
    HexDigit,
    /// Visible ASCII: no space, no control byte, and none above 126.
    Visible,
    /// The bytes of a host's name between dots.
    Label,
    /// The bytes of a package's name.
    Stem,
}

impl ByteClass {
    fn has(self, byte: u8) -> bool
        ensures { result ≡ is_in self byte }
    {
        match self {
            ByteClass::Letter => byte.is_ascii_alphabetic(),
            ByteClass::LetterOrDigit => byte.is_ascii_alphanumeric(),
            ByteClass::HexDigit => byte.is_ascii_hexdigit(),
            ByteClass::Visible => (33..=126).contains(&byte),
            ByteClass::Label => byte.is_ascii_alphanumeric() || byte == b'-',
            ByteClass::Stem => {
                byte.is_ascii_alphanumeric() || byte == b'-' || byte == b'_' || byte == b'.'
            }
        }
    }

    /// Returns whether each byte of a text is in the class.
    pub(crate) fn has_all(self, text: &[u8]) -> bool
        ensures { result ≡ list_all (is_in self) text.now }
    {
        text.iter().all(|byte| self.has(*byte))
    }
}

/// Returns how often a byte is in a text.
pub(crate) fn count_of(byte: u8, text: &[u8]) -> usize
    ensures { result ≡ count_by (λ b. b == byte) text.now }
{
    text.iter().filter(|other| **other == byte).count()
}
