//! Appends a text to a buffer fragment by fragment. Each kind of text has fragments of its own.
ghost use Rattle.std.specs.Prelude.{◌≡◌, ◌<◌, ◌≤◌, ◌++◌, OnOk};
ghost use Rattle.std.specs.List.{flat_map};
ghost use Rattle.std.specs.Fmt.{decimal};
ghost use Rattle.feed_bytes.specs.Hexadecimal.{hex_digit};

use std::alloc::AllocError;
use std::io::Write;

/// A fragment of a text.
pub trait PutFragment {
    ghost use Rattle.std.specs.Prelude.{◌≡◌, ◌++◌, ℕ, List, OnOk};

    /// The text of the fragment.
    ghost text: { Self → List ℕ };

    /// Appends the text of the fragment.
    fn put(&self, out: &mut Vec<u8>) -> Result<(), AllocError>
        ensures { OnOk result (out.new.items ≡ out.old.items ++ text self.now) };
}

/// Appends the decimal digits of a number.
pub fn put_number(out: &mut Vec<u8>, number: u64) -> Result<(), AllocError>
    ensures { OnOk result (out.new.items ≡ out.old.items ++ decimal number) }
{
    match write!(out, "{number}") {
        Ok(()) => Ok(()),
        Err(_) => Err(AllocError),
    }
}

/// Returns the hexadecimal digit of a number. `ten` is the digit of ten: `b'A'` or `b'a'`.
pub fn hex_digit(ten: u8, number: u8) -> u8
    requires letter { ten ≤ 97 }
    requires digit { number < 16 }
    ensures { result ≡ hex_digit ten number }
{
    if number < 10 {
        b'0' + number
    } else {
        ten + (number - 10)
    }
}

/// Appends the texts of the fragments, one after another.
pub fn put_all<P: PutFragment>(out: &mut Vec<u8>, fragments: &[P]) -> Result<(), AllocError>
    ensures { OnOk result (out.new.items ≡ out.old.items ++ flat_map P.text fragments.now) }
{
    for fragment in fragments {
        fragment.put(out)?;
    }
    Ok(())
}
