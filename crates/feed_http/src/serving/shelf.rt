//! The trait `Shelf`: where a server finds the files of releases.
ghost use Rattle.std.specs.Prelude.{◌≡◌, ◌≤◌, ◌+◌, ℕ};
ghost use Rattle.std.specs.Prelude.{Option, None, IfSome, IsSomeAnd, IfOk, IsErrOf, length, take};
ghost use Rattle.std.specs.Prelude.{drop};
ghost use Rattle.std.specs.Option.{option_map};
ghost use Rattle.feed_http.specs.Shelves.{Files, IsCounted};
ghost use Rattle.feed_http.specs.declared.serving.shelf.ShelfFault.TheVariants.{Device};

use feed_http_heads::HttpFault;
use feed_names::ReleaseName;
use std::alloc::Global;
use thiserror::Error;

/// Why a shelf could not answer.
#[derive(Clone, Copy, Debug, PartialEq, Eq, Error)]
pub enum ShelfFault {
    /// The device failed. The shelf counts its failures.
    #[error("Device")]
    Device,
    /// Memory ran out.
    #[error("Memory")]
    Memory,
}

impl From<ShelfFault> for HttpFault {
    ghost use Rattle.feed_http.specs.Shelves.{http_fault_of};

    ghost from_gives = { λ fault given. given ≡ http_fault_of fault };

    fn from(fault: ShelfFault) -> HttpFault {
        match fault {
            ShelfFault::Device => HttpFault::Shelf,
            ShelfFault::Memory => HttpFault::Memory,
        }
    }
}

/// A store of the files of releases.
///
/// The contracts of a shelf in memory name its files, so those of the server name what it serves. Nothing is known of
/// the files of a directory, so its shelf does not name them.
pub trait Shelf {
    // The files by name, if the contracts of the shelf name them.
    ghost files: { Self → Option Files } = { λ _. None };

    // The number of device failures so far.
    ghost failed: { Self → ℕ };

    /// Returns the number of device failures so far. It saturates at its greatest value.
    fn failures(&self) -> u64
        ensures { result ≡ failed self.now };

    /// Returns the length in bytes of the file of this name, if the shelf has it.
    fn size(&mut self, name: &ReleaseName) -> Result<Option<u64>, ShelfFault>
        ensures kept { files self.new ≡ files self.old }
        ensures size { IfSome (files self.old) (λ files.
            IfOk result (λ size. size ≡ option_map length (files name.now))) }
        ensures device { IsCounted (IsErrOf result Device) (failed self.old) (failed self.new) };

    /// Returns exactly `len` bytes of the file of this name, from the place `first`.
    fn read(
        &mut self,
        alloc: Global,
        name: &ReleaseName,
        first: u64,
        len: usize,
    ) -> Result<Vec<u8>, ShelfFault>
        requires inside { IfSome (files self.old) (λ files.
            IsSomeAnd (files name.now) (λ file. first + len ≤ length file)) }
        ensures kept { files self.new ≡ files self.old }
        ensures len { IfOk result (λ bytes. length bytes.items ≡ len) }
        ensures bytes { IfSome (files self.old) (λ files. IfSome (files name.now) (λ file.
            IfOk result (λ bytes. bytes.items ≡ take len (drop first file)))) }
        ensures device { IsCounted (IsErrOf result Device) (failed self.old) (failed self.new) };
}
