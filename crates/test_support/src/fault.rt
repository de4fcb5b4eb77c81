//! The error of a command.
use std::alloc::{AllocError, AllocFailed};
use std::io;

/// An error, as the sentence that the program prints.
#[derive(Clone, Copy, Debug)]
pub struct Fault(pub &'static str);

impl From<AllocError> for Fault {
    fn from(_error: AllocError) -> Fault {
        Fault("no memory")
    }
}

impl<T: Drop> From<AllocFailed<T>> for Fault {
    fn from(_error: AllocFailed<T>) -> Fault {
        Fault("no memory")
    }
}

impl From<io::Error> for Fault {
    fn from(_error: io::Error) -> Fault {
        Fault("a read or a print failed")
    }
}
