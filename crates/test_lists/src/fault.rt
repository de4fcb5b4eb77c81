//! The error that ends the program: what is wrong with a line.
use feed_kbart::KbartFault;
use std::alloc::AllocError;
use std::{fs, io};

/// A fault, as the sentence that the program prints.
#[derive(Clone, Copy)]
pub struct ListsDriverFault(pub &'static str);

impl From<AllocError> for ListsDriverFault {
    fn from(_error: AllocError) -> ListsDriverFault {
        ListsDriverFault("out of memory")
    }
}

impl From<KbartFault> for ListsDriverFault {
    fn from(fault: KbartFault) -> ListsDriverFault {
        match fault {
            KbartFault::Memory => ListsDriverFault("out of memory"),
            _ => ListsDriverFault("not a holdings list"),
        }
    }
}

impl From<io::Error> for ListsDriverFault {
    fn from(_error: io::Error) -> ListsDriverFault {
        ListsDriverFault("cannot read or write")
    }
}

/// Returns the bytes of a file.
pub fn file_of(rt: &HostRuntime, path: &str) -> Result<Vec<u8>, ListsDriverFault> {
    Ok(fs::read(rt, path)?)
}
