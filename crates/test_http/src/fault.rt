//! Why a line is rejected.
use std::alloc::AllocError;
use std::io;

/// Why a line is rejected, or why the program cannot run it: the sentence that the program prints.
#[derive(Clone, Copy)]
pub struct HttpDriverFault(pub &'static str);

/// The arguments have no number of bytes.
pub const NO_STEP: HttpDriverFault = HttpDriverFault(
    "test_http STEP < LINES: STEP is a number of bytes",
);

pub const NO_COMMAND: HttpDriverFault = HttpDriverFault("no such command");

pub const NO_NUMBER: HttpDriverFault = HttpDriverFault("not a number");

pub const NO_BYTE: HttpDriverFault = HttpDriverFault(
    "not a byte: an escape is \\r, \\n, \\t or \\xHH",
);

pub const NO_HOST: HttpDriverFault = HttpDriverFault("not a host");

pub const NO_ROOM: HttpDriverFault = HttpDriverFault("more room than 4096 bytes");

pub const NO_DEVICE: HttpDriverFault = HttpDriverFault("input or output failed");

pub const NO_MEMORY: HttpDriverFault = HttpDriverFault("out of memory");

impl From<AllocError> for HttpDriverFault {
    fn from(_: AllocError) -> HttpDriverFault {
        NO_MEMORY
    }
}

impl From<io::Error> for HttpDriverFault {
    fn from(_: io::Error) -> HttpDriverFault {
        NO_DEVICE
    }
}
