//! The console of a command.
use crate::faults::Faults;
use std::io::Write;

/// The console of a command: the system, the writer of its output, and that of its faults.
#[derive(Drop)]
pub struct Console<'a, O: Write, F: Write + Drop> {
    pub rt: &'a HostRuntime,
    pub out: O,
    pub faults: Faults<F>,
}

// The stack of the deepest call chain as measured, and a third more.
const NEEDED: usize = 262_144;

/// Takes all the stack that the program needs, so that the system provides it now or ends the program before it prints
/// anything. The number has to be unknown until the program runs.
pub fn take_stack(number: usize) -> bool {
    let seed = (number % 256) as u8;
    touch(seed) == seed
}

// Returns the seed by way of the stack: the compiler would drop what nobody reads.
#[inline(never)]
fn touch(seed: u8) -> u8 {
    let block = [seed; NEEDED];
    block[usize::from(seed) * 1_000]
}
