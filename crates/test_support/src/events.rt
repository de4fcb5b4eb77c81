//! Reads the script of a driver from its standard input.
use feed_replay::{Files, LineFault, Script, read_script};
use feed_world::WorldEvent;
use std::alloc::Global;
use std::io::Read;
use std::test::Fail;

// The files that a script may publish by their paths: none.
#[derive(Drop)]
struct NoFiles;

impl Files for NoFiles {
    fn bytes_of(&mut self, _alloc: Global, _path: &[u8]) -> Result<Vec<u8>, LineFault> {
        Err(LineFault::BadFile)
    }
}

/// Reads the events of the script on standard input. It publishes no files by their paths.
pub fn read_events(rt: &HostRuntime) -> Result<Vec<WorldEvent>, Fail> {
    let mut text = Vec::new(rt.alloc());
    rt.reader().read_to_end(&mut text)?;
    match read_script(rt.alloc(), &text, &mut NoFiles) {
        Ok(Script { nodes: _, events }) => Ok(events),
        Err(fault) => Err(Fail::new(fault)),
    }
}
