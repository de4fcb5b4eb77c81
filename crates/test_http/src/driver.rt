//! Runs the commands of the lines.
use crate::fault::{HttpDriverFault, NO_MEMORY};
use crate::faults::print_faults;
use crate::line::CommandLine;
use crate::node::DriverNode;
use feed_http::NamedFile;
use test_support::Out;

/// The faults of the streams and of the shelf in the next exchange.
#[derive(Clone, Copy)]
pub struct Plan {
    pub front: usize,
    pub fails_read: usize,
    pub fails_write: usize,
    pub fails_shelf: usize,
}

impl Plan {
    pub fn new() -> Plan {
        Plan {
            front: usize::MAX,
            fails_read: usize::MAX,
            fails_write: usize::MAX,
            fails_shelf: usize::MAX,
        }
    }

    /// Returns the bytes that arrive.
    pub fn front_of<'a>(&self, bytes: &'a [u8]) -> &'a [u8] {
        &bytes[..self.front.min(bytes.len())]
    }
}

/// The calls that the last exchange made.
#[derive(Clone, Copy)]
pub struct CallCounts {
    pub reads: usize,
    pub writes: usize,
    pub longest: usize,
    pub failures: u64,
}

/// The state between two lines: the files of the server's shelf, a node, the next exchange and the last one.
#[derive(Drop)]
pub struct Driver<'a> {
    pub rt: &'a HostRuntime,
    pub step: usize,
    pub plan: Plan,
    pub counts: CallCounts,
    pub files: Vec<NamedFile>,
    pub node: DriverNode<'a>,
}

impl<'a> Driver<'a> {
    pub fn new(rt: &'a HostRuntime, step: usize) -> Result<Driver<'a>, HttpDriverFault> {
        let node = DriverNode::new(rt, step)?;
        Ok(Driver {
            rt,
            step,
            plan: Plan::new(),
            counts: CallCounts {
                reads: 0,
                writes: 0,
                longest: 0,
                failures: 0,
            },
            files: Vec::new(rt.alloc()),
            node,
        })
    }

    /// Runs the command of a line.
    pub fn take(&mut self, out: &mut Out<'_>, text: &str) -> Result<(), HttpDriverFault> {
        let mut line = CommandLine::new(text);
        let command = line.word();
        match command {
            "front" | "fail-read" | "fail-write" | "fail-shelf" => self.change_plan(command, line),
            "counts" => self.print_counts(out),
            "faults" => print_faults(out),
            "file" => self.put(line),
            _ => self.exchange(out, command, line),
        }
    }

    fn change_plan(
        &mut self,
        command: &str,
        mut line: CommandLine<'_>,
    ) -> Result<(), HttpDriverFault> {
        let count = line.count();
        line.check()?;
        match command {
            "front" => self.plan.front = count,
            "fail-read" => self.plan.fails_read = count,
            "fail-write" => self.plan.fails_write = count,
            _ => self.plan.fails_shelf = count,
        }
        Ok(())
    }

    fn print_counts(&self, out: &mut Out<'_>) -> Result<(), HttpDriverFault> {
        let counts = self.counts;
        out.labelled("reads ", counts.reads as u64);
        out.labelled(" writes ", counts.writes as u64);
        out.labelled(" longest ", counts.longest as u64);
        out.labelled(" failures ", counts.failures);
        out.line("");
        Ok(())
    }

    fn put(&mut self, mut line: CommandLine<'_>) -> Result<(), HttpDriverFault> {
        let name = line.name(self.rt.alloc())?;
        let bytes = line.text(self.rt.alloc())?;
        match self.files.push(NamedFile { name, bytes }) {
            Ok(()) => Ok(()),
            Err(_) => Err(NO_MEMORY),
        }
    }
}
