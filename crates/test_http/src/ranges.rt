//! Runs the commands on values of Range and Content-Range.
use crate::driver::Driver;
use crate::escapes::print_escaped;
use crate::fault::{HttpDriverFault, NO_ROOM};
use crate::line::CommandLine;
use feed_bytes::read_number;
use feed_http::{fetch_gives_slice, head_gives_size, part_reads_back, size_reads_back};
use feed_range::{
    ContentRange, RangeAsk, RangeFault, WriteFault, ask_reads_back, asks_by_form,
    content_range_reads_back, write_ask, write_content_range,
};
use test_support::Out;

const ROOM: usize = 4_096;

impl Driver<'_> {
    pub fn value(
        &mut self,
        out: &mut Out<'_>,
        command: &str,
        line: CommandLine<'_>,
    ) -> Result<(), HttpDriverFault> {
        match command {
            "range" => self.range(out, line),
            "content-range" => self.content_range(out, line),
            "number" => self.number(out, line),
            "write-range" => write_range(out, line),
            "write-content-range" => self.write_content_range(out, line),
            "laws" => {
                laws();
                Ok(())
            }
            _ => self.node.take(out, command, line),
        }
    }

    fn range(&self, out: &mut Out<'_>, mut line: CommandLine<'_>) -> Result<(), HttpDriverFault> {
        let length = line.number();
        let value = line.text(self.rt.alloc())?;
        print_ask(out, RangeAsk::read(&value, length));
        Ok(())
    }

    fn content_range(
        &self,
        out: &mut Out<'_>,
        line: CommandLine<'_>,
    ) -> Result<(), HttpDriverFault> {
        let value = line.text(self.rt.alloc())?;
        match ContentRange::read(&value) {
            Ok(range) => print_range(out, range),
            Err(fault) => print_fault(out, fault),
        }
        Ok(())
    }

    fn number(&self, out: &mut Out<'_>, line: CommandLine<'_>) -> Result<(), HttpDriverFault> {
        let text = line.text(self.rt.alloc())?;
        out.option(read_number(&text));
        out.line("");
        Ok(())
    }

    fn write_content_range(
        &self,
        out: &mut Out<'_>,
        mut line: CommandLine<'_>,
    ) -> Result<(), HttpDriverFault> {
        let room = line.count();
        let value = line.text(self.rt.alloc())?;
        match ContentRange::read(&value) {
            Ok(range) => write_value(out, room, &range),
            Err(_) => Err(HttpDriverFault("not a value of Content-Range")),
        }
    }
}

fn write_range(out: &mut Out<'_>, mut line: CommandLine<'_>) -> Result<(), HttpDriverFault> {
    let room = line.count();
    let first = line.number();
    let last = line.number();
    line.check()?;
    if room > ROOM {
        return Err(NO_ROOM);
    }
    let mut storage = [0u8; ROOM];
    let mut left = &mut storage[..room];
    let written = write_ask(&mut left, first, last);
    let left = left.len();
    print_value(out, written, &storage[..room - left.min(room)]);
    Ok(())
}

fn write_value(
    out: &mut Out<'_>,
    room: usize,
    range: &ContentRange,
) -> Result<(), HttpDriverFault> {
    if room > ROOM {
        return Err(NO_ROOM);
    }
    let mut storage = [0u8; ROOM];
    let mut left = &mut storage[..room];
    let written = write_content_range(&mut left, range);
    let left = left.len();
    print_value(out, written, &storage[..room - left.min(room)]);
    Ok(())
}

fn print_ask(out: &mut Out<'_>, ask: RangeAsk) {
    match ask {
        RangeAsk::Whole => out.word("whole"),
        RangeAsk::Part(first, last) => print_part(out, first, last),
        RangeAsk::Unsatisfied => out.word("unsatisfied"),
    }
    out.line("");
}

fn print_part(out: &mut Out<'_>, first: u64, last: u64) {
    out.labelled("part ", first);
    out.labelled(" ", last);
}

fn print_range(out: &mut Out<'_>, range: ContentRange) {
    match range {
        ContentRange::Part { first, last, total } => {
            print_part(out, first, last);
            out.word(" ");
            out.option(total);
        }
        ContentRange::Unsatisfied { total } => out.labelled("unsatisfied ", total),
    }
    out.line("");
}

fn print_fault(out: &mut Out<'_>, fault: RangeFault) {
    out.print(fault);
    out.labelled(" ", u64::from(fault as u8));
    out.line("");
}

fn print_value(out: &mut Out<'_>, written: Result<(), WriteFault>, value: &[u8]) {
    match written {
        Ok(()) => print_escaped(out, value),
        Err(fault) => out.print(format_args!("{fault}\n")),
    }
}

fn laws() {
    ask_reads_back();
    asks_by_form();
    content_range_reads_back();
    part_reads_back();
    size_reads_back();
    fetch_gives_slice();
    head_gives_size();
}
