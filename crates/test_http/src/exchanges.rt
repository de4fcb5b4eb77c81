//! Runs the commands on both ends of an exchange: requests that a node writes, responses that it reads, and the server.
use crate::driver::{CallCounts, Driver, Plan};
use crate::ends::{ShortReader, Sink};
use crate::escapes::print_escaped;
use crate::fault::{HttpDriverFault, NO_HOST};
use crate::line::CommandLine;
use crate::shelf::CountingShelf;
use feed_http::{
    Bytes, Got, MemoryShelf, Method, ResponseMachine, Shelf, StreamEnd, is_host, read_reply,
    serve_one, write_head_request, write_request,
};
use feed_http_heads::HttpFault;
use feed_names::ReleaseName;
use std::alloc::Global;
use test_support::Out;

impl Driver<'_> {
    /// Runs a command on an exchange.
    pub fn exchange(
        &mut self,
        out: &mut Out<'_>,
        command: &str,
        line: CommandLine<'_>,
    ) -> Result<(), HttpDriverFault> {
        match command {
            "host" => self.host(out, line),
            "get" => self.get(out, line),
            "head" => self.head(out, line),
            "reply" => self.reply(out, line),
            "arriving" => self.arriving_response(out, line),
            "reply-end" => self.response_end(out, line),
            "request" => self.request(out, line),
            "serve" => self.serve(out, line),
            _ => self.value(out, command, line),
        }
    }

    fn host(&self, out: &mut Out<'_>, line: CommandLine<'_>) -> Result<(), HttpDriverFault> {
        let host = line.text(self.rt.alloc())?;
        out.line(if is_host(&host) { "true" } else { "false" });
        Ok(())
    }

    fn get(&mut self, out: &mut Out<'_>, mut line: CommandLine<'_>) -> Result<(), HttpDriverFault> {
        let host = line.word().as_bytes();
        let name = line.name(self.rt.alloc())?;
        self.get_range(out, host, &name, line)
    }

    fn get_range(
        &mut self,
        out: &mut Out<'_>,
        host: &[u8],
        name: &ReleaseName,
        mut line: CommandLine<'_>,
    ) -> Result<(), HttpDriverFault> {
        let first = line.number();
        let last = line.number();
        line.check()?;
        if !is_host(host) {
            return Err(NO_HOST);
        }
        let mut sink = Sink::new(self.rt.alloc(), self.step, self.plan.fails_write);
        let written = write_request(&mut sink, host, name, first, last);
        self.print_written(out, written, &sink);
        Ok(())
    }

    fn head(
        &mut self,
        out: &mut Out<'_>,
        mut line: CommandLine<'_>,
    ) -> Result<(), HttpDriverFault> {
        let host = line.word().as_bytes();
        let name = line.name(self.rt.alloc())?;
        if !is_host(host) {
            return Err(NO_HOST);
        }
        let mut sink = Sink::new(self.rt.alloc(), self.step, self.plan.fails_write);
        let written = write_head_request(&mut sink, host, &name);
        self.print_written(out, written, &sink);
        Ok(())
    }

    fn print_written(&mut self, out: &mut Out<'_>, written: Result<(), HttpFault>, sink: &Sink) {
        self.plan = Plan::new();
        self.counts.writes = sink.calls;
        if let Err(fault) = written {
            print_fault(out, fault);
            out.word(" ");
        }
        print_escaped(out, &sink.bytes);
    }

    fn reply(
        &mut self,
        out: &mut Out<'_>,
        mut line: CommandLine<'_>,
    ) -> Result<(), HttpDriverFault> {
        let method = line.method();
        let text = line.text(self.rt.alloc())?;
        let got = self.read_reply(&text, method);
        self.plan = Plan::new();
        print_reply(out, got);
        Ok(())
    }

    fn read_reply(&mut self, text: &[u8], method: Method) -> Result<Got, HttpFault> {
        let bytes = self.plan.front_of(text);
        let mut reader = ShortReader::new(bytes, self.step, self.plan.fails_read);
        let got = read_reply(self.rt.alloc(), &mut reader, method);
        self.counts.reads = reader.calls;
        got
    }

    fn arriving_response(
        &self,
        out: &mut Out<'_>,
        mut line: CommandLine<'_>,
    ) -> Result<(), HttpDriverFault> {
        let method = line.method();
        let text = line.text(self.rt.alloc())?;
        print_reply(out, arrive(self.rt.alloc(), method, &text, self.step).got);
        Ok(())
    }

    fn response_end(
        &self,
        out: &mut Out<'_>,
        mut line: CommandLine<'_>,
    ) -> Result<(), HttpDriverFault> {
        let method = line.method();
        let text = line.text(self.rt.alloc())?;
        match arrive(self.rt.alloc(), method, &text, self.step).end {
            Some(end) => out.labelled("complete ", end as u64),
            None => out.word("unfinished"),
        }
        out.line("");
        Ok(())
    }

    fn request(&mut self, out: &mut Out<'_>, line: CommandLine<'_>) -> Result<(), HttpDriverFault> {
        let text = line.text(self.rt.alloc())?;
        let bytes = self.plan.front_of(&text);
        let mut reader = ShortReader::new(bytes, self.step, self.plan.fails_read);
        let mut sink = Sink::new(self.rt.alloc(), self.step, self.plan.fails_write);
        let mut shelf = CountingShelf::new(&self.files, self.plan.fails_shelf);
        let outcome = serve_one(self.rt.alloc(), &mut reader, &mut sink, &mut shelf);
        self.counts = CallCounts {
            reads: reader.calls,
            writes: sink.calls,
            longest: shelf.longest(),
            failures: shelf.failures(),
        };
        self.plan = Plan::new();
        print_outcome(out, outcome, &sink.bytes);
        Ok(())
    }

    fn serve(&self, out: &mut Out<'_>, line: CommandLine<'_>) -> Result<(), HttpDriverFault> {
        let text = line.text(self.rt.alloc())?;
        let mut reader = ShortReader::new(&text, self.step, usize::MAX);
        let mut sink = Sink::new(self.rt.alloc(), self.step, usize::MAX);
        let mut shelf = MemoryShelf { files: &self.files };
        let outcome = serve_one(self.rt.alloc(), &mut reader, &mut sink, &mut shelf);
        print_outcome(out, outcome, &sink.bytes);
        Ok(())
    }
}

// A response that arrives.
#[derive(Drop)]
struct ArrivedResponse {
    got: Result<Got, HttpFault>,
    /// After how many bytes no more are needed: where the response ends, or how many have arrived when a fault is
    /// found. None if the end of the stream decides.
    end: Option<usize>,
}

// Returns the response in a text. Its bytes arrive `step` at a time, until the server closes the connection.
fn arrive(alloc: Global, method: Method, text: &[u8], step: usize) -> ArrivedResponse {
    let mut machine = ResponseMachine::new(method);
    let mut body = Vec::new(alloc);
    let mut passed = 0usize;
    let mut arrived = 0usize;
    for _ in 0..=text.len() {
        let bytes = text.get(passed..arrived).unwrap_or(b"");
        match machine.take(bytes, &mut body, step) {
            Ok(taken) => {
                passed = passed.saturating_add(taken.count);
                if taken.is_over {
                    return ArrivedResponse {
                        got: match machine.finish(body) {
                            Some(got) => Ok(got),
                            None => Err(HttpFault::Read),
                        },
                        end: Some(passed),
                    };
                }
            }
            Err(fault) => {
                return ArrivedResponse {
                    got: Err(fault),
                    end: Some(arrived),
                };
            }
        }
        arrived = arrived.saturating_add(step).min(text.len());
    }
    ArrivedResponse {
        got: machine.end(StreamEnd::Closed, body),
        end: None,
    }
}

fn print_outcome(out: &mut Out<'_>, outcome: Result<u16, HttpFault>, reply: &[u8]) {
    match outcome {
        Ok(status) => out.labelled("", u64::from(status)),
        Err(fault) => print_fault(out, fault),
    }
    out.word(" ");
    print_escaped(out, reply);
}

fn print_fault(out: &mut Out<'_>, fault: HttpFault) {
    out.print(fault);
}

fn print_reply(out: &mut Out<'_>, got: Result<Got, HttpFault>) {
    match got {
        Ok(got) => print_got(out, got),
        Err(fault) => {
            print_fault(out, fault);
            out.line("");
        }
    }
}

fn print_got(out: &mut Out<'_>, got: Got) {
    match got {
        Got::Piece {
            first,
            total,
            bytes,
        } => print_piece(out, first, total, bytes.as_slice()),
        Got::Whole { bytes } => print_whole(out, &Bytes::new(bytes.into_vec())),
        Got::Size(size) => {
            out.labelled("size ", size);
            out.line("");
        }
        Got::Missing => out.line("missing"),
        Got::Unsatisfied { total } => {
            out.word("unsatisfied ");
            out.option(total);
            out.line("");
        }
    }
}

fn print_piece(out: &mut Out<'_>, first: u64, total: Option<u64>, bytes: &[u8]) {
    out.labelled("piece ", first);
    out.word(" ");
    out.option(total);
    out.word(" ");
    print_escaped(out, bytes);
}

fn print_whole(out: &mut Out<'_>, bytes: &Bytes) {
    out.word("whole ");
    print_escaped(out, bytes.as_slice());
}
