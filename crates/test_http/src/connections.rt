//! A connection of a node, over streams that make it wait.
ghost use Rattle.std.specs.Prelude.{◌≡◌, ◌++◌, IfOk};
ghost use Rattle.test_http.specs.EchoHeads.{start_of};

use crate::ends::{ShortReader, ShortWriter};
use crate::escapes::print_escaped;
use crate::fault::{HttpDriverFault, NO_COMMAND};
use crate::line::CommandLine;
use crate::node::DriverNode;
use node_connection::{
    BODY_LIMIT, Connection, IncomingRequest, LoggedResponse, Reading, Respond, RespondFault, Sides,
    TURN_SHARE, TimeLimits, Wants, Writing, run_connection,
};
use node_request::ParsedRequest;
use std::alloc::{AllocError, Global};
use test_support::Out;

// The head of a response on a connection that persists.
const KEPT: &[u8] = b"HTTP/1.1 200 OK\r\n\r\n";

// The head of a response on one that does not.
const CLOSED: &[u8] = b"HTTP/1.1 200 OK\r\nConnection: close\r\n\r\n";

/// Responds with the bytes of a request, its head and its body, or fails for lack of memory.
#[derive(Clone, Copy)]
struct Echo {
    /// The length of the bodies that it wants.
    wanted: usize,
    is_short: bool,
}

fn response_head(alloc: Global, persists: bool) -> Result<Vec<u8>, AllocError>
    ensures { IfOk result (λ text. text.items ≡ start_of persists) }
{
    Vec::from_slice(alloc, if persists { KEPT } else { CLOSED })
}

// Returns the head of a response, and after it the parts of a request.
fn echo_text(alloc: Global, head: &[u8], body: &[u8], persists: bool) -> Result<Vec<u8>, AllocError>
    ensures { IfOk result (λ text. text.items ≡ (start_of persists ++ head.now) ++ body.now) }
{
    let mut text = response_head(alloc, persists)?;
    text.extend_from_slice(head)?;
    text.extend_from_slice(body)?;
    Ok(text)
}

impl Respond for Echo {
    ghost use Rattle.std.specs.Prelude.{min, ⊤};

    ghost wanted = { λ echo head. min echo.wanted 8192 };

    ghost responses = { λ echo head body persists reply. ⊤ };

    fn body_len(&self, _parsed: &ParsedRequest<'_>) -> usize {
        self.wanted.min(BODY_LIMIT)
    }

    #[tactic(auto, using(crate::proofs::EchoSays::echo_says))]
    fn respond(
        &self,
        alloc: Global,
        request: &IncomingRequest<'_>,
    ) -> Result<LoggedResponse, RespondFault> {
        if self.is_short {
            return Err(RespondFault::Memory);
        }
        let text = echo_text(
            alloc,
            request.received.bytes,
            request.body,
            request.persists,
        )?;
        Ok(LoggedResponse::new(text, 200, 0))
    }
}

impl DriverNode<'_> {
    pub fn take_connection(
        &mut self,
        out: &mut Out<'_>,
        command: &str,
        line: CommandLine<'_>,
    ) -> Result<(), HttpDriverFault> {
        match command {
            "want" => self.want(line),
            "converse" => self.converse(out, line),
            _ => {
                self.change(command, line)?;
                self.print_connection(out);
                Ok(())
            }
        }
    }

    fn want(&mut self, mut line: CommandLine<'_>) -> Result<(), HttpDriverFault> {
        let wanted = line.count();
        line.check()?;
        self.wanted = wanted;
        Ok(())
    }

    fn change(&mut self, command: &str, line: CommandLine<'_>) -> Result<(), HttpDriverFault> {
        match command {
            "connection" => self.begin(line),
            "receive" => self.receive(line),
            "advance-clock" => self.advance_clock(line),
            "mark-sent" => self.mark_sent(line),
            "resume" => self.resume(),
            _ => Err(NO_COMMAND),
        }
    }

    fn print_connection(&self, out: &mut Out<'_>) {
        print_wants(out, self.connection.wants());
        out.labelled(" ", self.connection.pending_response().len() as u64);
        out.line("");
    }

    fn begin(&mut self, mut line: CommandLine<'_>) -> Result<(), HttpDriverFault> {
        let step = line.number();
        let idle = line.number();
        line.check()?;
        if step == 0 || idle == 0 {
            return Err(HttpDriverFault("not a time: 1 ms or more"));
        }
        self.connection = Connection::new(self.rt.alloc(), TimeLimits { step, idle });
        Ok(())
    }

    // Bytes arrive, as many as there is room for, and are parsed.
    fn receive(&mut self, line: CommandLine<'_>) -> Result<(), HttpDriverFault> {
        let bytes = line.text(self.rt.alloc())?;
        self.give(&bytes);
        self.parse();
        Ok(())
    }

    fn give(&mut self, bytes: &[u8]) {
        let room = self.connection.room();
        if let Wants::Bytes = self.connection.wants() {
            let (bytes, _) = bytes.split_at(bytes.len().min(room));
            self.connection.receive(bytes);
        }
    }

    fn parse(&mut self) {
        if let Wants::Parse = self.connection.wants() {
            let echo = Echo {
                wanted: self.wanted,
                is_short: false,
            };
            self.connection.parse_request(self.rt.alloc(), &echo);
        }
    }

    // Turns to the next request, and parses what was received of it.
    fn resume(&mut self) -> Result<(), HttpDriverFault> {
        if let Wants::Next = self.connection.wants() {
            self.connection.resume();
        }
        self.parse();
        Ok(())
    }

    fn advance_clock(&mut self, mut line: CommandLine<'_>) -> Result<(), HttpDriverFault> {
        let passed = line.number();
        line.check()?;
        self.connection.advance_clock(passed);
        Ok(())
    }

    fn mark_sent(&mut self, mut line: CommandLine<'_>) -> Result<(), HttpDriverFault> {
        let count = line.count();
        line.check()?;
        if count == 0 || count > self.connection.pending_response().len() {
            return Err(HttpDriverFault("fewer bytes are left, or none is to be sent"));
        }
        self.connection.mark_sent(self.rt.alloc(), count);
        Ok(())
    }

    // Gives a new connection 200 turns.
    fn converse(
        &self,
        out: &mut Out<'_>,
        mut line: CommandLine<'_>,
    ) -> Result<(), HttpDriverFault> {
        let ends = line.flag("ends", "waits");
        let is_short = line.flag("short", "serves");
        let request = line.text(self.rt.alloc())?;
        let echo = Echo {
            wanted: self.wanted,
            is_short,
        };
        let reader = ShortReader {
            bytes: &request,
            step: self.step,
            fails_at: usize::MAX,
            waits: !ends,
            calls: 0,
        };
        print_turns(out, self.rt.alloc(), &echo, reader);
        Ok(())
    }
}

fn print_turns(out: &mut Out<'_>, alloc: Global, echo: &Echo, reader: ShortReader<'_>) {
    let limits = TimeLimits { step: 10, idle: 10 };
    let mut connection = Connection::new(alloc, limits);
    let sent = converse(alloc, &mut connection, echo, reader);
    print_wants(out, connection.wants());
    let lingers = if connection.is_lingering() {
        " true "
    } else {
        " false "
    };
    out.word(lingers);
    print_escaped(out, &sent);
}

// Moves a connection on 200 times, and returns what it wrote.
fn converse(
    alloc: Global,
    connection: &mut Connection,
    echo: &Echo,
    reader: ShortReader<'_>,
) -> Vec<u8> {
    let mut sides = Sides {
        reader: Reading { reader },
        writer: Writing {
            writer: ShortWriter::new(alloc),
        },
    };
    let mut buffer = [0u8; 64];
    for _ in 0..200 {
        let mut share = TURN_SHARE;
        run_connection(connection, alloc, echo, &mut sides, &mut buffer, &mut share);
        if let Wants::Next = connection.wants() {
            connection.resume();
        }
    }
    sides.writer.writer.bytes
}

fn print_wants(out: &mut Out<'_>, wants: Wants) {
    out.print(format_args!("{wants:?}"));
}
