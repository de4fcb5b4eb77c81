//! Commands on the kept parts of one file.
ghost use Rattle.std.specs.Prelude.{◌≤◌, ◌<◌, ◌+◌, ◌^◌, vec_len, IfOk};
ghost use Rattle.feed_model.specs.Reply.{max_piece};

use crate::printing::{print_bytes, print_count, print_flag, print_parts, print_word};
use crate::words::{FilePiece, number_of, parts_of, piece_of};
use feed_limits::PIECE_LIMIT;
use feed_parts::{SegmentReader, Segments, copy_in_order, copy_parts};
use std::alloc::Global;
use std::io::Read;
use test_support::Fault;

const UNKNOWN: Fault = Fault("no such command");

const WORDS: Fault = Fault("the command takes other words");

/// The kept parts.
#[derive(Drop)]
pub struct Kept {
    segments: Segments,
}

impl Kept {
    pub fn new(alloc: Global) -> Kept {
        Kept {
            segments: Segments::new(alloc),
        }
    }

    /// Runs the command of a line.
    pub fn run_command(&mut self, rt: &HostRuntime, words: &[&str]) -> Result<(), Fault> {
        match words {
            [] => Ok(()),
            ["parts", parts @ ..] => self.replace(rt, parts),
            ["in-order", parts @ ..] => print_in_order(rt, parts),
            [command] => ask_word(rt, &self.segments, command),
            ["within", number] => print_within(rt, &self.segments, number),
            ["gap", number] => print_gap(rt, &self.segments, number),
            ["find", number] => print_found(rt, &self.segments, number),
            [command, part, rest @ ..] => run_on_piece(rt, &mut self.segments, command, part, rest),
        }
    }

    fn replace(&mut self, rt: &HostRuntime, words: &[&str]) -> Result<(), Fault> {
        match Segments::of(parts_of(rt, words)?) {
            Some(segments) => {
                let count = segments.count();
                self.segments = segments;
                print_count(rt, "count", count)
            }
            None => print_word(rt, "no segments"),
        }
    }
}

// Parses a piece within the limit of a piece, whose end fits 64 bits.
fn fit_piece(rt: &HostRuntime, word: &str) -> Result<FilePiece, Fault>
    ensures inside { IfOk result (λ piece. piece.first + vec_len piece.bytes < 2 ^ 64) }
    ensures limit { IfOk result (λ piece. vec_len piece.bytes ≤ max_piece) }
{
    let piece = piece_of(rt, word)?;
    let length = piece.bytes.len();
    if length > PIECE_LIMIT || piece.first > u64::MAX - length as u64 {
        return Err(Fault("a piece is too long"));
    }
    Ok(piece)
}

fn keep_piece(alloc: Global, segments: &mut Segments, piece: &FilePiece) -> Result<(), Fault>
    requires inside { piece.now.first + vec_len piece.now.bytes < 2 ^ 64 }
    requires limit { vec_len piece.now.bytes ≤ max_piece }
{
    let new = segments.new_parts(alloc, piece.first, &piece.bytes)?;
    segments.reserve(&new)?;
    segments.insert(new);
    Ok(())
}

fn run_on_piece(
    rt: &HostRuntime,
    segments: &mut Segments,
    command: &str,
    part: &str,
    rest: &[&str],
) -> Result<(), Fault> {
    let piece = fit_piece(rt, part)?;
    run_piece(rt, segments, command, &piece, rest)
}

// Runs a command on a piece.
fn run_piece(
    rt: &HostRuntime,
    segments: &mut Segments,
    command: &str,
    piece: &FilePiece,
    rest: &[&str],
) -> Result<(), Fault>
    requires inside { piece.now.first + vec_len piece.now.bytes < 2 ^ 64 }
    requires limit { vec_len piece.now.bytes ≤ max_piece }
{
    match command {
        "piece" => keep_piece(rt.alloc(), segments, piece),
        "conflicts" => print_flag(rt, segments.conflicts(piece.first, &piece.bytes)),
        "covers" => print_flag(rt, segments.covers(piece.first, &piece.bytes)),
        "new" => print_new(rt, segments, piece),
        "whole" => print_whole(rt, segments, piece, rest),
        "read-with" => read_with(rt, segments, piece, rest),
        _ => Err(UNKNOWN),
    }
}

fn print_new(rt: &HostRuntime, segments: &Segments, piece: &FilePiece) -> Result<(), Fault>
    requires inside { piece.now.first + vec_len piece.now.bytes < 2 ^ 64 }
    requires limit { vec_len piece.now.bytes ≤ max_piece }
{
    let new = segments.new_parts(rt.alloc(), piece.first, &piece.bytes)?;
    print_parts(rt, new.parts())
}

// Prints the file of this size if it is complete with the piece.
fn print_whole(
    rt: &HostRuntime,
    segments: &Segments,
    piece: &FilePiece,
    words: &[&str],
) -> Result<(), Fault>
    requires inside { piece.now.first + vec_len piece.now.bytes < 2 ^ 64 }
    requires limit { vec_len piece.now.bytes ≤ max_piece }
{
    let [size] = words else {
        return Err(WORDS);
    };
    let size = number_of(size)?;
    let new = segments.new_parts(rt.alloc(), piece.first, &piece.bytes)?;
    if segments.count().saturating_add(new.count()) < size {
        return print_word(rt, "none");
    }
    print_text(rt, segments.reader_with(&new))
}

fn print_text(rt: &HostRuntime, mut reader: SegmentReader<'_>) -> Result<(), Fault> {
    let mut text = Vec::new(rt.alloc());
    reader.read_to_end(&mut text)?;
    text.push(b'\n')?;
    print_bytes(rt, &text)
}

// Prints the number of bytes of each read, and the bytes.
fn read_with(
    rt: &HostRuntime,
    segments: &Segments,
    piece: &FilePiece,
    rooms: &[&str],
) -> Result<(), Fault>
    requires inside { piece.now.first + vec_len piece.now.bytes < 2 ^ 64 }
    requires limit { vec_len piece.now.bytes ≤ max_piece }
{
    let new = segments.new_parts(rt.alloc(), piece.first, &piece.bytes)?;
    print_reads(rt, &mut segments.reader_with(&new), rooms)
}

fn print_reads(
    rt: &HostRuntime,
    reader: &mut SegmentReader<'_>,
    rooms: &[&str],
) -> Result<(), Fault> {
    for room in rooms {
        print_read(rt, reader, room)?;
    }
    Ok(())
}

fn print_read(rt: &HostRuntime, reader: &mut SegmentReader<'_>, room: &str) -> Result<(), Fault> {
    let room = number_of(room)?.min(16) as usize;
    let mut buf = [0_u8; 16];
    let count = reader.read(&mut buf[..room])?;
    println!(rt; "{count}:{}", buf[..count].escape_ascii())?;
    Ok(())
}

fn print_in_order(rt: &HostRuntime, words: &[&str]) -> Result<(), Fault> {
    let parts = parts_of(rt, words)?;
    let copy = copy_in_order(rt.alloc(), &parts)?;
    print_parts(rt, &copy)
}

fn print_copy(rt: &HostRuntime, segments: &Segments) -> Result<(), Fault> {
    let copy = copy_parts(rt.alloc(), segments.parts())?;
    print_parts(rt, &copy)
}

fn ask_word(rt: &HostRuntime, segments: &Segments, command: &str) -> Result<(), Fault> {
    match command {
        "list" => print_parts(rt, segments.parts()),
        "copy" => print_copy(rt, segments),
        "count" => print_count(rt, "count", segments.count()),
        "read" => print_text(rt, segments.reader()),
        _ => Err(UNKNOWN),
    }
}

fn print_within(rt: &HostRuntime, segments: &Segments, size: &str) -> Result<(), Fault> {
    let size = number_of(size)?;
    print_flag(rt, segments.are_within(size))
}

fn print_gap(rt: &HostRuntime, segments: &Segments, size: &str) -> Result<(), Fault> {
    let size = number_of(size)?;
    if !segments.are_within(size) {
        return Err(Fault("a part reaches past the size"));
    }
    match segments.next_gap(size) {
        Some(gap) => Ok(println!(rt; "gap {} {}", gap.first, gap.end)?),
        None => print_word(rt, "none"),
    }
}

fn print_found(rt: &HostRuntime, segments: &Segments, place: &str) -> Result<(), Fault> {
    let place = number_of(place)?;
    let mut probes = 0;
    match segments.find(place, &mut probes) {
        Some(index) => Ok(println!(rt; "index {index} probes {probes}")?),
        None => print_count(rt, "none probes", u64::from(probes)),
    }
}
