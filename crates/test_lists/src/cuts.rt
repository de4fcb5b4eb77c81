//! Checks whether a text that arrives in pieces is UTF-8, for each way to cut it.
use crate::fault::{ListsDriverFault, file_of};
use feed_text::Utf8Check;
use test_support::Out;

// How many cuts there are, and how many of them are accepted.
#[derive(Clone, Copy)]
struct Tally {
    accepted: u64,
    all: u64,
}

impl Tally {
    fn add(&mut self, pieces: &[&[u8]]) {
        self.all = self.all.saturating_add(1);
        if is_utf8(pieces) {
            self.accepted = self.accepted.saturating_add(1);
        }
    }
}

pub fn utf8(out: &mut Out<'_>, path: &str) -> Result<(), ListsDriverFault> {
    let bytes = file_of(out.rt, path)?;
    print_cuts(out, &bytes);
    Ok(())
}

fn print_cuts(out: &mut Out<'_>, text: &[u8]) {
    out.word("whole ");
    out.flag(str::from_utf8(text).is_ok());
    out.word(" bytewise ");
    out.flag(is_utf8_bytewise(text));
    print_tally(out, " two ", two_pieces(text));
    print_tally(out, " three ", three_pieces(text));
    out.line("");
}

fn print_tally(out: &mut Out<'_>, word: &str, tally: Tally) {
    out.word(word);
    out.number(tally.accepted);
    out.word(" of ");
    out.number(tally.all);
}

fn is_utf8(pieces: &[&[u8]]) -> bool {
    let mut check = Utf8Check::new();
    for piece in pieces {
        check.feed(piece);
    }
    check.finish()
}

fn is_utf8_bytewise(text: &[u8]) -> bool {
    let mut check = Utf8Check::new();
    for byte in text {
        check.feed(&[*byte]);
    }
    check.finish()
}

fn two_pieces(text: &[u8]) -> Tally {
    let mut tally = Tally {
        accepted: 0,
        all: 0,
    };
    for end in 0..=text.len() {
        let (front, last) = text.split_at(end);
        tally.add(&[front, last]);
    }
    tally
}

fn three_pieces(text: &[u8]) -> Tally {
    let mut tally = Tally {
        accepted: 0,
        all: 0,
    };
    for end in 0..=text.len() {
        let (front, last) = text.split_at(end);
        tally = add_cuts(tally, front, last);
    }
    tally
}

// The same with each cut of the text before `last` into two.
fn add_cuts(mut tally: Tally, front: &[u8], last: &[u8]) -> Tally {
    for start in 0..=front.len() {
        let (first, second) = front.split_at(start);
        tally.add(&[first, second, last]);
    }
    tally
}
