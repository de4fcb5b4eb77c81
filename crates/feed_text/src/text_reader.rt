//! Readers that check a text while it is read: UTF-8, byte-order marks and size.
ghost use Rattle.std.specs.Prelude.{◌≡◌, ◌<◌, ◌⊎◌, Option, List, ℕ, None, IfSome, OnErr, OnOk, true, false};
ghost use Rattle.feed_limits.specs.Limits.{file_limit};
ghost use Rattle.feed_text.specs.Checks.{IsCheckResult, IsReadTo};
ghost use Rattle.feed_text.specs.Failures.{has_failed};
ghost use Rattle.feed_text.specs.declared.fault.TextFault.TheVariants as fault;

use crate::fault::TextFault;
use crate::noted_reader::NotedReader;
use crate::text_check::TextCheck;
use feed_limits::FILE_LIMIT;
use std::alloc::Global;
use std::io;
use std::io::{ErrorKind, Read};
use std::marker::{Brand, PhantomData};

// The number of bytes read at once.
const BLOCK: usize = 65_536;

/// The text that is being read, if it is known. Each call chooses it. It exists in contracts only.
pub trait Given {
    ghost given: { Option (List ℕ) };
}

impl Given for Brand {
    ghost given = { None };
}

/// A reader that passes on the bytes of another reader and checks them on the way.
#[derive(Drop)]
pub struct TextReader<R: Read, G: Given> {
    reader: NotedReader<R>,
    check: TextCheck,
    of: PhantomData<G>,
    ghost read: { ∥ IsReadTo G.given (R.remaining reader.reader) check ∥₁ },
}

// Reads the rest of a text and checks all of it, unless the reader has failed.
fn check_rest<R: Read>(
    alloc: Global,
    reader: &mut NotedReader<R>,
    check: TextCheck,
) -> Result<(), TextFault>
    ensures checked { (given : Option (List ℕ)) → IsReadTo given (R.remaining reader.old.reader) check
        → IfSome given (λ text. IsCheckResult text result) }
    ensures failed { has_failed reader.new ≡ true → result ≡ Err fault.Read }
    ensures cause { result ≡ Err fault.Read → has_failed reader.new ≡ true }
    ensures stays { has_failed reader.old ≡ true → has_failed reader.new ≡ true }
{
    if reader.has_failed() {
        return Err(TextFault::Read);
    }
    let mut check = check;
    let mut block = vec![in alloc; 0u8; BLOCK]?;
    while check.total <= FILE_LIMIT {
        match reader.read(&mut block) {
            Ok(0) => return check.finish(),
            Ok(count) => check.feed(&block[..count]),
            Err(_) => return Err(TextFault::Read),
        }
    }
    Err(TextFault::TooLong)
}

/// Reads a text to its end and checks it. It holds one block of the text at a time.
///
/// # Errors
///
/// `NotUtf8` or `TwoMarks` if the text is bad; `Read` if the reader fails; `TooLong` as soon as the reader has returned
/// more than `FILE_LIMIT` bytes. `Memory` may replace any other outcome.
pub fn check_text<R: Read + Drop>(alloc: Global, reader: R) -> Result<(), TextFault>
    ensures { IfSome (R.remaining reader) (λ text. IsCheckResult text result) }
{
    check_rest(alloc, &mut NotedReader::new(reader), TextCheck::new())
}

impl<R: Read + Drop, G: Given> TextReader<R, G> {
    /// Returns a reader that has read nothing.
    pub fn new(reader: R) -> TextReader<R, G>
        requires { G.given ≡ R.remaining reader }
        ensures left { R.remaining result.reader.reader ≡ R.remaining reader }
        ensures fresh { has_failed result.reader ≡ false }
    {
        TextReader {
            reader: NotedReader::new(reader),
            check: TextCheck::new(),
            of: PhantomData,
        }
    }

    /// Reads the rest, and returns why the text is bad or could not be read, as `check_text` does.
    pub fn finish(self, alloc: Global) -> Result<(), TextFault>
        ensures checked { IfSome G.given (λ text. IsCheckResult text result) }
        ensures failed { has_failed self.reader ≡ true → result ≡ Err fault.Read }
    {
        let TextReader {
            mut reader,
            check,
            ..
        } = self;
        check_rest(alloc, &mut reader, check)
    }
}

impl<R: Read, G: Given> Read for TextReader<R, G> {
    ghost use Rattle.std.specs.Io.{ReadsAtMost};
    ghost use Rattle.std.specs.Io.KnownBytes.{ReadConsumes};

    ghost remaining = { λ t. R.remaining t.reader.reader };

    fn read(&mut self, buf: &mut [u8]) -> io::Result<usize>
        ensures bound { ReadsAtMost result buf.new }
        ensures bytes { ReadConsumes (R.remaining self.old.reader.reader) (R.remaining self.new.reader.reader)
            result buf.new }
        ensures noted { OnErr result ((has_failed self.new.reader ≡ true) ⊎ (file_limit < self.new.check.total)) }
        ensures same { OnOk result (has_failed self.new.reader ≡ has_failed self.old.reader) }
        ensures stays { has_failed self.old.reader ≡ true → has_failed self.new.reader ≡ true }
    {
        if self.check.total > FILE_LIMIT {
            return Err(ErrorKind::FileTooLarge.into());
        }
        match self.reader.read(buf) {
            Ok(count) => {
                self.check.feed(&buf[..count]);
                Ok(count)
            }
            Err(error) => Err(error),
        }
    }
}
