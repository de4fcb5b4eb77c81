//! Reading a whole file: from bytes to holdings, to counts, or to the first reason why the file is bad.
ghost use Rattle.std.specs.Io.KnownBytes.{Consumes, IsAtEnd};
ghost use Rattle.std.specs.Prelude.{◌≡◌, ◌≤◌, ◌<◌, ℕ, List, IfErr, IfOk, IfSome, Some, length, take, vec_len};
ghost use Rattle.feed_kbart.specs.Files.{IsCountOf, IsReadOf};
ghost use Rattle.feed_kbart.specs.Kept.{IsBuilt, IsKeptOf};
ghost use Rattle.feed_kbart.specs.declared.fault.KbartFault.TheVariants as fault;
ghost use Rattle.feed_limits.specs.Limits.{file_limit};
ghost use Rattle.feed_text.specs.Records.{records_of};

use crate::count::{FileCount, RowCount};
use crate::fault::KbartFault;
use crate::file_rows::FileRows;
use crate::holdings::{Holdings, HoldingsBuilder, KeepRows};
use crate::indexed_store::IndexedStore;
use crate::list_text::ListText;
use crate::row_store::RowStore;
use feed_limits::FILE_LIMIT;
use feed_text::{Given, TextReader, check_text};
use std::alloc::{AllocError, Global};
use std::io::Read;
use std::marker::Brand;

// The sizes of the first block of bytes and of the largest. A block is filled before it is parsed, since each one has a
// reader of records of its own, which takes some 0.1 ms to make. The first one is small, since most lists are.
const FIRST_BLOCK: usize = 16_384;

const BLOCK: usize = 262_144;

const GROWTH: usize = 4;

// Fills a block, or reads to the end. Returns the number of bytes read, which is the block's length unless the reader
// has ended.
fn fill<R: Read>(reader: &mut R, block: &mut [u8]) -> Result<usize, KbartFault>
    ensures within { IfOk result (λ count. count ≤ length block.new) }
    ensures bytes { IfOk result (λ count. Consumes (R.remaining reader.old) (R.remaining reader.new)
        (take count block.new)) }
    ensures end { IfOk result (λ count. count < length block.new → IsAtEnd (R.remaining reader.new)) }
    ensures fault { IfErr result (λ why. why ≡ fault.Read) }
{
    let mut filled = 0;
    while filled < block.len() {
        match reader.read(&mut block[filled..]) {
            Ok(0) => return Ok(filled),
            Ok(count) => filled += count,
            Err(_) => return Err(KbartFault::Read),
        }
    }
    Ok(filled)
}

// Returns a block for the bytes after a full one.
fn next_block(alloc: Global, block: Vec<u8>) -> Result<Vec<u8>, AllocError>
    requires { 0 < vec_len block }
    ensures { IfOk result (λ next. 0 < vec_len next) }
{
    let size = block.len();
    if size >= BLOCK {
        return Ok(block);
    }
    vec![in alloc; 0u8; (size * GROWTH).min(BLOCK)]
}

// Reads a list to its end.
fn read_list<R: Read, K: KeepRows>(
    alloc: Global,
    reader: &mut R,
) -> Result<HoldingsBuilder<K>, KbartFault>
    ensures { (text : List ℕ) → R.remaining reader.old ≡ Some text → length text ≤ file_limit
        → IsBuilt K.keeps (records_of text) result }
{
    let mut list = ListText::new(alloc);
    let mut block = vec![in alloc; 0u8; FIRST_BLOCK]?;
    let mut total = 0;
    while total <= FILE_LIMIT {
        let count = fill(reader, &mut block)?;
        list.add(alloc, &block[..count])?;
        total += count;
        if count < block.len() {
            return if total <= FILE_LIMIT {
                list.finish(alloc)
            } else {
                Err(KbartFault::TooLong)
            };
        }
        block = next_block(alloc, block)?;
    }
    Err(KbartFault::TooLong)
}

// Reads a file and checks its bytes on the way.
fn read_rows<R: Read + Drop, K: KeepRows, G: Given>(
    alloc: Global,
    reader: R,
) -> Result<HoldingsBuilder<K>, KbartFault>
    requires { G.given ≡ R.remaining reader }
    ensures { IfSome (R.remaining reader) (λ text. IsKeptOf K.keeps text result) }
{
    let mut text = TextReader::<R, G>::new(reader);
    let kept = read_list(alloc, &mut text);
    text.finish(alloc)?;
    kept
}

/// Reads a file to its end and validates it (NISO RP-9-2014).
///
/// A file is UTF-8, with at most one byte-order mark at its front. Its records end at LF, CR or CRLF, and
/// empty lines are dropped. Tabs separate the fields, and a quote is an ordinary character. The first
/// record holds the labels, in any order.
///
/// # Errors
///
/// `Bad` with the first reason if the file is bad; `Read` if the reader fails (`Interrupted` counts as a failure);
/// `TooLong` as soon as the reader has returned more than `FILE_LIMIT` bytes. `Memory` may replace any other outcome.
pub fn read_file<R: Read + Drop>(alloc: Global, reader: R) -> Result<Holdings, KbartFault>
    ensures { IfSome (R.remaining reader) (λ text. IsReadOf text result) }
{
    let kept = read_rows::<R, IndexedStore, Brand>(alloc, reader)?;
    Holdings::of(alloc, kept)
}

/// Reads a file like `read_file`, but builds no index.
pub fn list_file<R: Read + Drop>(alloc: Global, reader: R) -> Result<FileRows, KbartFault>
    ensures { IfSome (R.remaining reader) (λ text. IsReadOf text result) }
{
    let kept = read_rows::<R, RowStore, Brand>(alloc, reader)?;
    Ok(FileRows::of(alloc, kept)?)
}

/// Reads a file like `read_file`, but counts the rows and does not keep them. Apart from the skipped records it
/// allocates memory for the longest line only.
pub fn count_file<R: Read + Drop>(alloc: Global, reader: R) -> Result<FileCount, KbartFault>
    ensures { IfSome (R.remaining reader) (λ text. IsCountOf text result) }
{
    let kept = read_rows::<R, RowCount, Brand>(alloc, reader)?;
    Ok(FileCount::of(kept))
}

/// Reads a file like `read_file` from two readers that return the same bytes. It reads the first to its end to check
/// the text, and takes the records from the second. It holds at most one block of the text at a time. The error is
/// `Read` if either reader fails.
pub fn read_parts<R: Read + Drop>(alloc: Global, check: R, read: R) -> Result<Holdings, KbartFault>
    requires { R.remaining check ≡ R.remaining read }
    ensures { IfSome (R.remaining check) (λ text. IsReadOf text result) }
{
    check_text(alloc, check)?;
    let mut read = read;
    let kept = read_list(alloc, &mut read)?;
    Holdings::of(alloc, kept)
}
