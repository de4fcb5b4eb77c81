//! Sends the bodies of responses.
ghost use Rattle.std.specs.Prelude.{◌≡◌, ◌≤◌, ◌+◌};
ghost use Rattle.std.specs.Prelude.{IfSome, IsSomeAnd, IfErr, IsErrOf, length, take, drop, slice_range};
ghost use Rattle.feed_http.specs.Shelves.{IsCounted};
ghost use Rattle.feed_http.specs.ServerResponses.{IsSending, IsResponseFault};

use crate::serving::shelf::Shelf;
use feed_http_heads::HttpFault;
use feed_names::ReleaseName;
use std::alloc::Global;
use std::io::Write;

// The most bytes that are read from the shelf at once.
const BLOCK: u64 = 65_536;

fn send_block<W: Write, S: Shelf>(
    alloc: Global,
    writer: &mut W,
    shelf: &mut S,
    name: &ReleaseName,
    first: u64,
    len: usize,
) -> Result<(), HttpFault>
    requires { IfSome (S.files shelf.old) (λ files.
        IsSomeAnd (files name.now) (λ file. first + len ≤ length file)) }
    ensures sent { IfSome (S.files shelf.old) (λ files. IfSome (files name.now) (λ file.
        IsSending (take len (drop first file)) result (W.contents writer.old) (W.contents writer.new))) }
    ensures faults { IfErr result IsResponseFault }
    ensures kept { S.files shelf.new ≡ S.files shelf.old }
    ensures device { IsCounted (IsErrOf result HttpFault.Shelf) (S.failed shelf.old) (S.failed shelf.new) }
{
    let bytes = shelf.read(alloc, name, first, len)?;
    let Ok(()) = writer.write_all(&bytes) else {
        return Err(HttpFault::Write);
    };
    Ok(())
}

/// Sends the range of a file from the first place up to the end, in blocks.
pub(crate) fn send<W: Write, S: Shelf>(
    alloc: Global,
    writer: &mut W,
    shelf: &mut S,
    name: &ReleaseName,
    first: u64,
    end: u64,
) -> Result<(), HttpFault>
    requires ordered { first ≤ end }
    requires inside { IfSome (S.files shelf.old) (λ files.
        IsSomeAnd (files name.now) (λ file. end ≤ length file)) }
    ensures sent { IfSome (S.files shelf.old) (λ files. IfSome (files name.now) (λ file.
        IsSending (slice_range file first end) result (W.contents writer.old) (W.contents writer.new))) }
    ensures faults { IfErr result IsResponseFault }
    ensures kept { S.files shelf.new ≡ S.files shelf.old }
    ensures device { IsCounted (IsErrOf result HttpFault.Shelf) (S.failed shelf.old) (S.failed shelf.new) }
{
    let mut at = first;
    while at < end {
        let len = (end - at).min(BLOCK);
        send_block(alloc, writer, shelf, name, at, len as usize)?;
        at += len;
    }
    Ok(())
}
