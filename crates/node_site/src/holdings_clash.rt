//! Rows of a holdings file that contradict each other.
ghost use Rattle.std.specs.Prelude.{◌≡◌, ◌≤◌, ◌<◌, ◌+◌, IfNone, IfSome, length};
ghost use Rattle.node_site.specs.HoldingsEntries.{AreHashed, hash_of};
ghost use Rattle.node_site.specs.HoldingsFaults.{contradicts, is_subject};
ghost use Rattle.node_site.specs.HoldingsFiles.{subject_at};
ghost use Rattle.node_site.specs.HoldingsIndex.{IsClash, IsPeacefulBelow};
ghost use Rattle.node_site.specs.Limits.{holdings_limit};

use crate::cells::{at_line, line_at, subject_at};
use crate::entry::Entry;
use crate::fault::ValueFault;
use crate::holdings_fault::BadLine;

fn is_subject(one: (&[u8], &[u8]), other: (&[u8], &[u8])) -> bool
    ensures { result ≡ is_subject (one.entry.0.now, one.entry.1.now) (other.entry.0.now, other.entry.1.now) }
{
    one.0 == other.0 && one.1 == other.1
}

fn contradicts(text: &[u8], one: usize, other: usize) -> bool
    ensures { result ≡ contradicts text.now one other }
{
    is_subject(subject_at(text, one), subject_at(text, other))
        && line_at(text, one) != line_at(text, other)
}

// Returns whether the rows of two entries contradict each other. If they do, their hashes are the same.
fn is_clash(text: &[u8], one: Entry, other: Entry) -> bool
    requires one { one.hash ≡ hash_of (subject_at text.now one.start) }
    requires other { other.hash ≡ hash_of (subject_at text.now other.start) }
    ensures { result ≡ contradicts text.now one.start other.start }
{
    one.hash == other.hash && contradicts(text, one.start as usize, other.start as usize)
}

// Returns the fault if the row of an entry contradicts that of the one before it: of the two rows, that of the one that
// comes later in the file.
fn clash_at(text: &[u8], entries: &[Entry], index: usize) -> Option<BadLine>
    requires short { length text.now ≤ holdings_limit }
    requires within { index < length entries.now }
    requires hashed { AreHashed text.now entries.now }
    ensures none { IfNone result (IsPeacefulBelow text.now entries.now index
        → IsPeacefulBelow text.now entries.now (index + 1)) }
    ensures some { IfSome result (IsClash text.now entries.now) }
{
    if index == 0 {
        return None;
    }
    let one = entries[index - 1];
    let other = entries[index];
    if is_clash(text, one, other) {
        let later = one.start.max(other.start) as usize;
        Some(at_line(text, later, ValueFault::Contradicts))
    } else {
        None
    }
}

/// Returns the fault of a row that contradicts another one, among some entries from a first one up to another.
pub(crate) fn clash_in(text: &[u8], entries: &[Entry], from: usize, to: usize) -> Option<BadLine>
    requires short { length text.now ≤ holdings_limit }
    requires forward { from ≤ to }
    requires within { to ≤ length entries.now }
    requires hashed { AreHashed text.now entries.now }
    requires so_far { IsPeacefulBelow text.now entries.now from }
    ensures none { IfNone result (IsPeacefulBelow text.now entries.now to) }
    ensures some { IfSome result (IsClash text.now entries.now) }
{
    for index in from..to {
        if let Some(fault) = clash_at(text, entries, index) {
            return Some(fault);
        }
    }
    None
}
