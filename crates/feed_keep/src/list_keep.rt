//! `ListKeep`, the implementation of `Keep` in memory.
ghost use Rattle.std.specs.Prelude.{◌≡◌, ◌↔◌, ◌≤◌, [], false, Some, None, IfOk, IfSome, IfNone, OnOk, OnErr, length};
ghost use Rattle.std.specs.Prelude.{insert, not, IsPermutation};
ghost use Rattle.std.specs.List.{IsDistinct};
ghost use Rattle.std.specs.Ordering.{is_lt};
ghost use Rattle.feed_names.specs.ReleaseName.{name_eq};
ghost use Rattle.feed_model.specs.Content.{names, record_of};
ghost use Rattle.feed_model.specs.Change.{changed, comes_before, insert_record};
ghost use Rattle.feed_model.specs.Change.{is_earlier, new_record, without_earlier};
ghost use Rattle.feed_parts.specs.Shown.{shown_parts};
ghost use Rattle.feed_keep.specs.Arranged.{lengthened, ordered};
ghost use Rattle.feed_keep.specs.Order.{AreNamesInOrder};
ghost use Rattle.feed_keep.specs.Shown.{shown, shown_record, IsRecordAt};

use crate::keep::{Change, Keep};
use crate::record::Record;
use feed_kbart::BadFile;
use feed_model::{KeepFault, State};
use feed_names::ReleaseName;
use feed_parts::{Part, copy_in_order, copy_parts};
use std::alloc::{AllocError, Global};
use std::cmp::Ordering;

/// A keeper in memory. Its records are ordered by the texts of their names, each with its parts in the order in which
/// they were committed. `load` sorts the parts. It has no device that could fail.
#[derive(Drop)]
pub struct ListKeep {
    alloc: Global,
    records: Vec<Record>,
    loads: u64,
    ghost order: { AreNamesInOrder (names (shown records.items)) },
}

impl ListKeep {
    ghost use Rattle.feed_keep.specs.Arranged.{IsArranged};
    ghost use Rattle.feed_keep.specs.InMemory.{content_of_list};

    /// Returns a keeper without records. Does not allocate.
    pub fn new(alloc: Global) -> ListKeep
        ensures { content_of_list result ≡ [] }
    {
        ListKeep {
            alloc,
            records: Vec::new(alloc),
            loads: 0,
        }
    }

    /// Returns a keeper of the given records, which it sorts. Does not allocate. If a name appears twice, `load`
    /// returns `Damaged`.
    pub fn of(alloc: Global, records: Vec<Record>) -> ListKeep
        ensures { IsArranged (shown records.items) (content_of_list result) }
    {
        let mut records = records;
        sort_by_name(&mut records);
        ListKeep {
            alloc,
            records,
            loads: 0,
        }
    }
}

impl Keep for ListKeep {
    ghost use Rattle.feed_keep.specs.InMemory.{IsListed, content_of_list};

    ghost content = { content_of_list };

    ghost clean = { λ _. Unit {0} };

    ghost listed = { IsListed };

    ghost failed = { λ _. 0 };

    ghost loads = { λ keeper. keeper.loads };

    fn failures(&self) -> u64 {
        0
    }

    fn load(&mut self, alloc: Global) -> Result<Vec<Record>, KeepFault> {
        self.loads = self.loads.saturating_add(1);
        if has_twice(&self.records) {
            return Err(KeepFault::Damaged);
        }
        match copy_records(alloc, &self.records) {
            Ok(records) => Ok(records),
            Err(_) => Err(KeepFault::Memory),
        }
    }

    fn commit(&mut self, change: &Change<'_>) -> Result<(), KeepFault> {
        let done = match change {
            Change::Add { name, size } => add(self.alloc, &mut self.records, name, *size),
            Change::Pieces { name, parts } => {
                grow(
                    self.alloc,
                    &mut self.records,
                    name,
                    parts,
                    State::Staged,
                    None,
                )
            }
            Change::Break {
                name,
                parts,
                reason,
            } => {
                let reason = Some(*reason);
                grow(
                    self.alloc,
                    &mut self.records,
                    name,
                    parts,
                    State::Broken,
                    reason,
                )
            }
            Change::Activate { name, parts } => {
                activate(self.alloc, &mut self.records, name, parts)
            }
        };
        match done {
            Ok(()) => Ok(()),
            Err(_) => Err(KeepFault::Memory),
        }
    }
}

fn add(
    alloc: Global,
    records: &mut Vec<Record>,
    name: &ReleaseName,
    size: u64,
) -> Result<(), AllocError>
    ensures ok { OnOk result (shown records.new.items ≡ insert_record (new_record name.now size)
        (shown records.old.items)) }
    ensures err { OnErr result (shown records.new.items ≡ shown records.old.items) }
{
    let at = place_for(records, name);
    records.insert(at, Record::new(alloc, name.try_clone()?, size))?;
    Ok(())
}

fn grow(
    alloc: Global,
    records: &mut Vec<Record>,
    name: &ReleaseName,
    parts: &[Part],
    state: State,
    reason: Option<BadFile>,
) -> Result<(), AllocError>
    ensures ok { OnOk result (shown records.new.items
        ≡ changed name.now (lengthened (shown_parts parts.now) state reason) (shown records.old.items)) }
    ensures err { OnErr result (shown records.new.items ≡ shown records.old.items) }
{
    let Some(at) = find_record(records, name) else {
        return Ok(());
    };
    let mut new = copy_parts(alloc, parts)?;
    let record = &mut records[at];
    record.parts.append(&mut new)?;
    record.state = state;
    record.reason = reason.or(record.reason);
    Ok(())
}

fn activate(
    alloc: Global,
    records: &mut Vec<Record>,
    name: &ReleaseName,
    parts: &[Part],
) -> Result<(), AllocError>
    ensures ok { OnOk result (shown records.new.items ≡ without_earlier name.now
        (changed name.now (lengthened (shown_parts parts.now) State.Active None) (shown records.old.items))) }
    ensures err { OnErr result (shown records.new.items ≡ shown records.old.items) }
{
    grow(alloc, records, name, parts, State::Active, None)?;
    drop_earlier(records, name);
    Ok(())
}

fn drop_earlier(records: &mut Vec<Record>, name: &ReleaseName)
    ensures { shown records.new.items ≡ without_earlier name.now (shown records.old.items) }
{
    records.retain(
        |record: &Record| -> bool
            ensures { result ≡ not (is_earlier record.now.name name.entry.now) }
        { !is_earlier(&record.name, name) },
    );
}

fn find_record(records: &[Record], name: &ReleaseName) -> Option<usize>
    ensures found { IfSome result (λ i. IsRecordAt records.now name.now i) }
    ensures none { IfNone result (record_of (shown records.now) name.now ≡ None) }
{
    for (at, record) in records.iter().enumerate() {
        if record.name == *name {
            return Some(at);
        }
    }
    None
}

fn place_for(records: &[Record], name: &ReleaseName) -> usize
    ensures within { result ≤ length records.now }
    ensures place { (r : _) → (shown_record r).name ≡ name.now
        → shown (insert records.now result r) ≡ insert_record (shown_record r) (shown records.now) }
{
    for (at, record) in records.iter().enumerate() {
        if !is_listed_before(&record.name, name) {
            return at;
        }
    }
    records.len()
}

fn sort_by_name(records: &mut Vec<Record>)
    ensures permutation { IsPermutation records.old.items records.new.items }
    ensures order { AreNamesInOrder (names (shown records.new.items)) }
{
    records.sort_unstable_by(
        |one: &Record, other: &Record| -> Ordering
            ensures { is_lt result ≡ comes_before one.now.name other.now.name }
        { one.name.text().cmp(&other.name.text()) },
    );
}

// Returns whether a name appears twice.
fn has_twice(records: &[Record]) -> bool
    ensures { result ≡ false ↔ IsDistinct name_eq (names (shown records.now)) }
{
    for (at, record) in records.iter().enumerate() {
        if let Some(_) = find_record(&records[..at], &record.name) {
            return true;
        }
    }
    false
}

// Copies the records, and sorts the parts of each.
fn copy_records(alloc: Global, records: &[Record]) -> Result<Vec<Record>, AllocError>
    ensures { IfOk result (λ copy. shown copy.items ≡ ordered (shown records.now)) }
{
    let mut copy = Vec::with_capacity(alloc, records.len())?;
    for record in records {
        let record = Record {
            name: record.name.try_clone()?,
            size: record.size,
            state: record.state,
            reason: record.reason,
            parts: copy_in_order(alloc, &record.parts)?,
        };
        copy.push(record)?;
    }
    Ok(copy)
}

/// Returns whether the text of a name is less than that of another one, by bytes.
pub fn is_listed_before(name: &ReleaseName, other: &ReleaseName) -> bool
    ensures { result ≡ comes_before name.now other.now }
{
    name.text().cmp(&other.text()).is_lt()
}

/// Returns whether both are of one package, and the other is of a later day.
pub fn is_earlier(name: &ReleaseName, other: &ReleaseName) -> bool
    ensures { result ≡ is_earlier name.now other.now }
{
    name.earlier_than(other)
}
