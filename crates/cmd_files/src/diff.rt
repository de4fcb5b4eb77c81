//! `kbfeed diff`: what a new list changes, and whether it removes or changes too much.
use crate::check::{file_name, open_list_file, report_file};
use crate::name_hints::{Advice, parse_meant_name};
use cmd_report::{Comparison, NamedList, compare, print_comparison};
use feed_console::{Console, DONE, FAILED, REFUSED, Watched};
use feed_kbart::{FileRows, list_file};
use feed_names::ReleaseName;
use feed_options::DiffOptions;
use std::io::{Read, Write};

// A list, and its release name.
#[derive(Drop)]
struct List {
    name: ReleaseName,
    rows: FileRows,
}

impl List {
    fn named(&self) -> NamedList<'_> {
        NamedList {
            name: &self.name,
            rows: self.rows.rows(),
            aside: self.rows.aside(),
        }
    }
}

/// Reads the old list at a path, and then compares the new list with it, as `compare_with` does. The first fault is
/// reported, and then nothing is printed to `out`. Returns the exit status: 1 for an invalid name, a file that is bad
/// or too long, and a new list that passes a bound, 3 for a failing read or print and for running out of memory.
pub fn compare_files<O: Write, F: Write + Drop>(
    old: &str,
    options: DiffOptions<'_>,
    console: &mut Console<'_, O, F>,
) -> u8 {
    match open_list(old, console) {
        Ok(old) => compare_with(old.named(), options, console),
        Err(status) => status,
    }
}

/// Reads the new list, and prints to `out` what it changes in the old one. A fault of the new list is reported, and
/// then nothing is printed to `out`. Returns the exit status, as `compare_files` does.
pub fn compare_with<O: Write, F: Write + Drop>(
    old: NamedList<'_>,
    options: DiffOptions<'_>,
    console: &mut Console<'_, O, F>,
) -> u8 {
    let new = match open_list(options.new, console) {
        Ok(new) => new,
        Err(status) => return status,
    };
    if old.name.package() != new.name.package() {
        console.faults.note(
            file_name(options.new),
            "it is of another package than the old list",
        );
    }
    compare_lists(old, new.named(), options, console)
}

fn open_list<O: Write, F: Write + Drop>(
    path: &str,
    console: &mut Console<'_, O, F>,
) -> Result<List, u8> {
    let text = file_name(path);
    let name = parse_meant_name(text, REFUSED, Advice::Rename, console)?;
    let file = open_list_file(path, console)?;
    read_list(path, name, file, console)
}

fn read_list<R: Read + Drop, O: Write, F: Write + Drop>(
    path: &str,
    name: ReleaseName,
    file: R,
    console: &mut Console<'_, O, F>,
) -> Result<List, u8> {
    let mut file = Watched::new(file);
    match list_file(console.rt.alloc(), &mut file) {
        Ok(rows) => Ok(List { name, rows }),
        Err(fault) => Err(report_file(path, fault, file, console)),
    }
}

fn compare_lists<O: Write, F: Write + Drop>(
    old: NamedList<'_>,
    new: NamedList<'_>,
    options: DiffOptions<'_>,
    console: &mut Console<'_, O, F>,
) -> u8 {
    let alloc = console.rt.alloc();
    let Ok(comparison) = compare(alloc, old.rows, new.rows) else {
        return console.faults.report("Memory", FAILED);
    };
    let status = status_of(old.rows.len(), &comparison, options);
    let out = &mut console.out;
    let printed = print_comparison(alloc, out, old, new, &comparison, options.form);
    console.faults.check_print(printed, status)
}

// Returns the status of a comparison with an old list of so many rows.
fn status_of(rows: usize, comparison: &Comparison<'_>, options: DiffOptions<'_>) -> u8 {
    let is_over = passes(rows, comparison.removed().len(), options.max_removed)
        || passes(rows, comparison.changed().len(), options.max_changed);
    if is_over { REFUSED } else { DONE }
}

// Returns whether a count is above so many percent of the rows, rounded up.
fn passes(rows: usize, count: usize, percent: Option<u64>) -> bool {
    match percent {
        Some(percent) => count as u64 > (rows as u64).saturating_mul(percent).div_ceil(100),
        None => false,
    }
}
