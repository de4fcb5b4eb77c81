//! The file with the packages that readers of a node wait for.
use feed_console::{Console, DONE, FAILED, MISUSED, open_plain_file, read_front};
use feed_keep::{Keep, LARGE_CAPACITY};
use feed_names::{NameFault, ReleaseName};
use feed_releases::{Feed, find_package};
use node_service::WantedPackage;
use std::alloc::Global;
use std::io::Write;

// The most bytes of the file.
const BYTE_LIMIT: usize = 1_048_576;

// The most packages: as many as a node may record releases.
const PACKAGE_LIMIT: usize = LARGE_CAPACITY;

// The end that makes a release name of the name of a package.
const SOME_DAY: &[u8] = b"_2000-01-01.txt";

// Why a line names no package.
#[derive(Clone, Copy)]
enum LineFault {
    /// It is neither a package nor the name of a release.
    NoName,
    /// There are too many packages before it.
    TooMany,
    Memory,
}

impl From<NameFault> for LineFault {
    fn from(fault: NameFault) -> LineFault {
        match fault {
            NameFault::Memory => LineFault::Memory,
            _ => LineFault::NoName,
        }
    }
}

/// Returns the packages that the file at a path names, or none without a path. A line has a package, or the name of a
/// release, behind which anything may follow. Blank lines and those that begin with `#` are skipped. Otherwise reports
/// the fault and returns the exit status.
pub fn read_wanted<O: Write, F: Write + Drop>(
    path: Option<&str>,
    console: &mut Console<'_, O, F>,
) -> Result<Vec<WantedPackage>, u8> {
    let alloc = console.rt.alloc();
    let mut wanted = Vec::new(alloc);
    let Some(path) = path else {
        return Ok(wanted);
    };
    let mut file = open_plain_file(path, console)?;
    let bytes = match read_front(alloc, &mut file, BYTE_LIMIT + 1) {
        Ok(bytes) => bytes,
        Err(error) => return Err(console.faults.report_read(path, error)),
    };
    if bytes.len() > BYTE_LIMIT {
        return Err(
            console.faults.report_with(
                "Wanted TooLong",
                path,
                "it has more than 1048576 bytes",
                MISUSED,
            ),
        );
    }
    for (place, line) in bytes.split(|byte| *byte == b'\n').enumerate() {
        if let Err(fault) = add_line(alloc, &mut wanted, line.trim_ascii()) {
            return Err(report_line(path, place, fault, console));
        }
    }
    Ok(wanted)
}

// Adds the package that a line names, if it names one.
fn add_line(alloc: Global, wanted: &mut Vec<WantedPackage>, line: &[u8]) -> Result<(), LineFault> {
    if line.is_empty() || line.starts_with(b"#") {
        return Ok(());
    }
    if wanted.len() >= PACKAGE_LIMIT {
        return Err(LineFault::TooMany);
    }
    let name = read_name(alloc, line)?;
    let package = match Vec::from_slice(alloc, name.package()) {
        Ok(text) => WantedPackage::new(text),
        Err(_) => return Err(LineFault::Memory),
    };
    match wanted.push(package) {
        Ok(()) => Ok(()),
        Err(_) => Err(LineFault::Memory),
    }
}

// Returns the name of a release of the package that a line names: the line's first word if this ends in `.txt`.
fn read_name(alloc: Global, line: &[u8]) -> Result<ReleaseName, LineFault> {
    let word = match line.iter().position(|byte| byte.is_ascii_whitespace()) {
        Some(end) => &line[..end],
        None => line,
    };
    if word.ends_with(b".txt") {
        return Ok(ReleaseName::parse(alloc, word)?);
    }
    let mut text = Vec::new(alloc);
    if text.extend_from_slice(line).is_err() || text.extend_from_slice(SOME_DAY).is_err() {
        return Err(LineFault::Memory);
    }
    Ok(ReleaseName::parse(alloc, &text)?)
}

// Reports why a line names no package, and returns the exit status.
fn report_line<O: Write, F: Write + Drop>(
    path: &str,
    place: usize,
    fault: LineFault,
    console: &mut Console<'_, O, F>,
) -> u8 {
    let why = match fault {
        LineFault::Memory => return console.faults.report("Memory", FAILED),
        LineFault::NoName =>
            "it is neither a package, as Acme_Global_All, nor the name of a release",
        LineFault::TooMany => "there are more than 4096 packages",
    };
    let line = place.saturating_add(1);
    console
        .faults
        .report_with(format_args!("Wanted line {line}"), path, why, MISUSED)
}

/// Reports each wanted package without an active release, or that memory ran out.
pub fn note_missing<K: Keep, O: Write, F: Write + Drop>(
    feed: &Feed<K>,
    wanted: &[WantedPackage],
    console: &mut Console<'_, O, F>,
) {
    let Ok(actives) = feed.actives() else {
        let _ = console.faults.report("Memory", DONE);
        return;
    };
    for package in wanted {
        let text = str::from_utf8(package.text()).unwrap_or("");
        if find_package(&actives, package.text()).is_none() {
            let _ = console.faults.report_with(
                format_args!("NoRelease {text}"),
                text,
                "it is wanted and has no active release, so readers get 503",
                DONE,
            );
        }
    }
}
