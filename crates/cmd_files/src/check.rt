//! `kbfeed check`: what files hold, or why they are bad.
use crate::bad_list::{note_bad_file, note_bad_list};
use crate::name_hints::{Advice, parse_meant_name};
use cmd_report::ListReport;
use feed_console::{Console, DONE, FAILED, MISUSED, REFUSED, Watched, read_front};
use feed_kbart::{BadFile, FileCount, KbartFault, count_file};
use feed_limits::FILE_LIMIT;
use feed_options::CheckOptions;
use std::alloc::Global;
use std::fs;
use std::fs::File;
use std::io::{ErrorKind, Read, Write};

// The limit of a file, as `-v` prints it.
const LONG_FILE: &str = "a list has at most 268,435,456 bytes";

/// Checks the files at these paths, or standard input for the path `-`, one after another, and prints what each holds.
/// Returns the highest exit status of a file, or `MISUSED` for a name without `-` and for `-` without one.
pub fn check_files<O: Write, F: Write + Drop>(
    paths: &[&str],
    options: CheckOptions<'_>,
    console: &mut Console<'_, O, F>,
) -> u8 {
    if !options.name.is_empty() && !paths.iter().any(|path| *path == "-") {
        return console.faults.report_with(
            "--name NAME needs FILE -",
            "--name",
            "leave it out, or give - for standard input",
            MISUSED,
        );
    }
    let mut status = DONE;
    for path in paths {
        status = status.max(check_path(path, options, console));
    }
    status
}

// Checks the file at a path, or standard input.
fn check_path<O: Write, F: Write + Drop>(
    path: &str,
    options: CheckOptions<'_>,
    console: &mut Console<'_, O, F>,
) -> u8 {
    if path == "-" {
        if options.name.is_empty() {
            return console.faults.report_with(
                "- needs --name NAME",
                "-",
                "say what the list is called, as --name Acme_2024-01-01.txt",
                MISUSED,
            );
        }
        let input = console.rt.reader();
        return check_file(path, options.name, input, options, console);
    }
    let status = match open_list_file(path, console) {
        Ok(file) => check_file(path, file_name(path), file, options, console),
        Err(status) => status,
    };
    if status != DONE && is_folder(console.rt, path) {
        let hint = format_args!("it is a folder: give its files, as {path}/*.txt");
        console.faults.note(path, hint);
    }
    status
}

/// Opens the list at a path, or reports the error and returns the exit status.
pub fn open_list_file<O: Write, F: Write + Drop>(
    path: &str,
    console: &mut Console<'_, O, F>,
) -> Result<File, u8> {
    match File::open(console.rt, path) {
        Ok(file) => Ok(file),
        Err(error) if error.kind() == ErrorKind::NotFound => {
            let cause = format_args!("{error}: is it in another folder?");
            Err(console.faults.report_with("Read", path, cause, FAILED))
        }
        Err(error) => Err(console.faults.report_read(path, error)),
    }
}

fn is_folder(rt: &HostRuntime, path: &str) -> bool {
    match fs::metadata(rt, path) {
        Ok(found) => found.is_dir(),
        Err(_) => false,
    }
}

// Reads a file under its name and prints what it holds: `release NAME`, `rows N aside M`, and a line
// `aside NUMBER REASON` for each record that is skipped, or what `Form` has in place of it. A bad file prints
// `broken REASON` in place of the last two. A fault is reported. Returns the exit status: 1 for an invalid name, a file
// that is bad or too long, and a strict check that skips a record, 3 for a failing read or print and for running out of
// memory.
fn check_file<R: Read + Drop, O: Write, F: Write + Drop>(
    path: &str,
    text: &str,
    file: R,
    options: CheckOptions<'_>,
    console: &mut Console<'_, O, F>,
) -> u8 {
    let alloc = console.rt.alloc();
    let name = match parse_meant_name(text, REFUSED, Advice::Rename, console) {
        Ok(name) => name,
        Err(status) => return status,
    };
    let mut report = ListReport {
        alloc,
        name: &name,
        form: options.form,
        text: &[],
        lists_all: options.lists_all,
    };
    if let Err(error) = report.print_release(&mut console.out) {
        return console.faults.check_print(Err(error), FAILED);
    }
    let mut file = Watched::new(file);
    let mut kept = Vec::new(alloc);
    let counted = if options.form.is_explained() {
        read_kept(alloc, &mut file, &mut kept)
    } else {
        count_file(alloc, &mut file)
    };
    report.text = &kept;
    match counted {
        Ok(count) => {
            let status = status_of(&count, options.is_strict);
            let status = console
                .faults
                .check_print(report.print_count(&mut console.out, &count), status);
            if count.rows() == 0 {
                let hint = "it has no row that counts: a node would find nothing in it";
                console.faults.note(text, hint);
            }
            status
        }
        Err(KbartFault::Bad(why)) => {
            let status = console
                .faults
                .check_print(report.print_broken(&mut console.out, why), REFUSED);
            note_bad(path, &report, why, console);
            status
        }
        Err(fault) => match console.out.flush() {
            Ok(()) => report_unread(fault, text, file, console),
            Err(error) => console.faults.check_print(Err(error), FAILED),
        },
    }
}

// Notes what is known of a bad file. It can be read again, but standard input only if its text is kept.
fn note_bad<O: Write, F: Write + Drop>(
    path: &str,
    report: &ListReport<'_>,
    why: BadFile,
    console: &mut Console<'_, O, F>,
) {
    let text = str::from_utf8(report.name.text()).unwrap_or("");
    if path == "-" {
        note_bad_list(report.text, text, why, console);
    } else {
        note_bad_file(path, text, why, console);
    }
}

// Returns the status of a good file: a strict check refuses one with a record that is skipped.
fn status_of(count: &FileCount, is_strict: bool) -> u8 {
    if is_strict && !count.aside().is_empty() {
        REFUSED
    } else {
        DONE
    }
}

// Reads a file, keeps its text, and counts its rows.
fn read_kept<R: Read>(
    alloc: Global,
    file: &mut R,
    kept: &mut Vec<u8>,
) -> Result<FileCount, KbartFault> {
    match read_front(alloc, file, FILE_LIMIT + 1) {
        Ok(text) => *kept = text,
        Err(error) if error.kind() == ErrorKind::OutOfMemory => return Err(KbartFault::Memory),
        Err(_) => return Err(KbartFault::Read),
    }
    count_file(alloc, kept.as_slice())
}

/// Reports why the file at a path was not read, or is bad, and returns the status.
pub fn report_file<R: Read + Drop, O: Write, F: Write + Drop>(
    path: &str,
    fault: KbartFault,
    file: Watched<R>,
    console: &mut Console<'_, O, F>,
) -> u8 {
    let text = file_name(path);
    let status = report_unread(fault, text, file, console);
    if let KbartFault::Bad(why) = fault {
        note_bad_file(path, text, why, console);
    }
    status
}

// Reports why a file was not read, or is bad, and returns the status.
fn report_unread<R: Read + Drop, O: Write, F: Write + Drop>(
    fault: KbartFault,
    text: &str,
    file: Watched<R>,
    console: &mut Console<'_, O, F>,
) -> u8 {
    match fault {
        KbartFault::Memory => console.faults.report(fault, FAILED),
        KbartFault::Read => console.faults.report_read(text, file.into_cause()),
        KbartFault::TooLong => console.faults.report_with(fault, text, LONG_FILE, REFUSED),
        KbartFault::Bad(_) => console
            .faults
            .report_with(fault, text, "the file is bad", REFUSED),
    }
}

/// Returns the last part of a path, after its last `/`.
pub fn file_name(path: &str) -> &str {
    match path.rsplit_once('/') {
        Some((_, name)) => name,
        None => path,
    }
}
