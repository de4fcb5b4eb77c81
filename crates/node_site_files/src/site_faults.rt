//! Reports of what is wrong with a site file, with its holdings file, and with a folder of them.
use crate::site_hints::note_meant_site;
use feed_console::{Console, FAILED, REFUSED};
use node_site::{HoldingsFault, SiteFault, SitesFault};
use node_sites::FileFault;
use std::io::Write;

/// Reports what is wrong with a site file, and returns the exit status. The name is that of the file in a folder.
pub fn report_site<O: Write, F: Write + Drop>(
    path: &str,
    name: Option<&str>,
    fault: SiteFault,
    console: &mut Console<'_, O, F>,
) -> u8 {
    let faults = &mut console.faults;
    let words = fault.words();
    let status = match (name, &fault) {
        (_, SiteFault::Memory) => faults.report("Memory", FAILED),
        (Some(name), fault) => {
            faults.report_with(format_args!("Site {name} {fault}"), path, words, REFUSED)
        }
        (None, fault) => faults.report_with(format_args!("Site {fault}"), path, words, REFUSED),
    };
    note_meant_site(path, &fault, console);
    status
}

/// Reports what is wrong with a holdings file, and returns the exit status. The name is that of the file in a folder.
pub fn report_holdings<O: Write, F: Write + Drop>(
    path: &str,
    name: Option<&str>,
    fault: HoldingsFault,
    console: &mut Console<'_, O, F>,
) -> u8 {
    let faults = &mut console.faults;
    let words = fault.words();
    match (name, fault) {
        (_, HoldingsFault::Memory) => faults.report("Memory", FAILED),
        (Some(name), fault) => {
            faults.report_with(
                format_args!("Holdings {name} {fault}"),
                path,
                words,
                REFUSED,
            )
        }
        (None, fault) => faults.report_with(format_args!("Holdings {fault}"), path, words, REFUSED),
    }
}

// Reports why the site of a file in a folder is not one of a host, and returns the exit status.
fn report_sites<O: Write, F: Write + Drop>(
    path: &str,
    name: &str,
    fault: SitesFault,
    console: &mut Console<'_, O, F>,
) -> u8 {
    match fault {
        SitesFault::Memory => console.faults.report("Memory", FAILED),
        fault => {
            let line = format_args!("Sites {name} {fault:?}");
            console
                .faults
                .report_with(line, path, fault.words(), REFUSED)
        }
    }
}

/// Reports why a file in a folder is refused, and returns the exit status.
pub fn report_file<O: Write, F: Write + Drop>(
    path: &str,
    name: &str,
    fault: FileFault,
    console: &mut Console<'_, O, F>,
) -> u8 {
    match fault {
        FileFault::TooLong => {
            let line = format_args!("Sites {name} TooLong");
            let words = "the files of the folder have more than 256 MiB";
            console.faults.report_with(line, path, words, REFUSED)
        }
        FileFault::Site(fault) => report_site(path, Some(name), fault, console),
        FileFault::Holdings(fault) => report_holdings(path, Some(name), fault, console),
        FileFault::Host(fault) => report_sites(path, name, fault, console),
    }
}
