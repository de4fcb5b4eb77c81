//! The files of sites on disk: a folder of them, which is read at once or in steps, and reports of what is wrong with a
//! file.
#![tactic(auto)]

mod site_faults;
mod site_hints;
mod sites_folder;

pub use site_faults::{report_holdings, report_site};
pub use sites_folder::{FolderReading, read_folder};
