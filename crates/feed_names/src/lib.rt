//! Release names such as `Acme_Global_All_2024-01-01.txt`: the package and the day of a release.
#![tactic(auto)]

mod laws;
mod release_name;

pub use laws::{one_release_for_text, one_text_for_release};
pub use release_name::{NameFault, ReleaseName};
