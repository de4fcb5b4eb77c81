//! Documents of XML 1.0: their tags, and their texts, in which U+FFFD replaces each character that XML does not have.
#![tactic(auto)]

mod characters;
mod fragment;
mod laws;
mod tags;

pub use characters::put_text;
pub use fragment::XmlFragment;
pub use laws::{allowed_has_no_controls, allowed_is_itself, marks_read_back};
pub use tags::{DECLARATION, put_closed, put_leaf, put_number_leaf, put_opened};
