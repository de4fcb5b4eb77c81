//! Holdings as the XML of Google Scholar's library links programme: an item for each row of a serial, with its title,
//! its ISSNs, its coverage and its embargo.
#![tactic(auto)]

mod embargo;
mod fragment;
mod item;
mod laws;
mod names;
mod writing;

pub use item::{LeftOut, count_left_out, left_out, put_item};
pub use laws::{
    export_is_balanced, export_is_written, export_reads_back, item_has_row, spans_are_counted,
};
pub use writing::{write_end, write_items, write_start};
