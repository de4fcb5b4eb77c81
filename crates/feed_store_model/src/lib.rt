//! The tables of a feed's database: their schema, and the records that their rows mean.
#![tactic(auto)]

mod laws;

pub use laws::order_of_rows_is_free;
