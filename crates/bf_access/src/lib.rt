//! By which way the rows are found on which a condition may be met: by a range of keys, or by an index.
#![tactic(auto)]

pub mod by_index;
pub mod range;

pub use by_index::{index_for, keys_by_index, rows_by_index};
pub use range::key_range;
