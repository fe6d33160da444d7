//! SELECT, INSERT, UPDATE and DELETE on the rows of a heap under the workspace of a transaction, and on a table of the
//! live ones.
#![tactic(auto)]

pub mod answer;
pub mod change;
pub mod laws;
pub mod meaning;
pub mod merge;
pub mod on_table;
mod rows_ahead;
pub mod selection;

pub use change::changes;
pub use on_table::run_on_table;
pub use selection::select;
