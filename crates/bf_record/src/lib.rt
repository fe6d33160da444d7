//! What the log records, as bytes: each change has one spelling, and the reader tells whose spelling bytes are.
#![tactic(auto)]

pub mod change;
mod conditions;
mod expressions;
pub mod laws;
mod lists;
mod migrations;
mod part;
mod plain;
pub mod schema;
pub mod writes;

pub use change::{Change, decode, encode};
pub use laws::a_record_has_one_spelling;
pub use schema::SchemaChange;
pub use writes::{RowChange, TableWrite};
