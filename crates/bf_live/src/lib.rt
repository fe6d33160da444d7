//! The committed tables: a catalog, and the rows of each of its tables in a heap.
#![tactic(auto)]

mod by_name;
mod commit;
mod draft;
pub mod footprint_laws;
pub mod laws;
pub mod live_tables;
pub mod puts;
mod sizes;

pub use live_tables::{Exchange, LiveTables};
pub use puts::Puts;
