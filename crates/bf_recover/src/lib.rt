//! Reads a log back: which of its records are legal in the state that those before them gave, and
//! what they make of a store.
#![tactic(auto)]

pub mod applying;
mod commits;
mod flips;
mod free_keys;
mod keyed;
pub mod laws;
mod lookups;
mod moves;
mod places;
pub mod reopening;
mod schema;
mod spoken;
pub mod stepping;

pub use applying::apply;
pub use reopening::{LazyTables, reopen};
pub use stepping::step;
