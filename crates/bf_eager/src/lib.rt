//! The database that replays the entries of a history one after the other, by plain code, on one
//! thread: what later checks of a history hold it against.
#![tactic(auto)]

pub mod eager;
mod filling;
mod flip;
mod freezing;
mod gathering;
pub mod limits;
mod rows;
mod schema;
mod starting;

pub use eager::Eager;
pub use limits::{is_alone, is_narrow};
