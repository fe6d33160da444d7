//! Which granules of a migration a statement needs moved before it runs.
#![tactic(auto)]

mod bounds;
pub mod by_key;
mod condition;
pub mod cover;
mod drivers;
mod joined;
mod merge;
mod owning;
mod scan;
mod target;
mod transposed;

pub use by_key::{candidates, candidates_of};
pub use cover::{Cover, can_need, cover_of};
