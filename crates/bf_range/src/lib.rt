//! How far the value of an expression can go, whatever admitted row it is computed on: so whether it can fail.
#![tactic(auto)]

pub mod analysis;
pub mod extents;

pub use analysis::{cannot_fail, extent_of, extent_of_total, interval, longest};
pub use extents::Extent;
