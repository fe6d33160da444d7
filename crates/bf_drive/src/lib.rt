//! What an actor of a migration keeps while it moves granules: claims with their granules, and
//! granules to look at again.
#![tactic(auto)]

pub mod claim;
pub mod skip;
pub mod wip;

/// How many granules a list of either kind has places for.
pub const PLACES: usize = 64;

pub use claim::Claim;
pub use skip::Skip;
pub use wip::Wip;
