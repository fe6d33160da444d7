//! What tracks the granules of one migration for threads that share it, and the work that one
//! record of moves is to do.
#![tactic(auto)]

pub mod ordered;
pub mod seats;
pub mod stripes;
pub mod trackers;
pub mod units;
pub mod work;

pub use ordered::add_in_order;
pub use seats::TrackerSeats;
pub use stripes::Stripes;
pub use trackers::Trackers;
pub use units::{Shape, UnitTracker, UnitTrackers};
pub use work::Work;
