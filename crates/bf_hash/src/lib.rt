//! A tracker of granules that are named by keys: each is free, held under a ticket, or done.
#![tactic(auto)]

pub mod rules;
pub mod state;
pub mod stripe;
mod tickets;

pub use state::{HashAnswer, HashClaim, HashState, Mark};
pub use stripe::Stripe;
