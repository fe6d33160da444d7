//! A tracker of granules that threads share: a lock bit and a migrate bit for each, in words that
//! change by single atomic steps.
#![tactic(auto)]

pub mod answer;
pub mod bits;
mod origin;
mod rule;
pub mod rules;
mod words;

pub use answer::Look;
pub use bits::{BitAnswer, BitClaim, BitSeat, Bits};
