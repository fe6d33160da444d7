//! Numbered cases: tables of pairs of a number and a word, read by either.
#![tactic(auto)]

pub mod cases;
mod numbers;

pub use cases::{Cases, of_cases};
