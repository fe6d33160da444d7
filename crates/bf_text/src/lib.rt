//! The exact texts of replies, refusals and reports.
//!
//! What puts something appends its text to a vector of bytes. After an `Err` the vector holds what
//! it held before.
#![tactic(auto)]

pub mod laws;
mod pieces;
mod replies;
mod reports;
mod whole;

pub use reports::report;
pub use whole::{put_number, put_refusal, put_values};
