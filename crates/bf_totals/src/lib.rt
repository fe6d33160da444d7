//! Totals of rows: COUNT, SUM, MIN and MAX, row by row.
#![tactic(auto)]

pub mod running;
mod sum;

pub use running::{totals, value_or_refusal};
