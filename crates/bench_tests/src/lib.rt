//! Tests of the loops of sessions and workers, over a bench in memory.
#![tactic(auto)]

pub mod gates;
pub mod hall;
pub mod rows;
#[cfg(test)]
mod sessions;
#[cfg(test)]
mod workers;
