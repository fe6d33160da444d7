//! What statements, scripts and histories mean: definitions in `specs/`, with their laws and worked
//! examples that compute. The one thing that runs here is what a bound statement locks.
#![tactic(auto)]

pub mod examples;
pub mod extent_laws;
pub mod footprints;

pub use footprints::footprint;
