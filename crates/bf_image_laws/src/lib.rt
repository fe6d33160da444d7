//! Laws of images by parts. Each is the contract of a function that does nothing.
#![tactic(auto)]

pub mod laws;
