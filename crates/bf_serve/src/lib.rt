//! Sessions and workers of a run on threads: a machine beside its journal under one lock, and what each thread does to
//! them in sections.
#![tactic(auto)]

mod ahead;
pub mod bench;
mod catalogs;
pub mod engine;
pub mod finishing;
pub mod phases;
pub mod requests;
pub mod seats;
mod sections;
pub mod shared;
mod upcoming;

pub use finishing::{all_granules, finish_migration};
pub use phases::{Crew, serve_script};
