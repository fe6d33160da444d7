//! From the bytes of a script to its tree.
#![tactic(auto)]

mod arm;
mod create;
mod migrate;
mod query;
mod scripts;
mod session;
mod statement;

pub use scripts::script;
