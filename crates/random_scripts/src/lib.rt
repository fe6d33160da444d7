//! Random scripts, and what the one-thread database tells of their groups.
//!
//! `writer` writes a script from a seed, with `pen`, by the forms of `forms`, `tables` and `changes`, and keeps in
//! `asked` what it asks. `replay` runs whole groups (`group`) on the one-thread database, which makes each new table
//! whole at its MIGRATE.
#![tactic(auto)]

pub mod asked;
pub mod changes;
pub mod forms;
pub mod group;
pub mod pen;
pub mod replay;
pub mod schema;
pub mod tables;
pub mod writer;

pub use replay::{Replay, front};
pub use writer::Writer;
