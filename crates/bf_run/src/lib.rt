//! The top call: from the bytes of a script to the printed report of its run. And the journal that is a log, by which
//! a run keeps its database: each change of a store is a record of the log before it is made.
#![tactic(auto)]

mod auditing;
mod changes;
mod creating;
pub mod death_laws;
pub mod demo_laws;
mod demonstrating;
mod host;
pub mod journal_laws;
mod keeping;
pub mod laws;
pub mod log_journal;
pub mod status;
pub mod top;

pub use bf_bench::{Choice, Gate, News, OpenGate, Point};
pub use log_journal::LogJournal;
pub use status::Status;
pub use top::bullfrog;
