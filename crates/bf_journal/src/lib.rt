//! A state that is what the records of a log give in turn: what a crash may leave of it, and how it
//! is reopened.
#![tactic(auto)]

pub mod appending;
pub mod laws;
pub mod reopening;
pub mod state;

pub use appending::{append_change, give_up};
pub use reopening::reopen;
pub use state::{Reader, State};
