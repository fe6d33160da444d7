//! Locks on the catalog, on tables and on single keys, in five modes, by wait-die.
#![tactic(auto)]

pub mod answer;
mod holdings;
mod judgement;
pub mod mode;
pub mod name;
mod owners;
pub mod table;

pub use answer::{LockAnswer, no_cycle_of_waits};
pub use mode::{Mode, compatible, join};
pub use name::LockName;
pub use table::LockTable;
