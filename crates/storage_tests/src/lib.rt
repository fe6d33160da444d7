//! Tests of sources and sinks, of disks and shelves in memory, of logs on them, and of a state that a log keeps, by
//! their public calls.
#![tactic(auto)]

#[cfg(test)]
mod disks;
pub mod keeper;
pub mod last;
#[cfg(test)]
mod log;
#[cfg(test)]
mod reading;
#[cfg(test)]
mod shelves;
#[cfg(test)]
mod states;
#[cfg(test)]
mod writing;
