//! Tests of the trackers, alone and as threads share those of a migration, of the lists of claims,
//! of locks, and of tables of numbered words.
#![tactic(auto)]

#[cfg(test)]
mod beginning;
#[cfg(test)]
mod bits;
#[cfg(test)]
mod cases;
#[cfg(test)]
mod fixtures;
#[cfg(test)]
mod lists;
#[cfg(test)]
mod locks;
#[cfg(test)]
mod migrations;
#[cfg(test)]
mod stripes;
#[cfg(test)]
mod trackers;
