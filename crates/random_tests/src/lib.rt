//! Random scripts with two or three migrations: the top call replies as the one-thread database, which makes each new
//! table whole at its MIGRATE.
//!
//! `compared` has the test and what is compared; `sequence` runs a script on the one-thread database, one session behind
//! the other; `counts` counts what came up of what `cases` wants. The scripts are those of `random_scripts`.
#![tactic(auto)]

#[cfg(test)]
mod cases;
#[cfg(test)]
mod compared;
#[cfg(test)]
mod counts;
#[cfg(test)]
mod sequence;
