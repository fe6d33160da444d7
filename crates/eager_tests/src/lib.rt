//! Tests of migrations that are run at once, over public calls: worked out by hand, and random ones against plain loops.
#![tactic(auto)]

#[cfg(test)]
mod entries;
#[cfg(test)]
mod naive;
#[cfg(test)]
mod random;
#[cfg(test)]
mod registries;
