//! Tests of covers, over public calls: what statements behind a flip need moved, worked out by
//! hand.
#![tactic(auto)]

#[cfg(test)]
mod covers;
#[cfg(test)]
mod databases;
#[cfg(test)]
mod settings;
#[cfg(test)]
mod told;
#[cfg(test)]
mod values;
#[cfg(test)]
mod whole;
