//! Tests of the top call with sessions and workers on threads: what they do at the same time, how they move rows beside
//! one another, and what is left where a device fails meanwhile.
//!
//! What the schedule does is held by gates of the tests (`gates`), which wait for one another at most so long (`waiting`);
//! how a test calls the program stands in `calls`, what it reads in a report in `told`.
#![tactic(auto)]

#[cfg(test)]
mod beside;
#[cfg(test)]
mod calls;
#[cfg(test)]
mod failing;
#[cfg(test)]
mod gates;
#[cfg(test)]
mod moving;
#[cfg(test)]
mod ordinary;
#[cfg(test)]
mod scripts;
#[cfg(test)]
mod switched;
#[cfg(test)]
mod told;
#[cfg(test)]
mod waiting;
