//! The words behind the program's name, and what they ask for.
#![tactic(auto)]

pub mod examples;
mod line;
mod number;
mod verb;
mod words;

pub use words::{Words, WordsError, read_words};
