//! What statements are made of, read from the tokens of a text: literals, columns, expressions, conditions, items,
//! and lists of them.
#![tactic(auto)]

pub mod clause;
pub mod column;
mod comparison;
pub mod condition;
pub mod cursor;
pub mod error;
pub mod examples;
pub mod expression;
mod first;
mod item;
pub mod list;
pub mod operand;
mod part;
mod start;
mod sum_operator;

pub use cursor::Cursor;
pub use error::ReadStop;
