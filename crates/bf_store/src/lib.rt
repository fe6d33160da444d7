//! The lazy store: live tables into which the rows of a migration move late, and the laws of such
//! states.
#![tactic(auto)]

mod anchor;
mod done;
mod flip;
pub mod images;
pub mod laws;
pub mod moved;
mod movement;
mod row_numbers;
pub mod store;
mod told;
mod under_way;
mod unit_marks;

pub use images::Images;
pub use moved::{MOST_MOVED, Moved, Receipt};
pub use store::Store;
