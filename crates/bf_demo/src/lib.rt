//! The demonstration: a script by its size, which shows a table split while it is in use; what is shown
//! of its report; and what its last session is told.
#![tactic(auto)]

pub mod laws;
pub mod script;
pub mod showing;
mod words;

pub use script::demonstration;
pub use showing::{last_lines, shown};
