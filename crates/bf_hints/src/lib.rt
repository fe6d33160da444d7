//! Hints for people, which the program writes to standard error beside the text of a status. Nothing is promised of them.
#![tactic(auto)]

mod calls;
mod file;
mod kept;
mod keyword;
mod line;
mod script;

pub use calls::usage_hint;
pub use file::file_hint;
pub use kept::KeptText;
pub use script::script_hint;
