//! A log of records on a disk: who was told that a record is stored finds it after every crash.
#![tactic(auto)]

pub mod create;
pub mod error;
mod format;
mod head;
pub mod laws;
pub mod log;
pub mod opening;

pub use create::create_log;
pub use error::{AppendError, CreateError, OpenError};
pub use head::open_log;
pub use log::{Log, Standing};
pub use opening::{Next, Opening, Progress};
