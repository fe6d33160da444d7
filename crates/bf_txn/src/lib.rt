//! What a transaction has written so far.
#![tactic(auto)]

mod putting;
pub mod table_writes;
pub mod workspace;
pub mod write;
pub mod writes_ahead;

pub use table_writes::TableWrites;
pub use workspace::Workspace;
pub use write::{Write, WriteSet};
pub use writes_ahead::WritesAhead;
