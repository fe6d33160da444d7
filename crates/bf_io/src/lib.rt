//! Sources and sinks of bytes: what bytes are read from and written to, with every failure told.
#![tactic(auto)]

pub mod calm_source;
pub mod error;
pub mod memory_sink;
pub mod memory_source;
pub mod reading;
pub mod sink;
pub mod source;
pub mod writing;

pub use calm_source::CalmSource;
pub use error::{IoError, ReadError};
pub use memory_sink::MemorySink;
pub use memory_source::MemorySource;
pub use reading::read_all;
pub use sink::Sink;
pub use source::Source;
pub use writing::write_whole;
