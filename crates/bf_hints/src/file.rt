//! Faults of a file.

use bf_base::Memory;
use std::alloc::Global;
use std::io::{Error, ErrorKind};

/// What people are told of a log whose file failed, by what the system said of it last. Where that is that the file is
/// locked, another program has it open.
///
/// # Errors
/// Want of memory.
pub fn file_hint(alloc: Global, said: Error) -> Result<String, Memory> {
    let mut told = String::from_str(alloc, "the log: ")?;
    if said.kind() == ErrorKind::WouldBlock {
        told.push_str("another program has it open")?;
    } else {
        write!(told, "{said}")?;
    }
    told.push('\n')?;
    Ok(told)
}
