//! The calls that there are.

use bf_base::Memory;
use std::alloc::Global;

/// The calls of the program, a line each.
const CALLS: &str = "\
calls: bullfrog create LOG
       bullfrog run LOG [--workers 0..8] [--retries 0..1000] [--finish] [--audit] < SCRIPT
       bullfrog try < SCRIPT
";

/// What people are told where the words are none of the program's: the calls that there are.
///
/// # Errors
/// Want of memory.
pub fn usage_hint(alloc: Global) -> Result<String, Memory> {
    Ok(String::from_str(alloc, CALLS)?)
}
