//! The text of a script, kept while it is read.

use bf_base::LONGEST_SCRIPT;
use std::alloc::Global;

/// A copy of bytes that are read one after the other, while they are no more than a script may have, 16,777,216, and
/// there is memory for them.
#[derive(Drop)]
pub struct KeptText {
    bytes: Option<Vec<u8>>,
}

/// Bytes with further ones; `None` where they are too many, or there is no memory for them.
fn joined(mut kept: Vec<u8>, bytes: &[u8]) -> Option<Vec<u8>> {
    let room = (LONGEST_SCRIPT as usize).saturating_sub(kept.len());
    if bytes.len() > room {
        return None;
    }
    match kept.extend_from_slice(bytes) {
        Ok(()) => Some(kept),
        Err(_) => None,
    }
}

impl KeptText {
    /// The copy of nothing so far.
    pub fn new(alloc: Global) -> KeptText {
        KeptText {
            bytes: Some(Vec::new(alloc)),
        }
    }

    /// Adds bytes. Where they are too many, or there is no memory for them, nothing is kept from then on.
    pub fn add(&mut self, bytes: &[u8]) {
        if let Some(kept) = self.bytes.take() {
            self.bytes = joined(kept, bytes);
        }
    }

    /// All that was added, where it is kept.
    pub fn as_slice(&self) -> Option<&[u8]> {
        match &self.bytes {
            Some(kept) => Some(kept.as_slice()),
            None => None,
        }
    }
}
