//! The bytes of a log: a magic, and a chain of gates with payloads between them.

/// The text BFROGLG1, at the file's front.
pub(crate) const MAGIC: [u8; 8] = *b"BFROGLG1";

/// A log without records: the magic and a closed gate.
pub(crate) const EMPTY_LOG: [u8; 9] = *b"BFROGLG1\x00";

/// A gate with this byte is open, and one with any other is closed.
pub(crate) const OPEN_GATE: u8 = 0xa5;

/// The closed gate that is written behind a record.
pub(crate) const CLOSED_GATE: u8 = 0;

/// A payload has at most so many bytes.
pub(crate) const LONGEST_PAYLOAD: u32 = 1 << 30;

/// A length takes so many bytes, the lowest first.
pub(crate) const LENGTH_BYTES: usize = 4;

/// So many bytes stand before a payload: its gate and its length.
pub(crate) const FRAME: u64 = 1 + LENGTH_BYTES as u64;
