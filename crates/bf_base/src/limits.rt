//! The limits of the language on what stands in texts and tables.

/// The most bytes of a text value.
pub const LONGEST_TEXT: usize = 255;

/// The most bytes of a name.
pub const LONGEST_NAME: usize = 63;

/// The most bytes of a script.
pub const LONGEST_SCRIPT: u32 = 1 << 24;

/// The most columns of a table, and the most items of an arm of a MIGRATE.
pub const MOST_COLUMNS: usize = 16;

/// The most rows of a table that a MIGRATE reads.
pub const MOST_ROWS: u32 = 1 << 20;
