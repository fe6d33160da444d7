//! The rows that a pass has before it, wherever they come from.

ghost use Rattle.std.specs.Prelude.{◌≡◌, drop, slice_get};
ghost use Rattle.std.specs.Option.{option_map};
ghost use Rattle.bf_query.specs.RowsAhead.{entries_ahead, listed_entries};

use bf_base::{Key, Row};
use bf_heap::Cursor;

/// Rows that are listed with their keys, of which those in front are passed.
#[derive(Drop)]
pub(crate) struct Listed<'a, 'k> {
    pub(crate) rows: &'k [(Key, &'a Row)],
}

impl<'a, 'k> Listed<'a, 'k> {
    fn get(&self) -> Option<(&Key, &'a Row)>
        ensures { option_map (λ entry. (entry.0.now, entry.1.now)) result
            ≡ slice_get (listed_entries self.now) 0 }
    {
        let (key, row) = self.rows.first()?;
        Some((key, row))
    }

    fn advance(&mut self)
        ensures { listed_entries self.new ≡ drop 1 (listed_entries self.old) }
    {
        if let [_, later @ ..] = self.rows {
            self.rows = later;
        }
    }
}

/// The rows that a pass has before it, in the order of their keys.
#[derive(Drop)]
pub(crate) enum RowsAhead<'a, 'k> {
    /// Those of a range of keys.
    InRange(Cursor<'a>),
    /// Those that an index gives.
    Listed(Listed<'a, 'k>),
}

impl<'a, 'k> RowsAhead<'a, 'k> {
    /// The first of the rows with its key, and `None` exactly where there is none. Takes no memory.
    pub(crate) fn get(&self) -> Option<(&Key, &'a Row)>
        ensures { option_map (λ entry. (entry.0.now, entry.1.now)) result
            ≡ slice_get (entries_ahead self.now) 0 }
    {
        match self {
            RowsAhead::InRange(cursor) => cursor.get(),
            RowsAhead::Listed(listed) => listed.get(),
        }
    }

    /// Goes over the first of the rows, if there is one. Takes no memory.
    pub(crate) fn advance(&mut self)
        ensures { entries_ahead self.new ≡ drop 1 (entries_ahead self.old) }
    {
        match self {
            RowsAhead::InRange(cursor) => cursor.advance(),
            RowsAhead::Listed(listed) => listed.advance(),
        }
    }
}
