//! Places among the rows of a heap.

ghost use Rattle.std.specs.Prelude.{◌≡◌, ◌++◌, List, drop, filter, not, IsTrue, slice_get};
ghost use Rattle.std.specs.List.{list_all};
ghost use Rattle.std.specs.Option.{option_map};
ghost use Rattle.bf_base.specs.Maps.{is_map};
ghost use Rattle.bf_base.specs.Values.{key_cmp};
ghost use Rattle.bf_heap.specs.Heaps.{Entry, key_of_entry};
ghost use Rattle.bf_heap.specs.KeyRanges.{is_before};
ghost use Rattle.bf_heap.specs.Pages.{is_used_page, rows_of};

use crate::key_range::KeyRange;
use crate::page::Page;
use bf_base::{Key, Row};
use std::marker::Model;

/// A place in the order of the keys of a heap: that of a row, or the one behind the last row of
/// those that it goes over. Contracts see the keys and the rows that are ahead, from that of the
/// place on. To read a row and to go on take constant time.
#[derive(Drop)]
pub struct Cursor<'a> {
    // What is ahead in the page of the place. Without rows only behind the last row.
    rows: &'a [(Key, Row)],
    // The whole pages behind it.
    pages: &'a [Page],
    // The front of one more page, where the rows end within it.
    last: &'a [(Key, Row)],
}

impl<'a> Model for Cursor<'a> {
    ghost use Rattle.std.specs.Prelude.{List, ◌++◌};
    ghost use Rattle.bf_heap.specs.Heaps.{Entry};
    ghost use Rattle.bf_heap.specs.Pages.{rows_of, IsAhead};

    ghost Value = { List Entry };

    ghost view = { λ cursor. cursor.rows.now ++ (rows_of cursor.pages.now ++ cursor.last.now) };

    ghost invariant = { λ cursor. IsAhead cursor.rows.now cursor.pages.now cursor.last.now };
}

impl<'a> Cursor<'a> {
    /// The place of the first row of whole pages and the front of one more. Takes no memory.
    pub(crate) fn new(pages: &'a [Page], last: &'a [(Key, Row)]) -> Cursor<'a>
        requires { IsTrue (list_all is_used_page pages.now) }
        ensures { result ≡ rows_of pages.now ++ last.now }
    {
        match pages {
            [] => Cursor {
                rows: last,
                pages,
                last: &[],
            },
            [page, later @ ..] => Cursor {
                rows: page.rows(),
                pages: later,
                last,
            },
        }
    }

    /// The place of the first row of these that does not come before the low end of a range. It
    /// compares about log n keys, and takes no memory.
    pub(crate) fn from_low(
        pages: &'a [Page],
        last: &'a [(Key, Row)],
        range: &KeyRange,
    ) -> Cursor<'a>
        requires used { IsTrue (list_all is_used_page pages.now) }
        requires in_order { IsTrue (is_map key_cmp key_of_entry (rows_of pages.now ++ last.now)) }
        ensures { result ≡ filter (λ entry. not (is_before range.now.low entry.0))
            (rows_of pages.now ++ last.now) }
    {
        let before = pages.partition_point(|page| page.ends_before(range));
        if before == pages.len() {
            return Cursor {
                rows: range.from_low(last),
                pages: &[],
                last: &[],
            };
        }
        Cursor {
            rows: range.from_low(pages[before].rows()),
            pages: &pages[before + 1..],
            last,
        }
    }

    /// The key and the row at the place, and `None` exactly behind the last row. Takes no memory.
    pub fn get(&self) -> Option<(&'a Key, &'a Row)>
        ensures { option_map (λ entry. (entry.0.now, entry.1.now)) result ≡ slice_get self.now 0 }
    {
        let entry = self.rows.first()?;
        Some((&entry.0, &entry.1))
    }

    /// Goes on to the next place; behind the last row it stays. Takes no memory.
    pub fn advance(&mut self)
        ensures { self.new ≡ drop 1 self.old }
    {
        match self.rows {
            [] => {}
            [_] => *self = Cursor::new(self.pages, self.last),
            [_, later @ ..] => self.rows = later,
        }
    }
}
