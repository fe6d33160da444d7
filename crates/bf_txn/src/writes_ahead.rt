//! Places among the writes to a table.

ghost use Rattle.std.specs.Prelude.{◌≡◌, [], ◌++◌, IfNone, drop, filter, slice_get};
ghost use Rattle.std.specs.Option.{option_map, option_to_list};
ghost use Rattle.std.specs.Range.Bound.{bound_map};
ghost use Rattle.bf_heap.specs.KeyRanges.{is_within};
ghost use Rattle.bf_txn.specs.Writes.{AreKeyWrites, beginning};

use bf_base::{Key, Row};
use bf_heap::KeyRange;
use std::collections::BTreeMap;
use std::collections::btree_map::Range;
use std::marker::Model;
use std::ops::Bound;

/// A place among the writes to the keys of a range, in the order of the keys: that of a write, or
/// the one behind the last. Contracts see the writes that are ahead, from that of the place on. To
/// read a write takes constant time, and to go on too, over many places.
#[derive(Drop)]
pub struct WritesAhead<'w, 'r> {
    range: &'r KeyRange,
    // The write of the place, whose key is in the range.
    here: Option<(&'w Key, &'w Option<Row>)>,
    // The writes behind it, to keys in the range and to those behind the range.
    later: Range<'w, Key, Option<Row>>,
}

impl<'w, 'r> Model for WritesAhead<'w, 'r> {
    ghost use Rattle.std.specs.Prelude.{List, ◌++◌, filter};
    ghost use Rattle.std.specs.Option.{option_map, option_to_list};
    ghost use Rattle.bf_heap.specs.KeyRanges.{is_within};
    ghost use Rattle.bf_txn.specs.Writes.{AreAhead, KeyWrite};

    ghost Value = { List KeyWrite };

    ghost view = { λ ahead. option_to_list (option_map (λ write. (write.0.now, write.1.now)) ahead.here)
        ++ filter (λ write. is_within ahead.range.now write.0) ahead.later };

    ghost invariant = { λ ahead. AreAhead ahead.range.now
        (option_map (λ write. (write.0.now, write.1.now)) ahead.here) ahead.later };
}

/// Where the keys of a range begin. As keys those that the values of an end begin are behind the end,
/// so that an excluded end is passed by later.
fn first_bound<'r>(range: &'r KeyRange) -> Bound<&'r Key>
    ensures { bound_map (λ key. key.now) result ≡ beginning range.now.low }
{
    match &range.low {
        Bound::Included(end) | Bound::Excluded(end) => Bound::Included(end),
        Bound::Unbounded => Bound::Unbounded,
    }
}

/// Goes over the next writes up to the first to a key of a range, and gives that one. It reads the
/// first write behind the range at most. Takes no memory.
fn next_within<'w>(
    range: &KeyRange,
    later: &mut Range<'w, Key, Option<Row>>,
) -> Option<(&'w Key, &'w Option<Row>)>
    requires sorted { AreKeyWrites later.old }
    ensures writes { option_to_list (option_map (λ write. (write.0.now, write.1.now)) result)
        ++ filter (λ write. is_within range.now write.0) later.new
        ≡ filter (λ write. is_within range.now write.0) later.old }
    ensures sorted { AreKeyWrites later.new }
    ensures none { IfNone result (filter (λ write. is_within range.now write.0) later.new ≡ []) }
{
    while let Some((key, row)) = later.next() {
        if range.is_behind(key) {
            return None;
        }
        if !range.is_before(key) {
            return Some((key, row));
        }
    }
    None
}

impl<'w, 'r> WritesAhead<'w, 'r> {
    /// The place of the first write to a key of a range.
    pub(crate) fn new(
        rows: &'w BTreeMap<Key, Option<Row>>,
        range: &'r KeyRange,
    ) -> WritesAhead<'w, 'r>
        requires { AreKeyWrites rows.now.entries }
        ensures { result ≡ filter (λ write. is_within range.now write.0) rows.now.entries }
    {
        let mut later = rows.range((first_bound(range), Bound::Unbounded));
        let here = next_within(range, &mut later);
        WritesAhead { range, here, later }
    }

    /// The key and the row or the removal at the place, and `None` exactly behind the last write.
    /// Takes no memory.
    pub fn get(&self) -> Option<(&'w Key, Option<&'w Row>)>
        ensures { option_map (λ write. (write.0.now, option_map (λ row. row.now) write.1)) result
            ≡ slice_get self.now 0 }
    {
        let (key, row) = self.here?;
        Some((key, row.as_ref()))
    }

    /// Goes on to the next place; behind the last write it stays. Takes no memory.
    pub fn advance(&mut self)
        ensures { self.new ≡ drop 1 self.old }
    {
        self.here = next_within(self.range, &mut self.later);
    }
}
