//! Ranges of keys.

ghost use Rattle.std.specs.Prelude.{◌≡◌, IsTrue, filter, not};
ghost use Rattle.bf_base.specs.Maps.{is_map};
ghost use Rattle.bf_base.specs.Values.{key_cmp};
ghost use Rattle.bf_heap.specs.Heaps.{key_of_entry};
ghost use Rattle.bf_heap.specs.KeyRanges.{front_cmp, is_before, is_behind};

use bf_base::{Key, Row};
use std::cmp::Ordering;
use std::ops::Bound;

/// The keys between two ends. An end has values for the first columns of a key, as many as it
/// bounds, and a key is compared with it by those alone.
#[derive(Drop)]
pub struct KeyRange {
    pub low: Bound<Key>,
    pub high: Bound<Key>,
}

/// How a key's first values compare with those of an end.
fn compare_front(key: &Key, end: &Key) -> Ordering
    ensures { result ≡ front_cmp key.now end.now }
{
    let end = end.as_slice();
    let key = key.as_slice();
    let front = if end.len() < key.len() {
        &key[..end.len()]
    } else {
        key
    };
    front.cmp(end)
}

impl KeyRange {
    /// Whether a key comes before the low end. Takes no memory.
    pub fn is_before(&self, key: &Key) -> bool
        ensures { result ≡ is_before self.now.low key.now }
    {
        match &self.low {
            Bound::Included(end) => compare_front(key, end).is_lt(),
            Bound::Excluded(end) => compare_front(key, end).is_le(),
            Bound::Unbounded => false,
        }
    }

    /// Whether a key comes behind the high end. Takes no memory.
    pub fn is_behind(&self, key: &Key) -> bool
        ensures { result ≡ is_behind self.now.high key.now }
    {
        match &self.high {
            Bound::Included(end) => compare_front(key, end).is_gt(),
            Bound::Excluded(end) => compare_front(key, end).is_ge(),
            Bound::Unbounded => false,
        }
    }

    /// The rows that do not come before the low end, of rows in the order of their keys. It compares
    /// about log n keys, and takes no memory.
    pub(crate) fn from_low<'a>(&self, rows: &'a [(Key, Row)]) -> &'a [(Key, Row)]
        requires { IsTrue (is_map key_cmp key_of_entry rows.now) }
        ensures { result.now ≡ filter (λ entry. not (is_before self.now.low entry.0)) rows.now }
    {
        let before = rows.partition_point(|entry| self.is_before(&entry.0));
        &rows[before..]
    }

    /// The rows that do not come behind the high end, of rows in the order of their keys. It compares
    /// about log n keys, and takes no memory.
    pub(crate) fn to_high<'a>(&self, rows: &'a [(Key, Row)]) -> &'a [(Key, Row)]
        requires { IsTrue (is_map key_cmp key_of_entry rows.now) }
        ensures { result.now ≡ filter (λ entry. not (is_behind self.now.high entry.0)) rows.now }
    {
        let within = rows.partition_point(|entry| !self.is_behind(&entry.0));
        &rows[..within]
    }
}
