//! Pages of rows.

ghost use Rattle.std.specs.Prelude.{◌≡◌, [], ◌≤◌, ◌<◌, List, length, take, drop, reverse, vec_capacity, IfOk, not, slice_index_or, slice_set};
ghost use Rattle.std.specs.List.{insert, remove};
ghost use Rattle.std.specs.List.Sorted.{IsBinarySearchResult, IsSearchInRange};
ghost use Rattle.bf_base.specs.Values.{key_cmp};
ghost use Rattle.bf_heap.specs.Heaps.{Entry};
ghost use Rattle.bf_heap.specs.KeyRanges.{is_before, is_behind};
ghost use Rattle.bf_heap.specs.Pages.{begins_behind, ends_with, rank_of_page};

use crate::key_range::KeyRange;
use bf_base::{Key, Memory, Row};
use std::alloc::Global;
use std::cmp::Ordering;
use std::marker::Model;
use std::mem;

/// The most rows of a page.
pub const FULL: usize = 64;

/// The rows of each half of a full page that is split.
pub const HALF: usize = 32;

/// At most 64 rows under their keys, and the memory for 64.
#[derive(Drop)]
pub struct Page {
    // The rank of the first key. It stands in the page, and mostly tells what the key behind two
    // pointers would.
    rank: i64,
    rows: Vec<(Key, Row)>,
}

impl Model for Page {
    ghost use Rattle.std.specs.Prelude.{◌≡◌, ◌≤◌, List, length, vec_capacity};
    ghost use Rattle.bf_heap.specs.Heaps.{Entry};
    ghost use Rattle.bf_heap.specs.Pages.{rank_of_page};

    ghost Value = { List Entry };

    ghost view = { λ page. page.rows.items };

    ghost invariant = { λ page. (length page.rows.items ≤ 64) × (64 ≤ vec_capacity page.rows)
        × (page.rank ≡ rank_of_page page.rows.items) };
}

/// The rank of the first key of some rows. Takes no memory.
fn rank_of_rows(rows: &[(Key, Row)]) -> i64
    ensures { result ≡ rank_of_page rows.now }
{
    match rows {
        [] => i64::MIN,
        [first, ..] => first.0.rank(),
    }
}

/// Whether the first key of some rows is greater than a key. Takes no memory.
fn first_is_behind(rows: &[(Key, Row)], key: &Key) -> bool
    ensures { result ≡ begins_behind key.now rows.now }
{
    match rows {
        [] => false,
        [first, ..] => first.0.compare(key) == Ordering::Greater,
    }
}

/// Moves the rows behind the first half to another list, the last one first. Takes no memory.
fn move_half(from: &mut Vec<(Key, Row)>, to: &mut Vec<(Key, Row)>)
    requires full { length from.old.items ≡ 64 }
    requires empty { to.old.items ≡ [] }
    requires room { 64 ≤ vec_capacity to.old }
    ensures from { from.new.items ≡ take 32 from.old.items }
    ensures to { to.new.items ≡ reverse (drop 32 from.old.items) }
    ensures kept { (vec_capacity from.new ≡ vec_capacity from.old)
        × (vec_capacity to.old ≤ vec_capacity to.new) }
{
    for _ in 0..HALF {
        let entry = from.pop().unwrap();
        to.push(entry).unwrap();
    }
}

impl Page {
    /// A page without rows, and the memory for 64.
    pub fn new(alloc: Global) -> Result<Page, Memory>
        ensures { IfOk result (λ page. page ≡ []) }
    {
        let rows = Vec::with_capacity(alloc, FULL)?;
        Ok(Page {
            rank: i64::MIN,
            rows,
        })
    }

    /// The number of rows. Takes no memory.
    pub fn len(&self) -> usize
        ensures count { result ≡ length self.now }
        ensures within { length self.now ≤ 64 }
    {
        self.rows.len()
    }

    /// Whether the first key is greater than a key. Takes no memory.
    pub fn begins_behind(&self, key: &Key) -> bool
        ensures { result ≡ begins_behind key.now self.now }
    {
        let (first, sought) = (self.rank, key.rank());
        match first.cmp(&sought) {
            Ordering::Less => false,
            Ordering::Equal => first_is_behind(self.rows.as_slice(), key),
            Ordering::Greater => true,
        }
    }

    /// Whether the last key comes before the low end of a range. Takes no memory.
    pub fn ends_before(&self, range: &KeyRange) -> bool
        ensures { result ≡ ends_with (is_before range.now.low) self.now }
    {
        match self.rows.as_slice() {
            [] => true,
            [.., last] => range.is_before(&last.0),
        }
    }

    /// Whether the last key does not come behind the high end of a range. Takes no memory.
    pub fn ends_within(&self, range: &KeyRange) -> bool
        ensures { result ≡ ends_with (λ key. not (is_behind range.now.high key)) self.now }
    {
        match self.rows.as_slice() {
            [] => true,
            [.., last] => !range.is_behind(&last.0),
        }
    }

    /// Where the row of a key is, or else where it goes, among rows in the order of their keys. It
    /// compares at most eight keys, and one where the key is there and stands where it would if the
    /// page had each number from its first on. Takes no memory.
    pub fn find(&self, key: &Key) -> Result<usize, usize>
        ensures bound { IsSearchInRange result (length self.now) }
        ensures position { IsBinarySearchResult (λ entry. key_cmp entry.0 key.now) self.now result }
    {
        let guess = key.rank().abs_diff(self.rank) as usize;
        match self.rows.as_slice().get(guess) {
            // Keys of one rank, such as texts, tell nothing: their guess is 0.
            Some(entry) if guess > 0 && entry.0.compare(key) == Ordering::Equal => Ok(guess),
            _ => self.rows.binary_search_by(|entry| entry.0.compare(key)),
        }
    }

    /// The rows, in the order of their keys. Takes no memory.
    pub fn rows(&self) -> &[(Key, Row)]
        ensures { result.now ≡ self.now }
    {
        self.rows.as_slice()
    }

    /// The key and the row at a place. Takes no memory.
    pub fn at(&self, place: usize) -> (&Key, &Row)
        requires { place < length self.now }
        ensures { (d : Entry) → (result.0.now, result.1.now) ≡ slice_index_or self.now place d }
    {
        let entry = &self.rows[place];
        (&entry.0, &entry.1)
    }

    /// Puts a key and a row in a place. It moves the rows behind, and takes no memory.
    pub fn insert(&mut self, place: usize, key: Key, row: Row)
        requires bound { place ≤ length self.old }
        requires room { length self.old < 64 }
        ensures { self.new ≡ insert self.old place (key, row) }
    {
        if place == 0 {
            self.rank = key.rank();
        }
        self.rows.insert(place, (key, row)).unwrap();
    }

    /// Puts a key and a row in the place of others, and answers the row that stood there. Takes no
    /// memory.
    pub fn replace(&mut self, place: usize, key: Key, row: Row) -> Row
        requires { place < length self.old }
        ensures former { (d : Entry) → result ≡ (slice_index_or self.old place d).1 }
        ensures rows { self.new ≡ slice_set self.old place (key, row) }
    {
        if place == 0 {
            self.rank = key.rank();
        }
        let former = mem::replace(&mut self.rows[place], (key, row));
        former.1
    }

    /// Takes the row at a place out, and answers it. It moves the rows behind, and takes no memory.
    pub fn remove(&mut self, place: usize) -> Row
        requires { place < length self.old }
        ensures former { (d : Entry) → result ≡ (slice_index_or self.old place d).1 }
        ensures rows { self.new ≡ remove self.old place }
    {
        let former = self.rows.remove(place);
        if place == 0 {
            self.rank = rank_of_rows(self.rows.as_slice());
        }
        former.1
    }

    /// Moves the upper half of a full page to one without rows. Takes no memory.
    pub fn split(&mut self, upper: &mut Page)
        requires full { length self.old ≡ 64 }
        requires empty { upper.old ≡ [] }
        ensures lower { self.new ≡ take 32 self.old }
        ensures upper { upper.new ≡ drop 32 self.old }
    {
        move_half(&mut self.rows, &mut upper.rows);
        upper.rows.reverse();
        upper.rank = rank_of_rows(upper.rows.as_slice());
    }
}
