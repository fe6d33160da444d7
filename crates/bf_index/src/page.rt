//! Pages of pairs.

ghost use Rattle.std.specs.Prelude.{◌≡◌, [], ◌++◌, ◌≤◌, ◌<◌, List, OnOk, length, take, drop, reverse, vec_capacity, IfOk, IsTrue};
ghost use Rattle.std.specs.List.{insert, remove};
ghost use Rattle.std.specs.List.Sorted.{IsBinarySearchResult, IsSearchInRange};
ghost use Rattle.bf_base.specs.Maps.{is_map};
ghost use Rattle.bf_index.specs.Pages.{begins_above, begins_behind};
ghost use Rattle.bf_index.specs.Pairs.{Pair, itself, keys_with, pair_cmp};

use bf_base::{Key, Memory};
use std::alloc::Global;
use std::cmp::Ordering;
use std::marker::Model;

/// The most pairs of a page.
pub const FULL: usize = 64;

/// The pairs of each half of a full page that is split.
pub const HALF: usize = 32;

/// At most 64 pairs, each a value and a key that has it, and the memory for 64.
#[derive(Drop)]
pub struct Page {
    pairs: Vec<(Key, Key)>,
}

impl Model for Page {
    ghost use Rattle.std.specs.Prelude.{◌≤◌, List, length, vec_capacity};
    ghost use Rattle.bf_index.specs.Pairs.{Pair};

    ghost Value = { List Pair };

    ghost view = { λ page. page.pairs.items };

    ghost invariant = { λ page. (length page.pairs.items ≤ 64) × (64 ≤ vec_capacity page.pairs) };
}

/// How a pair compares with that of a value and a key. Takes no memory.
fn compare(pair: &(Key, Key), value: &Key, key: &Key) -> Ordering
    ensures { result ≡ pair_cmp pair.now (value.now, key.now) }
{
    match pair.0.compare(value) {
        Ordering::Less => Ordering::Less,
        Ordering::Equal => pair.1.compare(key),
        Ordering::Greater => Ordering::Greater,
    }
}

/// Moves the pairs behind the first half to another list, the last one first. Takes no memory.
fn move_half(from: &mut Vec<(Key, Key)>, to: &mut Vec<(Key, Key)>)
    requires full { length from.old.items ≡ 64 }
    requires empty { to.old.items ≡ [] }
    requires room { 64 ≤ vec_capacity to.old }
    ensures from { from.new.items ≡ take 32 from.old.items }
    ensures to { to.new.items ≡ reverse (drop 32 from.old.items) }
    ensures kept { (vec_capacity from.new ≡ vec_capacity from.old)
        × (vec_capacity to.old ≤ vec_capacity to.new) }
{
    for _ in 0..HALF {
        let pair = from.pop().unwrap();
        to.push(pair).unwrap();
    }
}

/// Adds copies of the keys that pairs in order have with a value to some keys. It compares about
/// log n values, and copies each key once.
///
/// # Errors
/// Where memory runs out. Some of the keys may have been added then.
fn copy_keys(
    alloc: Global,
    pairs: &[(Key, Key)],
    value: &Key,
    keys: &mut Vec<Key>,
) -> Result<(), Memory>
    requires { IsTrue (is_map pair_cmp itself pairs.now) }
    ensures { OnOk result (keys.new.items ≡ keys.old.items ++ keys_with pairs.now value.now) }
{
    let before = pairs.partition_point(|pair| pair.0.compare(value).is_lt());
    for pair in &pairs[before..] {
        if !pair.0.is_same(value) {
            return Ok(());
        }
        keys.push(pair.1.copy(alloc)?)?;
    }
    Ok(())
}

impl Page {
    /// A page without pairs, and the memory for 64.
    pub fn new(alloc: Global) -> Result<Page, Memory>
        ensures { IfOk result (λ page. page ≡ []) }
    {
        let pairs = Vec::with_capacity(alloc, FULL)?;
        Ok(Page { pairs })
    }

    /// The number of pairs. Takes no memory.
    pub fn len(&self) -> usize
        ensures count { result ≡ length self.now }
        ensures within { length self.now ≤ 64 }
    {
        self.pairs.len()
    }

    /// Whether the first pair comes behind that of a value and a key. Takes no memory.
    pub fn begins_behind(&self, value: &Key, key: &Key) -> bool
        ensures { result ≡ begins_behind (value.now, key.now) self.now }
    {
        match self.pairs.as_slice() {
            [] => false,
            [first, ..] => compare(first, value, key) == Ordering::Greater,
        }
    }

    /// Whether the first pair has a greater value than this one. Takes no memory.
    pub fn begins_above(&self, value: &Key) -> bool
        ensures { result ≡ begins_above value.now self.now }
    {
        match self.pairs.as_slice() {
            [] => false,
            [first, ..] => first.0.compare(value) == Ordering::Greater,
        }
    }

    /// Where the pair of a value and a key is, or else where it goes, among pairs in order. It
    /// compares at most seven pairs, and takes no memory.
    pub fn find(&self, value: &Key, key: &Key) -> Result<usize, usize>
        ensures bound { IsSearchInRange result (length self.now) }
        ensures position { IsBinarySearchResult (λ pair. pair_cmp pair (value.now, key.now)) self.now
            result }
    {
        self.pairs
            .binary_search_by(|pair| compare(pair, value, key))
    }

    /// Adds copies of the keys that the page's pairs have with a value to some keys.
    ///
    /// # Errors
    /// Where memory runs out. Some of the keys may have been added then.
    pub fn copy_keys(&self, alloc: Global, value: &Key, keys: &mut Vec<Key>) -> Result<(), Memory>
        requires { IsTrue (is_map pair_cmp itself self.now) }
        ensures { OnOk result (keys.new.items ≡ keys.old.items ++ keys_with self.now value.now) }
    {
        copy_keys(alloc, self.pairs.as_slice(), value, keys)
    }

    /// Puts a value and a key in a place. It moves the pairs behind, and takes no memory.
    pub fn insert(&mut self, place: usize, value: Key, key: Key)
        requires bound { place ≤ length self.old }
        requires room { length self.old < 64 }
        ensures { self.new ≡ insert self.old place (value, key) }
    {
        self.pairs.insert(place, (value, key)).unwrap();
    }

    /// Takes the pair at a place out. It moves the pairs behind, and takes no memory.
    pub fn remove(&mut self, place: usize)
        requires { place < length self.old }
        ensures { self.new ≡ remove self.old place }
    {
        let _former = self.pairs.remove(place);
    }

    /// Moves the upper half of a full page to one without pairs. Takes no memory.
    pub fn split(&mut self, upper: &mut Page)
        requires full { length self.old ≡ 64 }
        requires empty { upper.old ≡ [] }
        ensures lower { self.new ≡ take 32 self.old }
        ensures upper { upper.new ≡ drop 32 self.old }
    {
        move_half(&mut self.pairs, &mut upper.pairs);
        upper.pairs.reverse();
    }
}
