//! Secondary indexes.

ghost use Rattle.std.specs.Prelude.{◌≡◌, ◌↔◌, [], ◌+◌, ◌*◌, ◌<◌, ◌≤◌, ◌⊎◌, IfErr, IfOk, IsTrue, OnOk, OnErr, length, not, ◌-◌, vec_len, vec_capacity};
ghost use Rattle.std.specs.List.{All, list_all};
ghost use Rattle.bf_base.specs.Maps.{is_map};
ghost use Rattle.bf_base.specs.Tables.{cell, cells};
ghost use Rattle.bf_heap.specs.Pages.{IsPutNew, IsTakenOut, page_at, is_empty_page, is_used_page, first_page};
ghost use Rattle.bf_index.specs.Pages.{IsGapAt, IsPageOf, IsPairAt, pairs_of};
ghost use Rattle.bf_index.specs.Pairs.{empty_index, has_pair, IsIndex, itself, keys_with, pair_cmp, spare_after, with_pair, without_pair};

use crate::page::{FULL, HALF, Page};
use bf_base::{Key, Memory, Row, Value};
use std::alloc::Global;
use std::marker::Model;

/// For the values of some columns the keys of the rows that have them: a set of pairs of a value
/// and a key, with room for further pairs. A value here is that of all indexed columns, in index
/// order. Pairs and room together are below 2 ^ 32. Contracts see the places of the columns, the
/// pairs in order, by value and then by key, and the room.
///
/// The pairs stand in pages of 1 to 64, in order. A look-up compares about log n pairs. A pair that
/// is added moves at most 64 pairs, and where its page is full and so is split, the places of the
/// pages behind; one that is taken does so where a page loses its last pair. `reserve` makes the
/// pages of later pairs, and a page that has lost its last pair is kept for them.
#[derive(Drop)]
pub struct Index {
    alloc: Global,
    // The places of the indexed columns.
    columns: Vec<u8>,
    // Pages with pairs.
    pages: Vec<Page>,
    // Pages without pairs. Each of the two lists could take all pages.
    spares: Vec<Page>,
    // The number of pairs.
    count: usize,
    // The number of further pairs for which there is room.
    spare: usize,
    // The sum over all pages of the pairs above half a page. An added pair brings it up by one at
    // most, and a split down by 32. So half a page for each spare one is enough for this sum and
    // the room.
    over: usize,
}

impl Model for Index {
    ghost use Rattle.std.specs.Prelude.{vec_capacity};
    ghost use Rattle.bf_index.specs.Pairs.{PairSet};
    ghost use Rattle.bf_index.specs.Pages.{pairs_of, IsPaged};

    ghost Value = { PairSet };

    ghost view = { λ index. record {
      columns = index.columns.items;
      pairs = pairs_of index.pages.items;
      spare = index.spare;
    } };

    ghost invariant = { λ index. IsPaged index.pages.items index.spares.items index.count
        index.spare index.over (vec_capacity index.pages) (vec_capacity index.spares) };
}

/// The place of the last page that does not begin behind the pair of a value and a key, or else of
/// the first page. It compares about log n pairs, and takes no memory.
fn page_of(pages: &[Page], value: &Key, key: &Key) -> usize
    requires { 0 < length pages.now }
    ensures { IsPageOf pages.now (value.now, key.now) result }
{
    let mut low = 0;
    let mut high = pages.len();
    while high - low > 1 {
        let middle = low + (high - low) / 2;
        if pages[middle].begins_behind(value, key) {
            high = middle;
        } else {
            low = middle;
        }
    }
    low
}

/// Where the pair of a value and a key is, or else where it goes: the place of its page, and its
/// place there. It compares about log n pairs, and takes no memory.
fn find_in(pages: &[Page], value: &Key, key: &Key) -> Result<(usize, usize), (usize, usize)>
    requires some { 0 < length pages.now }
    requires used { IsTrue (list_all is_used_page pages.now) }
    requires in_order { IsTrue (is_map pair_cmp itself (pairs_of pages.now)) }
    ensures there { IfOk result (λ at. IsPairAt pages.now (value.now, key.now) at.0 at.1) }
    ensures gap { IfErr result (λ at. IsGapAt pages.now (value.now, key.now) at.0 at.1) }
{
    let here = page_of(pages, value, key);
    match pages[here].find(value, key) {
        Ok(place) => Ok((here, place)),
        Err(place) => Err((here, place)),
    }
}

/// Copies of the keys that the pairs of pages have with a value, in order. It compares about log n
/// pairs, and then goes over those of the value.
fn keys_in(alloc: Global, pages: &[Page], value: &Key) -> Result<Vec<Key>, Memory>
    requires used { IsTrue (list_all is_used_page pages.now) }
    requires in_order { IsTrue (is_map pair_cmp itself (pairs_of pages.now)) }
    ensures { IfOk result (λ keys. keys.items ≡ keys_with (pairs_of pages.now) value.now) }
{
    let mut keys = Vec::new(alloc);
    if pages.is_empty() {
        return Ok(keys);
    }
    // No key is less.
    let least = Key::of(Vec::new(alloc));
    let first = page_of(pages, value, &least);
    for page in &pages[first..] {
        if page.begins_above(value) {
            return Ok(keys);
        }
        page.copy_keys(alloc, value, &mut keys)?;
    }
    Ok(keys)
}

/// A copy of the value of a row at a column, and the number 0 where the row lacks it.
fn cell(alloc: Global, row: &[Value], column: u8) -> Result<Value, Memory>
    ensures { IfOk result (λ copy. copy ≡ cell row.now column) }
{
    match row.get(column as usize) {
        Some(value) => value.copy(alloc),
        None => Ok(Value::Int(0)),
    }
}

/// Whether two rows have the same value at a column. Takes no memory.
fn is_same_cell(row: &[Value], other: &[Value], column: u8) -> bool
    ensures { IsTrue result ↔ (cell row.now column ≡ cell other.now column) }
{
    match (row.get(column as usize), other.get(column as usize)) {
        (Some(value), Some(other)) => value.is_same(other),
        (Some(value), None) | (None, Some(value)) => value.is_same(&Value::Int(0)),
        (None, None) => true,
    }
}

/// Copies of the values of a row at some columns, with the number 0 for each that the row lacks.
fn value_at(alloc: Global, columns: &[u8], row: &[Value]) -> Result<Key, Memory>
    ensures { IfOk result (λ value. value ≡ cells columns.now row.now) }
{
    let mut values = Vec::with_capacity(alloc, columns.len())?;
    for place in columns {
        values.push(cell(alloc, row, *place)?)?;
    }
    Ok(Key::of(values))
}

/// Whether two rows have the same values at some columns. Takes no memory.
fn is_same_at(columns: &[u8], row: &[Value], other: &[Value]) -> bool
    ensures { IsTrue result ↔ All (λ column. cell row.now column ≡ cell other.now column) columns.now }
{
    columns
        .iter()
        .all(|column| is_same_cell(row, other, *column))
}

/// Adds pages to the spare ones until there are this many.
///
/// # Errors
/// Where memory runs out. There may be more pages then than before.
fn add_pages(alloc: Global, spares: &mut Vec<Page>, wanted: usize) -> Result<(), Memory>
    requires room { wanted ≤ vec_capacity spares.old }
    requires less { vec_len spares.old ≤ wanted }
    requires unused { IsTrue (list_all is_empty_page spares.old.items) }
    ensures ok { OnOk result (vec_len spares.new ≡ wanted) }
    ensures within { (vec_len spares.old ≤ vec_len spares.new) × (vec_len spares.new ≤ wanted) }
    ensures unused { IsTrue (list_all is_empty_page spares.new.items) }
    ensures capacity { vec_capacity spares.old ≤ vec_capacity spares.new }
{
    for _ in spares.len()..wanted {
        let page = Page::new(alloc)?;
        spares.push(page).unwrap();
    }
    Ok(())
}

/// Puts a value and a key in a place of a page. A full page is split into two of 32 pairs first, for
/// which it takes a spare page, and the places of the pages behind move by one. Takes no memory.
fn put_new(
    pages: &mut Vec<Page>,
    spares: &mut Vec<Page>,
    here: usize,
    place: usize,
    value: Key,
    key: Key,
)
    requires here { here < length pages.old.items }
    requires place { place ≤ length (page_at pages.old.items here) }
    requires spare { length (page_at pages.old.items here) ≡ 64 → 0 < length spares.old.items }
    requires unused { IsTrue (list_all is_empty_page spares.old.items) }
    requires capacity { length pages.old.items + length spares.old.items ≤ vec_capacity pages.old }
    ensures pair { IsPutNew pages.old.items spares.old.items here place (value, key)
        pages.new.items spares.new.items }
    ensures capacity { (vec_capacity pages.old ≤ vec_capacity pages.new)
        × (vec_capacity spares.new ≡ vec_capacity spares.old) }
{
    let page = &mut pages[here];
    if page.len() < FULL {
        page.insert(place, value, key);
        return;
    }
    let mut upper = spares.pop().unwrap();
    page.split(&mut upper);
    if place <= HALF {
        page.insert(place, value, key);
    } else {
        upper.insert(place - HALF, value, key);
    }
    pages.insert(here + 1, upper).unwrap();
}

/// The pairs above half a page once a page of so many pairs has one more, and is split first where
/// it is full.
fn over_with(over: usize, pairs: usize) -> usize
    requires full { pairs ≡ 64 → 31 ≤ over }
    requires small { over < 4294967296 }
    ensures split { pairs ≡ 64 → result + 31 ≡ over }
    ensures more { 32 ≤ pairs → pairs < 64 → result ≡ over + 1 }
    ensures same { pairs < 32 → result ≡ over }
{
    if pairs == FULL {
        over - (HALF - 1)
    } else if pairs >= HALF {
        over + 1
    } else {
        over
    }
}

/// The pairs above half a page once a page of so many pairs has one less.
fn over_without(over: usize, pairs: usize) -> usize
    requires { 32 < pairs → 0 < over }
    ensures { result + (pairs - 32) ≡ over + (pairs - 33) }
{
    if pairs > HALF { over - 1 } else { over }
}

/// The pairs that spare pages have to hold besides while there is no page yet: the first pair takes
/// a whole page.
fn first_room(pages: &[Page]) -> usize
    ensures { result ≡ first_page pages.now }
{
    match pages {
        [] => HALF,
        [_, ..] => 0,
    }
}

/// The room with one more pair where the spare pages are enough for it, and else as it is.
fn raised(spares: usize, needed: usize, spare: usize) -> usize
    requires small { (needed < 8589934592) × (spare < 4294967296) }
    ensures within { (spare ≤ result) × (result ≤ spare + 1) }
    ensures room { spare < result → spares < result → result + needed ≤ 32 * spares }
{
    let more = spare + 1;
    if more <= spares || (more + needed).div_ceil(HALF) <= spares {
        more
    } else {
        spare
    }
}

/// Takes a pair out of a page, which becomes a spare one where that was its last pair. Takes no
/// memory.
fn take_out(pages: &mut Vec<Page>, spares: &mut Vec<Page>, here: usize, place: usize)
    requires here { here < length pages.old.items }
    requires place { place < length (page_at pages.old.items here) }
    requires capacity { length pages.old.items + length spares.old.items ≤ vec_capacity spares.old }
    ensures pairs { IsTakenOut pages.old.items spares.old.items here place
        pages.new.items spares.new.items }
    ensures capacity { (vec_capacity pages.new ≡ vec_capacity pages.old)
        × (vec_capacity spares.old ≤ vec_capacity spares.new) }
{
    let page = &mut pages[here];
    let pairs = page.len();
    page.remove(place);
    if pairs == 1 {
        let page = pages.remove(here);
        spares.push(page).unwrap();
    }
}

impl Index {
    /// An index of the columns at these places, without pairs and without room. Takes no memory.
    pub fn new(alloc: Global, columns: Vec<u8>) -> Index
        ensures { result ≡ empty_index columns.items }
    {
        Index {
            alloc,
            columns,
            pages: Vec::new(alloc),
            spares: Vec::new(alloc),
            count: 0,
            spare: 0,
            over: 0,
        }
    }

    /// The places of the indexed columns, in index order. Takes no memory.
    pub fn columns(&self) -> &[u8]
        ensures { result.now ≡ self.now.columns }
    {
        self.columns.as_slice()
    }

    /// The number of pairs. Takes no memory.
    pub fn len(&self) -> u32
        ensures count { result ≡ length self.now.pairs }
        ensures index { IsIndex self.now }
    {
        self.count as u32
    }

    /// Whether there is no pair. Takes no memory.
    pub fn is_empty(&self) -> bool
        ensures { IsTrue result ↔ (self.now.pairs ≡ []) }
    {
        self.count == 0
    }

    /// The value of a row: the values at the indexed columns, in index order, with the number 0 for a
    /// column that the row lacks. It takes time and memory linear in those.
    pub fn value_of(&self, alloc: Global, row: &Row) -> Result<Key, Memory>
        ensures { IfOk result (λ value. value ≡ cells self.now.columns row.now) }
    {
        value_at(alloc, &self.columns, row.as_slice())
    }

    /// Whether two rows have the same value. It takes time linear in the indexed columns, and no memory.
    pub(crate) fn is_same_value(&self, row: &Row, other: &Row) -> bool
        ensures { IsTrue result ↔ (cells self.now.columns row.now ≡ cells self.now.columns other.now) }
    {
        is_same_at(&self.columns, row.as_slice(), other.as_slice())
    }

    /// Copies of the keys of a value, in order. It compares about log n pairs, and then takes time
    /// and memory linear in the answer.
    pub fn find(&self, alloc: Global, value: &Key) -> Result<Vec<Key>, Memory>
        ensures { IfOk result (λ keys. keys.items ≡ keys_with self.now.pairs value.now) }
    {
        keys_in(alloc, &self.pages, value)
    }

    /// Makes room for this many further pairs. Room for one takes one page at most.
    ///
    /// # Errors
    /// Where there is less room and memory runs out, or pairs and room together would reach 2 ^ 32.
    /// The index is as it was then.
    pub fn reserve(&mut self, more: u32) -> Result<(), Memory>
        ensures columns { self.new.columns ≡ self.old.columns }
        ensures pairs { self.new.pairs ≡ self.old.pairs }
        ensures room { OnOk result (more ≤ self.new.spare) }
        // Room that is there stays.
        ensures kept { self.old.spare ≤ self.new.spare }
        ensures err { OnErr result (self.new ≡ self.old) }
        ensures scarce { OnErr result (self.old.spare < more) }
    {
        let more = more as usize;
        if more <= self.spare {
            return Ok(());
        }
        if self.count + more > u32::MAX as usize {
            return Err(Memory);
        }
        let first = if self.pages.is_empty() { HALF } else { 0 };
        let wanted = more.min((more + self.over + first).div_ceil(HALF));
        let there = self.spares.len();
        if there < wanted {
            self.pages.reserve(wanted)?;
            self.spares.reserve(self.pages.len() + (wanted - there))?;
            add_pages(self.alloc, &mut self.spares, wanted)?;
        }
        self.spare = more;
        Ok(())
    }

    /// Adds the pair of a value and a key, and answers whether it is new. The pair is there, or
    /// there is room. It compares about log n pairs, and takes no memory.
    pub fn add(&mut self, value: Key, key: Key) -> bool
        requires { IsTrue (has_pair self.old.pairs (value, key)) ⊎ (0 < self.old.spare) }
        ensures new { result ≡ not (has_pair self.old.pairs (value, key)) }
        ensures columns { self.new.columns ≡ self.old.columns }
        ensures pairs { self.new.pairs ≡ with_pair self.old.pairs (value, key) }
        ensures spare { self.new.spare ≡ spare_after self.old (value, key) }
    {
        if self.pages.is_empty() {
            let mut page = self.spares.pop().unwrap();
            page.insert(0, value, key);
            self.pages.push(page).unwrap();
            self.count += 1;
            self.spare -= 1;
            return true;
        }
        match find_in(&self.pages, &value, &key) {
            Ok(_) => false,
            Err((here, place)) => {
                let pairs = self.pages[here].len();
                put_new(&mut self.pages, &mut self.spares, here, place, value, key);
                self.over = over_with(self.over, pairs);
                self.count += 1;
                self.spare -= 1;
                true
            }
        }
    }

    /// Takes the pair of a value and a key out, and answers whether it was there; where it wasn't,
    /// the index is as it was. It compares about log n pairs, and takes no memory.
    pub fn take(&mut self, value: &Key, key: &Key) -> bool
        ensures there { result ≡ has_pair self.old.pairs (value.now, key.now) }
        ensures columns { self.new.columns ≡ self.old.columns }
        ensures pairs { self.new.pairs ≡ without_pair self.old.pairs (value.now, key.now) }
        ensures spare { self.old.spare ≤ self.new.spare }
    {
        if self.pages.is_empty() {
            return false;
        }
        match find_in(&self.pages, value, key) {
            Ok((here, place)) => {
                let pairs = self.pages[here].len();
                take_out(&mut self.pages, &mut self.spares, here, place);
                self.over = over_without(self.over, pairs);
                self.count -= 1;
                let first = first_room(&self.pages);
                self.spare = raised(self.spares.len(), self.over + first, self.spare);
                true
            }
            Err(_) => false,
        }
    }
}
