//! Pages of rows under their keys.

ghost use Rattle.std.specs.Prelude.{◌≡◌, ◌↔◌, [], ◌++◌, ◌+◌, ◌*◌, ◌<◌, ◌≤◌, ◌⊎◌, IfNone, IfSome, IsTrue, OnOk, OnErr, filter, length, not, slice_get, slice_index_or, ◌-◌, vec_len, vec_capacity};
ghost use Rattle.std.specs.List.{list_all};
ghost use Rattle.std.specs.Option.{option_map};
ghost use Rattle.bf_base.specs.Maps.{is_map};
ghost use Rattle.bf_base.specs.Values.{key_cmp};
ghost use Rattle.bf_heap.specs.Heaps.{Entry, empty_heap, IsHeap, key_of_entry, row_under, has_row, with_row, without_row, spare_after};
ghost use Rattle.bf_heap.specs.Frozen.{AreKept, heap_of};
ghost use Rattle.bf_heap.specs.KeyRanges.{is_behind, is_within};
ghost use Rattle.bf_heap.specs.Pages.{IsPageOf, IsPutNew, IsRowOf, IsTakenOut, page_at, is_empty_page, is_used_page, first_page, rows_of};

use crate::cursor::Cursor;
use crate::key_range::KeyRange;
use crate::page::{FULL, HALF, Page};
use bf_base::{Key, Memory, Row};
use std::alloc::Global;
use std::marker::Model;

/// Rows under their keys: a finite map, with room for further rows. Rows and room together are
/// below 2 ^ 32. Contracts see the rows in the order of their keys, and the room.
///
/// The rows stand in pages of 1 to 64, in the order of the keys. A look-up compares about log n
/// keys; a put or a removal near the last one, as where keys rise, at most twelve. A put of a new
/// key moves at most 64 rows, and where its page is full and so is split, the places of the pages
/// behind; a removal does so where a page loses its last row. `reserve` makes the pages of later
/// rows, and a page that has lost its last row is kept for them.
#[derive(Drop)]
pub struct Heap {
    alloc: Global,
    // Pages with rows.
    pages: Vec<Page>,
    // Pages without rows. Each of the two lists could take all pages.
    spares: Vec<Page>,
    // The number of rows.
    count: usize,
    // The number of further rows for which there is room.
    spare: usize,
    // The sum over all pages of the rows above half a page. A put brings it up by one at most, and a
    // split down by 32. So half a page for each spare one is enough for this sum and the room.
    over: usize,
    // The place of the page of the last put or removal, or any other: where a search begins.
    near: usize,
}

/// A heap that is taken apart.
#[derive(Drop)]
pub(crate) struct Parts {
    pub alloc: Global,
    pub pages: Vec<Page>,
    pub spares: Vec<Page>,
    pub count: usize,
    pub spare: usize,
    pub over: usize,
    pub near: usize,
}

impl Model for Heap {
    ghost use Rattle.std.specs.Prelude.{vec_capacity};
    ghost use Rattle.bf_heap.specs.Heaps.{Rows};
    ghost use Rattle.bf_heap.specs.Pages.{rows_of, IsPaged};

    ghost Value = { Rows };

    ghost view = { λ heap. record { entries = rows_of heap.pages.items; spare = heap.spare } };

    ghost invariant = { λ heap. IsPaged heap.pages.items heap.spares.items heap.count heap.spare
        heap.over (vec_capacity heap.pages) (vec_capacity heap.spares) };
}

/// The place of the last page that does not begin behind a key, or else of the first page. It
/// compares about log n keys, and takes no memory.
fn page_of(pages: &[Page], key: &Key) -> usize
    requires { 0 < length pages.now }
    ensures { IsPageOf pages.now key.now result }
{
    let mut low = 0;
    let mut high = pages.len();
    while high - low > 1 {
        let middle = low + (high - low) / 2;
        if pages[middle].begins_behind(key) {
            high = middle;
        } else {
            low = middle;
        }
    }
    low
}

/// The place of the page of the row under a key, and the row's place there; `None` exactly where there
/// is none. It compares about log n keys, and takes no memory.
pub(crate) fn find_in(pages: &[Page], key: &Key) -> Option<(usize, usize)>
    requires used { IsTrue (list_all is_used_page pages.now) }
    requires in_order { IsTrue (is_map key_cmp key_of_entry (rows_of pages.now)) }
    ensures some { IfSome result (λ at. IsRowOf pages.now key.now at.0 at.1) }
    ensures none { IfNone result (row_under (rows_of pages.now) key.now ≡ None) }
{
    if pages.is_empty() {
        return None;
    }
    let here = page_of(pages, key);
    match pages[here].find(key) {
        Ok(place) => Some((here, place)),
        Err(_) => None,
    }
}

/// Whether a place is that of the last page that does not begin behind a key, or else of the first
/// page. It compares two keys at most, and takes no memory.
fn is_page_of(pages: &[Page], place: usize, key: &Key) -> bool
    ensures { IsTrue result → IsPageOf pages.now key.now place }
{
    place < pages.len()
        && (place == 0 || !pages[place].begins_behind(key))
        && (place + 1 == pages.len() || pages[place + 1].begins_behind(key))
}

/// The same place as `page_of` gives. A page and the one behind it are tried first, so for a key
/// near them it compares four keys at most, and else about log n. Takes no memory.
fn page_near(pages: &[Page], near: usize, key: &Key) -> usize
    requires { 0 < length pages.now }
    ensures { IsPageOf pages.now key.now result }
{
    if is_page_of(pages, near, key) {
        return near;
    }
    if near < pages.len() && is_page_of(pages, near + 1, key) {
        return near + 1;
    }
    page_of(pages, key)
}

/// The whole pages and the front of one more that do not come behind the high end of a range. It
/// compares about log n keys, and takes no memory.
fn to_high<'a>(pages: &'a [Page], range: &KeyRange) -> (&'a [Page], &'a [(Key, Row)])
    requires used { IsTrue (list_all is_used_page pages.now) }
    requires in_order { IsTrue (is_map key_cmp key_of_entry (rows_of pages.now)) }
    ensures used { IsTrue (list_all is_used_page result.0.now) }
    ensures rows { rows_of result.0.now ++ result.1.now
        ≡ filter (λ entry. not (is_behind range.now.high entry.0)) (rows_of pages.now) }
{
    let whole = pages.partition_point(|page| page.ends_within(range));
    if whole == pages.len() {
        return (pages, &[]);
    }
    (&pages[..whole], range.to_high(pages[whole].rows()))
}

/// Adds pages to the spare ones until there are this many.
///
/// # Errors
/// Where memory runs out. There may be more pages then than before.
fn add_pages(alloc: Global, spares: &mut Vec<Page>, wanted: usize) -> Result<(), Memory>
    requires room { wanted ≤ vec_capacity spares.old }
    requires less { vec_len spares.old ≤ wanted }
    requires unused { IsTrue (list_all is_empty_page spares.old.items) }
    ensures ok { OnOk result (vec_len spares.new ≡ wanted) }
    ensures within { (vec_len spares.old ≤ vec_len spares.new) × (vec_len spares.new ≤ wanted) }
    ensures unused { IsTrue (list_all is_empty_page spares.new.items) }
    ensures capacity { vec_capacity spares.old ≤ vec_capacity spares.new }
{
    for _ in spares.len()..wanted {
        let page = Page::new(alloc)?;
        spares.push(page).unwrap();
    }
    Ok(())
}

/// Puts a key and a row in a place of a page. A full page is split into two of 32 rows first, for
/// which it takes a spare page, and the places of the pages behind move by one. Takes no memory.
fn put_new(
    pages: &mut Vec<Page>,
    spares: &mut Vec<Page>,
    here: usize,
    place: usize,
    key: Key,
    row: Row,
)
    requires here { here < length pages.old.items }
    requires place { place ≤ length (page_at pages.old.items here) }
    requires spare { length (page_at pages.old.items here) ≡ 64 → 0 < length spares.old.items }
    requires unused { IsTrue (list_all is_empty_page spares.old.items) }
    requires capacity { length pages.old.items + length spares.old.items ≤ vec_capacity pages.old }
    ensures entry { IsPutNew pages.old.items spares.old.items here place (key, row)
        pages.new.items spares.new.items }
    ensures capacity { (vec_capacity pages.old ≤ vec_capacity pages.new)
        × (vec_capacity spares.new ≡ vec_capacity spares.old) }
{
    let page = &mut pages[here];
    if page.len() < FULL {
        page.insert(place, key, row);
        return;
    }
    let mut upper = spares.pop().unwrap();
    page.split(&mut upper);
    if place <= HALF {
        page.insert(place, key, row);
    } else {
        upper.insert(place - HALF, key, row);
    }
    pages.insert(here + 1, upper).unwrap();
}

/// The rows above half a page once a page of so many rows has one more, and is split first where it
/// is full.
fn over_with(over: usize, rows: usize) -> usize
    requires full { rows ≡ 64 → 31 ≤ over }
    requires small { over < 4294967296 }
    ensures split { rows ≡ 64 → result + 31 ≡ over }
    ensures more { 32 ≤ rows → rows < 64 → result ≡ over + 1 }
    ensures same { rows < 32 → result ≡ over }
{
    if rows == FULL {
        over - (HALF - 1)
    } else if rows >= HALF {
        over + 1
    } else {
        over
    }
}

/// The rows above half a page once a page of so many rows has one less.
fn over_without(over: usize, rows: usize) -> usize
    requires { 32 < rows → 0 < over }
    ensures { result + (rows - 32) ≡ over + (rows - 33) }
{
    if rows > HALF { over - 1 } else { over }
}

/// The rows that spare pages have to hold besides while there is no page yet: the first row takes a
/// whole page.
fn first_room(pages: &[Page]) -> usize
    ensures { result ≡ first_page pages.now }
{
    match pages {
        [] => HALF,
        [_, ..] => 0,
    }
}

/// The room with one more row where the spare pages are enough for it, and else as it is.
fn raised(spares: usize, needed: usize, spare: usize) -> usize
    requires small { (needed < 8589934592) × (spare < 4294967296) }
    ensures within { (spare ≤ result) × (result ≤ spare + 1) }
    ensures room { spare < result → spares < result → result + needed ≤ 32 * spares }
{
    let more = spare + 1;
    if more <= spares || (more + needed).div_ceil(HALF) <= spares {
        more
    } else {
        spare
    }
}

/// Takes a row out of a page, which becomes a spare one where that was its last row. Takes no
/// memory.
fn take_out(pages: &mut Vec<Page>, spares: &mut Vec<Page>, here: usize, place: usize) -> Row
    requires here { here < length pages.old.items }
    requires place { place < length (page_at pages.old.items here) }
    requires capacity { length pages.old.items + length spares.old.items ≤ vec_capacity spares.old }
    ensures former { (d : Entry)
        → result ≡ (slice_index_or (page_at pages.old.items here) place d).1 }
    ensures rows { IsTakenOut pages.old.items spares.old.items here place
        pages.new.items spares.new.items }
    ensures capacity { (vec_capacity pages.new ≡ vec_capacity pages.old)
        × (vec_capacity spares.old ≤ vec_capacity spares.new) }
{
    let page = &mut pages[here];
    let rows = page.len();
    let former = page.remove(place);
    if rows == 1 {
        let page = pages.remove(here);
        spares.push(page).unwrap();
    }
    former
}

impl Heap {
    /// A heap without rows and without room. Takes no memory.
    pub fn new(alloc: Global) -> Heap
        ensures { result ≡ empty_heap }
    {
        Heap {
            alloc,
            pages: Vec::new(alloc),
            spares: Vec::new(alloc),
            count: 0,
            spare: 0,
            over: 0,
            near: 0,
        }
    }

    /// The heap, taken apart. Takes no memory.
    pub(crate) fn into_parts(self) -> Parts
        ensures heap { heap_of result ≡ self }
        ensures kept { AreKept result }
    {
        let Heap {
            alloc,
            pages,
            spares,
            count,
            spare,
            over,
            near,
        } = self;
        Parts {
            alloc,
            pages,
            spares,
            count,
            spare,
            over,
            near,
        }
    }

    /// The heap of these parts. Takes no memory.
    pub(crate) fn of_parts(parts: Parts) -> Heap
        requires { AreKept parts }
        ensures { result ≡ heap_of parts }
    {
        let Parts {
            alloc,
            pages,
            spares,
            count,
            spare,
            over,
            near,
        } = parts;
        Heap {
            alloc,
            pages,
            spares,
            count,
            spare,
            over,
            near,
        }
    }

    /// The number of rows. Takes no memory.
    pub fn len(&self) -> u32
        ensures count { result ≡ length self.now.entries }
        ensures heap { IsHeap self.now }
    {
        self.count as u32
    }

    /// Whether there is no row. Takes no memory.
    pub fn is_empty(&self) -> bool
        ensures { IsTrue result ↔ (self.now.entries ≡ []) }
    {
        self.count == 0
    }

    /// The row under a key, and `None` exactly where there is none. It compares about log n keys,
    /// and takes no memory.
    pub fn get(&self, key: &Key) -> Option<&Row>
        ensures { option_map (λ row. row.now) result ≡ row_under self.now.entries key.now }
    {
        let (here, place) = find_in(&self.pages, key)?;
        Some(self.pages[here].at(place).1)
    }

    /// The key and the row of a position in the order of keys, counted from 0, and `None` exactly
    /// where the position is not below the number of rows. It goes over the counts of the pages
    /// before, and takes no memory.
    pub fn at(&self, position: u32) -> Option<(&Key, &Row)>
        ensures { option_map (λ entry. (entry.0.now, entry.1.now)) result
            ≡ slice_get self.now.entries position }
    {
        let mut left = position as usize;
        for page in &self.pages {
            let count = page.len();
            if left < count {
                return Some(page.at(left));
            }
            left -= count;
        }
        None
    }

    /// The place of the first row. Takes no memory.
    pub fn first(&self) -> Cursor<'_>
        ensures { result ≡ self.now.entries }
    {
        Cursor::new(&self.pages, &[])
    }

    /// The place of the first row whose key is in a range; those behind it end with the range. It
    /// compares about log n keys, and takes no memory.
    pub fn range(&self, range: &KeyRange) -> Cursor<'_>
        ensures { result ≡ filter (λ entry. is_within range.now entry.0) self.now.entries }
    {
        let (whole, last) = to_high(&self.pages, range);
        Cursor::from_low(whole, last, range)
    }

    /// The number of pages with rows. Takes no memory.
    pub fn pages(&self) -> u32
        ensures most { result ≤ length self.now.entries }
        ensures fewest { length self.now.entries ≤ 64 * result }
    {
        self.pages.len() as u32
    }

    /// Makes room for this many further rows. Room for one takes one page at most.
    ///
    /// # Errors
    /// Where there is less room and memory runs out, or rows and room together would reach 2 ^ 32.
    /// The rows and the room are as they were then.
    pub fn reserve(&mut self, more: u32) -> Result<(), Memory>
        ensures rows { self.new.entries ≡ self.old.entries }
        ensures room { OnOk result (more ≤ self.new.spare) }
        // Room that is there stays.
        ensures kept { self.old.spare ≤ self.new.spare }
        ensures err { OnErr result (self.new ≡ self.old) }
        ensures scarce { OnErr result (self.old.spare < more) }
    {
        let more = more as usize;
        if more <= self.spare {
            return Ok(());
        }
        if self.count + more > u32::MAX as usize {
            return Err(Memory);
        }
        let first = if self.pages.is_empty() { HALF } else { 0 };
        let wanted = more.min((more + self.over + first).div_ceil(HALF));
        let there = self.spares.len();
        if there < wanted {
            self.pages.reserve(wanted)?;
            self.spares.reserve(self.pages.len() + (wanted - there))?;
            add_pages(self.alloc, &mut self.spares, wanted)?;
        }
        self.spare = more;
        Ok(())
    }

    /// Puts a row under a key, and answers the row that stood there. The key is there, or there is
    /// room. In the page of the last put or removal, or in the one behind it, it compares at most
    /// twelve keys, and else about log n. Takes no memory.
    pub fn put(&mut self, key: Key, row: Row) -> Option<Row>
        requires { IsTrue (has_row self.old.entries key) ⊎ (0 < self.old.spare) }
        ensures former { result ≡ row_under self.old.entries key }
        ensures entries { self.new.entries ≡ with_row self.old.entries key row }
        ensures spare { self.new.spare ≡ spare_after self.old key }
    {
        if self.pages.is_empty() {
            let mut page = self.spares.pop().unwrap();
            page.insert(0, key, row);
            self.pages.push(page).unwrap();
            self.count += 1;
            self.spare -= 1;
            return None;
        }
        let here = page_near(&self.pages, self.near, &key);
        self.near = here;
        let page = &self.pages[here];
        let rows = page.len();
        match page.find(&key) {
            Ok(place) => {
                let page = &mut self.pages[here];
                Some(page.replace(place, key, row))
            }
            Err(place) => {
                put_new(&mut self.pages, &mut self.spares, here, place, key, row);
                self.over = over_with(self.over, rows);
                self.count += 1;
                self.spare -= 1;
                None
            }
        }
    }

    /// Takes the row under a key out, and answers it; `None` exactly where there is none, and then
    /// the heap is as it was. In the page of the last put or removal, or in the one behind it, it
    /// compares at most twelve keys, and else about log n. Takes no memory.
    pub fn remove(&mut self, key: &Key) -> Option<Row>
        ensures former { result ≡ row_under self.old.entries key.now }
        ensures entries { self.new.entries ≡ without_row self.old.entries key.now }
        ensures spare { self.old.spare ≤ self.new.spare }
    {
        if self.pages.is_empty() {
            return None;
        }
        let here = page_near(&self.pages, self.near, key);
        self.near = here;
        let page = &self.pages[here];
        let rows = page.len();
        match page.find(key) {
            Ok(place) => {
                let former = take_out(&mut self.pages, &mut self.spares, here, place);
                self.over = over_without(self.over, rows);
                self.count -= 1;
                let first = first_room(&self.pages);
                self.spare = raised(self.spares.len(), self.over + first, self.spare);
                Some(former)
            }
            Err(_) => None,
        }
    }
}
