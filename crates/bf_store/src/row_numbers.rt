//! Numbers of rows, by their positions.

ghost use Rattle.std.specs.Prelude.{◌≡◌, ◌<◌, ◌≤◌, ◌++◌, ◌^◌, ◌+◌, [], ℕ, OnErr, OnOk, is_some, map, length};
ghost use Rattle.std.specs.BTreeMap.{insert_entry, is_at};
ghost use Rattle.std.specs.Map.{keys_of, lookup, remove_entry};
ghost use Rattle.std.specs.Ordering.{nat_cmp};
ghost use Rattle.bf_base.specs.declared.granule.Place.TheVariants.{Row};
ghost use Rattle.bf_store.specs.ByUnit.{at_place};
ghost use Rattle.bf_store.specs.RowNumbers.{ArePages, from_page, from_slot};

use bf_base::{Granule, Memory, Place};
use std::alloc::Global;
use std::marker::Model;

/// How many positions a page has.
const PAGE: usize = 64;

/// For each of some positions a number, in pages of 64 positions, of which each is made when one of
/// its positions gets a number. Contracts see the positions in their order, each with its number.
#[derive(Drop)]
pub struct RowNumbers {
    // Up to the last page that was made. One that wasn't has no slots.
    pages: Vec<Vec<Option<u64>>>,
}

impl Model for RowNumbers {
    ghost use Rattle.std.specs.Prelude.{ℕ, List};
    ghost use Rattle.bf_store.specs.RowNumbers.{ArePages, from_page};

    ghost Value = { List (ℕ × ℕ) };

    ghost view = { λ numbers. from_page 0 numbers.pages.items };

    ghost invariant = { λ numbers. ArePages numbers.pages.items };
}

/// The number in a slot of a page, if it has one. Takes no memory.
fn slot_at(page: &[Option<u64>], slot: usize) -> Option<u64>
    ensures { (at : ℕ) → result
        ≡ lookup (is_at (nat_cmp (at + slot))) (from_slot at page.now) }
{
    match page.get(slot) {
        Some(number) => *number,
        None => None,
    }
}

/// Puts a number into a slot of a page, which is made first if need be.
///
/// # Errors
/// Where memory runs out. The page is as it was then.
fn put_slot(page: &mut Vec<Option<u64>>, slot: usize, number: u64) -> Result<(), Memory>
    requires few { length page.old.items ≤ 64 }
    requires slot { slot < 64 }
    ensures ok { OnOk result ((at : ℕ) → from_slot at page.new.items
        ≡ insert_entry nat_cmp (from_slot at page.old.items) (at + slot) number) }
    ensures few { length page.new.items ≤ 64 }
    ensures err { OnErr result ((at : ℕ) → from_slot at page.new.items
        ≡ from_slot at page.old.items) }
{
    if page.len() <= slot {
        page.resize(PAGE, None)?;
    }
    page[slot] = Some(number);
    Ok(())
}

/// Takes the number out of a slot of a page, and tells whether it had one. Takes no memory.
fn take_slot(page: &mut Vec<Option<u64>>, slot: usize) -> bool
    ensures taken { (at : ℕ) → from_slot at page.new.items
        ≡ remove_entry (is_at (nat_cmp (at + slot))) (from_slot at page.old.items) }
    ensures had { (at : ℕ) → result
        ≡ is_some (lookup (is_at (nat_cmp (at + slot))) (from_slot at page.old.items)) }
    ensures len { length page.new.items ≡ length page.old.items }
{
    if slot < page.len() {
        return page[slot].take().is_some();
    }
    false
}

/// Makes a page one of some, if it isn't yet: those that are missing come without slots.
///
/// # Errors
/// Where memory runs out.
fn make_page(alloc: Global, pages: &mut Vec<Vec<Option<u64>>>, page: usize) -> Result<(), Memory>
    requires pages { ArePages pages.old.items }
    requires page { page < 2 ^ 26 }
    ensures numbers { from_page 0 pages.new.items ≡ from_page 0 pages.old.items }
    ensures pages { ArePages pages.new.items }
    ensures there { OnOk result (page < length pages.new.items) }
{
    while pages.len() <= page {
        pages.push(Vec::new(alloc))?;
    }
    Ok(())
}

/// Adds the granules of the rows that have a number in a page, which begins at a position.
fn add_slots(
    slots: &[Option<u64>],
    first: u32,
    unit: u8,
    granules: &mut Vec<Granule>,
) -> Result<(), Memory>
    requires { first + length slots.now ≤ 2 ^ 32 }
    ensures { OnOk result (granules.new.items ≡ granules.old.items
        ++ map (λ n. at_place unit (Row n)) (keys_of (from_slot first slots.now))) }
{
    for (slot, number) in slots.iter().enumerate() {
        if number.is_some() {
            let place = Place::Row(first + slot as u32);
            granules.push(Granule { unit, place })?;
        }
    }
    Ok(())
}

impl RowNumbers {
    /// No position has a number. Takes no memory.
    pub fn new(alloc: Global) -> RowNumbers
        ensures { result ≡ [] }
    {
        RowNumbers {
            pages: Vec::new(alloc),
        }
    }

    /// The number of a position, if it has one. It reads two places, whatever there is, and takes no
    /// memory.
    pub fn get(&self, position: u32) -> Option<u64>
        ensures { result ≡ lookup (is_at (nat_cmp position)) self.now }
    {
        let position = position as usize;
        match self.pages.get(position / PAGE) {
            Some(page) => slot_at(page, position % PAGE),
            None => None,
        }
    }

    /// Gives a position a number. It writes one place, but where the page of the position is not there
    /// yet it makes that, and a list entry for each page before it.
    ///
    /// # Errors
    /// Where memory runs out. The numbers are as they were then.
    pub fn put(&mut self, alloc: Global, position: u32, number: u64) -> Result<(), Memory>
        ensures ok { OnOk result (self.new ≡ insert_entry nat_cmp self.old position number) }
        ensures err { OnErr result (self.new ≡ self.old) }
    {
        let position = position as usize;
        let page = position / PAGE;
        make_page(alloc, &mut self.pages, page)?;
        put_slot(&mut self.pages[page], position % PAGE, number)
    }

    /// Takes the number of a position away, and tells whether it had one. It writes one place, and takes
    /// no memory.
    pub fn take(&mut self, position: u32) -> bool
        ensures taken { self.new ≡ remove_entry (is_at (nat_cmp position)) self.old }
        ensures had { result ≡ is_some (lookup (is_at (nat_cmp position)) self.old) }
    {
        let position = position as usize;
        let page = position / PAGE;
        if page < self.pages.len() {
            return take_slot(&mut self.pages[page], position % PAGE);
        }
        false
    }

    /// Adds the granules of a unit at the positions that have a number, in their order.
    ///
    /// # Errors
    /// Where memory runs out.
    pub fn add_granules(&self, unit: u8, granules: &mut Vec<Granule>) -> Result<(), Memory>
        ensures { OnOk result (granules.new.items ≡ granules.old.items
            ++ map (λ n. at_place unit (Row n)) (keys_of self.now)) }
    {
        for (page, slots) in self.pages.iter().enumerate() {
            add_slots(slots, (page * PAGE) as u32, unit, granules)?;
        }
        Ok(())
    }
}
