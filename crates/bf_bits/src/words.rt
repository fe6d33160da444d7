//! Words of granules: for each granule the lock bit, and above it the migrate bit.

ghost use Rattle.std.specs.Prelude.{◌≡◌, ◌+◌, ◌*◌, ◌<◌, ◌≤◌, [], ℕ, All, IfOk, MatchBool, bit_or, length, replicate, slice_index, slice_set, vec_capacity};
ghost use Rattle.std.specs.Mem.Slots.{slots_items, slots_len, IsFull};
ghost use Rattle.std.specs.List.Sorted.{IsStrictlyIncreasing};
ghost use Rattle.bf_bits.specs.Positions.{granules_per_word, word_of, Has, IsDistinct};
ghost use Rattle.bf_bits.specs.Words.{lock_place, migrate_place, mask, lock_in, migrate_in, state_in, word_count, AreMarked};

use crate::answer::Look;
use atomic_table::Closed;
use bf_base::Memory;
use std::alloc::Global;

/// How many granules a word has, two bits for each.
pub const GRANULES_PER_WORD: u32 = 32;

/// The word that has the lock bit of a position alone.
pub fn lock_mask(at: u32) -> u64
    ensures { result ≡ mask (lock_place at) }
{
    1u64 << (2 * (at % GRANULES_PER_WORD))
}

/// The word that has the migrate bit of a position alone.
pub fn migrate_mask(at: u32) -> u64
    ensures { result ≡ mask (migrate_place at) }
{
    1u64 << (2 * (at % GRANULES_PER_WORD) + 1)
}

fn is_locked(word: u64, at: u32) -> bool
    ensures { MatchBool result (lock_in word at ≡ 1) (lock_in word at ≡ 0) }
{
    (word >> (2 * (at % GRANULES_PER_WORD))) & 1 == 1
}

fn is_migrated(word: u64, at: u32) -> bool
    ensures { MatchBool result (migrate_in word at ≡ 1) (migrate_in word at ≡ 0) }
{
    (word >> (2 * (at % GRANULES_PER_WORD) + 1)) & 1 == 1
}

/// The state of a position, by the bits of its word.
pub fn state_of(word: u64, at: u32) -> Look
    ensures { result ≡ state_in word at }
{
    if is_migrated(word, at) {
        Look::Done
    } else if is_locked(word, at) {
        Look::Held
    } else {
        Look::Free
    }
}

/// How many words that many granules take, and at least one word.
pub fn words_for(granules: u32) -> usize
    ensures count { result ≡ word_count granules }
    ensures room { granules ≤ granules_per_word * result }
    ensures some { 0 < result }
{
    (granules as usize)
        .div_ceil(GRANULES_PER_WORD as usize)
        .max(1)
}

/// Words in which both bits of these positions are set, and no others.
pub fn marked(alloc: Global, count: usize, done: &[u32]) -> Result<Vec<u64>, Memory>
    requires within { All (λ at. word_of at < count) done.now }
    requires distinct { IsDistinct done.now }
    ensures count { IfOk result (λ words. length words.items ≡ count) }
    ensures marked { IfOk result (λ words. AreMarked words.items done.now) }
{
    let mut words = vec![in alloc; 0u64; count]?;
    mark_all(words.as_mut_slice(), done);
    Ok(words)
}

fn mark_all(words: &mut [u64], done: &[u32])
    requires none { AreMarked words.old [] }
    requires within { All (λ at. word_of at < length words.old) done.now }
    requires distinct { IsDistinct done.now }
    ensures marked { AreMarked words.new done.now }
{
    for at in done {
        mark(words, *at);
    }
}

fn mark(words: &mut [u64], at: u32)
    requires { word_of at < length words.old }
    ensures { words.new ≡ slice_set words.old (word_of at)
        (bit_or (bit_or (slice_index words.old (word_of at)) (mask (lock_place at)))
        (mask (migrate_place at))) }
{
    let place = (at / GRANULES_PER_WORD) as usize;
    words[place] = words[place] | lock_mask(at) | migrate_mask(at);
}

/// The positions below `granules` whose migrate bit is set, rising, put into a vector that has room
/// for all.
pub fn gather(mut done: Vec<u32>, closed: &Closed<(), Global>, granules: u32) -> Vec<u32>
    requires words { (at : ℕ) → at < granules → word_of at < slots_len closed.now.words }
    requires full { IsFull closed.now.words }
    requires empty { done.items ≡ [] }
    requires room { granules ≤ vec_capacity done }
    ensures rising { IsStrictlyIncreasing result.items }
    ensures only { (at : ℕ) → Has result.items at → (at < granules)
        × (migrate_in (slice_index (slots_items closed.now.words) (word_of at)) at ≡ 1) }
    ensures all { (at : ℕ) → at < granules
        → migrate_in (slice_index (slots_items closed.now.words) (word_of at)) at ≡ 1
        → Has result.items at }
{
    for at in 0..granules {
        if is_migrated(closed.word((at / GRANULES_PER_WORD) as usize), at) {
            done.push_reserved(at);
        }
    }
    done
}
