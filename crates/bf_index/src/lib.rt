//! Secondary indexes: for the values of some columns the keys of the rows that have them.
//!
//! An index is a set of pairs of a value and a key. It stands in pages of its own, kept as those of a
//! heap are, by the definitions and the proofs of `bf_heap`. A heap whose keys are a value and a key
//! in one would not do: to put the two together takes memory, for a look-up as well, and `add` and
//! `take` may want none, so that an index follows rows that a heap puts and removes without any.
//!
//! An `IndexedHeap` is a heap whose indexes follow its rows. Its contracts see the heap alone, and that
//! each index that it has is that of the rows. A `ByValue` is made once of a heap that is frozen, and has
//! the positions of its rows by their values.
#![tactic(auto)]

pub mod by_value;
pub mod frozen_indexed_heap;
pub mod index;
pub mod indexed_heap;
pub mod laws;
mod page;

pub use by_value::ByValue;
pub use frozen_indexed_heap::FrozenIndexedHeap;
pub use index::Index;
pub use indexed_heap::IndexedHeap;
