//! Numbers, names, values, keys and rows, which are spelled as fields are.

ghost use Rattle.bf_wire.specs.Apart.{bytes_apart, ints_apart, names_apart, rows_apart, values_apart, words_apart};
ghost use Rattle.bf_wire.specs.Spellings.{AreValues, IsByte, IsInt, IsName, IsValue, IsWord, byte_spelling, int_spelling, name_spelling, value_spelling, values_spelling, word_spelling};

use crate::part::Part;
use bf_base::{Key, Memory, Name, Row, Value};
use bf_wire::Field;
use std::alloc::Global;

impl Part for u8 {
    ghost HasSpelling = { IsByte };

    ghost spelling = { byte_spelling };

    ghost IsShallow = { λ _. Unit {0} };

    ghost apart = { bytes_apart };

    fn put(&self, out: &mut Vec<u8>) -> Result<(), Memory> {
        Field::put(self, out)
    }

    fn take(alloc: Global, bytes: &[u8]) -> Result<Option<(u8, usize)>, Memory> {
        Field::take(alloc, bytes)
    }
}

impl Part for u32 {
    ghost HasSpelling = { IsWord };

    ghost spelling = { word_spelling };

    ghost IsShallow = { λ _. Unit {0} };

    ghost apart = { words_apart };

    fn put(&self, out: &mut Vec<u8>) -> Result<(), Memory> {
        Field::put(self, out)
    }

    fn take(alloc: Global, bytes: &[u8]) -> Result<Option<(u32, usize)>, Memory> {
        Field::take(alloc, bytes)
    }
}

impl Part for i64 {
    ghost HasSpelling = { IsInt };

    ghost spelling = { int_spelling };

    ghost IsShallow = { λ _. Unit {0} };

    ghost apart = { ints_apart };

    fn put(&self, out: &mut Vec<u8>) -> Result<(), Memory> {
        Field::put(self, out)
    }

    fn take(alloc: Global, bytes: &[u8]) -> Result<Option<(i64, usize)>, Memory> {
        Field::take(alloc, bytes)
    }
}

impl Part for Name {
    ghost HasSpelling = { IsName };

    ghost spelling = { name_spelling };

    ghost IsShallow = { λ _. Unit {0} };

    ghost apart = { names_apart };

    fn put(&self, out: &mut Vec<u8>) -> Result<(), Memory> {
        Field::put(self, out)
    }

    fn take(alloc: Global, bytes: &[u8]) -> Result<Option<(Name, usize)>, Memory> {
        Field::take(alloc, bytes)
    }
}

impl Part for Value {
    ghost HasSpelling = { IsValue };

    ghost spelling = { value_spelling };

    ghost IsShallow = { λ _. Unit {0} };

    ghost apart = { values_apart };

    fn put(&self, out: &mut Vec<u8>) -> Result<(), Memory> {
        Field::put(self, out)
    }

    fn take(alloc: Global, bytes: &[u8]) -> Result<Option<(Value, usize)>, Memory> {
        Field::take(alloc, bytes)
    }
}

impl Part for Key {
    ghost HasSpelling = { AreValues };

    ghost spelling = { values_spelling };

    ghost IsShallow = { λ _. Unit {0} };

    ghost apart = { rows_apart };

    fn put(&self, out: &mut Vec<u8>) -> Result<(), Memory> {
        Field::put(self, out)
    }

    fn take(alloc: Global, bytes: &[u8]) -> Result<Option<(Key, usize)>, Memory> {
        Field::take(alloc, bytes)
    }
}

impl Part for Row {
    ghost HasSpelling = { AreValues };

    ghost spelling = { values_spelling };

    ghost IsShallow = { λ _. Unit {0} };

    ghost apart = { rows_apart };

    fn put(&self, out: &mut Vec<u8>) -> Result<(), Memory> {
        Field::put(self, out)
    }

    fn take(alloc: Global, bytes: &[u8]) -> Result<Option<(Row, usize)>, Memory> {
        Field::take(alloc, bytes)
    }
}
