//! Values, keys and rows.

ghost use Rattle.bf_wire.specs.Apart.{rows_apart, values_apart};
ghost use Rattle.bf_wire.specs.Spellings.{AreValues, IsValue, value_spelling, values_spelling};

use crate::field::Field;
use crate::list::put_all;
use bf_base::{Key, Memory, Row, Sequence, Text, Value};
use std::alloc::Global;

/// Stands before a number.
const INT: u8 = 1;

/// Stands before a text.
const TEXT: u8 = 2;

impl Field for Value {
    ghost HasSpelling = { IsValue };

    ghost spelling = { value_spelling };

    ghost apart = { values_apart };

    fn put(&self, out: &mut Vec<u8>) -> Result<(), Memory> {
        match self {
            Value::Int(number) => {
                out.push(INT)?;
                number.put(out)
            }
            Value::Text(text) => {
                out.push(TEXT)?;
                text.put(out)
            }
        }
    }

    fn take(alloc: Global, bytes: &[u8]) -> Result<Option<(Value, usize)>, Memory> {
        match bytes {
            [INT, rest @ ..] => match i64::take(alloc, rest)? {
                Some((number, taken)) => Ok(Some((Value::Int(number), taken + 1))),
                None => Ok(None),
            },
            [TEXT, rest @ ..] => match Text::take(alloc, rest)? {
                Some((text, taken)) => Ok(Some((Value::Text(text), taken + 1))),
                None => Ok(None),
            },
            [] | [_, ..] => Ok(None),
        }
    }
}

impl Field for Row {
    ghost HasSpelling = { AreValues };

    ghost spelling = { values_spelling };

    ghost apart = { rows_apart };

    fn put(&self, out: &mut Vec<u8>) -> Result<(), Memory> {
        put_all(self.as_slice(), out)
    }

    fn take(alloc: Global, bytes: &[u8]) -> Result<Option<(Row, usize)>, Memory> {
        match Sequence::<Value>::take(alloc, bytes)? {
            Some((values, taken)) => Ok(Some((Row::of(values.into_vec()), taken))),
            None => Ok(None),
        }
    }
}

impl Field for Key {
    ghost HasSpelling = { AreValues };

    ghost spelling = { values_spelling };

    ghost apart = { rows_apart };

    fn put(&self, out: &mut Vec<u8>) -> Result<(), Memory> {
        put_all(self.as_slice(), out)
    }

    fn take(alloc: Global, bytes: &[u8]) -> Result<Option<(Key, usize)>, Memory> {
        match Sequence::<Value>::take(alloc, bytes)? {
            Some((values, taken)) => Ok(Some((Key::of(values.into_vec()), taken))),
            None => Ok(None),
        }
    }
}
