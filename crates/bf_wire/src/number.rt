//! Numbers, with their lowest byte first.

ghost use Rattle.bf_wire.specs.Apart.{bytes_apart, ints_apart, words_apart};
ghost use Rattle.bf_wire.specs.Spellings.{IsByte, IsInt, IsWord, byte_spelling, int_spelling, word_spelling};

use crate::field::Field;
use bf_base::Memory;
use byteorder::{ByteOrder, LittleEndian};
use std::alloc::Global;

impl Field for u8 {
    ghost HasSpelling = { IsByte };

    ghost spelling = { byte_spelling };

    ghost apart = { bytes_apart };

    fn put(&self, out: &mut Vec<u8>) -> Result<(), Memory> {
        out.push(*self)?;
        Ok(())
    }

    fn take(_alloc: Global, bytes: &[u8]) -> Result<Option<(u8, usize)>, Memory> {
        match bytes {
            [] => Ok(None),
            [byte, ..] => Ok(Some((*byte, 1))),
        }
    }
}

impl Field for u32 {
    ghost HasSpelling = { IsWord };

    ghost spelling = { word_spelling };

    ghost apart = { words_apart };

    fn put(&self, out: &mut Vec<u8>) -> Result<(), Memory> {
        let mut bytes = [0u8; 4];
        LittleEndian::write_u32(&mut bytes, *self);
        out.extend_from_slice(&bytes)?;
        Ok(())
    }

    fn take(_alloc: Global, bytes: &[u8]) -> Result<Option<(u32, usize)>, Memory> {
        if bytes.len() < 4 {
            return Ok(None);
        }
        Ok(Some((LittleEndian::read_u32(bytes), 4)))
    }
}

impl Field for i64 {
    ghost HasSpelling = { IsInt };

    ghost spelling = { int_spelling };

    ghost apart = { ints_apart };

    fn put(&self, out: &mut Vec<u8>) -> Result<(), Memory> {
        let mut bytes = [0u8; 8];
        LittleEndian::write_i64(&mut bytes, *self);
        out.extend_from_slice(&bytes)?;
        Ok(())
    }

    fn take(_alloc: Global, bytes: &[u8]) -> Result<Option<(i64, usize)>, Memory> {
        if bytes.len() < 8 {
            return Ok(None);
        }
        Ok(Some((LittleEndian::read_i64(bytes), 8)))
    }
}
