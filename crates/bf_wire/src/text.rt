//! Names and texts: a byte with the length, and that many bytes.

ghost use Rattle.std.specs.Prelude.{◌≡◌, ◌≢◌, ◌+◌, ◌^◌, ◌<◌, ◌++◌, ℕ, List, length, drop, IfNone, IfOk, IfSome, MatchOption, OnErr, OnOk};
ghost use Rattle.bf_base.specs.Texts.{IsText};
ghost use Rattle.bf_wire.specs.Apart.{names_apart, texts_apart};
ghost use Rattle.bf_wire.specs.Spellings.{IsName, name_spelling, text_spelling};
ghost use Rattle.bf_wire.specs.Taking.{KeepsFront};

use crate::field::Field;
use bf_base::{Memory, Name, NameError, Text, TextError};
use std::alloc::Global;

// Writes the length of these bytes and the bytes.
fn put_counted(bytes: &[u8], out: &mut Vec<u8>) -> Result<(), Memory>
    requires { length bytes.now < 2 ^ 8 }
    ensures ok { OnOk result (out.new.items ≡ out.old.items ++ text_spelling bytes.now) }
    ensures err { OnErr result (KeepsFront out.old.items out.new.items) }
{
    out.push(bytes.len() as u8)?;
    out.extend_from_slice(bytes)?;
    Ok(())
}

// The bytes behind a byte with their number.
fn counted(bytes: &[u8]) -> Option<&[u8]>
    ensures some { IfSome result (λ front. bytes.now
        ≡ text_spelling front.now ++ drop (length front.now + 1) bytes.now) }
    ensures none { IfNone result ((text rest : List ℕ) → bytes.now ≢ text_spelling text ++ rest) }
{
    match bytes {
        [] => None,
        [count, rest @ ..] => rest.get(..usize::from(*count)),
    }
}

// The name that these bytes are as they stand, if they are one.
fn name_of(alloc: Global, bytes: &[u8]) -> Result<Option<Name>, Memory>
    ensures { IfOk result (λ name. MatchOption name (¬ IsName bytes.now)
        (λ name. IsName name × (name ≡ bytes.now))) }
{
    match Name::of(alloc, bytes) {
        // Upper-case letters are folded.
        Ok(name) if name.as_bytes() != bytes => Ok(None),
        Ok(name) => Ok(Some(name)),
        Err(NameError::BadName) => Ok(None),
        Err(NameError::Memory) => Err(Memory),
    }
}

// The text that these bytes are, if they are one.
fn text_of(alloc: Global, bytes: &[u8]) -> Result<Option<Text>, Memory>
    ensures { IfOk result (λ text. MatchOption text (¬ IsText bytes.now)
        (λ text. IsText text × (text ≡ bytes.now))) }
{
    match Text::of(alloc, bytes) {
        Ok(text) => Ok(Some(text)),
        Err(TextError::TooLong(_)) => Ok(None),
        Err(TextError::BadByte(_)) => Ok(None),
        Err(TextError::Memory) => Err(Memory),
    }
}

impl Field for Name {
    ghost HasSpelling = { IsName };

    ghost spelling = { name_spelling };

    ghost apart = { names_apart };

    fn put(&self, out: &mut Vec<u8>) -> Result<(), Memory> {
        put_counted(self.as_bytes(), out)
    }

    fn take(alloc: Global, bytes: &[u8]) -> Result<Option<(Name, usize)>, Memory> {
        let Some(front) = counted(bytes) else {
            return Ok(None);
        };
        match name_of(alloc, front)? {
            Some(name) => Ok(Some((name, front.len() + 1))),
            None => Ok(None),
        }
    }
}

impl Field for Text {
    ghost HasSpelling = { IsText };

    ghost spelling = { text_spelling };

    ghost apart = { texts_apart };

    fn put(&self, out: &mut Vec<u8>) -> Result<(), Memory> {
        put_counted(self.as_bytes(), out)
    }

    fn take(alloc: Global, bytes: &[u8]) -> Result<Option<(Text, usize)>, Memory> {
        let Some(front) = counted(bytes) else {
            return Ok(None);
        };
        match text_of(alloc, front)? {
            Some(text) => Ok(Some((text, front.len() + 1))),
            None => Ok(None),
        }
    }
}
