//! Values as bytes, by functions of their own.

ghost use Rattle.std.specs.Prelude.{◌≡◌, ◌++◌, IfOk, OnErr, OnOk};
ghost use Rattle.bf_wire.specs.Spellings.{AreValues, IsByte, IsInt, IsName, IsValue, IsWord, byte_spelling, int_spelling, name_spelling, value_spelling, values_spelling, word_spelling};
ghost use Rattle.bf_wire.specs.Taking.{IsTakenFrom};

use crate::field::Field;
use bf_base::{Key, Memory, Name, Row, Value};
use std::alloc::Global;

/// Writes the spelling behind what stands in `out`, in time linear in its length.
///
/// # Errors
/// Where memory runs out, or a list has 2^32 items or more. `out` has the bytes from before then.
pub fn put_whole<T: Field>(out: &mut Vec<u8>, field: &T) -> Result<(), Memory>
    ensures spelled { OnOk result (T.HasSpelling field.now) }
    ensures ok { OnOk result (out.new.items ≡ out.old.items ++ T.spelling field.now) }
    ensures err { OnErr result (out.new.items ≡ out.old.items) }
{
    let length = out.len();
    match field.put(out) {
        Ok(()) => Ok(()),
        Err(e) => {
            out.truncate(length);
            Err(e)
        }
    }
}

/// Writes a byte behind what stands in `out`.
///
/// # Errors
/// Where memory runs out. `out` has the bytes from before then.
pub fn put_u8(out: &mut Vec<u8>, byte: u8) -> Result<(), Memory>
    ensures spelled { OnOk result (IsByte byte) }
    ensures ok { OnOk result (out.new.items ≡ out.old.items ++ byte_spelling byte) }
    ensures err { OnErr result (out.new.items ≡ out.old.items) }
{
    put_whole(out, &byte)
}

/// Writes a number, its lowest byte first behind what stands in `out`.
///
/// # Errors
/// Where memory runs out. `out` has the bytes from before then.
pub fn put_u32(out: &mut Vec<u8>, number: u32) -> Result<(), Memory>
    ensures spelled { OnOk result (IsWord number) }
    ensures ok { OnOk result (out.new.items ≡ out.old.items ++ word_spelling number) }
    ensures err { OnErr result (out.new.items ≡ out.old.items) }
{
    put_whole(out, &number)
}

/// Writes a number as two's complement, its lowest byte first behind what stands in `out`.
///
/// # Errors
/// Where memory runs out. `out` has the bytes from before then.
pub fn put_i64(out: &mut Vec<u8>, number: i64) -> Result<(), Memory>
    ensures spelled { OnOk result (IsInt number) }
    ensures ok { OnOk result (out.new.items ≡ out.old.items ++ int_spelling number) }
    ensures err { OnErr result (out.new.items ≡ out.old.items) }
{
    put_whole(out, &number)
}

/// Writes a name behind what stands in `out`.
///
/// # Errors
/// Where memory runs out. `out` has the bytes from before then.
pub fn put_name(out: &mut Vec<u8>, name: &Name) -> Result<(), Memory>
    ensures spelled { OnOk result (IsName name.now) }
    ensures ok { OnOk result (out.new.items ≡ out.old.items ++ name_spelling name.now) }
    ensures err { OnErr result (out.new.items ≡ out.old.items) }
{
    put_whole(out, name)
}

/// Writes a value behind what stands in `out`.
///
/// # Errors
/// Where memory runs out. `out` has the bytes from before then.
pub fn put_value(out: &mut Vec<u8>, value: &Value) -> Result<(), Memory>
    ensures spelled { OnOk result (IsValue value.now) }
    ensures ok { OnOk result (out.new.items ≡ out.old.items ++ value_spelling value.now) }
    ensures err { OnErr result (out.new.items ≡ out.old.items) }
{
    put_whole(out, value)
}

/// Writes a key behind what stands in `out`.
///
/// # Errors
/// Where memory runs out, or there are 2^32 values or more. `out` has the bytes from before then.
pub fn put_key(out: &mut Vec<u8>, key: &Key) -> Result<(), Memory>
    ensures spelled { OnOk result (AreValues key.now) }
    ensures ok { OnOk result (out.new.items ≡ out.old.items ++ values_spelling key.now) }
    ensures err { OnErr result (out.new.items ≡ out.old.items) }
{
    put_whole(out, key)
}

/// Writes a row behind what stands in `out`.
///
/// # Errors
/// Where memory runs out, or there are 2^32 values or more. `out` has the bytes from before then.
pub fn put_row(out: &mut Vec<u8>, row: &Row) -> Result<(), Memory>
    ensures spelled { OnOk result (AreValues row.now) }
    ensures ok { OnOk result (out.new.items ≡ out.old.items ++ values_spelling row.now) }
    ensures err { OnErr result (out.new.items ≡ out.old.items) }
{
    put_whole(out, row)
}

/// The byte that the bytes begin with, and how many of them that takes, if they do.
/// It takes no memory.
pub fn take_u8(alloc: Global, bytes: &[u8]) -> Result<Option<(u8, usize)>, Memory>
    ensures { IfOk result (λ found. IsTakenFrom IsByte byte_spelling bytes.now found) }
{
    u8::take(alloc, bytes)
}

/// The number that the bytes begin with, and how many of them that takes, if they do.
/// It takes no memory.
pub fn take_u32(alloc: Global, bytes: &[u8]) -> Result<Option<(u32, usize)>, Memory>
    ensures { IfOk result (λ found. IsTakenFrom IsWord word_spelling bytes.now found) }
{
    u32::take(alloc, bytes)
}

/// The number that the bytes begin with, and how many of them that takes, if they do.
/// It takes no memory.
pub fn take_i64(alloc: Global, bytes: &[u8]) -> Result<Option<(i64, usize)>, Memory>
    ensures { IfOk result (λ found. IsTakenFrom IsInt int_spelling bytes.now found) }
{
    i64::take(alloc, bytes)
}

/// The name that the bytes begin with, and how many of them that takes, if they do.
///
/// # Errors
/// Where memory runs out.
pub fn take_name(alloc: Global, bytes: &[u8]) -> Result<Option<(Name, usize)>, Memory>
    ensures { IfOk result (λ found. IsTakenFrom IsName name_spelling bytes.now found) }
{
    Name::take(alloc, bytes)
}

/// The value that the bytes begin with, and how many of them that takes, if they do.
///
/// # Errors
/// Where memory runs out.
pub fn take_value(alloc: Global, bytes: &[u8]) -> Result<Option<(Value, usize)>, Memory>
    ensures { IfOk result (λ found. IsTakenFrom IsValue value_spelling bytes.now found) }
{
    Value::take(alloc, bytes)
}

/// The key that the bytes begin with, and how many of them that takes, if they do.
///
/// # Errors
/// Where memory runs out.
pub fn take_key(alloc: Global, bytes: &[u8]) -> Result<Option<(Key, usize)>, Memory>
    ensures { IfOk result (λ found. IsTakenFrom AreValues values_spelling bytes.now found) }
{
    Key::take(alloc, bytes)
}

/// The row that the bytes begin with, and how many of them that takes, if they do.
///
/// # Errors
/// Where memory runs out.
pub fn take_row(alloc: Global, bytes: &[u8]) -> Result<Option<(Row, usize)>, Memory>
    ensures { IfOk result (λ found. IsTakenFrom AreValues values_spelling bytes.now found) }
{
    Row::take(alloc, bytes)
}
