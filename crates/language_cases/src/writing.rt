//! How numbers, values and refusals are written.

use crate::bytes::tell_bytes;
use crate::values::put_values_of;
use anyhow::bail;
use bf_base::{Key, Name};
use bf_text::{put_number, put_refusal, put_values};
use bf_tree::Refusal;
use case_files::first_word;
use std::alloc::Global;

/// Adds a line's numbers as they are written behind what was there.
pub fn tell_numbers(alloc: Global, line: &str, told: &mut String) -> anyhow::Result<()> {
    let mut out = Vec::from_slice(alloc, b"at ")?;
    for word in line.split_whitespace() {
        put_number(&mut out, word.parse::<u64>()?)?;
    }
    tell_bytes(out.as_slice(), told)
}

/// Adds a line's values as they are written.
pub fn tell_values(alloc: Global, line: &str, told: &mut String) -> anyhow::Result<()> {
    let mut values = Vec::new(alloc);
    put_values_of(alloc, line, &mut values)?;
    let mut out = Vec::new(alloc);
    put_values(&mut out, values.as_slice())?;
    tell_bytes(out.as_slice(), told)
}

/// The refusal of a number that tells a name.
fn refusal_of_name(name: Name, number: u32) -> anyhow::Result<Refusal> {
    Ok(match number {
        1 => Refusal::NoTable(name),
        2 => Refusal::NoColumn(name),
        7 => Refusal::TableExists(name),
        9 => Refusal::KeyColumn(name),
        13 => Refusal::NameTwice(name),
        14 => Refusal::MayFail(name, 2),
        15 => Refusal::KeyNotInherited(name),
        16 => Refusal::SourceUnknown(name),
        17 => Refusal::TooManyRows(name, 1_048_577),
        19 => Refusal::IndexExists(name),
        _ => bail!("no refusal {number} of a name"),
    })
}

/// The refusal of a number that tells no name, but may tell a key.
fn refusal_of_key(key: Key, number: u32) -> anyhow::Result<Refusal> {
    Ok(match number {
        3 => Refusal::TypeMismatch,
        4 => Refusal::DuplicateKey(key),
        5 => Refusal::OutOfRange,
        6 => Refusal::TooLong,
        8 => Refusal::WrongCount,
        10 => Refusal::NoTransaction,
        11 => Refusal::InTransaction,
        12 => Refusal::MustBeAlone,
        18 => Refusal::UnitLimit(5),
        _ => bail!("no refusal {number}"),
    })
}

/// Adds the text of a refusal by a line's number, with the name or the key that stand behind it.
pub fn tell_refusal(alloc: Global, line: &str, told: &mut String) -> anyhow::Result<()> {
    let (number, rest) = first_word(line);
    let number = number.parse::<u32>()?;
    let refusal = if let Ok(name) = Name::of(alloc, rest.as_bytes()) {
        refusal_of_name(name, number)?
    } else {
        let mut values = Vec::new(alloc);
        put_values_of(alloc, rest, &mut values)?;
        refusal_of_key(Key::of(values), number)?
    };
    let mut out = Vec::new(alloc);
    put_refusal(&mut out, &refusal)?;
    tell_bytes(out.as_slice(), told)
}
