//! The calls of a case, one a line.

ghost use Rattle.std.specs.Prelude.{◌<◌};

use crate::answers::{Answer, Tally, tell_number};
use crate::cells::{key, row};
use anyhow::Context;
use bf_base::{Key, Row};
use case_files::first_word;
use std::alloc::Global;

/// What a case makes calls of.
pub trait Structure {
    /// What a call answers of a key, with the row that stands behind it.
    fn answer(
        &mut self,
        alloc: Global,
        call: &str,
        key: Key,
        row: Option<Row>,
    ) -> anyhow::Result<Answer>;

    /// Tells what a call answers that is not of one key, and whether this is such a call.
    fn tell_whole(
        &mut self,
        alloc: Global,
        call: &str,
        words: &str,
        told: &mut String,
    ) -> anyhow::Result<bool>;
}

/// Numbers from a first one on.
#[derive(Clone, Copy)]
struct Numbers {
    count: u32,
    first: i64,
    apart: i64,
    over: u32,
}

impl Numbers {
    fn of(words: &str) -> Option<Numbers> {
        let (count, words) = words.split_once(" ")?;
        let (first, words) = words.split_once(" ")?;
        let (apart, over) = words.split_once(" ")?;
        Some(Numbers {
            count: count.parse().ok()?,
            first: first.parse().ok()?,
            apart: apart.parse().ok()?,
            over: over.parse().ok()?,
        })
    }

    /// The number that comes after so many others.
    fn after(self, before: u32) -> i64
        requires { before < self.count }
    {
        let place = before.wrapping_mul(self.over) % self.count;
        self.first
            .wrapping_add(self.apart.wrapping_mul(place as i64))
    }
}

/// The key and the row of a word: `KEY=ROW` or the key alone.
pub fn pair(alloc: Global, word: &str) -> anyhow::Result<(Key, Option<Row>)> {
    let (at, values) = word.split_once("=").unwrap_or((word, "-"));
    Ok((key(alloc, at)?, row(alloc, values)?))
}

fn answer_word<S: Structure>(
    structure: &mut S,
    alloc: Global,
    call: &str,
    word: &str,
) -> anyhow::Result<Answer> {
    let (key, row) = pair(alloc, word)?;
    structure.answer(alloc, call, key, row)
}

fn tell_words<S: Structure>(
    structure: &mut S,
    alloc: Global,
    call: &str,
    words: &str,
    told: &mut String,
) -> anyhow::Result<()> {
    for word in words.split(" ") {
        told.push_str(" ")?;
        answer_word(structure, alloc, call, word)?.tell(told)?;
    }
    Ok(())
}

/// What a call answers of a number that stands behind itself.
fn answer_number<S: Structure>(
    structure: &mut S,
    alloc: Global,
    call: &str,
    number: i64,
) -> anyhow::Result<Answer> {
    let mut word = String::new(alloc);
    tell_number("", number, &mut word)?;
    tell_number("=", number, &mut word)?;
    answer_word(structure, alloc, call, word.as_str())
}

/// Makes a call for each of some numbers, and tells how many answers are the number, others, and nothing.
fn tell_each<S: Structure>(
    structure: &mut S,
    alloc: Global,
    words: &str,
    told: &mut String,
) -> anyhow::Result<()> {
    let (call, words) = words.split_once(" ").context("no call for each")?;
    let numbers = Numbers::of(words).context("no numbers")?;
    let mut tally = Tally::NONE;
    for before in 0..numbers.count {
        let number = numbers.after(before);
        tally.add(number, answer_number(structure, alloc, call, number)?);
    }
    tally.tell(told)
}

fn tell_line<S: Structure>(
    structure: &mut S,
    alloc: Global,
    line: &str,
    told: &mut String,
) -> anyhow::Result<()> {
    let (call, words) = first_word(line);
    told.push_str(call)?;
    if call == "each" {
        tell_each(structure, alloc, words, told)?;
    } else if !structure.tell_whole(alloc, call, words, told)? {
        tell_words(structure, alloc, call, words, told)?;
    }
    told.push_str("\n")?;
    Ok(())
}

/// Tells what the calls of some lines answer.
pub fn tell_lines<S: Structure>(
    structure: &mut S,
    alloc: Global,
    lines: &str,
    told: &mut String,
) -> anyhow::Result<()> {
    for line in lines.split("\n") {
        tell_line(structure, alloc, line, told)?;
    }
    Ok(())
}
