//! Text that is written by forms, with choices drawn from a seed.

use crate::forms::choices;
use crate::tables::Table;
use bf_base::Memory;
use std::alloc::Global;
use std::mem::replace;

/// The most parts that a form has.
const MOST_PARTS: u32 = 1000;

/// A text as far as it is written, and the seed of what is drawn next.
#[derive(Drop)]
pub struct Pen {
    alloc: Global,
    seed: u64,
    pub text: Vec<u8>,
}

impl Pen {
    pub fn new(alloc: Global, seed: u64) -> Pen {
        Pen {
            alloc,
            seed,
            text: Vec::new(alloc),
        }
    }

    /// The text so far, behind which another one begins.
    pub fn take_text(&mut self) -> Vec<u8> {
        replace(&mut self.text, Vec::new(self.alloc))
    }

    /// The next number below a limit, of a linear congruential generator.
    pub fn draw(&mut self, limit: usize) -> usize {
        let next = self.seed.wrapping_mul(6_364_136_223_846_793_005);
        self.seed = next.wrapping_add(1_442_695_040_888_963_407);
        let drawn = (self.seed >> 33) as usize;
        drawn.checked_rem(limit).unwrap_or(0)
    }

    /// One of some forms, and the empty one of none.
    pub fn choose(&mut self, choices: &[&'static str]) -> &'static str {
        let place = self.draw(choices.len());
        choices.get(place).copied().unwrap_or("")
    }

    /// Adds a text as it stands.
    pub fn put_text(&mut self, text: &str) -> Result<(), Memory> {
        self.text.extend_from_slice(text.as_bytes())?;
        Ok(())
    }

    /// Adds a form up to its first letter, and puts off what is left, behind what the letter stands for.
    fn put_front(
        &mut self,
        table: &Table,
        form: &'static [u8],
        left: &mut Vec<&'static [u8]>,
    ) -> Result<(), Memory> {
        let length = form
            .iter()
            .take_while(|byte| !byte.is_ascii_uppercase())
            .count();
        let (front, behind) = form.split_at(length.min(form.len()));
        self.text.extend_from_slice(front)?;
        if let [letter, behind @ ..] = behind {
            left.push(behind)?;
            let chosen = self.choose(choices(table, *letter));
            left.push(chosen.as_bytes())?;
        }
        Ok(())
    }

    /// Adds what a form stands for beside a table: each capital letter is one of its choices, and so are those in it.
    pub fn put(&mut self, table: &Table, form: &'static str) -> Result<(), Memory> {
        let mut left = Vec::new(self.alloc);
        left.push(form.as_bytes())?;
        for _ in 0..MOST_PARTS {
            let Some(form) = left.pop() else {
                break;
            };
            self.put_front(table, form, &mut left)?;
        }
        Ok(())
    }
}
