//! What is told of the texts of a file.

use crate::orders::{tell_granules, tell_keys};
use crate::phrases::{tell_condition, tell_expression, tell_literal};
use crate::reports::tell_report;
use crate::scripts::{tell_blanks, tell_script, tell_tokens};
use crate::tables::{tell_fit, tell_key};
use crate::trees::tell_tree;
use crate::words::{tell_keyword, tell_name, tell_sign, tell_text};
use crate::writing::{tell_numbers, tell_refusal, tell_values};
use case_files::{Teller, unescaped};
use std::alloc::Global;

/// What the cases of a file are about.
#[derive(Clone, Copy)]
pub enum Subject {
    Blanks,
    Columns,
    Conditions,
    Expressions,
    Granules,
    Keys,
    Keywords,
    Literals,
    Names,
    Numbers,
    Orders,
    Refusals,
    Reports,
    Scripts,
    Signs,
    Texts,
    Tokens,
    Trees,
    Values,
}

/// The names of files, and their subjects.
static SUBJECTS: [(&str, Subject); 19] = [
    ("blanks.cases", Subject::Blanks),
    ("columns.cases", Subject::Columns),
    ("conditions.cases", Subject::Conditions),
    ("expressions.cases", Subject::Expressions),
    ("granules.cases", Subject::Granules),
    ("keys.cases", Subject::Keys),
    ("keywords.cases", Subject::Keywords),
    ("literals.cases", Subject::Literals),
    ("names.cases", Subject::Names),
    ("numbers.cases", Subject::Numbers),
    ("orders.cases", Subject::Orders),
    ("refusals.cases", Subject::Refusals),
    ("reports.cases", Subject::Reports),
    ("scripts.cases", Subject::Scripts),
    ("signs.cases", Subject::Signs),
    ("texts.cases", Subject::Texts),
    ("tokens.cases", Subject::Tokens),
    ("trees.cases", Subject::Trees),
    ("values.cases", Subject::Values),
];

impl Subject {
    /// The subject of a file, which may stand behind its folder.
    pub fn of_file(file: &str) -> Option<Subject> {
        let (_, name) = file.rsplit_once("/").unwrap_or(("", file));
        for (found, subject) in SUBJECTS.iter() {
            if *found == name {
                return Some(*subject);
            }
        }
        None
    }

    /// Whether something is told of each line of a text, and not of all its lines together.
    fn has_lines(self) -> bool {
        !matches!(self, Subject::Granules | Subject::Orders)
    }

    /// Adds what is told of a line, or of a text where nothing is told of its lines.
    fn tell_part(self, alloc: Global, part: &str, told: &mut String) -> anyhow::Result<()> {
        let bytes = unescaped(alloc, part)?;
        let bytes = bytes.as_slice();
        match self {
            Subject::Blanks => tell_blanks(alloc, part, told),
            Subject::Columns => tell_fit(alloc, part, told),
            Subject::Conditions => tell_condition(alloc, bytes, told),
            Subject::Expressions => tell_expression(alloc, bytes, told),
            Subject::Granules => tell_granules(alloc, part, told),
            Subject::Keys => tell_key(alloc, part, told),
            Subject::Keywords => tell_keyword(part, told),
            Subject::Literals => tell_literal(alloc, bytes, told),
            Subject::Names => tell_name(alloc, bytes, told),
            Subject::Numbers => tell_numbers(alloc, part, told),
            Subject::Orders => tell_keys(alloc, part, told),
            Subject::Refusals => tell_refusal(alloc, part, told),
            Subject::Reports => tell_report(alloc, part, told),
            Subject::Scripts => tell_script(alloc, bytes, told),
            Subject::Signs => tell_sign(part, told),
            Subject::Texts => tell_text(alloc, bytes, told),
            Subject::Tokens => tell_tokens(alloc, bytes, told),
            Subject::Trees => tell_tree(alloc, part, told),
            Subject::Values => tell_values(alloc, part, told),
        }
    }
}

impl Teller for Subject {
    fn tell(&self, alloc: Global, text: &str, told: &mut String) -> anyhow::Result<()> {
        if !self.has_lines() {
            return self.tell_part(alloc, text, told);
        }
        for (place, line) in text.split("\n").enumerate() {
            if place > 0 {
                told.push('\n')?;
            }
            self.tell_part(alloc, line, told)?;
        }
        Ok(())
    }
}
