//! How often each reply, each case and each change of the schema comes up.

use crate::cases::{CASES, Case, REPLIES};
use bf_base::Memory;
use bf_tree::{Refusal, Reply};
use random_scripts::asked::{Asked, Flip, Moment};
use random_scripts::changes::{CHANGES, Kind};
use random_scripts::forms::{Reach, Verb};
use std::alloc::Global;

/// Counts over scripts.
#[derive(Debug, Drop)]
pub struct Counts {
    /// Of replies that begin so.
    replies: Vec<u64>,
    /// Of the cases.
    cases: Vec<u64>,
    /// Of the changes that are taken.
    changes: Vec<u64>,
    /// Whether the block that runs has changed rows of a table that the last MIGRATE has made.
    has_changed: bool,
}

fn zeros(alloc: Global, count: usize) -> Result<Vec<u64>, Memory> {
    Ok(vec![in alloc; 0; count]?)
}

/// What a line of a report says behind its first word, where there is more.
fn behind_place(line: &[u8]) -> Option<&[u8]> {
    let place = line.iter().take_while(|byte| **byte != b' ').count();
    line.get(place.saturating_add(1)..)
}

/// What a statement on a table has tried by its reply.
fn case_of(verb: Verb, reach: Reach, moment: Moment, reply: &Reply) -> Option<Case> {
    match reply {
        Reply::Refused(Refusal::DuplicateKey(_)) => Some(Case::Duplicate(moment)),
        Reply::Refused(_) | Reply::Updated(0) | Reply::Deleted(0) => None,
        Reply::Rows(rows) if rows.is_empty() => None,
        _ => Some(Case::Met(verb, reach, moment)),
    }
}

/// Whether a case is a change of rows of a table that the last MIGRATE has made.
fn is_change(case: Case) -> bool {
    match case {
        Case::Met(verb, _, moment) => verb != Verb::Select && moment != Moment::Elsewhere,
        _ => false,
    }
}

impl Counts {
    pub fn new(alloc: Global) -> Result<Counts, Memory> {
        Ok(Counts {
            replies: zeros(alloc, REPLIES.len())?,
            cases: zeros(alloc, CASES.len())?,
            changes: zeros(alloc, CHANGES.len())?,
            has_changed: false,
        })
    }

    /// Counts a case.
    pub fn add(&mut self, case: Case) {
        for ((counted, _), count) in CASES.iter().zip(self.cases.iter_mut()) {
            if *counted == case {
                *count = count.saturating_add(1);
            }
        }
    }

    fn add_on_table(&mut self, case: Case) {
        self.add(case);
        if is_change(case) {
            self.has_changed = true;
        }
    }

    fn add_flip(&mut self, flip: Flip) {
        self.add(Case::Migrate(flip.kind));
        if flip.is_onto_source {
            self.add(Case::OntoSource);
        }
        if flip.is_over_index {
            self.add(Case::OverIndex);
        }
    }

    /// Counts what a statement asks and how it ends, one behind the other.
    pub fn add_statement(&mut self, asked: Asked, reply: &Reply) {
        match asked {
            Asked::On(verb, reach, moment) => {
                if let Some(case) = case_of(verb, reach, moment, reply) {
                    self.add_on_table(case);
                }
            }
            Asked::Migrate(flip) => self.add_flip(flip),
            Asked::Begin => self.has_changed = false,
            Asked::RollBack if self.has_changed => self.add(Case::RolledBack),
            Asked::RollBack | Asked::Other => {}
        }
    }

    fn add_line(&mut self, line: &[u8]) {
        let Some(reply) = behind_place(line) else {
            return;
        };
        for ((start, _), count) in REPLIES.iter().zip(self.replies.iter_mut()) {
            if reply.starts_with(start.as_bytes()) {
                *count = count.saturating_add(1);
            }
        }
    }

    /// Counts the replies of a report.
    pub fn add_report(&mut self, report: &[u8]) {
        for line in report.split(|byte| *byte == b'\n') {
            self.add_line(line);
        }
    }

    /// Counts the changes that a script makes.
    pub fn add_changes(&mut self, taken: &[usize]) {
        for place in taken {
            if let Some(count) = self.changes.get_mut(*place) {
                *count = count.saturating_add(1);
            }
        }
    }

    /// How a reply begins that is rarer than it should be.
    pub fn first_rare_reply(&self) -> Option<&'static str> {
        let mut counted = REPLIES.iter().zip(self.replies.as_slice());
        let ((start, _), _) = counted.find(|((_, least), count)| *count < least)?;
        Some(start)
    }

    /// A case that is rarer than it should be.
    pub fn first_rare_case(&self) -> Option<Case> {
        let mut counted = CASES.iter().zip(self.cases.as_slice());
        let ((case, _), _) = counted.find(|((_, least), count)| *count < least)?;
        Some(*case)
    }

    /// The form of a change that is never taken, where it is not to be refused.
    pub fn first_untaken(&self) -> Option<&'static str> {
        let mut counted = CHANGES.iter().zip(self.changes.as_slice());
        let (change, _) = counted.find(|(change, count)| change.kind != Kind::Refused
            && **count == 0)?;
        Some(change.form)
    }
}
