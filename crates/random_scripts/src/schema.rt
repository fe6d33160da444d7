//! Which tables a script has as far as it is written.

use crate::changes::{CHANGES, Change, Kind};
use crate::tables::Named;
use bf_base::Memory;
use std::alloc::Global;

/// Which changes of the schema are sought.
#[derive(Clone, Copy, Debug, PartialEq, Eq)]
pub enum Sought {
    /// Each MIGRATE that is taken.
    Taken,
    /// Each of a table that the last MIGRATE has made.
    Further,
    /// Each MIGRATE that is refused.
    Refused,
}

/// The tables that are there.
#[derive(Drop)]
pub struct Schema {
    alloc: Global,
    there: Vec<Named>,
    /// Those that have had an index since they were created.
    indexed: Vec<Named>,
    /// Those that the last MIGRATE has made, and of what.
    made: &'static [Named],
    kind: Kind,
}

/// Whether all of some names are among others.
fn are_among(names: &[Named], others: &[Named]) -> bool {
    names.iter().all(|name| others.contains(name))
}

fn is_any_among(names: &[Named], others: &[Named]) -> bool {
    names.iter().any(|name| others.contains(name))
}

impl Schema {
    pub fn new(alloc: Global) -> Schema {
        Schema {
            alloc,
            there: Vec::new(alloc),
            indexed: Vec::new(alloc),
            made: &[],
            kind: Kind::Create,
        }
    }

    pub fn there(&self) -> &[Named] {
        self.there.as_slice()
    }

    /// The tables that the last MIGRATE has made.
    pub fn made(&self) -> &'static [Named] {
        self.made
    }

    /// Whether the last MIGRATE has made totals.
    pub fn has_made_totals(&self) -> bool {
        matches!(self.kind, Kind::Totals | Kind::Mixed)
    }

    /// Whether one of the sources of a change has an index.
    pub fn is_over_index(&self, change: &Change) -> bool {
        is_any_among(change.sources, self.indexed.as_slice())
    }

    /// Whether a change is taken, or refused for its own reason alone.
    pub fn fits(&self, change: &Change) -> bool {
        let there = self.there.as_slice();
        are_among(change.sources, there)
            && change.targets.iter().all(|target| change.sources.contains(target)
                || !there.contains(target))
    }

    fn is_sought(&self, sought: Sought, change: &Change) -> bool {
        match sought {
            Sought::Taken => change.is_migrate(),
            Sought::Further => change.is_migrate() && is_any_among(change.sources, self.made),
            Sought::Refused => change.kind == Kind::Refused,
        }
    }

    /// The places of the changes that are sought and fit.
    pub fn fitting(&self, sought: Sought) -> Result<Vec<usize>, Memory> {
        let mut places = Vec::new(self.alloc);
        for (place, change) in CHANGES.iter().enumerate() {
            if self.is_sought(sought, change) && self.fits(change) {
                places.push(place)?;
            }
        }
        Ok(places)
    }

    pub fn add_index(&mut self, named: Named) -> Result<(), Memory> {
        self.indexed.push(named)?;
        Ok(())
    }

    /// The tables behind a change that fits.
    pub fn take(&mut self, change: &Change) -> Result<(), Memory> {
        let sources = change.sources;
        self.there.retain(|named| !sources.contains(named));
        self.indexed.retain(|named| !sources.contains(named));
        self.there.extend_from_slice(change.targets)?;
        if change.kind != Kind::Create {
            self.made = change.targets;
            self.kind = change.kind;
        }
        Ok(())
    }
}
