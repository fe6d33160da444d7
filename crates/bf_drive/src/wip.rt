//! Granules that an actor has claimed, with their claims.

ghost use Rattle.std.specs.Prelude.{◌≡◌, ◌-◌, ◌<◌, [], ◌∷◌, ◌++◌, length, take, slice_get};
ghost use Rattle.std.specs.Option.{option_copied};
ghost use Rattle.bf_drive.specs.Claims.{IsOf};
ghost use Rattle.bf_drive.specs.Lists.{IsWip, Lacks, granules_in, most_granules};

use crate::PLACES;
use crate::claim::Claim;
use bf_base::Granule;
use smallvec::SmallVec;
use std::alloc::Global;
use std::marker::Model;

/// Granules with their claims, in the order in which they were pushed: at most `PLACES`, all
/// different, and each claim is of the granule beside it. The places stand in the value itself, and
/// each call takes constant time. It can't be let go but by `end`.
pub struct Wip {
    entries: SmallVec<Option<(Granule, Claim)>, PLACES>,
}

impl Model for Wip {
    ghost use Rattle.std.specs.Prelude.{List};
    ghost use Rattle.bf_drive.specs.Lists.{Entry, IsWip};
    ghost use Rattle.bf_drive.specs.Keeping.{AreKept, values_in};

    ghost Value = { List Entry };

    ghost view = { λ wip. values_in wip.entries.items };

    ghost invariant = { λ wip. AreKept wip.entries × IsWip (values_in wip.entries.items) };
}

impl Wip {
    /// An empty list. It takes no memory.
    pub fn new(alloc: Global) -> Wip
        ensures { result ≡ [] }
    {
        Wip {
            entries: SmallVec::new(alloc),
        }
    }

    /// How many granules there are, at most `PLACES`.
    pub fn len(&self) -> u32
        ensures len { result ≡ length self.now }
        ensures sound { IsWip self.now }
    {
        self.entries.len() as u32
    }

    /// The granule at an index from 0 on; `None` exactly where the index isn't below the length.
    pub fn at(&self, index: u32) -> Option<&Granule>
        ensures { option_copied result ≡ slice_get (granules_in self.now) index }
    {
        match self.entry(index) {
            Some((granule, _)) => Some(granule),
            None => None,
        }
    }

    fn entry(&self, index: u32) -> Option<&(Granule, Claim)>
        ensures { option_copied result ≡ slice_get self.now index }
    {
        match self.entries.as_slice().get(index as usize) {
            Some(Some(entry)) => Some(entry),
            Some(None) | None => None,
        }
    }

    /// Appends a granule and its claim. It takes no memory.
    pub fn push(&mut self, granule: Granule, claim: Claim)
        requires few { length self.old < most_granules }
        requires different { Lacks (granules_in self.old) granule }
        requires own { IsOf granule claim }
        ensures pushed { self.new ≡ self.old ++ (granule, claim) ∷ [] }
        ensures sound { IsWip self.new }
    {
        self.entries.push_reserved(Some((granule, claim)));
    }

    /// Takes off the last granule with its claim; `None` exactly where the list is empty. It takes no
    /// memory.
    pub fn pop(&mut self) -> Option<(Granule, Claim)>
        ensures last { result ≡ slice_get self.old (length self.old - 1) }
        ensures rest { self.new ≡ take (length self.old - 1) self.old }
        ensures sound { IsWip self.new }
    {
        self.entries.pop().flatten()
    }

    /// Ends an empty list. It takes no memory.
    pub fn end(self)
        requires { self ≡ [] }
    {
        let Wip { entries: _ } = self;
    }
}
