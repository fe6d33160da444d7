//! The holders of one name.

ghost use Rattle.std.specs.Prelude.{◌≡◌, ◌∷◌, [], ℕ, None, OnOk, OnErr, Some, false, if◌then◌else◌, ◌==◌};
ghost use Rattle.bf_locks.specs.Owners.{mode_of};

use crate::mode::Mode;
use bf_base::Memory;
use std::alloc::Global;
use std::collections::BTreeMap;
use std::marker::Model;

/// Who holds a name, and in which modes. Contracts see a list of owners and their modes, rising.
#[derive(Drop)]
pub(crate) struct Owners {
    pub(crate) kept: Kept,
}

/// How the holders of a name are kept.
#[derive(Drop)]
pub(crate) enum Kept {
    // Most names have one holder, which takes no allocation.
    One(u64, Mode),
    Several(BTreeMap<u64, Mode>),
}

impl Model for Owners {
    ghost use Rattle.std.specs.Prelude.{ℕ, List};
    ghost use Rattle.bf_locks.specs.declared.mode.Mode.{Mode as Held};

    ghost Value = { List (ℕ × Held) };

    ghost use Rattle.bf_locks.specs.Kept.{pairs_of};

    ghost view = { λ owners. pairs_of owners.kept };
}

impl Owners {
    /// One owner.
    pub(crate) fn of(owner: u64, mode: Mode) -> Owners
        ensures { result ≡ (owner, mode) ∷ [] }
    {
        Owners {
            kept: Kept::One(owner, mode),
        }
    }

    /// The mode of an owner, if it is one of them.
    pub(crate) fn mode_of(&self, owner: u64) -> Option<Mode>
        ensures { result ≡ mode_of self.now owner }
    {
        match &self.kept {
            Kept::One(one, mode) => { if *one == owner { Some(*mode) } else { None } }
            Kept::Several(several) => several.get(&owner).copied(),
        }
    }

    /// Puts an owner among them, in a mode, in place of the one in which it was.
    pub(crate) fn put(&mut self, alloc: Global, owner: u64, mode: Mode) -> Result<(), Memory>
        ensures put { OnOk result ((by : ℕ) → mode_of self.new by
            ≡ if by == owner then Some mode else mode_of self.old by) }
        ensures memory { OnErr result (self.new ≡ self.old) }
    {
        match &mut self.kept {
            Kept::One(one, held) => {
                if *one == owner {
                    *held = mode;
                    return Ok(());
                }
                let mut several = BTreeMap::new(alloc);
                several.insert(*one, *held)?;
                several.insert(owner, mode)?;
                self.kept = Kept::Several(several);
                Ok(())
            }
            Kept::Several(several) => {
                several.insert(owner, mode)?;
                Ok(())
            }
        }
    }
    /// Takes an owner from among them, and tells whether somebody is left.
    pub(crate) fn take(&mut self, alloc: Global, owner: u64) -> bool
        ensures taken { (by : ℕ) → mode_of self.new by
            ≡ if by == owner then None else mode_of self.old by }
        ensures left { result ≡ false → self.new ≡ [] }
    {
        match &mut self.kept {
            Kept::One(one, _) => {
                if *one != owner {
                    return true;
                }
                self.kept = Kept::Several(BTreeMap::new(alloc));
                false
            }
            Kept::Several(several) => {
                several.remove(&owner);
                !several.is_empty()
            }
        }
    }
}
