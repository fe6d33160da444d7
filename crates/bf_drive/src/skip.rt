//! Granules to look at again.

ghost use Rattle.std.specs.Prelude.{◌≡◌, ◌<◌, [], ◌∷◌, ◌++◌, length, slice_get};
ghost use Rattle.std.specs.Option.{option_copied};
ghost use Rattle.bf_drive.specs.Lists.{IsSkip, Lacks, most_granules};

use crate::PLACES;
use bf_base::Granule;
use smallvec::SmallVec;
use std::alloc::Global;
use std::marker::Model;

/// Granules that were busy or done, in the order in which they were pushed: at most `PLACES`, all
/// different. The places stand in the value itself, and each call takes constant time.
#[derive(Drop)]
pub struct Skip {
    granules: SmallVec<Option<Granule>, PLACES>,
}

impl Model for Skip {
    ghost use Rattle.std.specs.Prelude.{List};
    ghost use Rattle.bf_base.specs.declared.granule.Granule.{Granule as Moved};
    ghost use Rattle.bf_drive.specs.Lists.{IsSkip};
    ghost use Rattle.bf_drive.specs.Keeping.{AreKept, values_in};

    ghost Value = { List Moved };

    ghost view = { λ skip. values_in skip.granules.items };

    ghost invariant = { λ skip. AreKept skip.granules × IsSkip (values_in skip.granules.items) };
}

impl Skip {
    /// An empty list. It takes no memory.
    pub fn new(alloc: Global) -> Skip
        ensures { result ≡ [] }
    {
        Skip {
            granules: SmallVec::new(alloc),
        }
    }

    /// How many granules there are, at most `PLACES`.
    pub fn len(&self) -> u32
        ensures len { result ≡ length self.now }
        ensures sound { IsSkip self.now }
    {
        self.granules.len() as u32
    }

    /// The granule at an index from 0 on; `None` exactly where the index isn't below the length.
    pub fn at(&self, index: u32) -> Option<&Granule>
        ensures { option_copied result ≡ slice_get self.now index }
    {
        match self.granules.as_slice().get(index as usize) {
            Some(Some(granule)) => Some(granule),
            Some(None) | None => None,
        }
    }

    /// Appends a granule. It takes no memory.
    pub fn push(&mut self, granule: Granule)
        requires few { length self.old < most_granules }
        requires different { Lacks self.old granule }
        ensures pushed { self.new ≡ self.old ++ granule ∷ [] }
        ensures sound { IsSkip self.new }
    {
        self.granules.push_reserved(Some(granule));
    }
}
