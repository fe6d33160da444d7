//! Granules, the units of movement.

ghost use Rattle.std.specs.Prelude.{◌≡◌, IfOk};

use crate::memory::{Memory, TryClone};
use crate::row::Key;
use std::alloc::Global;

/// Where a granule stands in its unit: at a position of the driving table's key order,
/// counted from 0, or at the value of a group or a join.
#[derive(Debug, Drop, PartialEq, Eq, PartialOrd, Ord)]
pub enum Place {
    Row(u32),
    Group(Key),
}

/// What moves together: a place of a unit, which is counted from 0. Granules are compared by
/// unit, then by place.
#[derive(Debug, Drop, PartialEq, Eq, PartialOrd, Ord)]
pub struct Granule {
    pub unit: u8,
    pub place: Place,
}

impl Place {
    /// An equal place.
    pub fn copy(&self, alloc: Global) -> Result<Place, Memory>
        ensures { IfOk result (λ copy. copy ≡ self.now) }
    {
        match self {
            Place::Row(position) => Ok(Place::Row(*position)),
            Place::Group(value) => Ok(Place::Group(value.copy(alloc)?)),
        }
    }
}

impl Granule {
    /// An equal granule.
    pub fn copy(&self, alloc: Global) -> Result<Granule, Memory>
        ensures { IfOk result (λ copy. copy ≡ self.now) }
    {
        let place = self.place.copy(alloc)?;
        Ok(Granule {
            unit: self.unit,
            place,
        })
    }
}

impl TryClone for Granule {
    fn try_clone(&self, alloc: Global) -> Result<Granule, Memory> {
        self.copy(alloc)
    }
}
