// Which tracker a claim is of, for clauses alone.
ghost use Rattle.std.specs.Prelude.{◌≡◌};
ghost use Rattle.std.specs.Borrow.{ftrue};
ghost use Rattle.atomic_table.specs.Seated.{TableId, table_id_coded};

use crate::bits::Bits;
use std::marker::{Model, PhantomData};

/// It has no bytes and owns nothing: `of` alone ties it to a tracker.
#[derive(Drop)]
pub(crate) struct Origin {
    marker: PhantomData<()>,
    pub(crate) ghost table: { TableId } by { table_id_coded },
}

impl Model for Origin {
    ghost also_owns = { λ _. ftrue };
}

impl Origin {
    pub(crate) fn of(bits: &Bits) -> Origin
        ensures { result.table ≡ bits.now.table }
    {
        let _ = bits;
        Origin {
            marker: PhantomData,
        }
    }
}
