//! The old rows of the last migration by their values, made when they are first needed.

ghost use Rattle.std.specs.Prelude.{◌≡◌, OnErr, OnOk, Some};
ghost use Rattle.boxcar.specs.Table.{Shows};
ghost use Rattle.bf_image.specs.Migrations.{value_indexes};
ghost use Rattle.bf_recover.specs.Lookups.{AreKept};

use bf_base::Memory;
use bf_image::{MigrationPass, Registry, ValueIndexes};
use std::alloc::Global;

/// Makes the old rows of a migration by their values, unless they have been made. It costs what
/// [`ValueIndexes::of`] does then, and else takes no memory.
///
/// # Errors
/// Where memory runs out. None are kept then.
pub(crate) fn look_up(
    alloc: Global,
    registry: &Registry,
    pass: &MigrationPass,
    indexes: &mut Option<ValueIndexes>,
) -> Result<(), Memory>
    requires pass { Shows registry.now.migrations pass.now }
    requires kept { AreKept (Some pass.now) indexes.old }
    ensures ok { OnOk result (indexes.new ≡ Some (value_indexes pass.now.value)) }
    ensures err { OnErr result (indexes.new ≡ indexes.old) }
{
    if indexes.is_none() {
        *indexes = Some(ValueIndexes::of(alloc, registry.migration(pass))?);
    }
    Ok(())
}
