//! Copies of catalogs, which threads read while the machine's own changes.

ghost use Rattle.std.specs.Prelude.{◌≡◌, IfOk};

use bf_base::Memory;
use bf_tree::Catalog;
use std::alloc::Global;

/// An equal catalog. Linear in its tables and index rules, each of which is added behind those of smaller names.
///
/// # Errors
/// Where memory runs out.
pub(crate) fn copy_of(alloc: Global, catalog: &Catalog) -> Result<Catalog, Memory>
    ensures { IfOk result (λ copy. copy ≡ catalog.now) }
{
    let mut copy = Catalog::new(alloc);
    for table in catalog.tables() {
        copy.add_table(table.copy(alloc)?)?;
    }
    for index in catalog.indexes() {
        copy.add_index(index.copy(alloc)?)?;
    }
    Ok(copy.with_number(catalog.number()))
}
