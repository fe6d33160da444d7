//! Migrations under way: what they are to make, and the old tables as they were at the flip.

ghost use Rattle.std.specs.Prelude.{◌≡◌, length};
ghost use Rattle.std.specs.List.Sorted.{IsBinarySearchResult, IsSearchInRange};
ghost use Rattle.std.specs.Option.{option_map};
ghost use Rattle.bf_base.specs.Lists.{name_cmp};
ghost use Rattle.bf_image.specs.Migrations.{IsLawfulMigration, source_of};

use bf_base::{Name, Sequence, Table};
use bf_index::FrozenIndexedHeap;
use bf_tree::Plan;

/// An old table with its rows as they were at the flip.
#[derive(Drop)]
pub struct Frozen {
    pub table: Table,
    pub rows: FrozenIndexedHeap,
}

/// A migration: its number, counted from 1, its plan, and the old tables that it is made of, in the
/// order of their names.
#[derive(Drop)]
pub struct Migration {
    pub number: u32,
    pub plan: Plan,
    pub frozen: Sequence<Frozen>,
}

/// Where the table of a name stands among old tables in the order of their names, or else where it would.
/// It compares about log n names, and takes no memory.
fn find(frozen: &[Frozen], name: &Name) -> Result<usize, usize>
    ensures bound { IsSearchInRange result (length frozen.now) }
    ensures position { IsBinarySearchResult (λ old. name_cmp old.table.name name.now) frozen.now result }
{
    frozen.binary_search_by(|old| old.table.name.cmp(name))
}

impl Migration {
    /// An old table, and `None` exactly where the migration has none of that name. It compares about
    /// log n names, and takes no memory.
    pub fn source(&self, name: &Name) -> Option<&Frozen>
        requires lawful { IsLawfulMigration self.now }
        ensures { option_map (λ frozen. frozen.now) result ≡ source_of self.now name.now }
    {
        let frozen = self.frozen.as_slice();
        match find(frozen, name) {
            Ok(place) => Some(&frozen[place]),
            Err(_) => None,
        }
    }
}
