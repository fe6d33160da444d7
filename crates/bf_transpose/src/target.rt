//! The target of a migration that a table is.

ghost use Rattle.std.specs.Prelude.{◌≡◌, ◌<◌, IfSome, length, position};
ghost use Rattle.std.specs.Option.{option_map};
ghost use Rattle.bf_sql.specs.Database.{same_table};
ghost use Rattle.bf_sql.specs.migrations.Need.{target_of};
ghost use Rattle.bf_image.specs.Migrations.{IsLawfulMigration, old_of, target_at};

use bf_base::Table;
use bf_image::Migration;

/// Where the first table stands that has the name, the columns and the key of another.
fn place_of(tables: &[Table], table: &Table) -> Option<usize>
    ensures { result ≡ position (λ made. same_table made table.now) tables.now }
{
    tables.iter().position(|made| made == table)
}

/// The number of the target that a table is, with its name, its columns and its key, and `None`
/// exactly where it is none. It compares the tables of the targets, and takes no memory.
pub(crate) fn target_of(migration: &Migration, table: &Table) -> Option<u8>
    requires { IsLawfulMigration migration.now }
    ensures target { option_map (target_at migration.now) result
        ≡ target_of (old_of migration.now) migration.now.plan.migrate table.now }
    ensures place { result ≡ position (λ made. same_table made table.now) migration.now.plan.tables }
    ensures there { IfSome result (λ number. number < length migration.now.plan.migrate.targets) }
{
    let Some(place) = place_of(migration.plan.tables.as_slice(), table) else {
        return None;
    };
    Some(place as u8)
}
