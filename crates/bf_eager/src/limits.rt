//! The limits of the language, where a statement did not come out of a script that was read within them.

ghost use Rattle.std.specs.List.{list_all};
ghost use Rattle.std.specs.Prelude.{◌≡◌, ◌↔◌, [], ◌∷◌, true, IsTrue};
ghost use Rattle.bf_tree.specs.Limits.{IsNarrowMigrate, has_small_arms};
ghost use Rattle.bf_eager.specs.Eager.{IsWholeGroup};

use bf_base::MOST_COLUMNS;
use bf_tree::{MOST_TARGETS, Migrate, Statement, Target, have_few_arms};

fn has_small_arms(target: &Target) -> bool
    ensures { result ≡ has_small_arms target.now }
{
    target
        .arms
        .as_slice()
        .iter()
        .all(|arm| arm.items.len() <= MOST_COLUMNS)
}

fn have_small_arms(targets: &[Target]) -> bool
    ensures { result ≡ list_all has_small_arms targets.now }
{
    targets.iter().all(|target| has_small_arms(target))
}

/// Whether a MIGRATE is of a size that a script can have. It counts its targets, arms and items.
pub fn is_narrow(migrate: &Migrate) -> bool
    ensures { IsTrue result ↔ IsNarrowMigrate migrate.now }
{
    let targets = migrate.targets.as_slice();
    targets.len() <= MOST_TARGETS && have_few_arms(targets) && have_small_arms(targets)
}

/// Whether a statement is a group of its own that commits, of a size that a script can have.
pub fn is_alone(statement: &Statement) -> bool
    ensures { IsTrue result ↔ IsWholeGroup true (statement.now ∷ []) }
{
    match statement {
        Statement::Begin | Statement::Commit | Statement::Rollback => false,
        Statement::Migrate(migrate) => is_narrow(migrate),
        Statement::CreateTable { columns, .. } => columns.len() <= MOST_COLUMNS,
        Statement::CreateIndex { .. }
        | Statement::Insert { .. }
        | Statement::Select { .. }
        | Statement::Update { .. }
        | Statement::Delete { .. } => true,
    }
}
