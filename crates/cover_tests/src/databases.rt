//! Databases before and behind a flip, each replayed from the empty one.

ghost use Rattle.std.specs.List.{list_all};
ghost use Rattle.std.specs.Prelude.{◌∷◌, [], IfOk, IfSome, IsTrue, true};
ghost use Rattle.bf_tree.specs.Limits.{IsNarrowMigrate};
ghost use Rattle.bf_live.specs.Replies.{IsWellBound};
ghost use Rattle.bf_image.specs.Migrations.{IsLawfulMigration};
ghost use Rattle.bf_eager.specs.Eager.{IsWholeGroup};

use bf_base::Memory;
use bf_eager::{Eager, is_alone, is_narrow};
use bf_image::Migration;
use bf_plan::prepare;
use bf_tree::{Bound, Migrate, Statement};
use std::alloc::Global;
use std::slice;

/// Runs statements, each as an entry of its own. One that can be none is left out.
fn run_all(eager: &mut Eager, statements: &[Statement]) -> Result<(), Memory> {
    for statement in statements {
        if is_alone(statement) {
            eager.run_entry(slice::from_ref(statement), true)?;
        }
    }
    Ok(())
}

/// The database behind statements, over the empty one.
fn database(alloc: Global, statements: &[Statement]) -> Result<Eager, Memory> {
    let mut eager = Eager::new(alloc);
    run_all(&mut eager, statements)?;
    Ok(eager)
}

fn begun(eager: &Eager, migrate: &Migrate) -> Result<Option<Migration>, Memory>
    requires { IsNarrowMigrate migrate.now }
    ensures { IfOk result (λ begun. IfSome begun (λ migration. IsLawfulMigration migration)) }
{
    match eager.begun(migrate)? {
        Ok(migration) => Ok(Some(migration)),
        Err(_) => Ok(None),
    }
}

/// The migration that a MIGRATE begins behind statements, if it is not refused.
pub fn migration(
    alloc: Global,
    before: &[Statement],
    migrate: &Migrate,
) -> Result<Option<Migration>, Memory>
    ensures { IfOk result (λ begun. IfSome begun (λ migration. IsLawfulMigration migration)) }
{
    if !is_narrow(migrate) {
        return Ok(None);
    }
    let eager = database(alloc, before)?;
    begun(&eager, migrate)
}

/// A statement as it is prepared in the catalog of a database.
fn prepared(alloc: Global, eager: &Eager, statement: &Statement) -> Result<Bound, Memory>
    requires { IsWholeGroup true (statement.now ∷ []) }
    ensures { IfOk result (λ bound. IsWellBound bound.action) }
{
    prepare(alloc, statement, eager.catalog(), false)
}

/// Statements before a flip, the MIGRATE, and those behind it.
#[derive(Clone, Copy)]
pub struct Told<'a> {
    pub before: &'a [Statement],
    pub flip: &'a [Statement],
    pub behind: &'a [Statement],
}

/// The database behind statements, and behind others of a later session, and of a third.
fn database_behind(alloc: Global, told: Told<'_>) -> Result<Eager, Memory> {
    let mut eager = database(alloc, told.before)?;
    run_all(&mut eager, told.flip)?;
    run_all(&mut eager, told.behind)?;
    Ok(eager)
}

/// A statement as it is prepared behind others, if it can be an entry of its own.
pub fn bound(alloc: Global, told: Told<'_>, statement: &Statement) -> Result<Option<Bound>, Memory>
    ensures { IfOk result (λ bound. IfSome bound (λ bound. IsWellBound bound.action)) }
{
    if !is_alone(statement) {
        return Ok(None);
    }
    let eager = database_behind(alloc, told)?;
    Ok(Some(prepared(alloc, &eager, statement)?))
}
