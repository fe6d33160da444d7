//! Statements made ready: bound, or planned where a statement is a MIGRATE outside a block.

ghost use Rattle.std.specs.Prelude.{◌≡◌, false, IfOk, Some};
ghost use Rattle.bf_sql.specs.Bound.{without_rows};
ghost use Rattle.bf_sql.specs.Database.{IsDatabase};
ghost use Rattle.bf_sql.specs.migrations.Plans.{prepared_of};
ghost use Rattle.bf_tree.specs.Limits.{HasNarrowTables, IsNarrowMigrate};
ghost use Rattle.bf_tree.specs.declared.statement.Statement.TheVariants as statement;
ghost use Rattle.bf_plan.specs.Limits.{KeepsPlanLimits};
ghost use Rattle.bf_plan.specs.Prepared.{action_planned};

use crate::planning::plan;
use bf_base::Memory;
use bf_bind::bind;
use bf_tree::{Action, Bound, Catalog, Migrate, Plan, Refusal, Statement};
use std::alloc::Global;

/// What a MIGRATE is to do, by its plan or by what stands in its way.
fn action_planned(planned: Result<Plan, Refusal>) -> Action
    ensures { result ≡ action_planned planned }
{
    match planned {
        Ok(plan) => Action::Migrate(plan),
        Err(refusal) => Action::Refused(refusal),
    }
}

/// A MIGRATE outside a block.
fn prepare_migrate(alloc: Global, migrate: &Migrate, catalog: &Catalog) -> Result<Bound, Memory>
    requires narrow { HasNarrowTables catalog.now }
    requires limits { IsNarrowMigrate migrate.now }
    ensures { IfOk result (λ bound.
        prepared_of (without_rows catalog.now) false (statement.Migrate migrate.now) ≡ Some bound) }
{
    let planned = plan(alloc, migrate, catalog)?;
    Ok(Bound {
        catalog: catalog.number(),
        schema_change: true,
        action: action_planned(planned),
    })
}

/// A statement made ready to run in a catalog, in a block or outside: the first objection of the catalog,
/// or what the statement is to do, for a MIGRATE its plan. It costs what `bind` or `plan` does.
///
/// # Errors
/// Memory ran out.
pub fn prepare(
    alloc: Global,
    statement: &Statement,
    catalog: &Catalog,
    in_block: bool,
) -> Result<Bound, Memory>
    requires database { IsDatabase (without_rows catalog.now) }
    requires limits { KeepsPlanLimits catalog.now statement.now }
    ensures { IfOk result (λ bound.
        prepared_of (without_rows catalog.now) in_block statement.now ≡ Some bound) }
{
    if in_block {
        return bind(alloc, statement, catalog, in_block);
    }
    match statement {
        Statement::Migrate(migrate) => prepare_migrate(alloc, migrate, catalog),
        _ => bind(alloc, statement, catalog, in_block),
    }
}
