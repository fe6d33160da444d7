//! How many rows each table has behind a run.

ghost use Rattle.std.specs.Prelude.{◌≡◌, IfOk, OnOk};
ghost use Rattle.bf_sql.specs.migrations.Lazy.{sweep_of, view_of};
ghost use Rattle.bf_store.specs.Stores.{IsOf};
ghost use Rattle.bf_text.specs.Report.{report_text};
ghost use Rattle.bf_run.specs.Options.{audit_if, audit_of};

use bf_base::{Memory, Name};
use bf_image::{Registry, ValueIndexes};
use bf_live::LiveTables;
use bf_machine::Parts;
use bf_serve::all_granules;
use bf_store::Store;
use bf_text::report;
use bf_tree::Sweep;
use std::alloc::Global;

/// The name of each live table, in the order of names, and how many rows it has. It compares about
/// log n names for each.
///
/// # Errors
/// Where memory runs out.
fn count_rows(alloc: Global, live: &LiveTables) -> Result<Vec<(Name, u32)>, Memory>
    ensures { IfOk result (λ counts. counts.items ≡ audit_of live.now) }
{
    let mut counts = Vec::new(alloc);
    for table in live.catalog().tables() {
        let name = table.name.copy(alloc)?;
        let rows = live.row_count(&table.name);
        counts.push((name, rows))?;
    }
    Ok(counts)
}

/// Moves all that is left of the last migration of a store, in memory alone: the live tables are
/// then the database that was seen before. It costs what [`Store::move_granules`] does.
///
/// # Errors
/// Where memory runs out, or 2 ^ 32 granules or 2 ^ 64 changes were made.
fn settle(alloc: Global, registry: &Registry, store: &mut Store) -> Result<(), Memory>
    requires { IsOf registry.now store.old.migration }
    ensures { OnOk result (store.new.lazy.live ≡ view_of store.old.lazy) }
{
    // Its contract says what is true of a store's state.
    let _ = store.live();
    let Some(pass) = store.migration() else {
        return Ok(());
    };
    let Sweep::Running { .. } = store.sweep() else {
        return Ok(());
    };
    let last = registry.migration(&pass);
    let indexes = ValueIndexes::of(alloc, last)?;
    let all = all_granules(alloc, last, &indexes)?;
    store.move_granules(registry, &indexes, all.as_slice(), None)?;
    Ok(())
}

/// The report of what a run leaves, with how many rows each table of the database has where that
/// was asked for. These are counted once all that is left of the last migration has moved in
/// memory, of which no log is told.
///
/// # Errors
/// Where memory runs out, or for the count 2 ^ 32 granules or 2 ^ 64 changes were made.
pub(crate) fn report_of(
    alloc: Global,
    registry: &Registry,
    parts: &mut Parts,
    audit: bool,
) -> Result<Vec<u8>, Memory>
    requires { IsOf registry.now parts.old.store.migration }
    ensures { IfOk result (λ text. text.items
        ≡ report_text parts.old.transcripts.sessions parts.old.history.entries
        (audit_if audit (view_of parts.old.store.lazy)) (sweep_of parts.old.store.lazy.last)) }
{
    let sweep = parts.store.sweep();
    if !audit {
        return report(alloc, &parts.transcripts, &parts.history, None, &sweep);
    }
    settle(alloc, registry, &mut parts.store)?;
    let counts = count_rows(alloc, parts.store.live())?;
    report(
        alloc,
        &parts.transcripts,
        &parts.history,
        Some(counts.as_slice()),
        &sweep,
    )
}
