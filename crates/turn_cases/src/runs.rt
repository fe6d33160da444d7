//! Scripts whose sessions take turns in an order that is given.

ghost use Rattle.std.specs.Prelude.{◌≡◌, true};
ghost use Rattle.bf_sql.specs.Database.{empty_database};
ghost use Rattle.bf_machine.specs.interleaving.Kept.{IsWithinLimits};

use crate::refusing::Refusing;
use crate::scripts::script_of;
use bf_base::Memory;
use bf_image::Registry;
use bf_live::LiveTables;
use bf_machine::{Machine, Opened, in_order};
use bf_store::Store;
use bf_tree::{History, Script, Sweep, Transcripts};
use std::alloc::Global;
use std::marker::Brand;
use std::sync::{Arc, Wait};

/// How sessions take turns.
#[derive(Clone, Copy)]
pub struct Order<'a> {
    /// How often a group may begin again.
    pub retries: u16,
    /// The number of the change that the journal refuses, and 0 for none.
    pub refused: u64,
    /// The numbers of sessions.
    pub turns: &'a [u32],
}

/// The replies to each session, the history, and how far the last migration has come.
pub type Told = (Transcripts, History, Sweep);

/// Serves the sessions of a script over the empty database.
fn serve<N: Opened, R: Wait>(
    rt: &R,
    alloc: Global,
    registry: &Registry,
    script: Script,
    order: Order,
) -> Result<Told, Memory>
    requires opening { N.opening ≡ empty_database }
    requires registry { registry.now ≡ N.registry }
    requires logged { true ≡ N.logged }
    requires script { script ≡ N.script }
    requires limits { IsWithinLimits script }
{
    let store = Store::of(alloc, LiveTables::new(alloc));
    let mut machine: Machine<N> = Machine::new(
        alloc,
        store,
        Arc::new(alloc, script)?,
        order.retries,
    )?;
    let mut journal = Refusing::of(order.refused);
    in_order(alloc, rt, registry, &mut journal, &mut machine, order.turns)?;
    let sweep = machine.sweep();
    let parts = machine.into_parts();
    Ok((parts.transcripts, parts.history, sweep))
}

/// What is told of a run of a script over the empty database.
pub fn run<R: Wait>(rt: &R, alloc: Global, text: &str, order: Order) -> anyhow::Result<Told> {
    let (registry, _empty) = Registry::new(alloc, rt)?;
    let script = script_of(alloc, text)?;
    Ok(serve::<Brand, R>(rt, alloc, &registry, script, order)?)
}
