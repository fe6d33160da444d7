//! What is pending, put into the store.

ghost use Rattle.std.specs.Prelude.{◌≡◌, ◌≢◌, Err, OnErr, OnOk, true};
ghost use Rattle.bf_tree.specs.declared.reply.Cause.{Cause};
ghost use Rattle.bf_tree.specs.declared.plan.Plan.{Plan};
ghost use Rattle.bf_sql.specs.migrations.Lazy.{view_of};
ghost use Rattle.bf_store.specs.Stores.{IsByPass, IsOf};
ghost use Rattle.bf_machine.specs.declared.journal.KeepError.TheVariants.{Ended};
ghost use Rattle.bf_machine.specs.interleaving.Answering.{CanSettle};
ghost use Rattle.bf_machine.specs.interleaving.Events.{put_into};
ghost use Rattle.bf_machine.specs.interleaving.Groups.{Flip};
ghost use Rattle.bf_machine.specs.interleaving.Journals.{IsBeside, IsOfLogIfEnded, IsPutInto, IsRefused, IsStated, leaves_something};
ghost use Rattle.bf_machine.specs.interleaving.Seen.{pending_seen};

use crate::journal::{Journal, KeepError};
use crate::so_far::Pending;
use bf_base::Memory;
use bf_image::Registry;
use bf_store::Store;
use std::alloc::Global;
use std::sync::Wait;

/// Makes what a group was to leave, which is something, part of the store as one change.
///
/// # Errors
/// Where memory runs out, or 2 ^ 32 migrations or 2 ^ 64 changes were made. The store and what is
/// pending are as they were then.
fn put<R: Wait>(
    alloc: Global,
    rt: &R,
    registry: &Registry,
    store: &mut Store,
    pending: &mut Pending,
) -> Result<(), Memory>
    requires one { IsOf registry.now store.old.migration }
    requires can { CanSettle store.old.lazy (pending_seen pending.old) }
    requires leaves { leaves_something store.old.lazy (pending_seen pending.old) ≡ true }
    ensures ok { OnOk result (store.new.lazy ≡ put_into store.old.lazy (pending_seen pending.old)) }
    ensures by_pass { OnOk result (IsByPass store.new.lazy.last store.new.migration) }
    ensures one { IsOf registry.now store.new.migration }
    ensures same { ((plan : Plan) → pending_seen pending.old ≡ Flip plan → ⊥)
        → store.new.migration ≡ store.old.migration }
    ensures err { OnErr result (store.new ≡ store.old) }
    ensures kept { OnErr result (pending_seen pending.new ≡ pending_seen pending.old) }
{
    // Its contract says that the store is a lazy state.
    let _ = store.live();
    match pending {
        Pending::Rows(writes) => {
            store.commit(writes)?;
        }
        Pending::NewTable(table) => {
            store.create_table(table.copy(alloc)?)?;
        }
        Pending::NewIndex(index) => {
            store.create_index(index.copy(alloc)?)?;
        }
        Pending::Flip(plan) => {
            store.flip(rt, registry, plan)?;
        }
        Pending::Nothing => unreachable!(),
    }
    // Its contract says that the last migration is the one that the pass reads.
    let _ = store.migration();
    Ok(())
}

/// Whether a record tells something of what an open group is to leave. It looks up each table that
/// the group has written to and the row of each removal, up to the first write that is told.
fn leaves_something(store: &Store, pending: &Pending) -> bool
    ensures { result ≡ leaves_something store.now.lazy (pending_seen pending.now) }
{
    match pending {
        Pending::Rows(writes) => store.leaves(writes),
        Pending::Nothing => false,
        _ => true,
    }
}

/// Keeps what a group was to leave, and then makes it part of the store. Where it is to leave nothing,
/// neither journal nor store change.
///
/// # Errors
/// The journal's cause by which the group ends; and where memory runs out, or 2 ^ 32 migrations or
/// 2 ^ 64 changes were made. The store and what is pending are as they were then.
pub(crate) fn settle<J: Journal, R: Wait>(
    alloc: Global,
    rt: &R,
    registry: &Registry,
    journal: &mut J,
    store: &mut Store,
    pending: &mut Pending,
) -> Result<(), KeepError>
    requires one { IsOf registry.now store.old.migration }
    requires can { CanSettle store.old.lazy (pending_seen pending.old) }
    requires stated { IsStated J.Says (view_of store.old.lazy) (pending_seen pending.old) }
    ensures ok { OnOk result (store.new.lazy ≡ put_into store.old.lazy (pending_seen pending.old)) }
    ensures by_pass { OnOk result (IsByPass store.new.lazy.last store.new.migration) }
    ensures one { IsOf registry.now store.new.migration }
    ensures same { ((plan : Plan) → pending_seen pending.old ≡ Flip plan → ⊥)
        → store.new.migration ≡ store.old.migration }
    ensures err { OnErr result (store.new ≡ store.old) }
    ensures kept { OnErr result (pending_seen pending.new ≡ pending_seen pending.old) }
    ensures beside { ((cause : Cause) → result ≢ Err (Ended cause))
        → IsBeside J.Answers (IsPutInto store.old.lazy (pending_seen pending.old)) store.old.lazy
        store.new.lazy journal.old journal.new }
    ensures ended { IsOfLogIfEnded J.ends result }
    ensures refused { (cause : Cause) → result ≡ Err (Ended cause)
        → IsRefused J.Answers (IsPutInto store.old.lazy (pending_seen pending.old)) store.old.lazy
        journal.old journal.new cause }
{
    // Its contract says that the last migration is the one that the pass reads.
    let _ = store.migration();
    if !leaves_something(store, pending) {
        return Ok(());
    }
    journal.keep_group(store, pending)?;
    if let Err(_memory) = put(alloc, rt, registry, store, pending) {
        journal.give_up();
        return Err(KeepError::Memory);
    }
    Ok(())
}
