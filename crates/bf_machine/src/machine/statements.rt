//! Statements of open groups.

ghost use Rattle.std.specs.Prelude.{◌≡◌, ◌≢◌, ◌↔◌, [], Bool, IfOk, IfSome, IsTrue, None, Ok, OnErr, OnOk, Some};
ghost use Rattle.std.specs.Option.{option_map};
ghost use Rattle.bf_tree.specs.declared.reply.Refusal.TheVariants.{NoTransaction};
ghost use Rattle.bf_tree.specs.declared.reply.Reply.TheVariants.{Refused};
ghost use Rattle.bf_tree.specs.declared.statement.Statement.{Statement};
ghost use Rattle.bf_sql.specs.migrations.Lazy.{view_of};
ghost use Rattle.bf_sql.specs.migrations.Need.{needed_for};
ghost use Rattle.bf_store.specs.States.{HaveMoved, to_move};
ghost use Rattle.bf_store.specs.Stores.{IsOf};
ghost use Rattle.bf_machine.specs.declared.so_far.OpenGroup.{OpenGroup as Group};
ghost use Rattle.bf_machine.specs.declared.so_far.Pending.{Pending as Change};
ghost use Rattle.bf_machine.specs.declared.stand.Step.TheVariants.{Replied};
ghost use Rattle.bf_machine.specs.interleaving.Answering.{CanAnswer, IsAnswer};
ghost use Rattle.bf_machine.specs.interleaving.Calls.{CanExec, HasReplied, IsEnough, IsPlace, IsPresent, IsStep, slot_of};
ghost use Rattle.bf_machine.specs.interleaving.Seen.{pending_seen};

use crate::answer::answer;
use crate::machine::Machine;
use crate::opened::Opened;
use crate::so_far::{OpenGroup, least_left_behind};
use crate::stand::Step;
use bf_base::Memory;
use bf_image::{MigrationPass, Registry};
use bf_store::Store;
use bf_transpose::Cover;
use bf_tree::{Bound, Refusal, Reply};
use std::alloc::Global;

impl<N: Opened> Machine<N> {
    /// Replies to a session's next statement, as it is bound and planned, on what its group sees. What it
    /// writes stays with the group. A COMMIT or ROLLBACK in no group is refused. Nothing is done where
    /// the catalog has changed since the statement was bound, or the migration since its cover was made,
    /// or where some of its cover is still to move. It costs what the statement reads and writes of its
    /// table, and a look-up for each granule of its cover.
    ///
    /// # Errors
    /// Where memory runs out, or 2 ^ 32 rows or more change. The machine is as it was then.
    pub fn exec(
        &mut self,
        registry: &Registry,
        session: u32,
        migration: Option<&MigrationPass>,
        bound: &Bound,
        cover: &Cover,
    ) -> Result<Step, Memory>
        requires registry { registry.now ≡ N.registry }
        requires place { IsPlace self.old.script session }
        requires can { CanExec self.old session N.opening bound.now }
        requires pass { IsOf N.registry (option_map (λ pass. pass.now) migration) }
        requires cover { IsEnough self.old (option_map (λ pass. pass.now.value) migration)
            bound.now cover.now }
        ensures step { IfOk result (IsStep self.old (option_map (λ pass. pass.now) migration.entry)
            bound.now cover.now.granules.items) }
        ensures same { result ≢ Ok Replied → self.new ≡ self.old }
        ensures replied { result ≡ Ok Replied → HasReplied self.old session bound.now self.new }
    {
        if let Some(step) = self.first_needed(registry, migration, bound, cover)? {
            return Ok(step);
        }
        self.reply_to(session, bound)?;
        Ok(Step::Replied)
    }

    /// Replies to a session's next statement, as it is bound in the present catalog and planned, whose need
    /// has moved.
    ///
    /// # Errors
    /// Where memory runs out, or 2 ^ 32 rows or more change. The machine is as it was then.
    fn reply_to(&mut self, session: u32, bound: &Bound) -> Result<(), Memory>
        requires place { IsPlace self.old.script session }
        requires can { CanExec self.old session N.opening bound.now }
        requires current { bound.now.catalog ≡ self.old.db.number }
        requires moved { HaveMoved self.old.lazy.last
            (λ last. needed_for last.old last.migrate bound.now.action) }
        ensures replied { OnOk result (HasReplied self.old session bound.now self.new) }
        ensures err { OnErr result (self.new ≡ self.old) }
    {
        let place = session as usize - 1;
        let so_far = &mut self.sessions[place];
        let reply = reply_in(self.alloc, &self.store, &mut so_far.open, bound)?;
        so_far.replies.push_reserved(reply);
        self.least_left = least_left_behind(
            self.script.sessions.as_slice(),
            &self.sessions,
            self.least_left,
            place,
        );
        Ok(())
    }

    /// What is to be done before a bound statement can have its reply, if anything is: it is to be bound
    /// again, or granules of its cover are to move.
    ///
    /// # Errors
    /// Where memory runs out.
    fn first_needed(
        &self,
        registry: &Registry,
        migration: Option<&MigrationPass>,
        bound: &Bound,
        cover: &Cover,
    ) -> Result<Option<Step>, Memory>
        requires registry { registry.now ≡ N.registry }
        requires pass { IsOf N.registry (option_map (λ pass. pass.now) migration) }
        requires cover { IsEnough self.now (option_map (λ pass. pass.now.value) migration)
            bound.now cover.now }
        ensures some { IfOk result (λ needed. IfSome needed (λ step. (step ≢ Replied)
            × IsStep self.now (option_map (λ pass. pass.now) migration.entry) bound.now
            cover.now.granules.items step)) }
        ensures none { IfOk result (λ needed. needed ≡ None
            → IsPresent self.now (option_map (λ pass. pass.now) migration.entry) bound.now
            × (to_move self.now.lazy.last cover.now.granules.items ≡ [])) }
        ensures moved { IfOk result (λ needed. needed ≡ None → HaveMoved self.now.lazy.last
            (λ last. needed_for last.old last.migrate bound.now.action)) }
    {
        let number = self.store.live().catalog().number();
        let last = self.store.migration();
        let same = are_same(registry, migration, last.as_ref());
        if bound.catalog != number || !same {
            return Ok(Some(Step::Stale(number)));
        }
        let need = self.store.need(self.alloc, cover.granules.as_slice())?;
        if need.is_empty() {
            Ok(None)
        } else {
            Ok(Some(Step::Need(need)))
        }
    }
}

/// Whether two passes of a registry are of one migration, or there is neither.
pub(crate) fn are_same(
    registry: &Registry,
    one: Option<&MigrationPass>,
    other: Option<&MigrationPass>,
) -> bool
    requires one { IsOf registry.now (option_map (λ pass. pass.now) one) }
    requires other { IsOf registry.now (option_map (λ pass. pass.now) other) }
    ensures slots { IsTrue result ↔ (slot_of (option_map (λ pass. pass.now) one.entry)
        ≡ slot_of (option_map (λ pass. pass.now) other.entry)) }
    ensures values { IsTrue result → option_map (λ pass. pass.now.value) one.entry
        ≡ option_map (λ pass. pass.now.value) other.entry }
{
    match (one, other) {
        (Some(one), Some(other)) => registry.same_migration(one, other),
        (None, None) => true,
        (Some(_), None) | (None, Some(_)) => false,
    }
}

/// Replies to a statement in a session's open group, where one is. A COMMIT or ROLLBACK in no group is
/// refused.
///
/// # Errors
/// Where memory runs out, or 2 ^ 32 rows or more change. What is pending is as it was then.
fn reply_in(
    alloc: Global,
    store: &Store,
    group: &mut Option<OpenGroup>,
    bound: &Bound,
) -> Result<Reply, Memory>
    requires { IfSome group.old
        (λ o. CanAnswer store.now.lazy (pending_seen o.pending) bound.now) }
    ensures refused { group.old ≡ None
        → (group.new ≡ None) × IfOk result (λ reply. reply ≡ Refused NoTransaction) }
    ensures answered { (o : Group) → group.old ≡ Some o
        → (after : Change) × (group.new ≡ Some (record o { pending = after }))
        × ((in_block : Bool) (s : Statement) → IfOk result (λ reply.
        IsAnswer (view_of store.now.lazy) (pending_seen o.pending) bound.now in_block s
        reply (pending_seen after)))
        × OnErr result (pending_seen after ≡ pending_seen o.pending) }
{
    match group {
        Some(open) => answer(alloc, store, &mut open.pending, bound),
        None => Ok(Reply::Refused(Refusal::NoTransaction)),
    }
}
