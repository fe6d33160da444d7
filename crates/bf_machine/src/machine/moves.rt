//! The migration under way, and granules of it that move.

ghost use Rattle.std.specs.Prelude.{◌≡◌, ◌≢◌, ◌↔◌, ℕ, [], Err, IfOk, IfSome, IsSomeAnd, IsTrue, Ok, OnErr, OnOk, Some, false, true};
ghost use Rattle.std.specs.Option.{option_map, option_map_or};
ghost use Rattle.boxcar.specs.Table.{Shows};
ghost use Rattle.bf_sql.specs.migrations.Lazy.{migrations_so_far};
ghost use Rattle.bf_image.specs.Migrations.{value_indexes};
ghost use Rattle.bf_store.specs.Calls.{IsMoveOf, IsSweepOf};
ghost use Rattle.bf_store.specs.Puts.{AreImages};
ghost use Rattle.bf_store.specs.States.{IsComplete, granules_done_if_any, to_move, with_moved};
ghost use Rattle.bf_store.specs.Stores.{IsByPass, IsOf, migration_of};
ghost use Rattle.bf_tree.specs.declared.reply.Cause.{Cause};
ghost use Rattle.bf_machine.specs.declared.stand.MoveError.TheVariants.{Ended, Memory as NoMemory, Old};
ghost use Rattle.bf_machine.specs.interleaving.Calls.{slot_of};
ghost use Rattle.bf_machine.specs.interleaving.Events.{Moves};
ghost use Rattle.bf_machine.specs.interleaving.Journals.{IsBeside, IsMoveIn, IsOneRecord, IsRefused, IsUnkeptMove};
ghost use Rattle.bf_machine.specs.interleaving.Kept.{is_of_log};

use crate::journal::{Journal, KeepError};
use crate::machine::Machine;
use crate::machine::statements::are_same;
use crate::opened::Opened;
use crate::stand::MoveError;
use bf_base::{Granule, Memory};
use bf_image::{MigrationPass, Registry, ValueIndexes};
use bf_store::{Images, Moved, Store};
use bf_tree::Sweep;
use std::alloc::Global;

impl<N: Opened> Machine<N> {
    /// The pass of the last migration, and `None` exactly where there was none. Takes no memory.
    pub fn migration(&self) -> Option<MigrationPass>
        ensures pass { result ≡ self.now.pass }
        ensures by_pass { IsByPass self.now.lazy.last self.now.pass }
        ensures one { IsOf N.registry self.now.pass }
    {
        self.store.migration()
    }

    /// How far the last migration has come. Takes no memory.
    pub fn sweep(&self) -> Sweep
        ensures { IsSweepOf self.now.lazy result }
    {
        self.store.sweep()
    }

    /// Whether there was a migration, and nothing of the last one is left to move. Takes no memory.
    pub fn is_complete(&self) -> bool
        ensures { IsTrue result ↔ IsSomeAnd self.now.lazy.last IsComplete }
    {
        matches!(self.store.sweep(), Sweep::Complete { .. })
    }

    /// The granules of the last migration that have moved, in the order of unit and place.
    ///
    /// # Errors
    /// Where memory runs out.
    pub fn done(&self, alloc: Global) -> Result<Vec<Granule>, Memory>
        ensures { IfOk result (λ done. done.items ≡ granules_done_if_any self.now.lazy.last) }
    {
        self.store.done(alloc)
    }

    /// Those of some granules of the last migration that have not moved, in the order in which they are told.
    /// It costs a look-up for each.
    ///
    /// # Errors
    /// Where memory runs out.
    pub fn need(&self, alloc: Global, granules: &[Granule]) -> Result<Vec<Granule>, Memory>
        ensures { IfOk result (λ left. left.items
            ≡ to_move self.now.lazy.last granules.now) }
    {
        self.store.need(alloc, granules)
    }

    /// Moves granules of a migration that one record may move, as one change, given its old rows by their
    /// values, and their images where these were made before. The move of those that have not moved is kept in the journal before; where all have, nothing
    /// is kept. No session goes on, and the database that sessions see stays. It costs what the journal
    /// does, and what [`bf_store::Store::move_granules`] does.
    ///
    /// # Errors
    /// `Old` exactly where the migration is not the last one; `Ended` where the journal does not keep the
    /// move, with the cause that it tells, which is never that its record is too large; and where memory
    /// runs out, or 2 ^ 32 granules or 2 ^ 64 changes were made. The machine is as it was then.
    pub fn moved<J: Journal>(
        &mut self,
        registry: &Registry,
        journal: &mut J,
        migration: &MigrationPass,
        indexes: &ValueIndexes,
        granules: &[Granule],
        images: Option<Images>,
    ) -> Result<Moved, MoveError>
        requires registry { registry.now ≡ N.registry }
        requires pass { Shows N.registry.migrations migration.now }
        requires indexed { indexes.now ≡ value_indexes migration.now.value }
        requires logged { J.ends ≡ N.logged }
        requires granules { IsOneRecord (Some (migration_of migration.now.value [])) granules.now }
        requires images { IfSome images (AreImages migration.now.value granules.now) }
        ensures moves { OnOk result (Moves self.old granules.now self.new) }
        ensures of_it { OnOk result
            (option_map (λ pass. pass.value) self.old.pass ≡ Some migration.now.value) }
        ensures told { IfOk result (λ moved.
            IsMoveOf self.old.lazy self.new.lazy granules.now moved) }
        ensures old { slot_of self.old.pass ≢ Some migration.now.index
            → result ≡ Err (Old (migrations_so_far self.old.lazy.last)) }
        ensures present { slot_of self.old.pass ≡ Some migration.now.index
            → (n : ℕ) → result ≢ Err (Old n) }
        ensures err { OnErr result (self.new ≡ self.old) }
        ensures beside { ((cause : Cause) → result ≢ Err (Ended cause))
            → IsBeside J.Answers (IsMoveIn self.old.lazy) self.old.lazy self.new.lazy
            journal.old journal.new }
        ensures ended { (cause : Cause) → result ≡ Err (Ended cause)
            → (J.ends ≡ true) × (is_of_log cause ≡ true)
            × IsRefused J.Answers (IsUnkeptMove self.old.lazy cause) self.old.lazy journal.old
            journal.new cause }
    {
        let last = self.store.migration();
        let last = last.as_ref();
        let same = are_same(registry, Some(migration), last);
        if !same {
            return Err(MoveError::Old(number_of(registry, last)));
        }
        let kept = keep_left(self.alloc, journal, &self.store, granules)?;
        match self
            .store
            .move_granules(registry, indexes, granules, images)
        {
            Ok(moved) => Ok(moved),
            Err(_) => {
                if kept {
                    journal.give_up();
                }
                Err(MoveError::Memory)
            }
        }
    }
}

/// Keeps the move of those granules that have not moved, and tells whether there are any.
///
/// # Errors
/// Where the journal has one, and where memory runs out.
fn keep_left<J: Journal>(
    alloc: Global,
    journal: &mut J,
    store: &Store,
    granules: &[Granule],
) -> Result<bool, MoveError>
    requires { IsOneRecord store.now.lazy.last granules.now }
    ensures kept { result ≡ Ok true → J.Answers store.now.lazy
        (with_moved store.now.lazy granules.now) journal.old journal.new (Ok tt) }
    ensures nothing { result ≡ Ok false → (to_move store.now.lazy.last granules.now ≡ [])
        × (journal.new ≡ journal.old) }
    ensures memory { result ≡ Err NoMemory
        → IsBeside J.Answers (IsMoveIn store.now.lazy) store.now.lazy store.now.lazy journal.old
        journal.new }
    ensures present { (n : ℕ) → result ≢ Err (Old n) }
    ensures ended { (cause : Cause) → result ≡ Err (Ended cause)
        → (J.ends ≡ true) × (is_of_log cause ≡ true)
        × IsRefused J.Answers (IsUnkeptMove store.now.lazy cause) store.now.lazy journal.old
        journal.new cause }
{
    let Ok(left) = store.need(alloc, granules) else {
        return Err(MoveError::Memory);
    };
    if left.is_empty() {
        return Ok(false);
    }
    match journal.keep_moves(store, left.as_slice()) {
        Ok(()) => Ok(true),
        Err(KeepError::Ended(cause)) => Err(MoveError::Ended(cause)),
        Err(KeepError::Memory) => Err(MoveError::Memory),
    }
}

/// The number of a migration, which is 0 where there is none.
fn number_of(registry: &Registry, migration: Option<&MigrationPass>) -> u32
    requires { IsOf registry.now (option_map (λ pass. pass.now) migration) }
    ensures { result ≡ option_map_or (λ pass. pass.now.value.number) migration.entry 0 }
{
    match migration {
        Some(pass) => registry.migration(pass).number,
        None => 0,
    }
}
