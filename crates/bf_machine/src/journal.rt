//! What keeps the changes of a store.

ghost use Rattle.std.specs.Prelude.{◌≡◌, Bool, Err, Ok, Result, true};
ghost use Rattle.bf_sql.specs.migrations.Lazy.{LazyState, view_of};
ghost use Rattle.bf_tree.specs.declared.statement.Statement.{Statement as StatementOf};
ghost use Rattle.bf_store.specs.States.{to_move, with_moved};
ghost use Rattle.bf_machine.specs.declared.journal.KeepError.{KeepError as Why};
ghost use Rattle.bf_machine.specs.declared.journal.KeepError.TheVariants.{Memory as NoMemory};
ghost use Rattle.bf_machine.specs.interleaving.Answering.{CanSettle};
ghost use Rattle.bf_machine.specs.interleaving.Events.{put_into};
ghost use Rattle.bf_machine.specs.interleaving.Journals.{IsOfLogIfEnded, IsOfMoveIfEnded, IsOneRecord, IsStated, leaves_something};
ghost use Rattle.bf_machine.specs.interleaving.Seen.{pending_seen};

use crate::so_far::Pending;
use bf_base::{Granule, Memory};
use bf_store::Store;
use bf_tree::Cause;

/// Why a change is not kept.
#[derive(Clone, Copy, Debug, PartialEq, Eq)]
pub enum KeepError {
    /// The group that was to make it ends by this cause, which is one of a log.
    Ended(Cause),
    Memory,
}

impl From<Memory> for KeepError {
    ghost from_gives = { λ _ made. made ≡ NoMemory };

    fn from(_memory: Memory) -> KeepError {
        KeepError::Memory
    }
}

/// Where each change of a store is kept before it is made, so that it can be made again from there.
pub trait Journal {
    /// Whether it may end groups.
    ghost ends: { Bool };

    /// How one answered, and what became of it, that was to keep the change from one lazy state to
    /// another.
    ghost Answers: { LazyState → LazyState → Self → Self → Result (Unit {0}) Why → Type 0 };

    /// The statements of which it can keep the change of the schema.
    ghost Says: { StatementOf → Type 0 };

    /// Keeps what an open group is to leave, which is something, before it becomes part of the store.
    ///
    /// # Errors
    /// The cause by which the group ends, and where memory runs out.
    fn keep_group(&mut self, store: &Store, pending: &Pending) -> Result<(), KeepError>
        requires can { CanSettle store.now.lazy (pending_seen pending.now) }
        requires leaves { leaves_something store.now.lazy (pending_seen pending.now) ≡ true }
        requires stated { IsStated Says (view_of store.now.lazy) (pending_seen pending.now) }
        ensures answers { Answers store.now.lazy
            (put_into store.now.lazy (pending_seen pending.now)) self.old self.new result }
        ensures ended { IsOfLogIfEnded ends result };

    /// Keeps a move of granules of the last migration, none of which has moved, before it is made.
    ///
    /// # Errors
    /// The cause by which the group ends that needs them, which is never that a record is too large; and
    /// where memory runs out.
    fn keep_moves(&mut self, store: &Store, granules: &[Granule]) -> Result<(), KeepError>
        requires record { IsOneRecord store.now.lazy.last granules.now }
        requires left { to_move store.now.lazy.last granules.now ≡ granules.now }
        ensures answers { Answers store.now.lazy (with_moved store.now.lazy granules.now) self.old
            self.new result }
        ensures ended { IsOfLogIfEnded ends result }
        ensures fits { IsOfMoveIfEnded result };

    /// Tells it that the change that it kept last is not made, for want of memory. It takes no memory.
    fn give_up(&mut self)
        ensures { (lazy next : LazyState) (older : Self) → Answers lazy next older self.old (Ok tt)
            → Answers lazy next older self.new (Err KeepError.Memory) };
}

/// Keeps nothing: the store is gone when the run ends.
#[derive(Clone, Copy, Debug)]
pub struct Unkept;

impl Journal for Unkept {
    ghost use Rattle.std.specs.Prelude.{false, ⊤};

    ghost ends = { false };

    ghost Answers = { λ lazy next old new answer. ⊤ };

    ghost Says = { λ statement. ⊤ };

    fn keep_group(&mut self, store: &Store, pending: &Pending) -> Result<(), KeepError> {
        let (_, _) = (store, pending);
        Ok(())
    }

    fn keep_moves(&mut self, store: &Store, granules: &[Granule]) -> Result<(), KeepError> {
        let (_, _) = (store, granules);
        Ok(())
    }

    fn give_up(&mut self) {}
}
