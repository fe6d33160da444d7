//! Laws of a machine whose sessions take turns. Each is the contract of a function that does nothing.

ghost use Rattle.std.specs.Prelude.{◌≡◌, ◌≢◌, ◌↔◌, ◌⊎◌, ℕ, ◌<◌, ◌≤◌, Bool, false, List, [], None, Some, IsTrue};
ghost use Rattle.bf_locks.specs.declared.answer.LockAnswer.{LockAnswer};
ghost use Rattle.bf_locks.specs.declared.answer.LockAnswer.TheVariants.{Die, Granted, Wait};
ghost use Rattle.bf_locks.specs.declared.mode.Mode.{Mode};
ghost use Rattle.bf_locks.specs.declared.name.LockName.{LockName};
ghost use Rattle.bf_locks.specs.Locks.{IsJudged};
ghost use Rattle.bf_tree.specs.declared.bound.Bound.{Bound};
ghost use Rattle.bf_tree.specs.declared.plan.Plan.{Plan};
ghost use Rattle.bf_tree.specs.declared.script.Script.{Script};
ghost use Rattle.bf_tree.specs.declared.statement.Statement.{Statement};
ghost use Rattle.bf_base.specs.declared.granule.Granule.{Granule};
ghost use Rattle.bf_sql.specs.Database.{Database, empty_database};
ghost use Rattle.bf_sql.specs.Footprints.{footprint_of};
ghost use Rattle.bf_sql.specs.migrations.Lazy.{pending_of, sweep_of, view_of};
ghost use Rattle.bf_sql.specs.migrations.Plans.{prepared_of};
ghost use Rattle.bf_store.specs.Stores.{Store};
ghost use Rattle.bf_machine.specs.InOrder.{IsRunInOrder};
ghost use Rattle.bf_machine.specs.RunOver.{IsRunOver};
ghost use Rattle.bf_machine.specs.Runnable.{phases_rise_from};
ghost use Rattle.bf_machine.specs.interleaving.Calls.{HasSessionEnded, IsPlace};
ghost use Rattle.bf_machine.specs.interleaving.Events.{Aborts, Asks, Begins, Commits, EndsByLog, Executes, LastHasEnded, Moves, Reaches, Refuses};
ghost use Rattle.bf_machine.specs.interleaving.Examples.{YoungerIsRefused};
ghost use Rattle.bf_machine.specs.interleaving.Groups.{Flip, Rows, footprint_in};
ghost use Rattle.bf_machine.specs.interleaving.Journals.{Keeps, ended_in};
ghost use Rattle.bf_machine.specs.interleaving.Kept.{HasEnded, HasStart, IsKept, IsOpening, IsToldACause, IsWithinLimits, StandsInHistory, TranscriptsLegal, fresh};
ghost use Rattle.bf_machine.specs.interleaving.Machines.{Group, Machine, Open, open_at, transcripts_of};
ghost use Rattle.bf_machine.specs.interleaving.Serving.{IsInSequence, deaths_at};

use crate::journal::Journal;
use std::marker::PhantomData;

/// Histories stay legal, open groups replay, locks are consistent, deaths are allowed, and the store is
/// seen as the database: in a new machine, and behind each begin, refusal of a stray COMMIT or ROLLBACK,
/// statement, grant, wait, death, commit, abort, end by a cause of a log, and move of granules. So they do
/// in each machine that events reach, in whatever order they come.
pub fn events_keep_all()
    ensures new { (logged : Bool) (store : Store) (script : Script) (retries : ℕ) → IsOpening store
        → IsWithinLimits script
        → IsKept (view_of store.lazy) (fresh logged store script retries) }
    ensures begins { (start : Database) (m next : Machine) (s : ℕ) → IsKept start m
        → Begins m s next → IsKept start next }
    ensures refuses { (start : Database) (m next : Machine) (s : ℕ) → IsKept start m
        → Refuses m s next → IsKept start next }
    ensures executes { (start : Database) (m next : Machine) (s : ℕ) → IsKept start m
        → Executes m s next → IsKept start next }
    ensures granted { (start : Database) (m next : Machine) (s : ℕ) (name : LockName) (mode : Mode)
        → IsKept start m → Asks m s start name mode Granted next → IsKept start next }
    ensures waits { (start : Database) (m next : Machine) (s : ℕ) (name : LockName) (mode : Mode)
        (owners : List ℕ)
        → IsKept start m → Asks m s start name mode (Wait owners) next → IsKept start next }
    ensures dies { (start : Database) (m next : Machine) (s : ℕ) (name : LockName) (mode : Mode)
        (older : ℕ)
        → IsKept start m → Asks m s start name mode (Die older) next → IsKept start next }
    ensures commits { (start : Database) (m next : Machine) (s : ℕ) → IsKept start m
        → Commits m s next → IsKept start next }
    ensures aborts { (start : Database) (m next : Machine) (s : ℕ) → IsKept start m
        → Aborts m s next → IsKept start next }
    ensures moves { (start : Database) (m next : Machine) (granules : List Granule) → IsKept start m
        → Moves m granules next → IsKept start next }
    ensures ends_by_log { (start : Database) (m next : Machine) (s : ℕ) → IsKept start m
        → EndsByLog m s next → IsKept start next }
    ensures reaches { (logged : Bool) (store : Store) (script : Script) (retries : ℕ) (m : Machine)
        → IsOpening store → IsWithinLimits script
        → Reaches (view_of store.lazy) (fresh logged store script retries) m
        → IsKept (view_of store.lazy) m }
{}

/// The transcripts as they stand, with the replies of open groups in their places, and the history are legal.
pub fn transcripts_are_legal()
    ensures { (start : Database) (m : Machine) → IsKept start m → TranscriptsLegal start m }
{}

/// A group that has begun has ended exactly where it stands in the history, or each of its statements has a cause as
/// its reply.
pub fn a_group_ends_in_the_history_or_by_a_cause()
    ensures { (start : Database) (m : Machine) (s : ℕ) (group : Group) (n : ℕ)
        → IsKept start m → HasStart m.began s group n
        → (HasEnded m s group ↔ (StandsInHistory m s group ⊎ IsToldACause m s group)) }
{}

/// Some session can go on. Where one group alone is open, it is granted each lock that it asks for; the youngest
/// open group never waits; and the oldest group that has begun and not ended may begin again.
pub fn some_session_goes_on()
    ensures alone { (start : Database) (m : Machine) (s : ℕ) (o : Open) (name : LockName)
        (mode : Mode) (answer : LockAnswer)
        → IsKept start m → open_at m s ≡ Some o
        → ((t : ℕ) (other : Open) → open_at m t ≡ Some other → other.start ≡ o.start)
        → IsJudged m.locks o.start name mode answer → answer ≡ Granted }
    ensures youngest { (start : Database) (m : Machine) (s : ℕ) (o : Open) (name : LockName)
        (mode : Mode) (others : List ℕ)
        → IsKept start m → open_at m s ≡ Some o
        → ((t : ℕ) (other : Open) → open_at m t ≡ Some other → other.start ≤ o.start)
        → IsJudged m.locks o.start name mode (Wait others) → ⊥ }
    ensures oldest { (start : Database) (m : Machine) (s : ℕ) (group : Group) (n : ℕ)
        (has : HasStart m.began s group n)
        → IsKept start m
        → ((t : ℕ) (other : Group) (k : ℕ) → HasStart m.began t other k → k < n
        → HasEnded m t other)
        → LastHasEnded m s has.deaths }
{}

/// Such machines are reached: where two sessions create one table, the younger dies for the older, begins again once
/// that has ended, and is refused then.
pub fn a_younger_session_is_refused()
    ensures { YoungerIsRefused }
{}

/// While a flip is pending, nothing of the last migration is left to move, and no other open group is to
/// leave anything.
pub fn a_flip_stands_alone()
    ensures whole { (start : Database) (m : Machine) (s : ℕ) (o : Open) (plan : Plan)
        → IsKept start m → open_at m s ≡ Some o → o.pending ≡ Flip plan
        → pending_of m.lazy.last ≡ [] }
    ensures alone { (start : Database) (m : Machine) (s t : ℕ) (o other : Open) (plan : Plan)
        → IsKept start m → open_at m s ≡ Some o → o.pending ≡ Flip plan
        → t ≢ s → open_at m t ≡ Some other → other.pending ≡ Rows [] }
{}

/// A statement asks for the locks of what it is prepared to in the catalog: a MIGRATE that is planned has
/// the catalog to itself, and every other statement asks as it is bound.
pub fn a_statement_asks_for_what_it_is_prepared_to()
    ensures { (db : Database) (in_block : Bool) (s : Statement) (bound : Bound)
        → prepared_of db in_block s ≡ Some bound → footprint_in db in_block s ≡ footprint_of bound }
{}

/// Sessions in sequence run in order. Nothing has happened in a new machine, and where its store
/// has no migration yet and no log ends groups it is in sequence; and once each session of one that
/// is in sequence has ended, its transcripts and history are those of a run in the order of the
/// text, where its store has moved what the statements of the history needed, and no more.
pub fn sessions_in_sequence_run_in_order()
    ensures new { (start : Database) (store : Store) (script : Script) (retries : ℕ)
        → IsTrue (phases_rise_from 0 script.sessions) → store.lazy.last ≡ None
        → IsInSequence start (fresh false store script retries) }
    ensures ran { (m : Machine) → IsKept empty_database m → IsInSequence empty_database m
        → ((s : ℕ) → IsPlace m.script s → HasSessionEnded m s)
        → IsRunInOrder m.script (transcripts_of m) m.history (sweep_of m.lazy.last) }
{}

/// Once each session of a machine beside a journal has ended, of which no group died, the script has run over the
/// opening database, and of its groups those ended by a cause of a log for which the journal did not keep a change.
pub fn sessions_that_have_ended_ran_over<J: Journal>(_of: PhantomData<J>)
    ensures { (start : Database) (logged : Bool) (store : Store) (script : Script) (retries : ℕ)
        (m next : Machine) (j l : J) (keeps : Keeps J.Answers start m j next l)
        → m ≡ fresh logged store script retries → IsKept start m
        → ((s : ℕ) → IsPlace next.script s → HasSessionEnded next s)
        → ((n : ℕ) → deaths_at next n ≡ [])
        → IsRunOver start next.script (ended_in J.Answers keeps) (transcripts_of next) next.history
        (sweep_of next.lazy.last) }
{}
