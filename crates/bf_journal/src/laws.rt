//! Laws of crashes, as contracts of functions that do nothing.

ghost use Rattle.std.specs.Prelude.{◌≡◌, ◌⊎◌, ◌<◌, ◌≤◌, All, ℕ, IsTrue, List, None, Option, Some};
ghost use Rattle.bf_disk.specs.Images.{Only};
ghost use Rattle.bf_log.specs.Append.{disk_of};
ghost use Rattle.bf_log.specs.declared.log.Log.{Log as LogOf};
ghost use Rattle.bf_journal.specs.Crashes.{CrashImages, IsRun, Machine, last_of, started};
ghost use Rattle.bf_journal.specs.Reading.{IsReopened};
ghost use Rattle.bf_journal.specs.Reopening.{IsIllegal, RefusedAt, ReopensTo};
ghost use Rattle.bf_journal.specs.States.{IsReady, MayLeave, StandsOn, moment_of};

use crate::state::State;
use bf_disk::Disk;
use std::marker::PhantomData;

/// What may be left of a log since a moment may be left since an earlier one.
pub fn what_is_left_counts_earlier<L: State, D: Disk>(_of: PhantomData<(L, D)>)
    ensures { (log : LogOf D D.Disk) (t u : ℕ) (left : Option L) → t ≤ u
        → MayLeave L.first L.Steps log u left → MayLeave L.first L.Steps log t left }
{}

/// Calls keep what every crash of a machine leaves: the view now, and since the machine's moment
/// the view after a prefix of the history; while the log has stopped, either may also be the view
/// after the one change that failed.
pub fn calls_keep_crash_images<L: State, D: Disk>(_of: PhantomData<(L, D)>)
    ensures { (m : Machine L D D.Disk L.View L.Entry)
        (later : List (Machine L D D.Disk L.View L.Entry))
        → CrashImages L.first L.Steps L.view L.run m
        → IsRun L.first L.Steps L.view L.run m later
        → CrashImages L.first L.Steps L.view L.run (last_of m later) }
{}

/// A machine over a log that was reopened has what every crash leaves, with an empty history: from
/// the end of reopening on in any case, and from its start on where nothing was pending on the file
/// then.
pub fn a_reopened_log_starts<L: State, D: Disk>(_of: PhantomData<(L, D)>)
    ensures from_its_end { (disk : D) (state : L) (log : LogOf D D.Disk)
        → IsReopened L.first L.Steps disk state log
        → CrashImages L.first L.Steps L.view L.run
        (started state log (L.view state) (moment_of log)) }
    ensures from_its_start { (disk : D) (state : L) (log : LogOf D D.Disk)
        → IsReopened L.first L.Steps disk state log → (file : List ℕ) → D.seen disk ≡ Some file
        → Only file (D.may_leave disk)
        → CrashImages L.first L.Steps L.view L.run
        (started state log (L.view state) (D.moment disk)) }
{}

/// It is not said of nothing: where the disk tells its bytes and its images, the state that stands
/// on a log that takes records is among what a crash now may leave.
pub fn a_state_may_be_left<L: State, D: Disk>(_of: PhantomData<(L, D)>)
    ensures { (state : L) (log : LogOf D D.Disk) (file : List ℕ) → IsTrue D.tells_images
        → D.seen (disk_of log) ≡ Some file → IsReady log → StandsOn L.first L.Steps state log
        → MayLeave L.first L.Steps log (moment_of log) (Some state) }
{}

/// A file that reopens to a state reopens to no other, and is not refused.
pub fn a_file_reopens_to_one_state<L: State>(_of: PhantomData<L>)
    ensures { (file : List ℕ) (state : L) (left : Option L)
        → ReopensTo L.first L.Steps file (Some state)
        → ReopensTo L.first L.Steps file left → left ≡ Some state }
{}

/// A file at which reopening stops reopens to no state, and it stops at one place alone.
pub fn a_refused_file_does_not_reopen<L: State>(_of: PhantomData<L>)
    ensures one_place { (file : List ℕ) (at other : ℕ) → RefusedAt L.first L.Steps file at
        → RefusedAt L.first L.Steps file other → at ≡ other }
    ensures no_state { (file : List ℕ) (at : ℕ) (left : Option L)
        → RefusedAt L.first L.Steps file at → ReopensTo L.first L.Steps file left → left ≡ None }
{}

/// Where each payload is a legal record in a state or is none, every file of bytes reopens to a state,
/// or there is a place at which reopening stops.
pub fn a_file_reopens_or_is_refused<L: State>(_of: PhantomData<L>)
    ensures { ((state : L) (payload : List ℕ)
        → ((next : L) × L.Steps state payload next) ⊎ IsIllegal L.Steps state payload)
        → (file : List ℕ) → All (λ byte. byte < 256) file
        → ((state : L) × ReopensTo L.first L.Steps file (Some state))
        ⊎ ((at : ℕ) × RefusedAt L.first L.Steps file at) }
{}
