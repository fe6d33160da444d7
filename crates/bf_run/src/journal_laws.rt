//! Laws of crashes of a machine beside its log, as contracts of functions that do nothing.

ghost use Rattle.std.specs.Prelude.{◌≡◌, ◌++◌, [], List};
ghost use Rattle.bf_journal.specs.Leaving.{LeavesAlone};
ghost use Rattle.bf_journal.specs.States.{StandsOn};
ghost use Rattle.bf_log.specs.declared.log.Log.{Log as LogOf};
ghost use Rattle.bf_machine.specs.interleaving.Kept.{IsKept};
ghost use Rattle.bf_machine.specs.interleaving.Machines.{EndedGroup, Machine, transcripts_of};
ghost use Rattle.bf_recover.specs.Legal.{first_state};
ghost use Rattle.bf_recover.specs.Steps.{StepsTo};
ghost use Rattle.bf_sql.specs.Database.{Database};
ghost use Rattle.bf_log.specs.Append.{standing_of};
ghost use Rattle.bf_log.specs.declared.log.Standing.TheVariants.{Ready};
ghost use Rattle.bf_run.specs.Answers.{AreSizesOf, AreToldTheirCauses, CausesMatchLog};
ghost use Rattle.bf_run.specs.Crashing.{KeepsOnLog, Recovers, ended_on_log};
ghost use Rattle.bf_run.specs.declared.log_journal.LogJournal.{LogJournal as JournalOf};

use bf_disk::Disk;
use std::marker::PhantomData;

/// Every crash of a machine beside its log leaves the database after a prefix of its history. Where the state of the
/// store stands on the log, and a crash leaves it alone, this holds at the begin; and it holds behind each event,
/// whatever the log has answered: an image that a crash now may leave reopens to the database, and one that a crash
/// since the begin might have left to the database after a prefix of the history; or either to what the one change that
/// failed would have made, which is that of a group that was told so, of a move, or of a log that was given up. One that
/// a crash since an earlier moment might have left is such a one too, or reopens to what one could that might have been
/// left since then at the begin.
pub fn every_crash_leaves_a_prefix<D: Disk>(_of: PhantomData<D>)
    ensures begins { (start : Database) (m : Machine) (log : LogOf D D.Disk)
        → IsKept start m → StandsOn first_state StepsTo m.lazy log
        → LeavesAlone first_state StepsTo m.lazy log → Recovers log start [] m log }
    ensures goes_on { (start : Database) (m next : Machine) (j k : JournalOf D D.Disk)
        (opened : LogOf D D.Disk) (ended : List EndedGroup) (keeps : KeepsOnLog start m j next k)
        → IsKept start m → Recovers opened start ended m j.log
        → Recovers opened start (ended ++ ended_on_log keeps) next k.log }
    ensures whole { (start : Database) (m next : Machine) (j k : JournalOf D D.Disk)
        (keeps : KeepsOnLog start m j next k) → IsKept start m
        → StandsOn first_state StepsTo m.lazy j.log → LeavesAlone first_state StepsTo m.lazy j.log
        → Recovers j.log start (ended_on_log keeps) next k.log }
{}

/// Whatever the events beside a log that takes records: each group that it has ended is told what the log can tell, with
/// its numbers, and one at most that the device failed. Whatever the log, the transcripts tell each its cause.
pub fn what_ends_groups_is_told<D: Disk>(_of: PhantomData<D>)
    ensures causes { (start : Database) (m next : Machine) (j k : JournalOf D D.Disk)
        (keeps : KeepsOnLog start m j next k) → standing_of j.log ≡ Ready
        → CausesMatchLog k.log (ended_on_log keeps) }
    ensures replies { (start : Database) (m next : Machine) (j k : JournalOf D D.Disk)
        (keeps : KeepsOnLog start m j next k) → IsKept start m
        → AreToldTheirCauses next.script (transcripts_of next) (ended_on_log keeps) }
{}

/// And where such a group is told the size of a record or the need of one, a record has it that makes of the database behind
/// some prefix of the history what the group makes of it: one of no move where it is too large, and where the log is full
/// perhaps one of a move.
pub fn a_size_that_is_told_is_that_of_a_record<D: Disk>(_of: PhantomData<D>)
    ensures { (start : Database) (m next : Machine) (j k : JournalOf D D.Disk)
        (keeps : KeepsOnLog start m j next k) → IsKept start m
        → AreSizesOf start next.script next.history (ended_on_log keeps) }
{}
