//! Laws of the definitions. Each is the contract of a function that does nothing.

ghost use Rattle.std.specs.Prelude.{◌≡◌, ◌+◌, ◌≤◌, ℕ, List, length, Option, Some, Result, true};
ghost use Rattle.bf_disk.specs.Images.{Only};
ghost use Rattle.bf_log.specs.Format.{frame};
ghost use Rattle.bf_recover.specs.Flips.{says_complete};
ghost use Rattle.bf_lex.specs.declared.fault.ScriptFault.{ScriptFault};
ghost use Rattle.bf_parse.specs.Scripts.{IsScriptText};
ghost use Rattle.bf_machine.specs.interleaving.Machines.{EndedGroup};
ghost use Rattle.bf_sql.specs.Database.{Database};
ghost use Rattle.bf_sql.specs.migrations.Lazy.{LazyState, sweep_of};
ghost use Rattle.bf_tree.specs.declared.history.Entry.{Entry};
ghost use Rattle.bf_tree.specs.declared.script.Script.{Script};
ghost use Rattle.bf_run.specs.declared.status.Status.{Status};
ghost use Rattle.bf_run.specs.declared.status.Status.TheVariants.{Done};
ghost use Rattle.bf_run.specs.Answers.{largest_log, largest_record};
ghost use Rattle.bf_run.specs.Creating.{TellsFiles, shelf_of};
ghost use Rattle.bf_run.specs.Keeping.{IsBehindPrefix, KeepsFile, OpensAs};
ghost use Rattle.bf_run.specs.Options.{IsFinished};
ghost use Rattle.bf_run.specs.Outcome.{Comes, IsDetermined, Stream};
ghost use Rattle.bf_run.specs.Running.{OpensTo};
ghost use Rattle.bf_words.specs.Words.{Asked};

use bf_disk::{Disk, Shelf};

/// A text is one script or has one first fault, and no two answers.
pub fn a_text_has_one_reading()
    ensures { (text : List ℕ) (one other : Result Script ScriptFault) → IsScriptText text one
        → IsScriptText text other → one ≡ other }
{}

/// For what words ask, for one input of these bytes, and for one shelf that tells its files, whatever becomes of it,
/// one status can come, but for faults of the source and of the disk and want of memory.
pub fn one_status_comes<S: Shelf>()
    ensures { (asks : Option Asked) (input : Stream) (bytes : List ℕ) (old new other_new : S) (one other : Status)
        → TellsFiles
        (shelf_of S.Disk.seen S.Disk.may_leave S.Disk.moment S.Disk.left_since S.Disk.fault_count S.held S.fault_count old new)
        → IsDetermined one → IsDetermined other
        → Comes asks input bytes
        (shelf_of S.Disk.seen S.Disk.may_leave S.Disk.moment S.Disk.left_since S.Disk.fault_count S.held S.fault_count old new) one
        → Comes asks input bytes
        (shelf_of S.Disk.seen S.Disk.may_leave S.Disk.moment S.Disk.left_since S.Disk.fault_count S.held S.fault_count old other_new)
        other
        → one ≡ other }
{}

/// Where nothing was pending on a file at the start, so that a crash could leave it alone as it opened, every image that
/// a crash since then might have left opens to the database behind a prefix of the history, or to what the change that
/// failed would have made.
pub fn where_nothing_was_pending_a_prefix_is_left<D: Disk>()
    ensures { (old new : D) (status : Status) (script : Script) (start : Database) (history : List Entry)
        (ended : List EndedGroup)
        (kept : KeepsFile D.may_leave D.moment D.left_since old new status script start history ended)
        (file image : List ℕ) → Only file (D.may_leave old) → OpensTo file start
        → D.left_since new (D.moment old) image
        → OpensAs (IsBehindPrefix script start history) kept.failed image }
{}

/// A run that was to finish leaves nothing of the last migration to move, where its file has room for one record more
/// of any size.
pub fn a_log_with_room_is_finished()
    ensures { (bytes : List ℕ) (last : LazyState) → IsFinished true Done (Some bytes) last
        → length bytes + largest_record + frame ≤ largest_log
        → says_complete (sweep_of last.last) ≡ true }
{}
