//! Laws of the run that the demonstration makes, as contracts of functions that do nothing.

ghost use Rattle.std.specs.Prelude.{◌≡◌, ◌≤◌, ℕ, List, [], ◌∷◌, length, slice_index_or};
ghost use Rattle.bf_demo.specs.Replies.{last_replies, transactions};
ghost use Rattle.bf_demo.specs.Script.{demonstration};
ghost use Rattle.bf_log.specs.Format.{empty_log};
ghost use Rattle.bf_machine.specs.interleaving.Machines.{EndedGroup};
ghost use Rattle.bf_sql.specs.Database.{Database, empty_database};
ghost use Rattle.bf_tree.specs.declared.history.Entry.{Entry};
ghost use Rattle.bf_tree.specs.declared.history.Sweep.{Sweep};
ghost use Rattle.bf_tree.specs.declared.reply.Reply.{Reply};
ghost use Rattle.bf_run.specs.Creating.{TellsFiles, shelf_of};
ghost use Rattle.bf_run.specs.Deaths.{IsRunWithDeaths};
ghost use Rattle.bf_run.specs.Demonstrating.{AfterMaking};
ghost use Rattle.bf_run.specs.Running.{Opens, OpensTo};

use bf_disk::Shelf;

/// A log that was just made opens to the empty database.
pub fn a_new_log_opens_empty()
    ensures { (start : Database) → OpensTo empty_log start → start ≡ empty_database }
{}

/// So the run of the demonstration begins with the empty database, where the shelf tells its files.
pub fn the_demonstration_begins_empty<S: Shelf>()
    ensures { (path : List ℕ) (start : Database) (old new : S)
        → TellsFiles
        (shelf_of S.Disk.seen S.Disk.may_leave S.Disk.moment S.Disk.left_since S.Disk.fault_count S.held S.fault_count old new)
        → AfterMaking
        (shelf_of S.Disk.seen S.Disk.may_leave S.Disk.moment S.Disk.left_since S.Disk.fault_count S.held S.fault_count old new)
        path (λ later. Opens later path start)
        → start ≡ empty_database }
{}

/// A run of the demonstration over the empty database in which each transaction has committed tells its last session
/// how many accounts and owners there are, and the sums of their balances and of their numbers.
pub fn the_run_of_the_demonstration_is_told()
    ensures { (n retries : ℕ) (ended : List EndedGroup) (transcripts : List (List Reply)) (history : List Entry)
        (sweep : Sweep) → 1 ≤ n → n ≤ 65535
        → IsRunWithDeaths retries empty_database (demonstration n) ended transcripts history sweep
        → length history ≡ transactions n
        → slice_index_or ([] ∷ transcripts) 7 [] ≡ last_replies n }
{}
