//! Laws of lazy states that a log keeps. They are the contracts of functions that do nothing.

ghost use Rattle.std.specs.Prelude.{◌≡◌, ℕ, IsTrue, List, Some, flat_map, map, not};
ghost use Rattle.std.specs.List.{list_all};
ghost use Rattle.bf_record.specs.declared.change.Change.{Change};
ghost use Rattle.bf_sql.specs.Database.{Database};
ghost use Rattle.bf_sql.specs.History.{replayed};
ghost use Rattle.bf_sql.specs.migrations.Lazy.{LazyState, Migration, is_done};
ghost use Rattle.bf_tree.specs.declared.history.Entry.{Entry};
ghost use Rattle.bf_tree.specs.declared.script.Script.{Script};
ghost use Rattle.bf_journal.specs.Crashes.{replayed as run_in_turn};
ghost use Rattle.bf_journal.specs.Reopening.{ReopensTo};
ghost use Rattle.bf_recover.specs.Legal.{first_state};
ghost use Rattle.bf_recover.specs.MovedOnce.{AreLegalInTurn, AreRecordedIn, MoveOnce, moved_of};
ghost use Rattle.bf_recover.specs.Steps.{StepsTo, entry_of, run_entry};

/// The entries of a history over a script, run one after the other, make of a database what the
/// replay of the history makes of it.
pub fn a_replay_runs_entries()
    ensures { (script : Script) (db : Database) (history : List Entry) → (replayed script db history).1
        ≡ run_in_turn run_entry db (map (entry_of script) history) }
{}

/// No granule of a migration is moved twice: changes that are legal one after the other, from
/// whatever state, name none twice by their moves, neither in two of them nor in one. And of the
/// migration that was the last one in that state they name none that had moved before.
pub fn no_granule_moves_twice()
    ensures once { (changes : List Change) (lazy after : LazyState)
        → AreLegalInTurn lazy changes after → MoveOnce changes }
    ensures anew { (changes : List Change) (lazy after : LazyState) (last : Migration)
        → AreLegalInTurn lazy changes after → lazy.last ≡ Some last
        → IsTrue (list_all (λ g. not (is_done last g)) (flat_map (moved_of last.number) changes)) }
{}

/// So it is with the records of each log that reopens. They spell changes that are legal one after
/// the other from the first state, and give the state to which the log reopens; and no changes that
/// they spell move a granule of a migration twice.
pub fn no_log_moves_a_granule_twice()
    ensures legal { (file : List ℕ) (last : LazyState)
        → ReopensTo first_state StepsTo file (Some last)
        → (changes : List Change) × AreRecordedIn file changes
        × AreLegalInTurn first_state changes last }
    ensures once { (file : List ℕ) (last : LazyState)
        → ReopensTo first_state StepsTo file (Some last)
        → (changes : List Change) → AreRecordedIn file changes → MoveOnce changes }
{}
