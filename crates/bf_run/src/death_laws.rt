//! Laws of groups that die, as contracts of functions that do nothing.

ghost use Rattle.std.specs.Prelude.{◌≡◌, ◌+◌, ◌≤◌, ℕ, Bool, List, [], Ok, Some, IsTrue, find, slice_get};
ghost use Rattle.bf_phrase.specs.Limits.{most_of_phase};
ghost use Rattle.bf_parse.specs.Scripts.{IsScriptText};
ghost use Rattle.bf_tree.specs.declared.history.Entry.{Entry};
ghost use Rattle.bf_tree.specs.declared.history.Sweep.{Sweep};
ghost use Rattle.bf_tree.specs.declared.reply.Cause.TheVariants.{Died};
ghost use Rattle.bf_tree.specs.declared.reply.Reply.{Reply};
ghost use Rattle.bf_tree.specs.declared.reply.Reply.TheVariants.{Ended};
ghost use Rattle.bf_tree.specs.declared.script.Script.{Script};
ghost use Rattle.bf_sql.specs.Database.{Database};
ghost use Rattle.bf_sql.specs.Groups.{groups_in, has_statement};
ghost use Rattle.bf_sql.specs.migrations.Lazy.{sweep_of};
ghost use Rattle.bf_store.specs.Stores.{Store};
ghost use Rattle.bf_machine.specs.RunOver.{IsRunOver};
ghost use Rattle.bf_machine.specs.interleaving.Calls.{HasSessionEnded, IsPlace, reply_at};
ghost use Rattle.bf_machine.specs.interleaving.Journals.{Keeps, ended_in};
ghost use Rattle.bf_machine.specs.interleaving.Kept.{IsKept, fresh};
ghost use Rattle.bf_machine.specs.interleaving.Machines.{EndedGroup, Group, Machine, transcripts_of};
ghost use Rattle.bf_machine.specs.interleaving.Serving.{deaths_at};
ghost use Rattle.bf_run.specs.Deaths.{HasFewInPhases, IsRunWithDeaths, MayDie, tell_no_death};
ghost use Rattle.bf_words.specs.Words.{usual_retries};

use bf_machine::Journal;
use std::marker::PhantomData;

/// No phase of a script that is read has more sessions than the grammar allows.
pub fn a_script_that_is_read_has_few_sessions_in_a_phase()
    ensures { (text : List ℕ) (script : Script) → IsScriptText text (Ok script)
        → HasFewInPhases most_of_phase script }
{}

/// No group is told that it died where no phase has more sessions than a group has lives, one and the
/// retries; nor where none has died.
pub fn no_group_is_told_that_it_died()
    ensures few { (start : Database) (m : Machine) (most : ℕ) → IsKept start m
        → HasFewInPhases most m.script → most ≤ m.retries + 1
        → IsTrue (tell_no_death (transcripts_of m)) }
    ensures none_died { (start : Database) (m : Machine) → IsKept start m
        → ((n : ℕ) → deaths_at m n ≡ []) → IsTrue (tell_no_death (transcripts_of m)) }
{}

/// Else a group is told that it died only by the rule that a reader can follow.
pub fn a_group_is_told_that_it_died_by_the_rule()
    ensures { (start : Database) (m : Machine) (s n h : ℕ) → IsKept start m
        → reply_at m s n ≡ Some (Ended (Died h))
        → (group : Group) × (find (has_statement n) (groups_in m.script s) ≡ Some group)
        × MayDie start m.script m.history m.retries (transcripts_of m) s group h }
{}

/// Once each session of a machine beside a journal has ended, the script has run over the opening
/// database; of its groups those ended by a cause of a log for which the journal did not keep a change,
/// and those that died are told so by the rule.
pub fn sessions_that_have_ended_ran_with_deaths<J: Journal>(_of: PhantomData<J>)
    ensures { (start : Database) (logged : Bool) (store : Store) (script : Script) (retries : ℕ)
        (m next : Machine) (j l : J) (keeps : Keeps J.Answers start m j next l)
        → m ≡ fresh logged store script retries → IsKept start m
        → ((s : ℕ) → IsPlace next.script s → HasSessionEnded next s)
        → IsRunWithDeaths retries start script (ended_in J.Answers keeps)
        (transcripts_of next) next.history (sweep_of next.lazy.last) }
{}

/// A run in which no group is told that it died is one without deaths, and the other way round; so is one
/// of which no phase has more sessions than a group has lives.
pub fn a_run_that_tells_no_death_has_none()
    ensures told { (retries : ℕ) (start : Database) (script : Script) (ended : List EndedGroup)
        (transcripts : List (List Reply)) (history : List Entry) (sweep : Sweep)
        → IsRunWithDeaths retries start script ended transcripts history sweep
        → IsTrue (tell_no_death transcripts)
        → IsRunOver start script ended transcripts history sweep }
    ensures few { (retries most : ℕ) (start : Database) (script : Script) (ended : List EndedGroup)
        (transcripts : List (List Reply)) (history : List Entry) (sweep : Sweep)
        → IsRunWithDeaths retries start script ended transcripts history sweep
        → HasFewInPhases most script → most ≤ retries + 1
        → IsRunOver start script ended transcripts history sweep }
    ensures tells_none { (start : Database) (script : Script) (ended : List EndedGroup)
        (transcripts : List (List Reply)) (history : List Entry) (sweep : Sweep)
        → IsRunOver start script ended transcripts history sweep → IsTrue (tell_no_death transcripts) }
{}

/// So is each run of a script that is read, and no reply of it tells of a death, where a group begins again
/// as often as where the words give no number, or more often.
pub fn a_script_that_is_read_runs_without_deaths()
    ensures { (text : List ℕ) (retries : ℕ) (start : Database) (script : Script)
        (ended : List EndedGroup) (transcripts : List (List Reply)) (history : List Entry) (sweep : Sweep)
        → IsScriptText text (Ok script) → usual_retries ≤ retries
        → IsRunWithDeaths retries start script ended transcripts history sweep
        → IsRunOver start script ended transcripts history sweep × IsTrue (tell_no_death transcripts) }
{}

/// So once each session of a machine beside a journal has ended, of which no group is told that it died,
/// the script has run over the opening database, and of its groups those ended by a cause of a log for
/// which the journal did not keep a change.
pub fn sessions_that_tell_no_death_ran_over<J: Journal>(_of: PhantomData<J>)
    ensures told { (start : Database) (logged : Bool) (store : Store) (script : Script) (retries : ℕ)
        (m next : Machine) (j l : J) (keeps : Keeps J.Answers start m j next l)
        → m ≡ fresh logged store script retries → IsKept start m
        → ((s : ℕ) → IsPlace next.script s → HasSessionEnded next s)
        → IsTrue (tell_no_death (transcripts_of next))
        → IsRunOver start script (ended_in J.Answers keeps) (transcripts_of next) next.history
        (sweep_of next.lazy.last) }
    ensures few { (start : Database) (logged : Bool) (store : Store) (script : Script) (retries most : ℕ)
        (m next : Machine) (j l : J) (keeps : Keeps J.Answers start m j next l)
        → m ≡ fresh logged store script retries → IsKept start m
        → ((s : ℕ) → IsPlace next.script s → HasSessionEnded next s)
        → HasFewInPhases most script → most ≤ retries + 1
        → IsRunOver start script (ended_in J.Answers keeps) (transcripts_of next) next.history
        (sweep_of next.lazy.last) }
{}
