//! Laws that bound statements mean what is written. Each is the contract of a function that does
//! nothing.

ghost use Rattle.std.specs.Prelude.{◌≡◌, ◌≢◌, ℕ, Bool, List, [], Some};
ghost use Rattle.bf_base.specs.declared.table.Table.{Table};
ghost use Rattle.bf_heap.specs.Heaps.{Entry};
ghost use Rattle.bf_tree.specs.declared.bound.Action.{Action};
ghost use Rattle.bf_tree.specs.declared.statement.Statement.{Statement};
ghost use Rattle.bf_sql.specs.Database.{Database, IsDatabase, stored_at, table_rows, with_rows};
ghost use Rattle.bf_sql.specs.Meaning.{executed};
ghost use Rattle.bf_txn.specs.declared.write.Write.{Write};
ghost use Rattle.bf_live.specs.Replies.{IsChange, IsSelect, IsWellBound, change_reply, select_reply, action_table, LeavesKeys};
ghost use Rattle.bf_live.specs.Meanings.{HoldRowsOf, IsBoundAs, entries_of, rows_after, writes_after};

/// What a statement is bound to has a key that its condition fixes, tuples with values for the
/// key, no set of a key column, and the table that the database has under its name.
pub fn a_bound_action_is_well_bound()
    ensures well_bound { (db : Database) (in_block : Bool) (s : Statement) (act : Action)
        → IsBoundAs db in_block s act → IsWellBound act }
    ensures leaves_keys { (db : Database) (in_block : Bool) (s : Statement) (act : Action)
        → IsBoundAs db in_block s act → LeavesKeys act }
    ensures table { (db : Database) (in_block : Bool) (s : Statement) (act : Action) (table : Table)
        → IsBoundAs db in_block s act → action_table act ≡ Some table
        → stored_at db table.name ≡ Some
        (record { table = table; rows = table_rows db table.name }) }
{}

/// The rows of each table of a database stand under their own keys, in the order of those.
pub fn rows_of_a_database_are_entries()
    ensures { (db : Database) (table : Table) → IsDatabase db
        → stored_at db table.name ≡ Some (record { table = table; rows = table_rows db table.name })
        → HoldRowsOf db table (entries_of table (table_rows db table.name)) [] }
{}

/// A bound SELECT replies what the statement means, which leaves the database as it is.
pub fn a_bound_select_means_what_is_written()
    ensures reply { (commit : ℕ) (db : Database) (in_block : Bool) (s : Statement) (act : Action)
        (table : Table) → IsBoundAs db in_block s act → IsSelect act → action_table act ≡ Some table
        → select_reply (table_rows db table.name) act ≡ Some (executed commit db in_block s).0 }
    ensures database { (commit : ℕ) (db : Database) (in_block : Bool) (s : Statement) (act : Action)
        (table : Table) → IsBoundAs db in_block s act → IsSelect act → action_table act ≡ Some table
        → (executed commit db in_block s).1 ≡ db }
{}

/// A bound INSERT, UPDATE or DELETE replies what the statement means, and its writes make the
/// database that the statement means: over any entries and earlier writes that hold the rows of
/// its table, and so over the rows alone.
pub fn a_bound_change_means_what_is_written()
    ensures reply { (commit : ℕ) (db : Database) (in_block : Bool) (s : Statement) (act : Action)
        (table : Table) → IsBoundAs db in_block s act → IsChange act → action_table act ≡ Some table
        → change_reply (table_rows db table.name) act ≡ Some (executed commit db in_block s).0 }
    ensures database { (commit : ℕ) (db : Database) (in_block : Bool) (s : Statement) (act : Action)
        (table : Table) (entries : List Entry) (writes : List Write) → IsBoundAs db in_block s act
        → IsChange act → action_table act ≡ Some table → HoldRowsOf db table entries writes
        → (executed commit db in_block s).1
        ≡ with_rows db table.name (rows_after db table entries writes act) }
    ensures over_the_rows { (commit : ℕ) (db : Database) (in_block : Bool) (s : Statement)
        (act : Action) (table : Table) → IsBoundAs db in_block s act → IsChange act
        → action_table act ≡ Some table → (executed commit db in_block s).1
        ≡ with_rows db table.name (rows_after db table
        (entries_of table (table_rows db table.name)) [] act) }
{}

/// Entries that hold the rows of a table under the writes of a transaction hold, under the writes
/// after a change, those that the table has in the database that the statement means: the table
/// of the change, and every other. So one statement follows another.
pub fn a_bound_change_keeps_rows_held()
    ensures own { (commit : ℕ) (db : Database) (in_block : Bool) (s : Statement) (act : Action)
        (table : Table) → IsBoundAs db in_block s act → IsChange act → action_table act ≡ Some table
        → (entries : List Entry) (writes : List Write) → HoldRowsOf db table entries writes
        → HoldRowsOf (executed commit db in_block s).1 table entries
        (writes_after db table writes act) }
    ensures others { (commit : ℕ) (db : Database) (in_block : Bool) (s : Statement) (act : Action)
        (table : Table) → IsBoundAs db in_block s act → IsChange act → action_table act ≡ Some table
        → (other : Table) (entries : List Entry) (writes : List Write) → other.name ≢ table.name
        → HoldRowsOf db other entries writes
        → HoldRowsOf (executed commit db in_block s).1 other entries
        (writes_after db table writes act) }
{}
