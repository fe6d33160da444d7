//! Laws of the definitions. Each is the contract of a function that does nothing.

ghost use Rattle.std.specs.Prelude.{◌≡◌, ◌≢◌, ℕ, Bool, not, IsTrue, List, [], map, filter, fold, Option, Some, if◌then◌else◌};
ghost use Rattle.std.specs.List.{All};
ghost use Rattle.bf_base.specs.declared.table.Table.{Table};
ghost use Rattle.bf_base.specs.declared.value.Value.{Value};
ghost use Rattle.bf_base.specs.Lists.{with_placed};
ghost use Rattle.bf_base.specs.Maps.{is_map};
ghost use Rattle.bf_base.specs.Tables.{IsKeyWithin, cell, cells, key_of};
ghost use Rattle.bf_base.specs.Values.{key_cmp};
ghost use Rattle.bf_tree.specs.Evaluation.{holds_on};
ghost use Rattle.bf_tree.specs.Trees.{Cond, Expr};
ghost use Rattle.bf_heap.specs.Heaps.{Entry, key_of_entry};
ghost use Rattle.bf_heap.specs.KeyRanges.{is_within};
ghost use Rattle.bf_index.specs.Edits.{index_of};
ghost use Rattle.bf_index.specs.Pairs.{keys_with};
ghost use Rattle.bf_sql.specs.Queries.{changed, selected};
ghost use Rattle.bf_tree.specs.declared.bound.Action.{Action};
ghost use Rattle.bf_tree.specs.declared.bound.Action.TheVariants as action;
ghost use Rattle.bf_txn.specs.declared.write.Write.{Write};
ghost use Rattle.bf_txn.specs.Writes.{AreWrites, with_write};
ghost use Rattle.bf_live.specs.Replies.{IsWellBound, objections_on, action_table, writes_of, LeavesKeys};
ghost use Rattle.bf_access.specs.ByIndex.{all_fixed, entries_at, entries_with, fixed_value};
ghost use Rattle.bf_live.specs.Merged.{StandUnderOwnKeys, applied, rows_under};
ghost use Rattle.bf_access.specs.Ranges.{key_range_of};

/// The writes of an INSERT that nothing stands in the way of place its tuples among the rows of
/// the table, in key order.
pub fn an_insert_places_its_tuples()
    ensures { (table : Table) (entries : List Entry) (writes : List Write)
        (tuples : List (List Value)) → IsTrue (is_map key_cmp key_of_entry entries)
        → AreWrites writes → StandUnderOwnKeys table entries writes → All (IsKeyWithin table) tuples
        → objections_on (rows_under entries writes table.name) (action.Insert table tuples) ≡ []
        → rows_under entries (fold with_write writes
        (writes_of (rows_under entries writes table.name) (action.Insert table tuples))) table.name
        ≡ with_placed key_cmp (key_of table) (rows_under entries writes table.name) tuples }
{}

/// The writes of an UPDATE change the rows that satisfy its condition, and leave the others.
pub fn an_update_changes_its_rows()
    ensures { (table : Table) (entries : List Entry) (writes : List Write)
        (sets : List (ℕ × Expr ℕ)) (cond : Cond ℕ) (fixed : Option (List Value))
        → IsTrue (is_map key_cmp key_of_entry entries) → AreWrites writes
        → StandUnderOwnKeys table entries writes
        → rows_under entries (fold with_write writes
        (writes_of (rows_under entries writes table.name) (action.Update table sets cond fixed)))
        table.name ≡ map (λ row. if holds_on (cell row) cond then changed cell
        (λ place. place) sets row else row) (rows_under entries writes table.name) }
{}

/// The writes of a DELETE leave the rows that do not satisfy its condition.
pub fn a_delete_leaves_the_other_rows()
    ensures { (table : Table) (entries : List Entry) (writes : List Write) (cond : Cond ℕ)
        (fixed : Option (List Value)) → IsTrue (is_map key_cmp key_of_entry entries)
        → AreWrites writes → StandUnderOwnKeys table entries writes
        → rows_under entries (fold with_write writes
        (writes_of (rows_under entries writes table.name) (action.Delete table cond fixed)))
        table.name ≡ filter (λ row. not (holds_on (cell row) cond))
        (rows_under entries writes table.name) }
{}

/// The writes of an action leave the rows of every table but its own.
pub fn an_action_leaves_other_tables()
    ensures { (act : Action) (table : Table) (other : List ℕ) (rows : List (List Value))
        (entries : List Entry) (writes : List Write) → action_table act ≡ Some table
        → other ≢ table.name → rows_under entries
        (fold with_write writes (writes_of rows act)) other ≡ rows_under entries writes other }
{}

/// After the writes of an action that sets no column of a key, rows stand under their own keys
/// where they did before: those of its table, and those of every other.
pub fn an_action_keeps_own_keys()
    ensures own { (act : Action) (table : Table) (entries : List Entry) (writes : List Write)
        → action_table act ≡ Some table → IsWellBound act → LeavesKeys act
        → StandUnderOwnKeys table entries writes
        → StandUnderOwnKeys table entries
        (fold with_write writes (writes_of (rows_under entries writes table.name) act)) }
    ensures others { (act : Action) (table : Table) (other : Table) (rows : List (List Value))
        (entries : List Entry) (writes : List Write) → action_table act ≡ Some table
        → other.name ≢ table.name → StandUnderOwnKeys other entries writes
        → StandUnderOwnKeys other entries (fold with_write writes (writes_of rows act)) }
{}

/// A row that satisfies a condition has its key in the range that the condition leaves.
pub fn a_key_range_has_the_keys_of_its_rows()
    ensures { (table : Table) (cond : Cond ℕ) (row : List Value)
        → IsTrue (holds_on (cell row) cond)
        → IsTrue (is_within (key_range_of table cond) (key_of table row)) }
{}

/// An index whose columns a condition all fixes lists the rows that may satisfy it. A row that does
/// has the value that the condition fixes the columns to. Under the keys that the index of a table's
/// rows has with a value stand the rows that have it. And of entries under writes the condition
/// selects the rows that it selects of the entries with the value under the same writes.
pub fn an_index_has_the_rows_of_its_value()
    ensures value { (cond : Cond ℕ) (columns : List ℕ) (row : List Value)
        → IsTrue (all_fixed cond columns) → IsTrue (holds_on (cell row) cond)
        → cells columns row ≡ fixed_value cond columns }
    ensures entries { (columns : List ℕ) (value : List Value) (entries : List Entry)
        → IsTrue (is_map key_cmp key_of_entry entries)
        → entries_at entries (keys_with (index_of columns entries) value)
        ≡ entries_with columns value entries }
    ensures rows { (cond : Cond ℕ) (columns : List ℕ) (entries : List Entry)
        (writes : List Write) (table : List ℕ) → IsTrue (all_fixed cond columns)
        → IsTrue (is_map key_cmp key_of_entry entries)
        → selected cell cond
        (rows_under (entries_with columns (fixed_value cond columns) entries) writes table)
        ≡ selected cell cond (rows_under entries writes table) }
{}

/// Of entries under writes, the keys that pass a test have the rows that the writes to such keys
/// make of the entries with such keys.
pub fn keys_may_be_chosen_first()
    ensures { (test : List Value → Bool) (entries : List Entry) (writes : List Write)
        → IsTrue (is_map key_cmp key_of_entry entries)
        → filter (λ entry. test entry.0) (fold applied entries writes)
        ≡ fold applied (filter (λ entry. test entry.0) entries)
        (filter (λ write. test write.key) writes) }
{}
