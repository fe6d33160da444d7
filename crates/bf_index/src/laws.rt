//! Laws of the definitions. Each is the contract of a function that does nothing.

ghost use Rattle.std.specs.Prelude.{◌≡◌, ℕ, IsTrue, List, [], map, filter, fold, length, Some};
ghost use Rattle.bf_base.specs.declared.value.Value.{Value};
ghost use Rattle.bf_base.specs.Lists.{same_key};
ghost use Rattle.bf_base.specs.Maps.{is_map};
ghost use Rattle.bf_base.specs.Tables.{cells};
ghost use Rattle.bf_base.specs.Values.{key_cmp};
ghost use Rattle.bf_heap.specs.Heaps.{Entry, key_of_entry, row_under, with_row};
ghost use Rattle.bf_index.specs.Edits.{RowEdit, edited, index_of, rows_after};
ghost use Rattle.bf_index.specs.Pairs.{keys_with};

/// An index that follows the rows of a table is the one computed from scratch, after any list of
/// edits of the rows: a row is put under a key, or the one under a key removed. It follows an edit
/// when the pair of the row that stood under the key is taken, and that of the new row added. A row
/// that changes at other columns alone leaves the index. An index of no rows has no pairs, and one
/// of some rows has as many pairs as there are rows.
pub fn an_index_follows_the_rows()
    ensures start { (columns : List ℕ) → index_of columns [] ≡ [] }
    ensures edits { (columns : List ℕ) (entries : List Entry) (edits : List RowEdit)
        → IsTrue (is_map key_cmp key_of_entry entries)
        → edited columns entries (index_of columns entries) edits
        ≡ index_of columns (fold rows_after entries edits) }
    ensures unchanged { (columns : List ℕ) (entries : List Entry) (key row former : List Value)
        → IsTrue (is_map key_cmp key_of_entry entries) → row_under entries key ≡ Some former
        → cells columns row ≡ cells columns former
        → index_of columns (with_row entries key row) ≡ index_of columns entries }
    ensures size { (columns : List ℕ) (entries : List Entry)
        → length (index_of columns entries) ≡ length entries }
{}

/// The keys that the index of a table's rows has with a value are those of the rows that have the
/// value at its columns, in order.
pub fn an_index_has_the_keys_of_a_value()
    ensures { (columns : List ℕ) (entries : List Entry) (value : List Value)
        → IsTrue (is_map key_cmp key_of_entry entries)
        → keys_with (index_of columns entries) value
        ≡ map key_of_entry (filter (λ entry. same_key (cells columns entry.1) value) entries) }
{}
