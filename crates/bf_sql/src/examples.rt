//! Footprints of worked statements. Each is the contract of a function that does nothing.

ghost use Rattle.std.specs.Prelude.{◌≡◌, ◌≢◌, [], ◌∷◌, true, false, Some, None, codes};
ghost use Rattle.bf_tree.specs.Trees.{both, column, either, opposite};
ghost use Rattle.bf_locks.specs.declared.mode.Mode.TheVariants.{IS, IX, S, X};
ghost use Rattle.bf_locks.specs.declared.name.LockName.TheVariants.{Catalog, Whole, One};
ghost use Rattle.bf_tree.specs.declared.items.Items.TheVariants.{Exprs};
ghost use Rattle.bf_tree.specs.declared.statement.Statement.TheVariants.{CreateIndex, Insert, Delete, Begin, Commit, Rollback, Migrate, Select};
ghost use Rattle.bf_tree.specs.declared.migration.Item.TheVariants.{Column};
ghost use Rattle.bf_sql.specs.Database.{empty_database};
ghost use Rattle.bf_sql.specs.Meaning.{executed};
ghost use Rattle.bf_sql.specs.Bound.{catalog_of};
ghost use Rattle.bf_sql.specs.Agreement.{AgreeOn};
ghost use Rattle.bf_sql.specs.FootprintExamples.{counts, create, filled, footprint_in, id, is, key, locks_of_all, locks_of_one, made, n, no_locks, number, ref, row, selects, t, whole_catalog};

/// A schema change locks the whole catalog, also where it is refused.
pub fn schema_changes()
    ensures create { footprint_in empty_database false create ≡ whole_catalog }
    ensures refused { footprint_in made false create ≡ whole_catalog }
    ensures index { footprint_in made false
        (CreateIndex (codes "i") t (codes "n" ∷ [])) ≡ whole_catalog }
    ensures refused_index { footprint_in empty_database false
        (CreateIndex (codes "i") t (codes "n" ∷ [])) ≡ whole_catalog }
    ensures refused_migration { footprint_in filled false
        (Migrate (record {
          targets = record {
            name = codes "v";
            arms = record {
              items = Column (ref (codes "id")) ∷ [];
              from = codes "w";
              join = None;
              cond = None;
              group = [];
            }
                ∷ [];
          } ∷ [];
        })) ≡ whole_catalog }
{}

/// The words of a block, and what the place in a block or outside refuses, lock nothing.
pub fn words_of_a_block()
    ensures begin { footprint_in made false Begin ≡ no_locks }
    ensures commit { footprint_in made true Commit ≡ no_locks }
    ensures rollback { footprint_in made true Rollback ≡ no_locks }
    ensures stray_commit { footprint_in made false Commit ≡ no_locks }
    ensures stray_rollback { footprint_in made false Rollback ≡ no_locks }
    ensures second_begin { footprint_in made true Begin ≡ no_locks }
    ensures create_in_block { footprint_in made true create ≡ no_locks }
    ensures migration_in_block { footprint_in made true
        (Migrate (record { targets = [] })) ≡ no_locks }
{}

/// Any other refusal by the catalog locks it as a reader does.
pub fn refusals()
    ensures no_table { footprint_in empty_database true (selects None)
        ≡ Some ((Catalog, S) ∷ []) }
    ensures no_column { footprint_in filled false
        (Select (Exprs (column (ref (codes "x")) ∷ [])) t None)
        ≡ Some ((Catalog, S) ∷ []) }
    ensures wrong_count { footprint_in filled false (Insert t (key 2 ∷ []))
        ≡ Some ((Catalog, S) ∷ []) }
{}

/// An INSERT locks the keys of its tuples in their order, each once, also where a row stands in
/// its way.
pub fn inserts()
    ensures { footprint_in filled true (Insert t (row 2 20 ∷ row 1 0 ∷ row 2 5 ∷ []))
        ≡ Some ((Catalog, S) ∷ (Whole t, IX) ∷ (One t (key 1), X) ∷ (One t (key 2), X) ∷ []) }
{}

/// A condition fixes a key by `=` with a literal on either side, in a conjunct at its top.
pub fn keys()
    ensures by_column { footprint_in filled true (counts (Some (is id (number 1))))
        ≡ locks_of_one IX X 1 }
    ensures by_literal { footprint_in filled true (selects (Some (is (number 1) id)))
        ≡ locks_of_one IS S 1 }
    ensures with_more { footprint_in filled true
        (Delete t (Some (both (is n (number 3)) (is id (number 2))))) ≡ locks_of_one IX X 2 }
    ensures first_serves { footprint_in filled true
        (selects (Some (both (is id (number 1)) (is id (number 2))))) ≡ locks_of_one IS S 1 }
{}

/// Else a SELECT reads its whole table, and an UPDATE or a DELETE writes it.
pub fn scans()
    ensures select { footprint_in filled true (selects None) ≡ locks_of_all S }
    ensures update { footprint_in filled true (counts None) ≡ locks_of_all X }
    ensures delete { footprint_in filled true (Delete t None) ≡ locks_of_all X }
    ensures another_column { footprint_in filled true (selects (Some (is n (number 1))))
        ≡ locks_of_all S }
    ensures one_of_two { footprint_in filled true
        (counts (Some (either (is id (number 1)) (is id (number 2))))) ≡ locks_of_all X }
    ensures negated { footprint_in filled true
        (counts (Some (opposite (is id (number 1))))) ≡ locks_of_all X }
{}

/// A SELECT that locked its table in IS would read what it has not locked.
pub fn a_scan_in_is_reads_more()
    ensures agree { AgreeOn made filled ((Catalog, S) ∷ (Whole t, IS) ∷ []) }
    ensures differ { (executed 3 made true (selects None)).0
        ≢ (executed 3 filled true (selects None)).0 }
{}

/// So would an INSERT that did not lock the keys of its tuples.
pub fn an_insert_without_its_keys_reads_more()
    ensures agree { AgreeOn made filled ((Catalog, S) ∷ (Whole t, IX) ∷ []) }
    ensures differ { (executed 3 made true (Insert t (row 1 0 ∷ []))).0
        ≢ (executed 3 filled true (Insert t (row 1 0 ∷ []))).0 }
{}

/// A CREATE changes the catalog, which no lock but its X allows.
pub fn a_create_changes_the_catalog()
    ensures { catalog_of (executed 1 empty_database false create).1 ≢ catalog_of empty_database }
{}
