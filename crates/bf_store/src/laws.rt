//! Laws of lazy states. Each is the contract of a function that does nothing.

ghost use Rattle.std.specs.Prelude.{◌≡◌, ◌↔◌, ℕ, Bool, false, List, [], ◌++◌, ◌∷◌, length, find, is_some, map, Some};
ghost use Rattle.std.specs.List.{All};
ghost use Rattle.bf_base.specs.declared.granule.Granule.{Granule};
ghost use Rattle.bf_base.specs.declared.table.Table.{Table};
ghost use Rattle.bf_base.specs.declared.value.Value.{Value};
ghost use Rattle.bf_base.specs.Lists.{has, same_key, same_name};
ghost use Rattle.bf_base.specs.Tables.{key_of};
ghost use Rattle.bf_tree.specs.declared.bound.Action.{Action};
ghost use Rattle.bf_tree.specs.declared.bound.Action.TheVariants as action;
ghost use Rattle.bf_tree.specs.declared.bound.Bound.{Bound};
ghost use Rattle.bf_tree.specs.declared.catalog.Catalog.{Catalog};
ghost use Rattle.bf_tree.specs.declared.catalog.IndexRule.{IndexRule};
ghost use Rattle.bf_tree.specs.declared.history.Sweep.TheVariants.{Complete};
ghost use Rattle.bf_tree.specs.declared.migration.Migrate.{Migrate};
ghost use Rattle.bf_tree.specs.declared.migration.Target.{Target};
ghost use Rattle.bf_tree.specs.declared.reply.Refusal.{Refusal};
ghost use Rattle.bf_tree.specs.declared.reply.Reply.{Reply};
ghost use Rattle.bf_tree.specs.declared.reply.Reply.TheVariants as reply;
ghost use Rattle.bf_tree.specs.declared.statement.Statement.{Statement};
ghost use Rattle.bf_tree.specs.declared.statement.Statement.TheVariants as statement;
ghost use Rattle.bf_txn.specs.declared.write.Write.{Write};
ghost use Rattle.bf_sql.specs.Bound.{is_planned, without_rows, bound_of, catalog_of};
ghost use Rattle.bf_sql.specs.Database.{Database, Stored, IsDatabase, stored_at, table_at, table_rows, with_tables};
ghost use Rattle.bf_sql.specs.Meaning.{executed, next_number, with_index};
ghost use Rattle.bf_sql.specs.Objections.{objections};
ghost use Rattle.bf_sql.specs.RowObjections.{row_objections};
ghost use Rattle.bf_sql.specs.migrations.Granules.{granules_of, owner_of};
ghost use Rattle.bf_sql.specs.migrations.Images.{flipped};
ghost use Rattle.bf_sql.specs.migrations.Lazy.{DoneGranule, Migration, LazyState, is_done, moved, pending, sweep_of, pending_of, view_of, flipped_lazily};
ghost use Rattle.bf_sql.specs.migrations.Need.{needed_by, needed_for};
ghost use Rattle.bf_sql.specs.migrations.Plans.{prepared_of};
ghost use Rattle.bf_live.specs.Replies.{action_table};
ghost use Rattle.bf_live.specs.Meanings.{IsBoundAs};
ghost use Rattle.bf_image.specs.Lawful.{IsLawful};
ghost use Rattle.bf_live.specs.Live.{committed};
ghost use Rattle.bf_live.specs.Open.{IsOpen, IsStep};
ghost use Rattle.bf_store.specs.declared.moved.Moved.{Moved};
ghost use Rattle.bf_store.specs.Calls.{after_commit, cover_of, stands_in, tells, told_of, with_commit, IsCommitOf, IsFlipOf, IsLegalCommit, IsMoveOf, IsNeedOf, MayFlip};
ghost use Rattle.bf_store.specs.States.{frozen_lazily, AreGranulesIfAny, HaveMoved, IsComplete, IsLazy, IsOpenLazily, IsQuiet, IsSeenAs, IsUnderWay, is_free, need_of, need_of_all, settled_by};

/// The view of a lazy state is a database.
pub fn the_view_is_a_database()
    ensures { (lazy : LazyState) → IsLazy lazy → IsDatabase (view_of lazy) }
{}

/// Where nothing is left to move, a flip that keeps the old database and moves nothing is seen as
/// the flip that makes whole images.
pub fn a_lazy_flip_is_seen_as_the_flip()
    ensures { (lazy : LazyState) (m : Migrate) → IsLazy lazy → pending_of lazy.last ≡ []
        → IsLawful lazy.live m → IsSeenAs (flipped (view_of lazy) m) (flipped_lazily lazy m) }
{}

/// And so is one that of the old tables keeps the sources alone.
pub fn a_flip_may_keep_the_sources_alone()
    ensures { (lazy : LazyState) (m : Migrate) → IsLazy lazy → pending_of lazy.last ≡ []
        → IsLawful lazy.live m → IsSeenAs (flipped (view_of lazy) m) (frozen_lazily lazy m) }
{}

/// Granules of the migration, which differ, may move at any moment by one record: the database that
/// is seen stays, and each open transaction stays open.
pub fn moving_is_not_seen()
    ensures { (lazy : LazyState) (granules : List Granule) → IsLazy lazy
        → AreGranulesIfAny lazy.last granules → IsQuiet lazy (moved lazy granules) }
{}

/// What a bound action needs may move, nobody sees it, and then it has moved.
pub fn a_need_moves_first()
    ensures quiet { (lazy : LazyState) (act : Action) → IsLazy lazy
        → IsQuiet lazy (moved lazy (need_of lazy.last act)) }
    ensures moved { (lazy : LazyState) (act : Action) → IsLazy lazy
        → HaveMoved (moved lazy (need_of lazy.last act)).last
        (λ last. needed_for last.old last.migrate act) }
{}

/// A transaction that has written nothing is open over each lazy state, and a statement that the
/// catalog refuses is refused on the database that is seen, and writes nothing.
pub fn a_transaction_begins_open()
    ensures begins { (lazy : LazyState) → IsLazy lazy → IsOpenLazily lazy [] }
    ensures refused { (lazy : LazyState) (before : List Write) (in_block : Bool) (s : Statement)
        (catalog : Catalog) (bound : Bound) (r : Refusal) → IsLazy lazy → IsOpenLazily lazy before
        → is_planned in_block s ≡ false → catalog ≡ catalog_of lazy.live
        → bound_of (without_rows catalog) in_block s ≡ Some bound → bound.action ≡ action.Refused r
        → IsStep (view_of lazy) before before in_block s (reply.Refused r) }
{}

/// A statement is prepared in the catalog of the live tables as it is in that of the database that
/// is seen, and what it needs there is its cover here.
pub fn a_statement_is_prepared_as_it_is_seen()
    ensures prepared { (lazy : LazyState) (in_block : Bool) (s : Statement) → IsLazy lazy
        → prepared_of (view_of lazy) in_block s ≡ prepared_of lazy.live in_block s }
    ensures need { (lazy : LazyState) (last : Migration) (in_block : Bool) (s : Statement)
        (bound : Bound) → IsLazy lazy → lazy.last ≡ Some last
        → prepared_of lazy.live in_block s ≡ Some bound
        → needed_by last.old last.migrate (view_of lazy) in_block s ≡ cover_of lazy.last bound }
{}

/// A SELECT, INSERT, UPDATE or DELETE of an open transaction, whose need has moved, which replies
/// and writes on the live tables under the transaction's own writes what it means there, replies
/// and writes what it means on the database that is seen, under the same writes; and the
/// transaction stays open.
pub fn a_step_is_seen()
    ensures step { (lazy : LazyState) (before after : List Write) (in_block : Bool) (s : Statement)
        (act : Action) (table : Table) (answer : Reply) → IsLazy lazy → IsOpenLazily lazy before
        → is_planned in_block s ≡ false → IsBoundAs (committed lazy.live before) in_block s act
        → action_table act ≡ Some table
        → HaveMoved lazy.last (λ last. needed_for last.old last.migrate act)
        → IsStep lazy.live before after in_block s answer
        → IsStep (view_of lazy) before after in_block s answer }
    ensures opened { (lazy : LazyState) (before after : List Write) (in_block : Bool) (s : Statement)
        (act : Action) (table : Table) (answer : Reply) → IsLazy lazy → IsOpenLazily lazy before
        → is_planned in_block s ≡ false → IsBoundAs (committed lazy.live before) in_block s act
        → action_table act ≡ Some table
        → HaveMoved lazy.last (λ last. needed_for last.old last.migrate act)
        → IsStep lazy.live before after in_block s answer → IsOpenLazily lazy after }
{}

/// The writes of an open transaction leave a lazy state lazy once they are committed, and are seen
/// as the same writes to the database that is seen. Another transaction that is still open over the
/// live tables then is open still.
pub fn a_commit_is_seen()
    ensures committed { (lazy : LazyState) (writes : List Write) → IsLazy lazy
        → IsOpenLazily lazy writes
        → IsSeenAs (committed (view_of lazy) writes) (with_commit lazy writes) }
    ensures others { (lazy : LazyState) (writes others : List Write) → IsOpenLazily lazy others
        → IsOpen (with_commit lazy writes).live others
        → IsOpenLazily (with_commit lazy writes) others }
{}

/// A record of a commit leaves out removals of keys that have no row: to commit what it tells is
/// legal, and is to commit all that an open transaction has written. Of a key that is written a row
/// stands in the live table exactly where it is seen.
pub fn a_record_leaves_out_what_changes_nothing()
    ensures live { (lazy : LazyState) (writes : List Write) → IsLazy lazy
        → IsOpenLazily lazy writes
        → committed lazy.live (told_of lazy writes) ≡ committed lazy.live writes }
    ensures view { (lazy : LazyState) (writes : List Write) → IsLazy lazy
        → IsOpenLazily lazy writes
        → committed (view_of lazy) (told_of lazy writes) ≡ committed (view_of lazy) writes }
    ensures legal { (lazy : LazyState) (writes : List Write) → IsLazy lazy
        → IsOpenLazily lazy writes → IsLegalCommit lazy (told_of lazy writes) }
    ensures seen { (lazy : LazyState) (writes : List Write) → IsLazy lazy
        → IsOpenLazily lazy writes
        → All (λ w. stands_in lazy.live w ≡ has same_key
        (map (key_of (table_at lazy.live w.table)) (table_rows (view_of lazy) w.table)) w.key)
        writes }
{}

/// Where a record of a commit would tell nothing, none is needed: the live tables and what is seen
/// stay as they are under the commit. By a record where that tells anything, and else by none, a
/// commit is seen as that of all writes, leaves the last migration, and leaves another transaction
/// open.
pub fn a_commit_that_tells_nothing_changes_nothing()
    ensures told { (lazy : LazyState) (writes : List Write)
        → (tells lazy writes ≡ false) ↔ (told_of lazy writes ≡ []) }
    ensures live { (lazy : LazyState) (writes : List Write) → IsLazy lazy
        → IsOpenLazily lazy writes → tells lazy writes ≡ false
        → committed lazy.live writes ≡ lazy.live }
    ensures view { (lazy : LazyState) (writes : List Write) → IsLazy lazy
        → IsOpenLazily lazy writes → tells lazy writes ≡ false
        → committed (view_of lazy) writes ≡ view_of lazy }
    ensures seen { (lazy : LazyState) (writes : List Write) → IsLazy lazy
        → IsOpenLazily lazy writes
        → IsSeenAs (committed (view_of lazy) writes) (after_commit lazy writes) }
    ensures last { (lazy : LazyState) (writes : List Write)
        → (after_commit lazy writes).last ≡ lazy.last }
    ensures others { (lazy : LazyState) (writes others : List Write) → IsOpenLazily lazy others
        → IsOpen (with_commit lazy writes).live others
        → IsOpenLazily (after_commit lazy writes) others }
{}

/// Of a live table that is a target, a key is free exactly where it has no owner or its owner has
/// moved.
pub fn a_key_is_free_exactly_where_its_owner_has_moved()
    ensures { (live : Database) (last : Migration) (s : Stored) (t : Target) (key : List Value)
        → IsUnderWay live last → stored_at live s.table.name ≡ Some s
        → find (λ u. same_name u.name s.table.name) last.migrate.targets ≡ Some t
        → is_free (Some last) s.table key ≡ settled_by last (owner_of last.old last.migrate t key) }
{}

/// For a further MIGRATE all granules that are left move, nobody sees it, and then none is pending;
/// where the catalog and the rows then have nothing against it, its lazy flip is seen as the
/// statement.
pub fn a_further_migration_moves_all_first()
    ensures quiet { (lazy : LazyState) → IsLazy lazy
        → IsQuiet lazy (moved lazy (need_of_all lazy.last)) }
    ensures complete { (lazy : LazyState) → IsLazy lazy
        → pending_of (moved lazy (need_of_all lazy.last)).last ≡ [] }
    ensures meant { (lazy : LazyState) (m : Migrate) (commit : ℕ) → IsLazy lazy
        → pending_of lazy.last ≡ []
        → objections lazy.live false (statement.Migrate m)
        ++ row_objections lazy.live (statement.Migrate m) ≡ []
        → executed commit (view_of lazy) false (statement.Migrate m)
        ≡ (reply.Migrated (length m.targets), view_of (flipped_lazily lazy m)) }
    ensures refused { (lazy : LazyState) (m : Migrate) (r : Refusal) (rs : List Refusal)
        (commit : ℕ) → pending_of lazy.last ≡ []
        → objections lazy.live false (statement.Migrate m)
        ++ row_objections lazy.live (statement.Migrate m) ≡ r ∷ rs
        → executed commit (view_of lazy) false (statement.Migrate m)
        ≡ (reply.Refused r, view_of lazy) }
{}

/// A MIGRATE that the catalog refuses needs nothing, whatever is pending, and is refused on the
/// database that is seen too.
pub fn a_refused_migration_moves_nothing()
    ensures meant { (lazy : LazyState) (m : Migrate) (r : Refusal) (rs : List Refusal) (commit : ℕ)
        → IsLazy lazy → objections lazy.live false (statement.Migrate m) ≡ r ∷ rs
        → executed commit (view_of lazy) false (statement.Migrate m)
        ≡ (reply.Refused r, view_of lazy) }
    ensures need { (lazy : LazyState) (m : Migrate) (r : Refusal) (rs : List Refusal)
        (old : Database) (first : Migrate) → IsLazy lazy
        → objections lazy.live false (statement.Migrate m) ≡ r ∷ rs
        → needed_by old first (view_of lazy) false (statement.Migrate m) ≡ [] }
{}

/// A new table and a new index on the live tables are seen as such on the database that is seen.
pub fn a_schema_change_is_seen()
    ensures table { (lazy : LazyState) (table : Table) → IsLazy lazy
        → is_some (stored_at lazy.live table.name) ≡ false
        → IsDatabase (next_number (with_tables (record { table = table; rows = [] } ∷ []) lazy.live))
        → IsSeenAs (next_number (with_tables (record { table = table; rows = [] } ∷ []) (view_of lazy)))
        (record lazy {
          live = next_number
              (with_tables (record { table = table; rows = [] } ∷ []) lazy.live);
        }) }
    ensures index { (lazy : LazyState) (index : IndexRule) → IsLazy lazy
        → IsDatabase (next_number (with_index index lazy.live))
        → IsSeenAs (next_number (with_index index (view_of lazy)))
        (record lazy { live = next_number (with_index index lazy.live) }) }
{}

/// In which order granules have moved is not seen.
pub fn the_order_of_moves_is_not_seen()
    ensures pending { (last : Migration) (others : List DoneGranule)
        → ((g : Granule) → is_done (record last { done = others }) g ≡ is_done last g)
        → pending (record last { done = others }) ≡ pending last }
    ensures view { (lazy : LazyState) (last : Migration) (others : List DoneGranule)
        → ((g : Granule) → is_done (record last { done = others }) g ≡ is_done last g)
        → view_of (record lazy { last = Some (record last { done = others }) })
        ≡ view_of (record lazy { last = Some last }) }
{}

/// A sweep is complete exactly where nothing is pending.
pub fn a_sweep_is_complete_exactly_where_nothing_is_pending()
    ensures { (last : Migration)
        → (sweep_of (Some last) ≡ Complete last.number (length last.done)) ↔ (pending last ≡ []) }
{}

/// A sweep is complete exactly where each granule has moved once, and as many have moved then as there
/// are.
pub fn a_sweep_is_complete_exactly_where_each_granule_has_moved_once()
    ensures complete { (live : Database) (last : Migration) → IsUnderWay live last
        → (sweep_of (Some last) ≡ Complete last.number (length last.done)) ↔ IsComplete last }
    ensures as_many { (live : Database) (last : Migration) → IsUnderWay live last
        → IsComplete last → length last.done ≡ length (granules_of last.old last.migrate) }
{}

/// What each call of a store does is seen as what it stands for: nothing where granules move, the
/// flip, and the commit. Where nothing is left of the cover of a bound statement, its need has
/// moved.
pub fn the_calls_of_a_store_are_seen()
    ensures moved { (lazy after : LazyState) (granules : List Granule)
        (told : Moved) → IsLazy lazy → AreGranulesIfAny lazy.last granules
        → IsMoveOf lazy after granules told → IsQuiet lazy after }
    ensures flipped { (lazy after : LazyState) (m : Migrate) (number : ℕ) → IsLazy lazy
        → MayFlip lazy m → IsFlipOf lazy after m number
        → IsSeenAs (flipped (view_of lazy) m) after }
    ensures committed { (lazy after : LazyState) (writes : List Write) (number : ℕ) → IsLazy lazy
        → IsLegalCommit lazy writes → IsCommitOf lazy after writes number
        → IsSeenAs (committed (view_of lazy) writes) after }
    ensures needed { (lazy : LazyState) (bound : Bound) (answer : List Granule)
        → IsNeedOf lazy (cover_of lazy.last bound) answer → answer ≡ []
        → HaveMoved lazy.last (λ last. needed_for last.old last.migrate bound.action) }
{}
