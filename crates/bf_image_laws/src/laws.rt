//! Laws of images by parts. Each is the contract of a function that does nothing.

ghost use Rattle.std.specs.List.{Contains, count_by, list_all};
ghost use Rattle.std.specs.Option.{option_to_list};
ghost use Rattle.std.specs.Prelude.{◌≡◌, ◌≤◌, Some, ℕ, List, false, filter, find, flat_map, map, true, length, slice_get, Bool, IsTrue};
ghost use Rattle.bf_base.specs.Distinct.{distinct};
ghost use Rattle.bf_base.specs.Lists.{has, in_order, same_key, same_name};
ghost use Rattle.bf_base.specs.Values.{key_cmp};
ghost use Rattle.bf_base.specs.declared.granule.Granule.{Granule};
ghost use Rattle.bf_base.specs.declared.value.Value.{Value};
ghost use Rattle.bf_tree.specs.declared.migration.Arm.{Arm};
ghost use Rattle.bf_tree.specs.declared.migration.Migrate.{Migrate};
ghost use Rattle.bf_tree.specs.declared.migration.Target.{Target};
ghost use Rattle.bf_tree.specs.declared.bound.Bound.{Bound};
ghost use Rattle.bf_tree.specs.declared.statement.Statement.TheVariants as statement;
ghost use Rattle.bf_sql.specs.Agreement.{AgreeOn};
ghost use Rattle.bf_sql.specs.Footprints.{catalog_change, footprint_of};
ghost use Rattle.bf_tree.specs.declared.statement.Statement.{Statement};
ghost use Rattle.bf_sql.specs.Bound.{catalog_of, without_rows};
ghost use Rattle.bf_sql.specs.Database.{Database, IsDatabase, stored_at, stored_in_order, is_admitted, is_keyed};
ghost use Rattle.bf_sql.specs.migrations.Granules.{UnitForm, anchors_of, granules_of, owner_of, part_of, rows_driven, same_granule, units_of};
ghost use Rattle.bf_sql.specs.migrations.Images.{arm_rows, image_of, flipped, replaced};
ghost use Rattle.bf_sql.specs.migrations.MigrationObjections.{migrate_objections, target_objections};
ghost use Rattle.bf_sql.specs.migrations.Targets.{arm_kind, arm_sources, target_table};
ghost use Rattle.bf_index.specs.ByValues.{by_value, positions_of, positions_under, value_of};
ghost use Rattle.bf_image.specs.Laws.{rows_of_parts, owns, swept};
ghost use Rattle.bf_image.specs.Lawful.{IsLawful};
ghost use Rattle.bf_image.specs.Lookup.{anchor_count, anchor_place, candidates, places_by, rows_met};
ghost use Rattle.bf_sql.specs.migrations.Placed.{placed_arm, placed_rows};
ghost use Rattle.bf_sql.specs.migrations.Plans.{plan_made, plan_of, planned_units, prepared_of};
ghost use Rattle.bf_image.specs.PlannedUnits.{unit_form};
ghost use Rattle.bf_image.specs.Sources.{frozen_of, HaveSameSources, HaveSameTables, tables_made};

/// The parts of a target, granule by granule, have the rows of its image of the whole old tables,
/// each as often; and as a table in key order they are the image.
pub fn parts_make_the_image()
    ensures as_often { (old : Database) (m : Migrate) (t : Target) (test : List Value → Bool)
        → IsLawful old m → Contains m.targets t
        → count_by test (rows_of_parts old m t) ≡ count_by test (image_of old t) }
    ensures in_order { (old : Database) (m : Migrate) (t : Target) → IsLawful old m
        → Contains m.targets t
        → stored_in_order (target_table old t) (rows_of_parts old m t)
        ≡ stored_in_order (target_table old t) (image_of old t) }
{}

/// An image is a finite map: no two of its rows have the same key.
pub fn an_image_has_each_key_once()
    ensures { (old : Database) (m : Migrate) (t : Target) → IsLawful old m → Contains m.targets t
        → IsTrue (is_keyed (stored_in_order (target_table old t) (image_of old t))) }
{}

/// No row of an image is refused by the target's columns.
pub fn an_image_is_admitted()
    ensures { (old : Database) (m : Migrate) (t : Target) → IsLawful old m → Contains m.targets t
        → IsTrue (list_all (is_admitted (target_table old t)) (image_of old t)) }
{}

/// A flip to which there is no objection leaves a database.
pub fn a_flip_leaves_a_database()
    ensures { (old : Database) (m : Migrate) → IsLawful old m → IsDatabase (flipped old m) }
{}

/// One granule alone has a row of a target with a given key: the key's owner. Where the key has no
/// owner, none has.
pub fn a_key_has_one_owner()
    ensures { (old : Database) (m : Migrate) (t : Target) (key : List Value) → IsLawful old m
        → Contains m.targets t
        → filter (owns old m t key) (granules_of old m) ≡ option_to_list (owner_of old m t key) }
{}

/// The owner of a key, which is defined by computing all parts, is found by look-ups: one candidate
/// of each unit at most, and the one whose part has a row with the key.
pub fn an_owner_is_looked_up()
    ensures owner { (old : Database) (m : Migrate) (t : Target) (key : List Value) → IsLawful old m
        → Contains m.targets t
        → owner_of old m t key ≡ find (owns old m t key) (candidates old m t key) }
    ensures few { (old : Database) (t : Target) (key : List Value) (unit : UnitForm)
        → length (places_by old t key unit) ≤ 1 }
{}

/// A sweep of all anchors meets each granule, and nothing else.
pub fn a_sweep_meets_each_granule()
    ensures { (old : Database) (m : Migrate) (g : Granule)
        → has same_granule (swept old m) g ≡ has same_granule (granules_of old m) g }
{}

/// A unit's anchors are as many as the old rows that it goes by, and each is found by its number.
pub fn an_anchor_is_found()
    ensures count { (old : Database) (unit : UnitForm)
        → length (anchors_of old unit) ≡ anchor_count old unit }
    ensures place { (old : Database) (unit : UnitForm) (anchor : ℕ)
        → slice_get (anchors_of old unit) anchor ≡ anchor_place old unit anchor }
{}

/// Where an arm has a driver, a row of it meets one row of the other table at most, and a look-up
/// by the key that ON fixes finds that row.
pub fn a_driver_row_meets_one_row()
    ensures { (old : Database) (m : Migrate) (t : Target) (arm : Arm) (driver : List ℕ) (at : ℕ)
        → IsLawful old m → Contains m.targets t → Contains t.arms arm
        → rows_driven old arm (arm_kind old arm) driver at
        ≡ rows_met old arm (arm_kind old arm) driver at }
{}

/// An arm is bound once, with places for names, and makes the same rows.
pub fn a_bound_arm_makes_the_same_rows()
    ensures { (old : Database) (arm : Arm) (from join : List (List Value))
        → arm_rows old arm from join ≡ placed_rows (placed_arm old arm) from join }
{}

/// An image reads the tables that its arms name and nothing else of the old database.
pub fn an_image_reads_its_sources_alone()
    ensures { (old new : Database) (t : Target)
        → ((name : List ℕ) → has same_name (flat_map arm_sources t.arms) name ≡ true
        → stored_at old name ≡ stored_at new name)
        → image_of old t ≡ image_of new t }
{}

/// A migration reads the tables that its arms name and nothing else of the old database: over two
/// databases with the same sources it has the same granules, and the same part of each; a target
/// has the same image and becomes the same table, a key of it has the same owner, and the same
/// stands in its way. So it is planned alike.
pub fn a_migration_reads_its_sources_alone()
    ensures granules { (old new : Database) (m : Migrate) → HaveSameSources m old new
        → granules_of old m ≡ granules_of new m }
    ensures parts { (old new : Database) (m : Migrate) (g : Granule) → HaveSameSources m old new
        → part_of old m g ≡ part_of new m g }
    ensures owners { (old new : Database) (m : Migrate) (t : Target) (key : List Value)
        → HaveSameSources m old new → Contains m.targets t
        → owner_of old m t key ≡ owner_of new m t key }
    ensures tables { (old new : Database) (m : Migrate) (t : Target) → HaveSameSources m old new
        → Contains m.targets t → target_table old t ≡ target_table new t }
    ensures images { (old new : Database) (m : Migrate) (t : Target) → HaveSameSources m old new
        → Contains m.targets t → image_of old t ≡ image_of new t }
    ensures objections { (old new : Database) (m : Migrate) (t : Target) → HaveSameSources m old new
        → Contains m.targets t → target_objections old t ≡ target_objections new t }
    ensures plan { (old new : Database) (m : Migrate) → HaveSameSources m old new
        → plan_made old m ≡ plan_made new m }
{}

/// The sources alone, which a flip may keep in place of the whole old database, are a database with
/// the same sources, and a migration that is lawful over the whole is lawful over them. A flip that
/// makes its tables of the sources alone is the flip.
pub fn a_migration_may_keep_its_sources_alone()
    ensures same { (db : Database) (m : Migrate) → HaveSameSources m (frozen_of db m) db }
    ensures database { (db : Database) (m : Migrate) → IsDatabase db → IsDatabase (frozen_of db m) }
    ensures lawful { (db : Database) (m : Migrate) → IsLawful db m → IsLawful (frozen_of db m) m }
    ensures flip { (db : Database) (m : Migrate)
        → replaced db m (tables_made (frozen_of db m) m) ≡ flipped db m }
{}

/// What stands in the way of a MIGRATE, the tables that its targets become, and its arms with
/// places for names are read off the catalog, and so is its plan: no row is looked at. So each
/// statement is prepared by the catalog alone.
pub fn a_migration_is_planned_by_the_catalog_alone()
    ensures objections { (old new : Database) (m : Migrate) → HaveSameTables old new
        → migrate_objections old m ≡ migrate_objections new m }
    ensures tables { (old new : Database) (t : Target) → HaveSameTables old new
        → target_table old t ≡ target_table new t }
    ensures arms { (old new : Database) (arm : Arm) → HaveSameTables old new
        → placed_arm old arm ≡ placed_arm new arm }
    ensures plan { (old new : Database) (m : Migrate) → HaveSameTables old new
        → plan_of old m ≡ plan_of new m }
    ensures prepared { (old new : Database) (in_block : Bool) (s : Statement)
        → catalog_of old ≡ catalog_of new → prepared_of old in_block s ≡ prepared_of new in_block s }
    ensures catalog { (db : Database) → HaveSameTables (without_rows (catalog_of db)) db }
    ensures bare { (db : Database) → catalog_of (without_rows (catalog_of db)) ≡ catalog_of db }
{}

/// A MIGRATE outside a block has the catalog to itself, planned or refused. So two databases that agree
/// on what it locks are one database, on which all is alike.
pub fn a_migration_has_the_catalog_to_itself()
    ensures footprint { (db : Database) (m : Migrate) (bound : Bound)
        → prepared_of db false (statement.Migrate m) ≡ Some bound
        → footprint_of bound ≡ catalog_change }
    ensures one { (a b : Database) (m : Migrate) (bound : Bound)
        → prepared_of a false (statement.Migrate m) ≡ Some bound
        → AgreeOn a b (footprint_of bound) → a ≡ b }
{}

/// The units of a plan stand for those of its migration, one for one.
pub fn a_plan_has_the_units_of_its_migration()
    ensures { (old : Database) (m : Migrate)
        → map (unit_form m) (planned_units old m) ≡ units_of old m }
{}

/// An index of rows by their values has each value once, in order. Under a value stand the positions
/// of the rows that have it, none where no row has it, and the rows at these are those rows.
pub fn a_value_finds_its_rows()
    ensures values { (values : List (List Value)) → map value_of (by_value values)
        ≡ in_order key_cmp (λ v. v) (distinct same_key values) }
    ensures positions { (values : List (List Value)) (value : List Value)
        → positions_under (by_value values) value ≡ positions_of value values }
    ensures rows { (rows : List (List Value)) (made : List Value → List Value) (value : List Value)
        → flat_map (λ at. option_to_list (slice_get rows at)) (positions_of value (map made rows))
        ≡ filter (λ row. same_key value (made row)) rows }
{}
