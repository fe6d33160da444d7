//! Places of the units of a migration.

ghost use Rattle.std.specs.Prelude.{◌≡◌};
ghost use Rattle.std.specs.List.{list_all};
ghost use Rattle.std.specs.Ordering.{is_lt};
ghost use Rattle.bf_base.specs.Lists.{has, rises};
ghost use Rattle.bf_sql.specs.migrations.Granules.{granule, granules_of, same_granule};
ghost use Rattle.bf_image.specs.Migrations.{IsLawfulMigration, old_of, value_indexes};
ghost use Rattle.bf_store.specs.States.{place_cmp};
ghost use Rattle.bf_recover.specs.Places.{has_value, is_row_below, is_value_of};

use bf_base::{Key, Place};
use bf_image::{Migration, UnitIndex, ValueIndexes, positions};

/// Whether a row of a unit that goes by values has a value. It compares about log n values.
fn has_value(index: &UnitIndex, value: &Key) -> bool
    ensures { result ≡ has_value index.now value.now }
{
    if !index.from.positions(value).is_empty() {
        return true;
    }
    match &index.join {
        Some(join) => !join.positions(value).is_empty(),
        None => false,
    }
}

/// Whether a place is a value that an old row of a unit has.
fn is_value_of(index: &UnitIndex, place: &Place) -> bool
    ensures { result ≡ is_value_of index.now place.now }
{
    match place {
        Place::Group(value) => has_value(index, value),
        Place::Row(_) => false,
    }
}

/// Whether a place is a position below a number of rows.
fn is_row_below(count: u32, place: &Place) -> bool
    ensures { result ≡ is_row_below count place.now }
{
    match place {
        Place::Row(position) => *position < count,
        Place::Group(_) => false,
    }
}

/// Whether a unit has a place: a row of its driver, or a value that an old row has. It costs one
/// look-up, and takes no memory.
fn has_place(migration: &Migration, indexes: &ValueIndexes, unit: u8, place: &Place) -> bool
    requires lawful { IsLawfulMigration migration.now }
    requires indexed { indexes.now ≡ value_indexes migration.now }
    ensures { result ≡ has same_granule
        (granules_of (old_of migration.now) migration.now.plan.migrate) (granule unit place.now) }
{
    match indexes.unit(unit) {
        Some(index) => is_value_of(index, place),
        None => is_row_below(positions(migration, unit), place),
    }
}

/// Whether a unit has some places.
pub(crate) fn has_places(
    migration: &Migration,
    indexes: &ValueIndexes,
    unit: u8,
    places: &[Place],
) -> bool
    requires lawful { IsLawfulMigration migration.now }
    requires indexed { indexes.now ≡ value_indexes migration.now }
    ensures { result ≡ list_all (λ p. has same_granule
        (granules_of (old_of migration.now) migration.now.plan.migrate) (granule unit p)) places.now }
{
    places
        .iter()
        .all(|place| has_place(migration, indexes, unit, place))
}

/// Whether a place comes before another: rows by position, before values in their order.
fn comes_before(place: &Place, next: &Place) -> bool
    ensures { result ≡ is_lt (place_cmp place.now next.now) }
{
    match (place, next) {
        (Place::Row(position), Place::Row(behind)) => position < behind,
        (Place::Row(_), Place::Group(_)) => true,
        (Place::Group(_), Place::Row(_)) => false,
        (Place::Group(value), Place::Group(behind)) => value.compare(behind).is_lt(),
    }
}

/// Whether each place comes before the next.
pub(crate) fn rise(places: &[Place]) -> bool
    ensures { result ≡ rises place_cmp places.now }
{
    let mut ahead = places;
    while let [place, behind @ ..] = ahead {
        if let [next, ..] = behind
            && !comes_before(place, next)
        {
            return false;
        }
        ahead = behind;
    }
    true
}
