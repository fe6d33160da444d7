//! Granules in the order of unit and place.

ghost use Rattle.std.specs.Prelude.{◌≡◌, ◌≤◌, IfNone, IfSome, IsTrue, OnErr, OnOk, insert, length};
ghost use Rattle.bf_base.specs.Lists.{rises};
ghost use Rattle.bf_store.specs.States.{granule_cmp};
ghost use Rattle.bf_trackers.specs.Ordered.{with_granule};

use bf_base::{Granule, Memory};

// The index at which a granule is to stand among others in their order; `None` exactly where it is
// one of them. It compares it with the last, and with about log n where it is not behind that one.
fn place_for(granules: &[Granule], granule: &Granule) -> Option<usize>
    requires rising { IsTrue (rises granule_cmp granules.now) }
    ensures within { IfSome result (λ place. place ≤ length granules.now) }
    ensures new { IfSome result (λ place.
        insert granules.now place granule.now ≡ with_granule granules.now granule.now) }
    ensures there { IfNone result (with_granule granules.now granule.now ≡ granules.now) }
{
    if let Some(last) = granules.last()
        && last.cmp(granule).is_lt()
    {
        return Some(granules.len());
    }
    match granules.binary_search(granule) {
        Ok(_) => None,
        Err(place) => Some(place),
    }
}

/// Puts a granule in its place among others that rise by unit and place, and leaves them as they
/// are exactly where it is one of them. It compares the granule with the last alone where it comes
/// behind that one, and else with about log n more; it moves those behind its place.
///
/// # Errors
/// Where memory runs out. The list is as it was.
pub fn add_in_order(granules: &mut Vec<Granule>, granule: Granule) -> Result<(), Memory>
    requires rising { IsTrue (rises granule_cmp granules.old.items) }
    ensures rising { IsTrue (rises granule_cmp granules.new.items) }
    ensures added { OnOk result (granules.new.items ≡ with_granule granules.old.items granule) }
    ensures memory { OnErr result (granules.new.items ≡ granules.old.items) }
{
    if let Some(place) = place_for(granules.as_slice(), &granule) {
        granules.insert(place, granule)?;
    }
    Ok(())
}
