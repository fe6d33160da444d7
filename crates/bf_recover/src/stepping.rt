//! Payloads of records as changes of a store.

ghost use Rattle.std.specs.Prelude.{◌≡◌, Ok, OnErr, false, true};
ghost use Rattle.bf_store.specs.Stores.{IsOf};
ghost use Rattle.bf_recover.specs.Lookups.{AreKept};
ghost use Rattle.bf_recover.specs.Steps.{IsNoStep, StepsTo};

use crate::applying::apply;
use bf_base::Memory;
use bf_image::{Registry, ValueIndexes};
use bf_record::decode;
use bf_store::Store;
use std::alloc::Global;
use std::sync::Wait;

/// Makes the change that the payload of a record spells, where it is legal; false exactly where it
/// spells none that is, and then the store is as it was. It costs what [`bf_record::decode`] and
/// [`apply`] do.
///
/// # Errors
/// Where [`apply`] has one. The store is as it was then.
pub fn step<R: Wait>(
    alloc: Global,
    rt: &R,
    registry: &Registry,
    indexes: &mut Option<ValueIndexes>,
    store: &mut Store,
    payload: &[u8],
) -> Result<bool, Memory>
    requires one { IsOf registry.now store.old.migration }
    requires kept { AreKept store.old.migration indexes.old }
    ensures legal { result ≡ Ok true → StepsTo store.old.lazy payload.now store.new.lazy }
    ensures none { result ≡ Ok false → IsNoStep store.old.lazy payload.now }
    ensures refused { result ≡ Ok false → store.new ≡ store.old }
    ensures err { OnErr result (store.new ≡ store.old) }
    ensures one { IsOf registry.now store.new.migration }
    ensures kept { AreKept store.new.migration indexes.new }
{
    let Some(change) = decode(alloc, payload)? else {
        return Ok(false);
    };
    apply(alloc, rt, registry, indexes, store, change)
}
