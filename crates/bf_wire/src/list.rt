//! Lists: the number of items, and the items.

ghost use Rattle.std.specs.Prelude.{◌≡◌, ◌++◌, OnErr, OnOk};
ghost use Rattle.bf_wire.specs.Apart.{lists_apart};
ghost use Rattle.bf_wire.specs.Spellings.{IsListed, list_spelling};
ghost use Rattle.bf_wire.specs.Taking.{KeepsFront};

use crate::field::Field;
use bf_base::{Memory, Sequence};
use std::alloc::Global;

/// Writes the number of items, and the items.
///
/// # Errors
/// Where memory runs out, or there are 2^32 items or more.
pub(crate) fn put_all<T: Field>(items: &[T], out: &mut Vec<u8>) -> Result<(), Memory>
    ensures spelled { OnOk result (IsListed T.HasSpelling items.now) }
    ensures ok { OnOk result (out.new.items
        ≡ out.old.items ++ list_spelling T.spelling items.now) }
    ensures err { OnErr result (KeepsFront out.old.items out.new.items) }
{
    let Ok(count) = u32::try_from(items.len()) else {
        return Err(Memory);
    };
    count.put(out)?;
    'items: for item in items {
        item.put(out)?;
    }
    Ok(())
}

impl<T: Field> Field for Sequence<T> {
    ghost HasSpelling = { IsListed T.HasSpelling };

    ghost spelling = { list_spelling T.spelling };

    ghost apart = { lists_apart T.HasSpelling T.spelling T.apart };

    fn put(&self, out: &mut Vec<u8>) -> Result<(), Memory> {
        put_all(self.as_slice(), out)
    }

    // It makes room as it reads, so that a great number of items before few bytes costs nothing.
    fn take(alloc: Global, bytes: &[u8]) -> Result<Option<(Sequence<T>, usize)>, Memory> {
        let Some((count, front)) = u32::take(alloc, bytes)? else {
            return Ok(None);
        };
        let mut items = Vec::new(alloc);
        let mut taken = front;
        'items: for _ in 0..count {
            let Some((item, more)) = T::take(alloc, &bytes[taken..])? else {
                return Ok(None);
            };
            items.push(item)?;
            taken += more;
        }
        Ok(Some((Sequence::of(items), taken)))
    }
}
