//! Lists, pairs, and what may be missing.

ghost use Rattle.std.specs.Prelude.{◌≡◌, ◌++◌, All, IfSome, OnOk};
ghost use Rattle.bf_wire.specs.Apart.{lists_apart, pairs_apart};
ghost use Rattle.bf_wire.specs.Spellings.{IsListed, IsPair, list_spelling, pair_spelling};
ghost use Rattle.bf_record.specs.Apart.{options_apart};
ghost use Rattle.bf_record.specs.Options.{IsOptional, optional_spelling};

use crate::part::Part;
use bf_base::{Memory, Sequence};
use std::alloc::Global;

// Writes the number of items, and the items.
fn put_all<T: Part>(items: &[T], out: &mut Vec<u8>) -> Result<(), Memory>
    ensures ok { OnOk result (out.new.items
        ≡ out.old.items ++ list_spelling T.spelling items.now) }
    ensures spelled { OnOk result (All T.IsShallow items.now → IsListed T.HasSpelling items.now) }
{
    let Ok(count) = u32::try_from(items.len()) else {
        return Err(Memory);
    };
    count.put(out)?;
    'items: for item in items {
        item.put(out)?;
    }
    Ok(())
}

impl<T: Part> Part for Sequence<T> {
    ghost HasSpelling = { IsListed T.HasSpelling };

    ghost spelling = { list_spelling T.spelling };

    ghost IsShallow = { All T.IsShallow };

    ghost apart = { lists_apart T.HasSpelling T.spelling T.apart };

    fn put(&self, out: &mut Vec<u8>) -> Result<(), Memory> {
        put_all(self.as_slice(), out)
    }

    // It makes room as it reads, so that a great number of items before few bytes costs nothing.
    fn take(alloc: Global, bytes: &[u8]) -> Result<Option<(Sequence<T>, usize)>, Memory> {
        let Some((count, front)) = u32::take(alloc, bytes)? else {
            return Ok(None);
        };
        let mut items = Vec::new(alloc);
        let mut taken = front;
        'items: for _ in 0..count {
            let Some((item, more)) = T::take(alloc, &bytes[taken..])? else {
                return Ok(None);
            };
            items.push(item)?;
            taken += more;
        }
        Ok(Some((Sequence::of(items), taken)))
    }
}

impl<A: Part, B: Part> Part for (A, B) {
    ghost HasSpelling = { IsPair A.HasSpelling B.HasSpelling };

    ghost spelling = { pair_spelling A.spelling B.spelling };

    ghost IsShallow = { λ pair. A.IsShallow pair.0 × B.IsShallow pair.1 };

    ghost apart = { pairs_apart A.HasSpelling B.HasSpelling A.spelling B.spelling A.apart B.apart };

    fn put(&self, out: &mut Vec<u8>) -> Result<(), Memory> {
        self.0.put(out)?;
        self.1.put(out)
    }

    fn take(alloc: Global, bytes: &[u8]) -> Result<Option<((A, B), usize)>, Memory> {
        let Some((first, taken)) = A::take(alloc, bytes)? else {
            return Ok(None);
        };
        let Some((second, more)) = B::take(alloc, &bytes[taken..])? else {
            return Ok(None);
        };
        Ok(Some(((first, second), taken + more)))
    }
}

impl<T: Part> Part for Option<T> {
    ghost HasSpelling = { IsOptional T.HasSpelling };

    ghost spelling = { optional_spelling T.spelling };

    ghost IsShallow = { λ option. IfSome option T.IsShallow };

    ghost apart = { options_apart T.HasSpelling T.spelling T.apart };

    fn put(&self, out: &mut Vec<u8>) -> Result<(), Memory> {
        match self {
            None => {
                out.push(0)?;
                Ok(())
            }
            Some(part) => {
                out.push(1)?;
                part.put(out)
            }
        }
    }

    fn take(alloc: Global, bytes: &[u8]) -> Result<Option<(Option<T>, usize)>, Memory> {
        match bytes {
            [0, ..] => Ok(Some((None, 1))),
            [1, rest @ ..] => match T::take(alloc, rest)? {
                Some((part, taken)) => Ok(Some((Some(part), taken + 1))),
                None => Ok(None),
            },
            [] | [_, ..] => Ok(None),
        }
    }
}
