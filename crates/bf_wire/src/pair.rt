//! Pairs, the second behind the first.

ghost use Rattle.bf_wire.specs.Apart.{pairs_apart};
ghost use Rattle.bf_wire.specs.Spellings.{IsPair, pair_spelling};

use crate::field::Field;
use bf_base::Memory;
use std::alloc::Global;

impl<A: Field, B: Field> Field for (A, B) {
    ghost HasSpelling = { IsPair A.HasSpelling B.HasSpelling };

    ghost spelling = { pair_spelling A.spelling B.spelling };

    ghost apart = { pairs_apart A.HasSpelling B.HasSpelling A.spelling B.spelling A.apart B.apart };

    fn put(&self, out: &mut Vec<u8>) -> Result<(), Memory> {
        self.0.put(out)?;
        self.1.put(out)?;
        Ok(())
    }

    fn take(alloc: Global, bytes: &[u8]) -> Result<Option<((A, B), usize)>, Memory> {
        let Some((first, taken)) = A::take(alloc, bytes)? else {
            return Ok(None);
        };
        let Some((second, more)) = B::take(alloc, &bytes[taken..])? else {
            return Ok(None);
        };
        Ok(Some(((first, second), taken + more)))
    }
}
