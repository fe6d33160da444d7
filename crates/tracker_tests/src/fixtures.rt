// What several tests share: keys of one number, and claims of them.

ghost use Rattle.std.specs.Prelude.{◌≡◌, [], ◌∷◌, IfOk, IfSome};

use bf_base::{Key, Memory, Value};
use bf_hash::{HashAnswer, HashClaim, Stripe};
use std::alloc::Global;

/// The key of one number.
pub fn key(alloc: Global, number: i64) -> Result<Key, Memory>
    ensures { IfOk result (λ key. key ≡ Value.Int number ∷ []) }
{
    let mut values = Vec::new(alloc);
    values.push(Value::Int(number))?;
    Ok(Key::of(values))
}

/// The claim of a number's key, and `None` where it was not granted.
pub fn claimed(alloc: Global, stripe: &mut Stripe, number: i64) -> Result<Option<HashClaim>, Memory>
    ensures { IfOk result (λ claim. IfSome claim (λ claim. claim.key ≡ Value.Int number ∷ [])) }
{
    match stripe.claim(&key(alloc, number)?)? {
        HashAnswer::Claimed(claim) => Ok(Some(claim)),
        HashAnswer::Busy(_) | HashAnswer::Done => Ok(None),
    }
}
