ghost use Rattle.std.specs.Prelude.{◌≡◌, [], ◌∷◌, pos, length, IfOk, IfSome};

use crate::fixtures::claimed;
use bf_base::{Granule, Memory, Place, Value};
use bf_bits::{BitAnswer, BitClaim, Bits};
use bf_drive::{Claim, Skip, Wip};
use bf_hash::{HashClaim, Stripe};
use std::alloc::Global;
use std::test::*;

fn row(position: u32) -> Granule
    ensures { result ≡ record { unit = 0; place = Place.Row position } }
{
    Granule {
        unit: 0,
        place: Place::Row(position),
    }
}

fn claimed_row(alloc: Global, position: u32) -> Result<Option<BitClaim>, Memory> {
    let (bits, mut seat) = Bits::of_done(alloc, 64, &[])?;
    if 64 <= position {
        return Ok(None);
    }
    match bits.claim(&mut seat, position) {
        BitAnswer::Claimed(claim) => Ok(Some(claim)),
        BitAnswer::Busy | BitAnswer::Done => Ok(None),
    }
}

fn claimed_number(alloc: Global, number: u32) -> Result<Option<HashClaim>, Memory>
    ensures { IfOk result (λ claim.
        IfSome claim (λ claim. claim.key ≡ Value.Int (pos number) ∷ [])) }
{
    let mut stripe = Stripe::of_done(alloc, &[])?;
    claimed(alloc, &mut stripe, number as i64)
}

fn push_row(wip: &mut Wip, claim: BitClaim)
    requires { wip.old ≡ [] }
    ensures { length wip.new ≡ 1 }
{
    let granule = row(claim.at());
    wip.push(granule, Claim::Row(claim));
}

// A row's granule, by the claim that a stripe granted for its key.
fn push_number(wip: &mut Wip, claim: HashClaim, number: u32)
    requires empty { wip.old ≡ [] }
    requires key { claim.key ≡ Value.Int (pos number) ∷ [] }
    ensures { length wip.new ≡ 1 }
{
    wip.push(row(number), Claim::Group(claim));
}

fn is_row(entry: &(Granule, Claim), at: u32) -> bool {
    match entry {
        (granule, Claim::Row(claim)) => *granule == row(at) && claim.at() == at,
        _ => false,
    }
}

// Whether a list of one entry gives a row's claim of this position, and is empty then.
fn gives_row(mut wip: Wip, at: u32) -> bool
    requires { length wip ≡ 1 }
{
    let last = wip.pop();
    let rest = wip.pop();
    wip.end();
    match last {
        Some(entry) => is_row(&entry, at) && rest.is_none(),
        None => false,
    }
}

// Whether a list of one entry gives a claim of a key, and is empty then.
fn gives_group(mut wip: Wip) -> bool
    requires { length wip ≡ 1 }
{
    let last = wip.pop();
    let rest = wip.pop();
    wip.end();
    matches!(last, Some((_, Claim::Group(_)))) && rest.is_none()
}

// Whether the granule at an index is the row of this position.
fn stands(wip: &Wip, index: u32, at: u32) -> bool {
    wip.at(index) == Some(&row(at))
}

// Whether a list has no granule.
fn is_empty(wip: &Wip) -> bool {
    wip.len() == 0 && wip.at(0).is_none()
}

// Whether a list has the row of this position alone.
fn has_one(wip: &Wip, at: u32) -> bool {
    wip.len() == 1 && stands(wip, 0, at) && wip.at(1).is_none()
}

#[test]
fn a_claim_comes_off_with_its_granule(rt: HostRuntime) -> Result<(), Fail> {
    let claim = claimed_row(rt.alloc(), 33)?.ok_or("granted")?;
    let mut wip = Wip::new(rt.alloc());
    assert!(rt; is_empty(&wip));
    push_row(&mut wip, claim);
    assert!(rt; has_one(&wip, 33));
    assert!(rt; gives_row(wip, 33));
    Ok(())
}

// A stripe names a row by the one number of its position.
#[test]
fn a_row_may_be_claimed_by_its_number(rt: HostRuntime) -> Result<(), Fail> {
    let claim = claimed_number(rt.alloc(), 12)?.ok_or("granted")?;
    let mut wip = Wip::new(rt.alloc());
    push_number(&mut wip, claim, 12);
    assert!(rt; has_one(&wip, 12));
    assert!(rt; gives_group(wip));
    Ok(())
}

// Whether the granule at an index is the row of this position.
fn skips(skip: &Skip, index: u32, at: u32) -> bool {
    skip.at(index) == Some(&row(at))
}

#[test]
fn what_is_skipped_stands_in_order(rt: HostRuntime) -> Result<(), Fail> {
    let mut skip = Skip::new(rt.alloc());
    skip.push(row(5));
    skip.push(row(3));
    assert_eq!(rt; skip.len(), 2);
    assert!(rt; skips(&skip, 0, 5));
    assert!(rt; skips(&skip, 1, 3));
    assert!(rt; skip.at(2).is_none());
    Ok(())
}
