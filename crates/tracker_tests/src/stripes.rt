use crate::fixtures::{claimed, key};
use bf_base::Memory;
use bf_hash::{HashAnswer, HashState, Stripe};
use std::alloc::Global;
use std::test::*;

// What a claim of a key is answered, and the ticket under which it is held. The claim is let go,
// and the key stays held.
fn told(alloc: Global, stripe: &mut Stripe, number: i64) -> Result<(&'static str, u64), Memory> {
    match stripe.claim(&key(alloc, number)?)? {
        HashAnswer::Claimed(claim) => Ok(("claimed", claim.ticket())),
        HashAnswer::Busy(ticket) => Ok(("busy", ticket)),
        HashAnswer::Done => Ok(("done", 0)),
    }
}

// The ticket under which a stripe found a key held.
fn held_under(state: HashState) -> Option<u64> {
    match state {
        HashState::Held(ticket) => Some(ticket),
        HashState::Free | HashState::Done => None,
    }
}

// Claims a key and gives it back, and answers the ticket under which it was held.
fn given_back(alloc: Global, stripe: &mut Stripe, number: i64) -> Result<Option<u64>, Memory> {
    match claimed(alloc, stripe, number)? {
        Some(claim) => Ok(held_under(stripe.give_back(claim))),
        None => Ok(None),
    }
}

// Claims a key and finishes it, and answers the ticket under which it was held.
fn finished(alloc: Global, stripe: &mut Stripe, number: i64) -> Result<Option<u64>, Memory> {
    match claimed(alloc, stripe, number)? {
        Some(claim) => Ok(held_under(stripe.finish(claim))),
        None => Ok(None),
    }
}

fn none_done(alloc: Global) -> Result<Stripe, Memory> {
    Stripe::of_done(alloc, &[])
}

fn one_done(alloc: Global, number: i64) -> Result<Stripe, Memory> {
    let mut keys = Vec::new(alloc);
    keys.push(key(alloc, number)?)?;
    Stripe::of_done(alloc, keys.as_slice())
}

#[test]
fn states_are_answered(rt: HostRuntime) -> Result<(), Fail> {
    let mut stripe = one_done(rt.alloc(), -3)?;
    for (number, answer) in [(-3, ("done", 0)), (7, ("claimed", 1)), (7, ("busy", 1))] {
        assert_eq!(rt; told(rt.alloc(), &mut stripe, number)?, answer);
    }
    Ok(())
}

#[test]
fn a_ticket_is_used_again_after_a_give_back(rt: HostRuntime) -> Result<(), Fail> {
    let mut stripe = none_done(rt.alloc())?;
    assert_eq!(rt; told(rt.alloc(), &mut stripe, 10)?, ("claimed", 1));
    assert_eq!(rt; given_back(rt.alloc(), &mut stripe, 20)?, Some(2));
    for (number, ticket) in [(30, 2), (20, 3)] {
        assert_eq!(rt; told(rt.alloc(), &mut stripe, number)?, ("claimed", ticket));
    }
    Ok(())
}

#[test]
fn a_ticket_is_used_again_after_a_finish(rt: HostRuntime) -> Result<(), Fail> {
    let mut stripe = none_done(rt.alloc())?;
    assert_eq!(rt; finished(rt.alloc(), &mut stripe, 10)?, Some(1));
    for (number, answer) in [(10, ("done", 0)), (20, ("claimed", 1))] {
        assert_eq!(rt; told(rt.alloc(), &mut stripe, number)?, answer);
    }
    Ok(())
}

// A stripe in which one key is held.
fn one_held(alloc: Global, number: i64) -> Result<Stripe, Fail> {
    let mut stripe = none_done(alloc)?;
    match told(alloc, &mut stripe, number)? {
        ("claimed", 1) => Ok(stripe),
        _ => Err("granted")?,
    }
}

// Finishes a key by the second claim of another stripe, and answers the ticket under which it was
// held.
fn finished_by_another(
    alloc: Global,
    stripe: &mut Stripe,
    number: i64,
) -> Result<Option<u64>, Fail> {
    let mut other = one_held(alloc, 1)?;
    match claimed(alloc, &mut other, number)? {
        Some(claim) => Ok(held_under(stripe.finish(claim))),
        None => Ok(None),
    }
}

// A claim of another stripe has another ticket for the key: it finds the state, and changes
// nothing.
#[test]
fn another_ticket_changes_nothing(rt: HostRuntime) -> Result<(), Fail> {
    let mut stripe = one_held(rt.alloc(), 2)?;
    assert_eq!(rt; finished_by_another(rt.alloc(), &mut stripe, 2)?, Some(1));
    assert_eq!(rt; told(rt.alloc(), &mut stripe, 2)?, ("busy", 1));
    Ok(())
}
