use crate::gates::Turnstile;
use crate::hall::{Busy, Hall, NEVER, Seats};
use crate::rows::Counts;
use bf_base::Memory;
use bf_bench::serve_session;
use std::alloc::Global;
use std::sync::Wait;
use std::test::Fail;

const SESSION: u32 = 4;

// Serves a session: its seats behind it, and whether memory was enough.
fn serve<R: Wait>(rt: &R, hall: &Hall, gate: &Turnstile) -> Result<(Seats, bool), Memory> {
    let mut seats = hall.seats()?;
    let served = serve_session(rt, hall.alloc, hall, gate, &mut seats, SESSION);
    Ok((seats, served.is_ok()))
}

// A statement that needs 140 rows, 70 in each of two units.
fn two_units(alloc: Global) -> Hall {
    Hall::new(alloc, &[(0, 140)], 140, 70)
}

fn one_unit(alloc: Global) -> Hall {
    Hall::new(alloc, &[(0, 5)], 5, 5)
}

// The rows of a unit are claimed in lists of 64 and of 6, in one turn.
#[test]
fn lists_are_of_one_unit_and_full_at_64(rt: HostRuntime) -> Result<(), Fail> {
    let hall = two_units(rt.alloc());
    let gate = Turnstile::new(SESSION, 0);
    let (seats, is_served) = serve(&rt, &hall, &gate)?;
    assert!(rt; is_served);
    let counts = Counts {
        turns: 5,
        looks: 0,
        claims: 140,
        again: 0,
        carries: 4,
        given_back: 0,
        most_held: 64,
    };
    assert_eq!(rt; seats.rows.counts, counts);
    assert_eq!(rt; seats.rows.done_rows(), 140);
    assert_eq!(rt; gate.told(), (4, 140, 1, 0));
    assert_eq!(rt; hall.waited(), (1, 5));
    Ok(())
}

// Of 64 rows 21 are busy, and of 6 rows 2: these are claimed once more in the same turn.
#[test]
fn busy_rows_are_looked_at_once_more(rt: HostRuntime) -> Result<(), Fail> {
    let mut hall = two_units(rt.alloc());
    hall.busy = Busy::Thirds(1);
    let gate = Turnstile::new(SESSION, 0);
    let (seats, is_served) = serve(&rt, &hall, &gate)?;
    assert!(rt; is_served);
    let counts = Counts {
        turns: 5,
        looks: 0,
        claims: 140,
        again: 46,
        carries: 8,
        given_back: 0,
        most_held: 43,
    };
    assert_eq!(rt; seats.rows.counts, counts);
    assert_eq!(rt; seats.rows.done_rows(), 140);
    assert_eq!(rt; gate.told(), (8, 140, 1, 0));
    assert_eq!(rt; hall.waited(), (1, 5));
    Ok(())
}

// What is given back is needed still, and is moved when the gate says so.
#[test]
fn a_gate_turns_back_three_times(rt: HostRuntime) -> Result<(), Fail> {
    let hall = one_unit(rt.alloc());
    let gate = Turnstile::new(SESSION, 3);
    let (seats, is_served) = serve(&rt, &hall, &gate)?;
    assert!(rt; is_served);
    let counts = Counts {
        turns: 8,
        looks: 0,
        claims: 20,
        again: 0,
        carries: 1,
        given_back: 3,
        most_held: 5,
    };
    assert_eq!(rt; seats.rows.counts, counts);
    assert_eq!(rt; seats.rows.done_rows(), 5);
    assert_eq!(rt; gate.told(), (4, 20, 1, 0));
    assert_eq!(rt; hall.waited(), (1, 5));
    Ok(())
}

// Each of two statements gives back 8 times, and is moved then without a question.
#[test]
fn a_gate_turns_back_always(rt: HostRuntime) -> Result<(), Fail> {
    let hall = Hall::new(rt.alloc(), &[(0, 5), (5, 9)], 9, 5);
    let gate = Turnstile::new(SESSION, NEVER);
    let (seats, is_served) = serve(&rt, &hall, &gate)?;
    assert!(rt; is_served);
    let counts = Counts {
        turns: 23,
        looks: 0,
        claims: 81,
        again: 0,
        carries: 2,
        given_back: 16,
        most_held: 5,
    };
    assert_eq!(rt; seats.rows.counts, counts);
    assert_eq!(rt; seats.rows.done_rows(), 9);
    assert_eq!(rt; gate.told(), (16, 72, 3, 0));
    assert_eq!(rt; hall.waited(), (1, 5));
    Ok(())
}

// The first list is refused: the next turn comes at once, and needs all 140 rows again.
#[test]
fn a_refused_move_ends_the_answer(rt: HostRuntime) -> Result<(), Fail> {
    let mut hall = two_units(rt.alloc());
    hall.busy = Busy::Thirds(1);
    hall.refuses_at = 0;
    let gate = Turnstile::new(SESSION, 0);
    let (seats, is_served) = serve(&rt, &hall, &gate)?;
    assert!(rt; is_served);
    let counts = Counts {
        turns: 6,
        looks: 0,
        claims: 204,
        again: 25,
        carries: 8,
        given_back: 0,
        most_held: 64,
    };
    assert_eq!(rt; seats.rows.counts, counts);
    assert_eq!(rt; seats.rows.done_rows(), 140);
    assert_eq!(rt; gate.told(), (8, 183, 1, 0));
    assert_eq!(rt; hall.waited(), (1, 5));
    Ok(())
}

// A session to which everything stays busy waits for the count of each answer, and asks for nothing
// in between.
#[test]
fn what_stays_busy_is_waited_for(rt: HostRuntime) -> Result<(), Fail> {
    let mut hall = Hall::new(rt.alloc(), &[(0, 3)], 3, 3);
    hall.busy = Busy::UntilWaits(2);
    let gate = Turnstile::new(SESSION, 0);
    let (seats, is_served) = serve(&rt, &hall, &gate)?;
    assert!(rt; is_served);
    let counts = Counts {
        turns: 7,
        looks: 0,
        claims: 9,
        again: 6,
        carries: 1,
        given_back: 0,
        most_held: 3,
    };
    assert_eq!(rt; seats.rows.counts, counts);
    assert_eq!(rt; seats.rows.done_rows(), 3);
    assert_eq!(rt; gate.told(), (1, 3, 1, 0));
    assert_eq!(rt; hall.waited(), (3, 102 + 103 + 5));
    Ok(())
}

// One of three rows is busy once: the second look claims it.
#[test]
fn a_row_that_is_busy_once_moves_without_a_wait(rt: HostRuntime) -> Result<(), Fail> {
    let mut hall = Hall::new(rt.alloc(), &[(0, 3)], 3, 3);
    hall.busy = Busy::Thirds(1);
    let (seats, is_served) = serve(&rt, &hall, &Turnstile::new(SESSION, 0))?;
    assert!(rt; is_served);
    let counts = Counts {
        turns: 5,
        looks: 0,
        claims: 3,
        again: 1,
        carries: 2,
        given_back: 0,
        most_held: 2,
    };
    assert_eq!(rt; seats.rows.counts, counts);
    assert_eq!(rt; seats.rows.done_rows(), 3);
    assert_eq!(rt; hall.waited(), (1, 5));
    Ok(())
}

// What the bench says of rows of which the third stays busy for two answers, where they end a unit
// or begin one.
fn waited_beside_held<R: Wait>(rt: &R, hall: Hall) -> Result<(u32, (u64, u64)), Memory> {
    let mut hall = hall;
    hall.busy = Busy::Thirds(4);
    let (seats, _) = serve(rt, &hall, &Turnstile::new(SESSION, 0))?;
    Ok((seats.rows.counts.turns, hall.waited()))
}

// Row 2 is busy at both looks of two answers. The first has rows of the same list that are held, of
// a list before or of a list behind: the next turn comes at once. The second has row 2 alone, and
// is waited for.
#[test]
fn who_holds_some_goes_on_at_once(rt: HostRuntime) -> Result<(), Fail> {
    let expected = (7, (2, 103 + 5));
    let beside = Hall::new(rt.alloc(), &[(0, 3)], 3, 3);
    assert_eq!(rt; waited_beside_held(&rt, beside)?, expected);
    let before = Hall::new(rt.alloc(), &[(0, 3)], 3, 2);
    assert_eq!(rt; waited_beside_held(&rt, before)?, expected);
    let behind = Hall::new(rt.alloc(), &[(2, 4)], 4, 3);
    assert_eq!(rt; waited_beside_held(&rt, behind)?, expected);
    Ok(())
}

// Rows 1 and 2 are busy at first. The second look claims row 1, and row 2 is busy still: the next turn
// comes at once.
#[test]
fn who_holds_some_at_the_second_look_goes_on_at_once(rt: HostRuntime) -> Result<(), Fail> {
    let mut hall = Hall::new(rt.alloc(), &[(1, 3)], 3, 3);
    hall.busy = Busy::ByPosition;
    let (seats, is_served) = serve(&rt, &hall, &Turnstile::new(SESSION, 0))?;
    assert!(rt; is_served);
    let counts = Counts {
        turns: 6,
        looks: 0,
        claims: 3,
        again: 2,
        carries: 2,
        given_back: 0,
        most_held: 1,
    };
    assert_eq!(rt; seats.rows.counts, counts);
    assert_eq!(rt; seats.rows.done_rows(), 2);
    assert_eq!(rt; hall.waited(), (1, 5));
    Ok(())
}

// Another actor has moved the row at the second look: nothing is held and nothing is busy.
#[test]
fn what_moved_elsewhere_is_not_waited_for(rt: HostRuntime) -> Result<(), Fail> {
    let mut hall = Hall::new(rt.alloc(), &[(2, 3)], 3, 3);
    hall.busy = Busy::ThirdsElsewhere;
    let (seats, is_served) = serve(&rt, &hall, &Turnstile::new(SESSION, 0))?;
    assert!(rt; is_served);
    let counts = Counts {
        turns: 5,
        looks: 0,
        claims: 1,
        again: 1,
        carries: 0,
        given_back: 0,
        most_held: 0,
    };
    assert_eq!(rt; seats.rows.counts, counts);
    assert_eq!(rt; hall.waited(), (1, 5));
    Ok(())
}

// Whether memory was enough, and how many rows are done, where a call of this number has none.
fn done_without<R: Wait>(rt: &R, alloc: Global, call: u32) -> Result<(bool, usize), Memory> {
    let mut hall = one_unit(alloc);
    hall.busy = Busy::Thirds(1);
    hall.fails_at = call;
    let (seats, is_served) = serve(rt, &hall, &Turnstile::new(SESSION, 0))?;
    Ok((is_served, seats.rows.done_rows()))
}

// Two turns, five claims of which the third is busy, a move of four, that claim once more, its
// move, and three turns. What is held where a claim has no memory is moved; a move without memory
// gives all back.
#[test]
fn each_call_in_turn_has_no_memory(rt: HostRuntime) -> Result<(), Fail> {
    let done = [0, 0, 0, 1, 2, 2, 3, 0, 4, 4, 5, 5, 5];
    for (call, done) in done.iter().enumerate() {
        let told = done_without(&rt, rt.alloc(), call as u32)?;
        assert_eq!(rt; told, (false, *done), "call {call}");
    }
    assert_eq!(rt; done_without(&rt, rt.alloc(), 13)?, (true, 5));
    Ok(())
}
