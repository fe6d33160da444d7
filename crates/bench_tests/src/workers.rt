use crate::gates::Turnstile;
use crate::hall::{Busy, Hall, NEVER, Seats};
use crate::rows::Counts;
use bf_base::Memory;
use bf_bench::serve_worker;
use std::alloc::Global;
use std::sync::Wait;
use std::test::Fail;

const WORKER: u32 = 65;

// Serves a phase as a worker: its seats behind it, and whether memory was enough.
fn serve<R: Wait>(rt: &R, hall: &Hall, gate: &Turnstile) -> Result<(Seats, bool), Memory> {
    let mut seats = hall.seats()?;
    let served = serve_worker(rt, hall.alloc, hall, gate, &mut seats, WORKER);
    Ok((seats, served.is_ok()))
}

// Rows in two units that no statement needs.
fn hall_of(alloc: Global, rows: u32, second_unit: u32) -> Hall {
    Hall::new(alloc, &[], rows, second_unit)
}

// Two looks at each unit, of 64 rows and of 6, and one each that finds nothing and the end.
#[test]
fn everything_that_is_left_moves(rt: HostRuntime) -> Result<(), Fail> {
    let mut hall = hall_of(rt.alloc(), 140, 70);
    hall.busy = Busy::Thirds(1);
    let gate = Turnstile::new(WORKER, 0);
    let (seats, is_served) = serve(&rt, &hall, &gate)?;
    assert!(rt; is_served);
    let counts = Counts {
        turns: 0,
        looks: 6,
        claims: 140,
        again: 46,
        carries: 8,
        given_back: 0,
        most_held: 43,
    };
    assert_eq!(rt; seats.rows.counts, counts);
    assert_eq!(rt; seats.rows.done_rows(), 140);
    assert_eq!(rt; gate.told(), (8, 140, 0, 0));
    assert_eq!(rt; hall.rested(), (1, 3));
    Ok(())
}

// A worker gives back 8 times in all.
#[test]
fn a_gate_turns_back_always(rt: HostRuntime) -> Result<(), Fail> {
    let hall = hall_of(rt.alloc(), 10, 5);
    let gate = Turnstile::new(WORKER, NEVER);
    let (seats, is_served) = serve(&rt, &hall, &gate)?;
    assert!(rt; is_served);
    let counts = Counts {
        turns: 0,
        looks: 12,
        claims: 50,
        again: 0,
        carries: 2,
        given_back: 8,
        most_held: 5,
    };
    assert_eq!(rt; seats.rows.counts, counts);
    assert_eq!(rt; seats.rows.done_rows(), 10);
    assert_eq!(rt; gate.told(), (8, 40, 0, 0));
    assert_eq!(rt; hall.rested(), (1, 3));
    Ok(())
}

// What was refused is left still, and is claimed anew.
#[test]
fn a_refused_move_ends_the_answer(rt: HostRuntime) -> Result<(), Fail> {
    let mut hall = hall_of(rt.alloc(), 3, 3);
    hall.refuses_at = 0;
    let (seats, is_served) = serve(&rt, &hall, &Turnstile::new(WORKER, 0))?;
    assert!(rt; is_served);
    let counts = Counts {
        turns: 0,
        looks: 4,
        claims: 6,
        again: 0,
        carries: 2,
        given_back: 0,
        most_held: 3,
    };
    assert_eq!(rt; seats.rows.counts, counts);
    assert_eq!(rt; seats.rows.done_rows(), 3);
    Ok(())
}

// A worker to which everything stays busy waits for the count of each answer, and asks for nothing
// in between.
#[test]
fn what_stays_busy_is_waited_for(rt: HostRuntime) -> Result<(), Fail> {
    let mut hall = hall_of(rt.alloc(), 3, 3);
    hall.busy = Busy::UntilWaits(2);
    let gate = Turnstile::new(WORKER, 0);
    let (seats, is_served) = serve(&rt, &hall, &gate)?;
    assert!(rt; is_served);
    let counts = Counts {
        turns: 0,
        looks: 5,
        claims: 9,
        again: 6,
        carries: 1,
        given_back: 0,
        most_held: 3,
    };
    assert_eq!(rt; seats.rows.counts, counts);
    assert_eq!(rt; seats.rows.done_rows(), 3);
    assert_eq!(rt; gate.told(), (1, 3, 0, 0));
    assert_eq!(rt; hall.rested(), (3, 101 + 102 + 3));
    Ok(())
}

// Row 2 is busy at both looks of two answers: at once behind the first, of which two rows are held,
// and after a wait behind the second, which has row 2 alone.
#[test]
fn who_holds_some_goes_on_at_once(rt: HostRuntime) -> Result<(), Fail> {
    let mut hall = hall_of(rt.alloc(), 3, 3);
    hall.busy = Busy::Thirds(4);
    let (seats, is_served) = serve(&rt, &hall, &Turnstile::new(WORKER, 0))?;
    assert!(rt; is_served);
    let counts = Counts {
        turns: 0,
        looks: 5,
        claims: 5,
        again: 2,
        carries: 2,
        given_back: 0,
        most_held: 2,
    };
    assert_eq!(rt; seats.rows.counts, counts);
    assert_eq!(rt; seats.rows.done_rows(), 3);
    assert_eq!(rt; hall.rested(), (2, 102 + 3));
    Ok(())
}

// Whether memory was enough, and how many rows are done, where a call of this number has none.
fn done_without<R: Wait>(rt: &R, alloc: Global, call: u32) -> Result<(bool, usize), Memory> {
    let mut hall = hall_of(alloc, 3, 3);
    hall.busy = Busy::Thirds(1);
    hall.fails_at = call;
    let (seats, is_served) = serve(rt, &hall, &Turnstile::new(WORKER, 0))?;
    Ok((is_served, seats.rows.done_rows()))
}

// A look, three claims of which the last is busy, a move of two, that claim once more, its move,
// and two looks.
#[test]
fn each_call_in_turn_has_no_memory(rt: HostRuntime) -> Result<(), Fail> {
    let done = [0, 0, 1, 2, 0, 2, 2, 3, 3];
    for (call, done) in done.iter().enumerate() {
        let told = done_without(&rt, rt.alloc(), call as u32)?;
        assert_eq!(rt; told, (false, *done), "call {call}");
    }
    assert_eq!(rt; done_without(&rt, rt.alloc(), 9)?, (true, 3));
    Ok(())
}
