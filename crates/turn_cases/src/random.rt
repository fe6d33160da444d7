//! Random orders, each checked against its own history: a second machine serves the groups of the history,
//! each as a session and a phase of its own, and gives the same replies.

use crate::lines::{put_group, session_count, statement_count};
use crate::runs::{Order, Told, run};
use anyhow::bail;
use bf_tree::{Cause, Entry, History, Refusal, Reply, Transcripts};
use std::alloc::Global;
use std::sync::Wait;

/// The next number below a limit, of a linear congruential generator.
fn draw(seed: &mut u64, limit: u64) -> u32 {
    let next = seed.wrapping_mul(6_364_136_223_846_793_005);
    *seed = next.wrapping_add(1_442_695_040_888_963_407);
    let number = (*seed >> 33) % limit.max(1);
    u32::try_from(number).unwrap_or(0)
}

/// Adds a turn of the first session for each of its statements, then forty of any session. Two numbers among them
/// name none.
fn put_order(script: &str, seed: &mut u64, turns: &mut Vec<u32>) -> anyhow::Result<()> {
    for _statement in 0..statement_count(script, 1) {
        turns.push(1)?;
    }
    let limit = (session_count(script) as u64).saturating_add(2);
    for _turn in 0..40 {
        turns.push(draw(seed, limit))?;
    }
    Ok(())
}

/// The replies to the statements of an entry.
fn replies_of<'a>(transcripts: &'a Transcripts, entry: &Entry) -> Option<&'a [Reply]> {
    let place = entry.session.checked_sub(1)? as usize;
    let first = entry.first.checked_sub(1)? as usize;
    let replies = transcripts.sessions.as_slice().get(place)?;
    replies.as_slice().get(first..entry.last as usize)
}

/// Adds the groups of a history, each as a session and a phase of its own.
fn put_groups(script: &str, history: &History, text: &mut String) -> anyhow::Result<()> {
    for entry in history.entries.as_slice() {
        let (first, last) = (entry.first as usize, entry.last as usize);
        put_group(script, entry.session as usize, first, last, text)?;
    }
    Ok(())
}

/// Whether the replies to the groups of a history are those of its replay.
fn are_same(told: &Told, again: &Transcripts) -> bool {
    let (transcripts, history, _) = told;
    let sessions = again.sessions.as_slice();
    let mut place = 0usize;
    for entry in history.entries.as_slice() {
        let Some(replies) = sessions.get(place) else {
            return false;
        };
        if replies_of(transcripts, entry) != Some(replies.as_slice()) {
            return false;
        }
        place = place.saturating_add(1);
    }
    place == sessions.len()
}

/// Whether each statement of a script has its reply.
fn is_answered(script: &str, transcripts: &Transcripts) -> bool {
    let mut number = 0usize;
    for replies in transcripts.sessions.as_slice() {
        number = number.saturating_add(1);
        if replies.len() != statement_count(script, number) {
            return false;
        }
    }
    number == session_count(script)
}

/// How many replies tell a death.
fn count_deaths(transcripts: &Transcripts) -> usize {
    let mut count = 0usize;
    for replies in transcripts.sessions.as_slice() {
        for reply in replies.as_slice() {
            if matches!(reply, Reply::Ended(Cause::Died(_))) {
                count = count.saturating_add(1);
            }
        }
    }
    count
}

/// How many replies tell of a COMMIT or ROLLBACK in no block.
fn count_strays(transcripts: &Transcripts) -> usize {
    let mut count = 0usize;
    for replies in transcripts.sessions.as_slice() {
        for reply in replies.as_slice() {
            if matches!(reply, Reply::Refused(Refusal::NoTransaction)) {
                count = count.saturating_add(1);
            }
        }
    }
    count
}

/// How many replies there are.
fn count_replies(transcripts: &Transcripts) -> usize {
    let mut count = 0usize;
    for replies in transcripts.sessions.as_slice() {
        count = count.saturating_add(replies.len());
    }
    count
}

/// How many statements stand in a history.
fn count_entered(history: &History) -> usize {
    let mut count = 0usize;
    for entry in history.entries.as_slice() {
        let before = entry.first.saturating_sub(1);
        count = count.saturating_add(entry.last.saturating_sub(before) as usize);
    }
    count
}

/// Whether each statement has its reply, and those without an entry died or are strays.
fn is_whole(script: &str, told: &Told) -> bool {
    let (transcripts, history, _) = told;
    let others = count_deaths(transcripts).saturating_add(count_strays(transcripts));
    is_answered(script, transcripts)
        && count_entered(history).saturating_add(others) == count_replies(transcripts)
}

/// Whether a run in an order is whole, and what its own history tells.
fn is_right(rt: &impl Wait, alloc: Global, script: &str, told: &Told) -> anyhow::Result<bool> {
    let mut groups = String::new(alloc);
    put_groups(script, &told.1, &mut groups)?;
    let alone = Order {
        retries: 0,
        refused: 0,
        turns: &[],
    };
    let (again, _, _) = run(rt, alloc, groups.as_str(), alone)?;
    Ok(is_whole(script, told) && are_same(told, &again))
}

/// Whether a script whose sessions take turns is what its own history tells, with 15 retries and with none, and
/// nothing dies with 15.
fn is_right_in(rt: &impl Wait, alloc: Global, script: &str, turns: &[u32]) -> anyhow::Result<bool> {
    let patient = Order {
        retries: 15,
        refused: 0,
        turns,
    };
    let told = run(rt, alloc, script, patient)?;
    if count_deaths(&told.0) != 0 || !is_right(rt, alloc, script, &told)? {
        return Ok(false);
    }
    let once = Order {
        retries: 0,
        ..patient
    };
    let told = run(rt, alloc, script, once)?;
    is_right(rt, alloc, script, &told)
}

/// How many random orders were served. Fails at the first that goes otherwise, with its turns.
pub fn count_right(
    rt: &impl Wait,
    alloc: Global,
    script: &str,
    orders: u32,
    seed: u64,
) -> anyhow::Result<u32> {
    let mut seed = seed;
    for _order in 0..orders {
        let mut turns = Vec::new(alloc);
        put_order(script, &mut seed, &mut turns)?;
        if !is_right_in(rt, alloc, script, turns.as_slice())? {
            bail!("{turns:?}");
        }
    }
    Ok(orders)
}
