//! What a session has come to, and the groups that have begun.

ghost use Rattle.std.specs.Prelude.{◌≡◌, ◌⊎◌, ◌+◌, ◌-◌, ◌<◌, ◌≤◌, ◌&&◌, ◌++◌, [], IfOk, None, Some, if◌then◌else◌, length, map, nat_le, nat_lt, replicate, slice_index_or, take, vec_capacity, vec_len};
ghost use Rattle.std.specs.Option.{is_none};
ghost use Rattle.bf_tree.specs.declared.reply.Reply.TheVariants.{Ended};
ghost use Rattle.bf_sql.specs.Groups.{no_session};
ghost use Rattle.bf_machine.specs.interleaving.Seen.{AreNew, HasEndedAt, IsLeastLeft, last_from};

use bf_base::{Memory, Sequence, Table, next_number};
use bf_tree::{Cause, IndexRule, Plan, Reply, Session, Statement};
use bf_txn::Workspace;
use std::alloc::Global;

/// What an open group is to leave: rows that it has written, one change of the schema, or nothing, where
/// the rows have something against its MIGRATE.
#[derive(Drop)]
pub enum Pending {
    Rows(Workspace),
    NewTable(Table),
    NewIndex(IndexRule),
    /// A MIGRATE, by its plan.
    Flip(Plan),
    Nothing,
}

/// A group that has begun, at the place of its start number, and the start numbers that its deaths
/// named, in order.
#[derive(Drop)]
pub struct Began {
    pub session: u32,
    pub first: u32,
    pub last: u32,
    pub deaths: Vec<u64>,
}

/// A group that is open.
#[derive(Drop)]
pub struct OpenGroup {
    pub start: u64,
    pub first: u32,
    pub last: u32,
    pub pending: Pending,
}

/// A session: the replies so far, with those of its open group behind the others, and the start
/// number of the group that began last, which is 0 where none has begun.
#[derive(Drop)]
pub struct SessionSoFar {
    pub replies: Vec<Reply>,
    pub open: Option<OpenGroup>,
    pub latest: u64,
}

/// Sessions in which nothing has begun, with room for the reply to each statement.
///
/// # Errors
/// Where memory runs out, or a session has 2 ^ 32 - 1 statements or more.
pub(crate) fn sessions_so_far(
    alloc: Global,
    sessions: &[Session],
) -> Result<Vec<SessionSoFar>, Memory>
    ensures { IfOk result (λ made. AreNew sessions.now made.items) }
{
    let mut made = Vec::with_capacity(alloc, sessions.len())?;
    for session in sessions {
        next_number(session.statements.len())?;
        let replies = Vec::with_capacity(alloc, session.statements.len())?;
        made.push(SessionSoFar {
            replies,
            open: None,
            latest: 0,
        })?;
    }
    Ok(made)
}

/// Whether each statement of a session has its reply, and no group of it is open.
pub(crate) fn has_ended(session: &Session, so_far: &SessionSoFar) -> bool
    ensures { result ≡ (is_none so_far.now.«open»
        && nat_le (length session.now.statements) (length so_far.now.replies.items)) }
{
    so_far.open.is_none() && session.statements.len() <= so_far.replies.len()
}

/// Whether the session at a place is of the phase of another's or of an earlier one.
pub(crate) fn is_no_later(sessions: &[Session], place: usize, other: usize) -> bool
    requires place { place < length sessions.now }
    requires other { other < length sessions.now }
    ensures { result ≡ nat_le (slice_index_or sessions.now place no_session).phase
        (slice_index_or sessions.now other no_session).phase }
{
    sessions[place].phase <= sessions[other].phase
}

/// The place of the least session left, of those up to one place, by that of those before it: it
/// stays where the session at the place has ended, or is of no earlier phase.
fn least_with(
    sessions: &[Session],
    so_far: &[SessionSoFar],
    before: Option<usize>,
    place: usize,
) -> Option<usize>
    requires each { length sessions.now ≡ length so_far.now }
    requires place { place < length so_far.now }
    requires before { IsLeastLeft sessions.now so_far.now place before }
    ensures { IsLeastLeft sessions.now so_far.now (place + 1) result }
{
    if has_ended(&sessions[place], &so_far[place]) {
        return before;
    }
    let Some(least) = before else {
        return Some(place);
    };
    if is_no_later(sessions, least, place) {
        return before;
    }
    Some(place)
}

/// The place of a session that has not ended and is of the earliest phase of those that have not, and
/// `None` where all have ended. It looks at each session once.
pub(crate) fn least_left(sessions: &[Session], so_far: &[SessionSoFar]) -> Option<usize>
    requires each { length sessions.now ≡ length so_far.now }
    ensures { IsLeastLeft sessions.now so_far.now (length so_far.now) result }
{
    let mut least = None;
    for place in 0..so_far.len() {
        least = least_with(sessions, so_far, least, place);
    }
    least
}

/// The place of the least session left behind an event of the session at a place, by the one before
/// it, which stays but where it is that session and has ended now: then each session is looked at.
pub(crate) fn least_left_behind(
    sessions: &[Session],
    so_far: &[SessionSoFar],
    before: Option<usize>,
    place: usize,
) -> Option<usize>
    requires each { length sessions.now ≡ length so_far.now }
    requires place { place < length so_far.now }
    ensures { IsLeastLeft sessions.now so_far.now (length so_far.now) result
        ⊎ ((result ≡ before)
        × (before ≡ Some place → HasEndedAt sessions.now so_far.now place → ⊥)) }
{
    let Some(least) = before else {
        return before;
    };
    if least != place {
        return before;
    }
    if !has_ended(&sessions[place], &so_far[place]) {
        return before;
    }
    least_left(sessions, so_far)
}

/// The replies of sessions, put into an empty list that has room for them. Takes no memory.
pub(crate) fn all_replies(
    sessions: Vec<SessionSoFar>,
    room: Vec<Sequence<Reply>>,
) -> Vec<Sequence<Reply>>
    requires empty { room.items ≡ [] }
    requires room { vec_len sessions ≤ vec_capacity room }
    ensures { result.items ≡ map (λ so_far. so_far.replies.items) sessions.items }
{
    let mut transcripts = room;
    for so_far in sessions {
        let SessionSoFar { replies, .. } = so_far;
        transcripts.push_reserved(Sequence::of(replies));
    }
    transcripts
}

/// The last statement of the group that begins at one, both counted from 1: itself, or where it is
/// BEGIN the first COMMIT or ROLLBACK behind it, or the session's last. Linear in the group.
pub(crate) fn last_of_group(statements: &[Statement], first: u32) -> u32
    requires first { 1 ≤ first }
    requires within { first ≤ length statements.now }
    requires numbers { length statements.now < 4294967296 }
    ensures { result ≡ last_from first statements.now }
{
    let behind = first as usize;
    if !matches!(statements[behind - 1], Statement::Begin) {
        return first;
    }
    let mut last = first;
    for statement in &statements[behind..] {
        last += 1;
        if matches!(statement, Statement::Commit | Statement::Rollback) {
            break;
        }
    }
    last
}

/// Tells so many statements a cause. Takes no memory.
pub(crate) fn tell_cause(replies: &mut Vec<Reply>, count: u32, cause: Cause)
    requires { vec_len replies.old + count ≤ vec_capacity replies.old }
    ensures replies { replies.new.items ≡ replies.old.items ++ replicate count (Ended cause) }
    ensures capacity { vec_capacity replies.new ≡ vec_capacity replies.old }
{
    for _told in 0..count {
        replies.push_reserved(Reply::Ended(cause));
    }
}

/// How many statements of a group that has died so often are told its death: each of them where it
/// may not begin again, and else none.
pub(crate) fn told_count(first: u32, last: u32, deaths: usize, retries: u16) -> u32
    requires first { 1 ≤ first }
    requires last { first ≤ last }
    ensures { result ≡ if nat_lt retries deaths then last + 1 - first else 0 }
{
    if deaths > retries as usize {
        last - first + 1
    } else {
        0
    }
}

/// Closes a session's open group, drops its replies, and tells so many of its statements a cause. Takes
/// no memory.
pub(crate) fn close_by(so_far: &mut SessionSoFar, first: u32, told: u32, cause: Cause)
    requires first { 1 ≤ first }
    requires room { first - 1 + told ≤ vec_capacity so_far.old.replies }
    ensures closed { so_far.new.«open» ≡ None }
    ensures latest { so_far.new.latest ≡ so_far.old.latest }
    ensures replies { so_far.new.replies.items
        ≡ take (first - 1) so_far.old.replies.items ++ replicate told (Ended cause) }
    ensures capacity { vec_capacity so_far.new.replies ≡ vec_capacity so_far.old.replies }
{
    so_far.open = None;
    so_far.replies.truncate(first as usize - 1);
    tell_cause(&mut so_far.replies, told, cause);
}
