//! The texts of values, refusals, causes and replies.

ghost use Rattle.std.specs.Prelude.{◌++◌, length, flat_map, codes};
ghost use Rattle.bf_text.specs.Puts.{Puts};
ghost use Rattle.bf_text.specs.Replies.{newline, numbered, quoted, value_text, cell_text, values_text, refusal_text, cause_text, place_text, row_line, body_text, reply_text};
ghost use Rattle.bf_text.specs.Report.{session_text};

use crate::pieces::{
    Counted, Piece, put, put_all_counted, put_decimal, put_each, put_listed, put_named,
    put_named_numbered, put_numbered, put_signed,
};
use bf_base::{Memory, Sequence, Value};
use bf_tree::{Cause, Cell, Refusal, Reply};

/// A byte of a text, between its quotes.
impl Piece for u8 {
    type Place = ();

    ghost text = { λ _. quoted };

    fn put_at(&self, out: &mut Vec<u8>, _place: ()) -> Result<(), Memory> {
        if *self == b'\'' {
            return put(out, b"''");
        }
        out.push(*self)?;
        Ok(())
    }
}

impl Piece for Value {
    type Place = ();

    ghost text = { λ _. value_text };

    fn put_at(&self, out: &mut Vec<u8>, _place: ()) -> Result<(), Memory> {
        match self {
            Value::Int(number) => put_signed(out, *number),
            Value::Text(text) => {
                put(out, b"'")?;
                put_each(out, (), text.as_bytes())?;
                put(out, b"'")
            }
        }
    }
}

impl Piece for Cell {
    type Place = ();

    ghost text = { λ _. cell_text };

    fn put_at(&self, out: &mut Vec<u8>, place: ()) -> Result<(), Memory> {
        match self {
            Cell::Value(value) => value.put_at(out, place),
            Cell::Null => put(out, b"NULL"),
        }
    }
}

fn put_between(out: &mut Vec<u8>, front: &[u8], values: &[Value], back: &[u8]) -> Result<(), Memory>
    ensures { Puts result (front.now ++ values_text values.now ++ back.now)
        out.old.items out.new.items }
{
    put(out, front)?;
    put_listed(out, (), values)?;
    put(out, back)
}

/// Appends a refusal's text.
pub(crate) fn put_refusal_text(out: &mut Vec<u8>, refusal: &Refusal) -> Result<(), Memory>
    ensures { Puts result (refusal_text refusal.now) out.old.items out.new.items }
{
    match refusal {
        Refusal::NoTable(name) => put_named(out, b"E1 no table ", name),
        Refusal::NoColumn(name) => put_named(out, b"E2 no column ", name),
        Refusal::TypeMismatch => put(out, b"E3 type mismatch"),
        Refusal::DuplicateKey(key) => put_between(out, b"E4 duplicate key (", key.as_slice(), b")"),
        Refusal::OutOfRange => put(out, b"E5 out of range"),
        Refusal::TooLong => put(out, b"E6 too long"),
        Refusal::TableExists(name) => put_named(out, b"E7 table exists ", name),
        Refusal::WrongCount => put(out, b"E8 wrong count"),
        Refusal::KeyColumn(name) => put_named(out, b"E9 key column ", name),
        Refusal::NoTransaction => put(out, b"E10 no transaction"),
        Refusal::InTransaction => put(out, b"E11 in transaction"),
        Refusal::MustBeAlone => put(out, b"E12 must be alone"),
        Refusal::NameTwice(name) => put_named(out, b"E13 name twice ", name),
        Refusal::MayFail(target, item) => {
            put_named_numbered(out, b"E14 may fail ", target, b" item ", u64::from(*item))
        }
        Refusal::KeyNotInherited(target) => put_named(out, b"E15 key not inherited ", target),
        Refusal::SourceUnknown(name) => put_named(out, b"E16 source unknown ", name),
        Refusal::TooManyRows(table, rows) => {
            put_named_numbered(out, b"E17 too many rows ", table, b" ", u64::from(*rows))
        }
        Refusal::UnitLimit(count) => put_numbered(out, b"E18 unit limit ", u64::from(*count)),
        Refusal::IndexExists(name) => put_named(out, b"E19 index exists ", name),
    }
}

fn put_cause(out: &mut Vec<u8>, cause: Cause) -> Result<(), Memory>
    ensures { Puts result (cause_text cause) out.old.items out.new.items }
{
    match cause {
        Cause::Died(holder) => put_numbered(out, b"died older ", holder),
        Cause::DiskFault => put(out, b"disk fault"),
        Cause::Halted(faults) => put_numbered(out, b"halted ", faults),
        Cause::LogFull(end, need) => {
            put_numbered(out, b"log full ", end)?;
            put_numbered(out, b" ", need)
        }
        Cause::TooLarge(need) => put_numbered(out, b"too large ", need),
    }
}

/// A session and a statement of it, both counted from 1.
#[derive(Clone, Copy)]
pub(crate) struct Place {
    session: u64,
    statement: u64,
}

fn put_place(out: &mut Vec<u8>, place: Place) -> Result<(), Memory>
    ensures { Puts result (place_text place.session place.statement) out.old.items out.new.items }
{
    put_decimal(out, place.session)?;
    put_numbered(out, b".", place.statement)
}

/// A row that SELECT gives.
impl Piece for Sequence<Cell> {
    type Place = Place;

    ghost text = { λ place. row_line place.session place.statement };

    fn put_at(&self, out: &mut Vec<u8>, place: Place) -> Result<(), Memory> {
        put_place(out, place)?;
        put(out, b" | ")?;
        put_listed(out, (), self.as_slice())?;
        put(out, b"\n")
    }
}

/// Appends words before a number, and the end of the line.
#[tactic(auto, using(crate::proofs::Putting::putting))]
fn put_count(out: &mut Vec<u8>, words: &[u8], count: u64) -> Result<(), Memory>
    ensures { Puts result (numbered words.now count ++ newline) out.old.items out.new.items }
{
    put_numbered(out, words, count)?;
    put(out, b"\n")
}

fn put_rows(out: &mut Vec<u8>, place: Place, rows: &[Sequence<Cell>]) -> Result<(), Memory>
    ensures { Puts result (numbered (codes "rows ") (length rows.now) ++ newline
        ++ flat_map (row_line place.session place.statement) rows.now) out.old.items out.new.items }
{
    put_count(out, b"rows ", rows.len() as u64)?;
    put_each(out, place, rows)
}

#[tactic(auto, using(crate::proofs::Putting::putting))]
fn put_body(out: &mut Vec<u8>, place: Place, reply: &Reply) -> Result<(), Memory>
    ensures { Puts result (body_text place.session place.statement reply.now)
        out.old.items out.new.items }
{
    match reply {
        Reply::Created => put(out, b"created\n"),
        Reply::Inserted(rows) => put_count(out, b"inserted ", u64::from(*rows)),
        Reply::Updated(rows) => put_count(out, b"updated ", u64::from(*rows)),
        Reply::Deleted(rows) => put_count(out, b"deleted ", u64::from(*rows)),
        Reply::Rows(rows) => put_rows(out, place, rows.as_slice()),
        Reply::Migrated(targets) => put_count(out, b"migrated ", u64::from(*targets)),
        Reply::Begun => put(out, b"begun\n"),
        Reply::Committed(number) => put_count(out, b"committed ", *number),
        Reply::RolledBack => put(out, b"rolled back\n"),
        Reply::Refused(refusal) => {
            put_refusal_text(out, refusal)?;
            put(out, b"\n")
        }
        Reply::Ended(cause) => {
            put_cause(out, *cause)?;
            put(out, b"\n")
        }
    }
}

/// A reply, by its session and the number of its statement.
impl Counted for Reply {
    type Whole = u64;

    ghost text = { reply_text };

    fn put_counted(&self, out: &mut Vec<u8>, session: u64, number: u64) -> Result<(), Memory> {
        let place = Place {
            session,
            statement: number,
        };
        put_place(out, place)?;
        put(out, b" ")?;
        put_body(out, place, self)
    }
}

/// The replies of a session, by its number.
impl Counted for Sequence<Reply> {
    type Whole = ();

    ghost text = { λ _. session_text };

    fn put_counted(&self, out: &mut Vec<u8>, _whole: (), number: u64) -> Result<(), Memory> {
        put_all_counted(out, number, self.as_slice())
    }
}
