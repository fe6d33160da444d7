//! Scripts that are written from a seed.

use crate::asked::{Asked, Flip, Moment};
use crate::changes::{CHANGES, Change, Kind};
use crate::forms::{Form, Reach, STATEMENTS};
use crate::pen::Pen;
use crate::schema::{Schema, Sought};
use crate::tables::{NEVER, Named, TABLES, Table, described};
use bf_base::Memory;
use std::alloc::Global;

/// How many INSERTs fill an old table, of which some may be refused.
const INSERTS: u32 = 11;

/// By which numbers the statements of sessions that run at the same time are drawn.
const BESIDE: [usize; 10] = [1, 2, 2, 3, 5, 5, 5, 5, 5, 5];

/// A script as far as it is written.
#[derive(Drop)]
pub struct Writer {
    pen: Pen,
    /// What each statement so far asks.
    pub asked: Vec<Asked>,
    /// The places of the changes of the schema that are taken, in order.
    pub taken: Vec<usize>,
    /// How many bytes stand before the last MIGRATE that is taken.
    front: usize,
    schema: Schema,
    /// Whether no statement on a table stands behind the last MIGRATE.
    is_right_behind: bool,
    is_in_block: bool,
}

impl Writer {
    pub fn new(alloc: Global, seed: u64) -> Writer {
        Writer {
            pen: Pen::new(alloc, seed),
            asked: Vec::new(alloc),
            taken: Vec::new(alloc),
            front: 0,
            schema: Schema::new(alloc),
            is_right_behind: false,
            is_in_block: false,
        }
    }

    /// The script.
    pub fn text(&self) -> &[u8] {
        self.pen.text.as_slice()
    }

    /// The script up to the last MIGRATE that is taken.
    pub fn front(&self) -> &[u8] {
        self.text().get(..self.front).unwrap_or(&[])
    }

    /// Adds a statement of a form beside a table.
    fn put(&mut self, asked: Asked, table: &Table, form: &'static str) -> Result<(), Memory> {
        self.asked.push(asked)?;
        self.pen.put(table, form)?;
        self.pen.put_text(";\n")
    }

    /// One of some tables.
    fn one_of(&mut self, names: &'static [Named]) -> &'static Table {
        let place = self.pen.draw(names.len());
        names.get(place).map_or(&NEVER, |named| described(*named))
    }

    /// One of the tables that are there.
    fn one_there(&mut self) -> &'static Table {
        let count = self.schema.there().len();
        let place = self.pen.draw(count);
        let named = self.schema.there().get(place);
        named.map_or(&NEVER, |named| described(*named))
    }

    /// A table: right behind a MIGRATE one that it has made, and else mostly one that is there.
    fn some_table(&mut self) -> &'static Table {
        let made = self.schema.made();
        match self.pen.draw(12) {
            drawn if !made.is_empty() && (self.is_right_behind || drawn < 6) => self.one_of(made),
            11 => {
                let place = self.pen.draw(TABLES.len().saturating_add(1));
                TABLES.get(place).unwrap_or(&NEVER)
            }
            _ => self.one_there(),
        }
    }

    /// Where a statement on a table stands.
    fn moment(&self, table: &Table) -> Moment {
        if !self.schema.made().contains(&table.named) {
            return Moment::Elsewhere;
        }
        if self.is_right_behind {
            return Moment::RightBehind;
        }
        Moment::Later
    }

    /// Which rows a form is about beside a table.
    fn reach(&self, form: &Form, table: &Table) -> Reach {
        let has_totals = !table.total.is_empty() && self.schema.has_made_totals();
        match form.reach {
            Reach::Total if !has_totals => Reach::Range,
            reach => reach,
        }
    }

    /// Adds a statement on a table.
    fn put_on_table(&mut self) -> Result<(), Memory> {
        let table = self.some_table();
        let place = self.pen.draw(STATEMENTS.len());
        let Some(form) = STATEMENTS.get(place) else {
            return Ok(());
        };
        let asked = Asked::On(form.verb, self.reach(form, table), self.moment(table));
        self.is_right_behind = false;
        self.put(asked, table, form.text)
    }

    /// Adds what is refused, or may be.
    fn put_other(&mut self, form: &'static str) -> Result<(), Memory> {
        let table = self.some_table();
        self.is_right_behind = false;
        self.put(Asked::Other, table, form)
    }

    fn put_session(&mut self) -> Result<(), Memory> {
        self.is_in_block = false;
        let start = self
            .pen
            .choose(&["session;\n", "session;\n", "phase; session;\n"]);
        self.pen.put_text(start)
    }

    fn put_begin(&mut self) -> Result<(), Memory> {
        self.is_in_block = true;
        self.put(Asked::Begin, &NEVER, "begin")
    }

    /// Adds the end of a block.
    fn put_end(&mut self) -> Result<(), Memory> {
        self.is_in_block = false;
        match self.pen.draw(2) {
            0 => self.put(Asked::Other, &NEVER, "commit"),
            _ => self.put(Asked::RollBack, &NEVER, "rollback"),
        }
    }

    /// Adds what a block refuses, or what is refused outside one.
    fn put_stray(&mut self) -> Result<(), Memory> {
        let stray = if self.is_in_block {
            self.pen.choose(&[
                "begin",
                "create index B on T (Z)",
                "migrate (create table p as select id from a)",
            ])
        } else {
            self.pen.choose(&["commit", "rollback"])
        };
        self.put_other(stray)
    }

    /// Adds the statement of a number: the beginning or the end of a block, what is refused, or what is asked of a
    /// table.
    fn put_statement(&mut self, number: usize) -> Result<(), Memory> {
        match (number, self.is_in_block) {
            (1 | 2, false) => self.put_begin(),
            (1 | 2, true) => self.put_end(),
            (3, _) => self.put_stray(),
            (4, _) => self.put_other("F"),
            _ => self.put_on_table(),
        }
    }

    /// Adds statements, here and there in a block, or in a new session.
    fn put_statements(&mut self, count: usize) -> Result<(), Memory> {
        for _ in 0..count {
            match self.pen.draw(20) {
                0 => self.put_session()?,
                number => self.put_statement(number)?,
            }
        }
        Ok(())
    }

    /// What a change asks, where it is taken.
    fn asked_by(&self, change: &Change) -> Asked {
        if change.kind == Kind::Create {
            return Asked::Other;
        }
        Asked::Migrate(Flip {
            kind: change.kind,
            is_onto_source: change.is_onto_source(),
            is_over_index: self.schema.is_over_index(change),
        })
    }

    /// Adds a change of the schema that is taken, and what it makes of the tables.
    fn put_taken(&mut self, place: usize, change: &'static Change) -> Result<(), Memory> {
        let asked = self.asked_by(change);
        if let Asked::Migrate(_) = asked {
            self.front = self.pen.text.len();
            self.is_right_behind = true;
        }
        self.put(asked, change.table(), change.form)?;
        self.taken.push(place)?;
        self.schema.take(change)
    }

    /// Adds the change of the schema at a place, outside a block.
    fn put_change(&mut self, place: usize) -> Result<(), Memory> {
        if self.is_in_block {
            self.put_end()?;
        }
        let Some(change) = CHANGES.get(place) else {
            return Ok(());
        };
        match change.kind {
            Kind::Refused => self.put(Asked::Other, change.table(), change.form),
            _ => self.put_taken(place, change),
        }
    }

    /// Adds one of the changes at some places.
    fn put_one_of(&mut self, places: &[usize]) -> Result<(), Memory> {
        let drawn = self.pen.draw(places.len());
        match places.get(drawn) {
            Some(place) => self.put_change(*place),
            None => Ok(()),
        }
    }

    /// Adds a MIGRATE that is taken, of a table that the one before it has made where there is one.
    fn put_migrate(&mut self) -> Result<(), Memory> {
        let mut places = self.schema.fitting(Sought::Further)?;
        if places.is_empty() {
            places = self.schema.fitting(Sought::Taken)?;
        }
        self.put_one_of(places.as_slice())
    }

    /// Adds a MIGRATE that is refused.
    fn put_refused(&mut self) -> Result<(), Memory> {
        let places = self.schema.fitting(Sought::Refused)?;
        self.put_one_of(places.as_slice())
    }

    /// Adds an old table with its rows, and now and then with an index.
    fn put_old(&mut self, place: usize, change: &'static Change) -> Result<(), Memory> {
        self.put_change(place)?;
        let table = change.table();
        if self.pen.draw(2) == 0 {
            self.schema.add_index(table.named)?;
            self.put(Asked::Other, table, "create index xT on T (Z)")?;
        }
        for _ in 0..INSERTS {
            self.put(Asked::Other, table, "insert into T values U")?;
        }
        Ok(())
    }

    /// Adds old tables, of which the first two are always there.
    fn put_all_old(&mut self) -> Result<(), Memory> {
        for (place, change) in CHANGES.iter().enumerate() {
            if change.kind == Kind::Create && (place < 2 || self.pen.draw(4) > 0) {
                self.put_old(place, change)?;
            }
        }
        Ok(())
    }

    /// Adds a SELECT of all rows of each table that is there.
    fn put_whole(&mut self) -> Result<(), Memory> {
        for table in &TABLES {
            if self.schema.there().contains(&table.named) {
                self.put(Asked::Other, table, "select * from T")?;
            }
        }
        Ok(())
    }

    /// Adds a whole script: old tables, two or three MIGRATEs with statements before and behind, and in a session of its
    /// own a SELECT of each table.
    pub fn put_script(&mut self) -> Result<(), Memory> {
        self.pen.put_text("phase; session;\n")?;
        self.put_all_old()?;
        self.put_statements(4)?;
        for _ in 0..self.pen.draw(2).saturating_add(2) {
            if self.pen.draw(2) == 0 {
                self.put_refused()?;
            }
            self.put_migrate()?;
            self.put_statements(9)?;
        }
        self.put_session()?;
        self.put_whole()
    }

    /// The next number below a limit, and 0 below none.
    pub fn draw(&mut self, limit: usize) -> usize {
        self.pen.draw(limit)
    }

    /// The text since the last call, which is a script of its own.
    pub fn next_text(&mut self) -> Vec<u8> {
        self.front = 0;
        self.is_in_block = false;
        self.pen.take_text()
    }

    /// Adds a phase in which a session makes the old tables, and now and then a MIGRATE of one.
    pub fn put_beginning(&mut self) -> Result<(), Memory> {
        self.pen.put_text("phase; session;\n")?;
        self.put_all_old()?;
        if self.pen.draw(2) == 0 {
            return self.put_migrate();
        }
        Ok(())
    }

    /// Adds a session of at most 7 statements, of which many stand in blocks.
    fn put_one_beside(&mut self) -> Result<(), Memory> {
        self.is_in_block = false;
        self.pen.put_text("session;\n")?;
        for _ in 0..self.pen.draw(6).saturating_add(2) {
            let place = self.pen.draw(BESIDE.len());
            self.put_statement(BESIDE.get(place).copied().unwrap_or(0))?;
        }
        Ok(())
    }

    /// Adds one to three phases of two to six sessions, some behind a phase with a MIGRATE.
    pub fn put_phases(&mut self) -> Result<(), Memory> {
        for _ in 0..self.pen.draw(3).saturating_add(1) {
            if self.pen.draw(2) == 0 {
                self.is_in_block = false;
                self.pen.put_text("phase; session;\n")?;
                self.put_migrate()?;
            }
            self.pen.put_text("phase;\n")?;
            for _ in 0..self.pen.draw(5).saturating_add(2) {
                self.put_one_beside()?;
            }
        }
        Ok(())
    }

    /// Adds a phase with a SELECT of each table.
    pub fn put_ending(&mut self) -> Result<(), Memory> {
        self.pen.put_text("phase; session;\n")?;
        self.put_whole()
    }
}
