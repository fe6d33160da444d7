//! Replies to statements.

ghost use Rattle.std.specs.Prelude.{◌≡◌, IfOk};

use bf_base::{Key, Memory, Name, Sequence, TryClone, Value};
use std::alloc::Global;

/// Why a statement is refused. A refused statement changes nothing.
#[derive(Debug, Drop, PartialEq, Eq)]
pub enum Refusal {
    /// E1: no table has this name.
    NoTable(Name),
    /// E2: no column has this name.
    NoColumn(Name),
    /// E3: a value is not of the kind that is asked for.
    TypeMismatch,
    /// E4: a row has this key already, or an earlier tuple of the statement.
    DuplicateKey(Key),
    /// E5: a number is no INT, or outside its column's check.
    OutOfRange,
    /// E6: a text is longer than 255 bytes, or than its column's limit.
    TooLong,
    /// E7: a table has this name already.
    TableExists(Name),
    /// E8: a tuple has more or fewer values than the table has columns, or the arms of a new
    /// table have not one count of items.
    WrongCount,
    /// E9: this column is one of the key, which UPDATE does not set.
    KeyColumn(Name),
    /// E10: COMMIT or ROLLBACK stands outside a block.
    NoTransaction,
    /// E11: BEGIN stands inside a block.
    InTransaction,
    /// E12: CREATE or MIGRATE stands inside a block.
    MustBeAlone,
    /// E13: this name stands twice in one list, or means a column of either table.
    NameTwice(Name),
    /// E14: this item of an arm of this new table, counted from 1, may fail on some row.
    MayFail(Name, u32),
    /// E15: the arms of this new table do not give it a key.
    KeyNotInherited(Name),
    /// E16: no table has this name, of which a new one is to be made.
    SourceUnknown(Name),
    /// E17: this table has this many rows, which is more than 2^20.
    TooManyRows(Name, u32),
    /// E18: this many old tables give their rows one by one, which is more than 4.
    UnitLimit(u32),
    /// E19: an index has this name already.
    IndexExists(Name),
}

/// One place of a row that SELECT gives.
#[derive(Debug, Drop, PartialEq, Eq)]
pub enum Cell {
    Value(Value),
    /// The total of no rows, but for COUNT.
    Null,
}

/// Why a transaction ended that neither committed nor was rolled back.
#[derive(Clone, Copy, Debug, PartialEq, Eq)]
pub enum Cause {
    /// It asked for what this older transaction held.
    Died(u64),
    /// The disk failed at its commit.
    DiskFault,
    /// The disk had failed before; this is the count of its faults.
    Halted(u64),
    /// The log's end, and how many bytes its record needs behind it, which are too many.
    LogFull(u64, u64),
    /// Its record needs this many bytes, which are too many for one.
    TooLarge(u64),
}

/// The reply to a statement.
#[derive(Debug, Drop, PartialEq, Eq)]
pub enum Reply {
    Created,
    /// The number of new rows.
    Inserted(u32),
    /// The number of rows that satisfied the condition.
    Updated(u32),
    /// The number of rows that left.
    Deleted(u32),
    Rows(Sequence<Sequence<Cell>>),
    /// The number of new tables.
    Migrated(u8),
    Begun,
    /// The number of the commit.
    Committed(u64),
    RolledBack,
    Refused(Refusal),
    /// The transaction ended by a cause, and all its statements have this reply.
    Ended(Cause),
}

impl Refusal {
    /// An equal refusal.
    pub fn copy(&self, alloc: Global) -> Result<Refusal, Memory>
        ensures { IfOk result (λ copy. copy ≡ self.now) }
    {
        match self {
            Refusal::NoTable(name) => Ok(Refusal::NoTable(name.copy(alloc)?)),
            Refusal::NoColumn(name) => Ok(Refusal::NoColumn(name.copy(alloc)?)),
            Refusal::TypeMismatch => Ok(Refusal::TypeMismatch),
            Refusal::DuplicateKey(key) => Ok(Refusal::DuplicateKey(key.copy(alloc)?)),
            Refusal::OutOfRange => Ok(Refusal::OutOfRange),
            Refusal::TooLong => Ok(Refusal::TooLong),
            Refusal::TableExists(name) => Ok(Refusal::TableExists(name.copy(alloc)?)),
            Refusal::WrongCount => Ok(Refusal::WrongCount),
            Refusal::KeyColumn(name) => Ok(Refusal::KeyColumn(name.copy(alloc)?)),
            Refusal::NoTransaction => Ok(Refusal::NoTransaction),
            Refusal::InTransaction => Ok(Refusal::InTransaction),
            Refusal::MustBeAlone => Ok(Refusal::MustBeAlone),
            Refusal::NameTwice(name) => Ok(Refusal::NameTwice(name.copy(alloc)?)),
            Refusal::MayFail(target, item) => Ok(Refusal::MayFail(target.copy(alloc)?, *item)),
            Refusal::KeyNotInherited(target) => Ok(Refusal::KeyNotInherited(target.copy(alloc)?)),
            Refusal::SourceUnknown(name) => Ok(Refusal::SourceUnknown(name.copy(alloc)?)),
            Refusal::TooManyRows(table, rows) => {
                Ok(Refusal::TooManyRows(table.copy(alloc)?, *rows))
            }
            Refusal::UnitLimit(count) => Ok(Refusal::UnitLimit(*count)),
            Refusal::IndexExists(name) => Ok(Refusal::IndexExists(name.copy(alloc)?)),
        }
    }
}

impl Cell {
    /// An equal cell.
    pub fn copy(&self, alloc: Global) -> Result<Cell, Memory>
        ensures { IfOk result (λ copy. copy ≡ self.now) }
    {
        match self {
            Cell::Value(value) => Ok(Cell::Value(value.copy(alloc)?)),
            Cell::Null => Ok(Cell::Null),
        }
    }
}

impl TryClone for Cell {
    fn try_clone(&self, alloc: Global) -> Result<Cell, Memory> {
        self.copy(alloc)
    }
}

impl Reply {
    /// An equal reply.
    pub fn copy(&self, alloc: Global) -> Result<Reply, Memory>
        ensures { IfOk result (λ copy. copy ≡ self.now) }
    {
        match self {
            Reply::Created => Ok(Reply::Created),
            Reply::Inserted(rows) => Ok(Reply::Inserted(*rows)),
            Reply::Updated(rows) => Ok(Reply::Updated(*rows)),
            Reply::Deleted(rows) => Ok(Reply::Deleted(*rows)),
            Reply::Rows(rows) => Ok(Reply::Rows(rows.copy(alloc)?)),
            Reply::Migrated(targets) => Ok(Reply::Migrated(*targets)),
            Reply::Begun => Ok(Reply::Begun),
            Reply::Committed(number) => Ok(Reply::Committed(*number)),
            Reply::RolledBack => Ok(Reply::RolledBack),
            Reply::Refused(refusal) => Ok(Reply::Refused(refusal.copy(alloc)?)),
            Reply::Ended(cause) => Ok(Reply::Ended(*cause)),
        }
    }
}

impl TryClone for Reply {
    fn try_clone(&self, alloc: Global) -> Result<Reply, Memory> {
        self.copy(alloc)
    }
}
