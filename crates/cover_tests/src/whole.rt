//! A MIGRATE behind another, which needs all granules, and none where the catalog refuses it; and
//! the numbers of covers.

use crate::settings::{Case, Setting, expect_covers, expect_told};
use crate::told::Part;
use std::test::Fail;

const MIXED: Setting = (
    "CREATE TABLE cust (id INT, name VARCHAR(20), PRIMARY KEY (id)); \
CREATE TABLE ord (id INT, c INT, PRIMARY KEY (id)); \
INSERT INTO cust VALUES (1, 'Ann'), (2, 'Bob'); \
INSERT INTO ord VALUES (1, 2), (2, 7), (3, 2);",
    "MIGRATE (CREATE TABLE num AS SELECT c, COUNT(*) AS n FROM ord GROUP BY c; \
CREATE TABLE pub AS SELECT id, name FROM cust)",
);

/// Rows come before groups, whatever the order of the tables.
const BEHIND: [Case; 8] = [
    (
        "MIGRATE (CREATE TABLE pub AS SELECT id, name || '!' AS name FROM pub)",
        "0:0 0:1 1:(2) 1:(7)",
    ),
    (
        "CREATE TABLE far (id INT, PRIMARY KEY (id)); \
MIGRATE (CREATE TABLE near AS SELECT id FROM far)",
        "0:0 0:1 1:(2) 1:(7)",
    ),
    (
        "MIGRATE (CREATE TABLE far AS SELECT id FROM near)",
        "nothing",
    ),
    (
        "MIGRATE (CREATE TABLE far AS SELECT id FROM cust)",
        "nothing",
    ),
    (
        "MIGRATE (CREATE TABLE num AS SELECT id FROM pub)",
        "nothing",
    ),
    ("SELECT * FROM num WHERE c < 9 AND n = 1", "1:(2) 1:(7)"),
    ("SELECT * FROM pub WHERE id < 9", "0:0 0:1"),
    ("INSERT INTO num VALUES (7, 1)", "1:(7)"),
];

#[test]
fn a_second_migration_needs_all(rt: HostRuntime) -> Result<(), Fail> {
    expect_covers(&rt, rt.alloc(), MIXED, &BEHIND)
}

const REFUSED_BEFORE: Setting = (
    "CREATE TABLE p (id INT, x INT, PRIMARY KEY (id)); \
CREATE TABLE q (id INT, x INT CHECK (x BETWEEN 0 AND 9), PRIMARY KEY (id)); \
MIGRATE (CREATE TABLE p2 AS SELECT id, x + 1 AS y FROM p);",
    "MIGRATE (CREATE TABLE q2 AS SELECT id, x + 1 AS y FROM q)",
);

/// The first MIGRATE may fail and is refused, so p stays; q has no rows.
const WITHOUT_ROWS: [Case; 6] = [
    ("INSERT INTO p VALUES (1, 9223372036854775807)", "nothing"),
    ("UPDATE p SET x = x + 1", "nothing"),
    ("SELECT * FROM p", "nothing"),
    ("SELECT * FROM q2", ""),
    ("INSERT INTO q2 VALUES (1, 1)", ""),
    ("MIGRATE (CREATE TABLE q3 AS SELECT id, y FROM q2)", ""),
];

#[test]
fn a_migration_without_rows_has_nothing_to_move(rt: HostRuntime) -> Result<(), Fail> {
    expect_covers(&rt, rt.alloc(), REFUSED_BEFORE, &WITHOUT_ROWS)
}

/// Two tables, the flip, and what changes the schema behind it.
const NUMBERED: [Case; 4] = [
    ("SELECT * FROM pub", "catalog 3 migration 1"),
    (
        "CREATE INDEX by_name ON pub (name); INSERT INTO pub VALUES (3, 'Cy'); SELECT * FROM pub",
        "catalog 4 migration 1",
    ),
    ("SELECT * FROM cust", "catalog 3 migration 1"),
    (
        "MIGRATE (CREATE TABLE num AS SELECT id FROM pub); \
MIGRATE (CREATE TABLE pub AS SELECT id FROM pub)",
        "catalog 3 migration 1",
    ),
];

const NUMBERED_ALONE: [Case; 2] = [
    ("SELECT * FROM pub", "catalog 3 migration 0"),
    (
        "MIGRATE (CREATE TABLE pub AS SELECT id FROM pub)",
        "catalog 3 migration 0",
    ),
];

#[test]
fn a_cover_has_the_numbers_of_catalog_and_migration(rt: HostRuntime) -> Result<(), Fail> {
    let alloc = rt.alloc();
    expect_told(&rt, alloc, Part::Numbers, MIXED, &NUMBERED)?;
    expect_told(&rt, alloc, Part::NumbersAlone, MIXED, &NUMBERED_ALONE)
}
