//! Migrations whose rows move row by row: a table split in two, a table whose rows come once for
//! each tag, and two tables under one name.

use crate::settings::{Case, Setting, expect_covers};
use std::test::Fail;

const SPLIT: Setting = (
    "CREATE TABLE cust (id INT, name VARCHAR(20), pin INT, PRIMARY KEY (id)); \
CREATE TABLE stay (id INT, PRIMARY KEY (id)); \
INSERT INTO cust VALUES (1, 'Ann', 11), (2, 'Bob', 22), (3, 'Cy', 33); \
INSERT INTO stay VALUES (1);",
    "MIGRATE (CREATE TABLE pub AS SELECT id, name FROM cust; \
CREATE TABLE priv AS SELECT id, pin FROM cust)",
);

const OF_KEYS: [Case; 6] = [
    ("SELECT * FROM pub WHERE id = 2", "0:1"),
    ("SELECT * FROM pub WHERE id = 4", ""),
    ("DELETE FROM pub WHERE id = 1", "0:0"),
    ("UPDATE priv SET pin = 0 WHERE 3 = id", "0:2"),
    ("SELECT * FROM pub WHERE id = 2 AND name = 'Bob'", "0:1"),
    ("SELECT * FROM pub WHERE id = 2 AND name = 'Ann'", ""),
];

const OF_RANGES: [Case; 9] = [
    ("SELECT * FROM pub", "0:0 0:1 0:2"),
    ("SELECT COUNT(*), SUM(pin) FROM priv", "0:0 0:1 0:2"),
    ("SELECT * FROM pub WHERE id > 1", "0:1 0:2"),
    ("DELETE FROM pub WHERE id BETWEEN 0 AND 2", "0:0 0:1"),
    ("UPDATE priv SET pin = 0 WHERE pin > 11 AND id < 3", "0:1"),
    ("SELECT * FROM pub WHERE name = 'Cy'", "0:2"),
    ("SELECT * FROM pub WHERE id < 1", ""),
    ("SELECT * FROM pub WHERE NOT (id = 1 OR name = 'Cy')", "0:1"),
    ("SELECT * FROM priv WHERE id = 1 OR pin = 33", "0:0 0:2"),
];

const INSERTED: [Case; 5] = [
    ("INSERT INTO pub VALUES (3, 'Zed')", "0:2"),
    ("INSERT INTO pub VALUES (3, 'Zed'), (1, 'Al')", "0:0 0:2"),
    ("INSERT INTO pub VALUES (2, 'Zed'), (2, 'Al')", "0:1"),
    ("INSERT INTO priv VALUES (4, 44), (3, 30), (5, 55)", "0:2"),
    ("INSERT INTO priv VALUES (4, 44)", ""),
];

#[test]
fn a_split_table_moves_by_keys_and_ranges(rt: HostRuntime) -> Result<(), Fail> {
    let alloc = rt.alloc();
    expect_covers(&rt, alloc, SPLIT, &OF_KEYS)?;
    expect_covers(&rt, alloc, SPLIT, &OF_RANGES)?;
    expect_covers(&rt, alloc, SPLIT, &INSERTED)
}

/// What is moved already is in a cover still, so what ran before does not count.
const OTHERS: [Case; 9] = [
    ("SELECT * FROM pub; SELECT * FROM pub WHERE id = 1", "0:0"),
    (
        "DELETE FROM pub WHERE id = 1; SELECT * FROM pub WHERE id = 1",
        "0:0",
    ),
    ("SELECT * FROM stay", "nothing"),
    ("INSERT INTO stay VALUES (2)", "nothing"),
    ("SELECT COUNT(*) FROM cust", "nothing"),
    ("SELECT pin FROM pub", "nothing"),
    ("CREATE TABLE more (id INT, PRIMARY KEY (id))", "nothing"),
    ("CREATE INDEX by_name ON pub (name)", "nothing"),
    ("UPDATE pub SET id = 1", "nothing"),
];

/// Tables of a target's name that have other columns, the same in another order, or another key.
const NAMED_ALIKE: [Case; 4] = [
    (
        "MIGRATE (CREATE TABLE pub AS SELECT id FROM pub); SELECT * FROM pub",
        "nothing",
    ),
    (
        "MIGRATE (CREATE TABLE pub AS SELECT name, id FROM pub); SELECT * FROM pub WHERE id = 1",
        "nothing",
    ),
    (
        "MIGRATE (CREATE TABLE pub AS SELECT name, id FROM pub); INSERT INTO pub VALUES ('Zed', 1)",
        "nothing",
    ),
    (
        "MIGRATE (CREATE TABLE pub AS SELECT name, id FROM pub); SELECT * FROM priv",
        "0:0 0:1 0:2",
    ),
];

#[test]
fn tables_that_are_no_targets_need_nothing(rt: HostRuntime) -> Result<(), Fail> {
    let alloc = rt.alloc();
    expect_covers(&rt, alloc, SPLIT, &OTHERS)?;
    expect_covers(&rt, alloc, SPLIT, &NAMED_ALIKE)
}

const RENAMED: &str =
    "MIGRATE (CREATE TABLE home AS SELECT id, city AS town, pin AS code FROM cust)";

const LISTED: Setting = (
    "CREATE TABLE cust (id INT, city VARCHAR(9), pin INT, PRIMARY KEY (id)); \
CREATE INDEX by_city ON cust (city); \
INSERT INTO cust VALUES (1, 'Rome', 11), (2, 'Oslo', 22), (3, 'Rome', 33), (4, 'Bonn', 11);",
    RENAMED,
);

const UNLISTED: Setting = (
    "CREATE TABLE cust (id INT, city VARCHAR(9), pin INT, PRIMARY KEY (id)); \
INSERT INTO cust VALUES (1, 'Rome', 11), (2, 'Oslo', 22), (3, 'Rome', 33), (4, 'Bonn', 11);",
    RENAMED,
);

/// An index of the old table spares compares, and leaves the cover as it is.
const OF_TOWNS: [Case; 6] = [
    ("SELECT * FROM home WHERE town = 'Rome'", "0:0 0:2"),
    ("UPDATE home SET code = 0 WHERE 'Bonn' = town", "0:3"),
    ("DELETE FROM home WHERE town = 'Rome' AND id > 1", "0:2"),
    (
        "SELECT * FROM home WHERE code = 11 AND town = 'Bonn'",
        "0:3",
    ),
    ("SELECT * FROM home WHERE town = 'Kiel'", ""),
    (
        "SELECT * FROM home WHERE town = 'Rome' OR town = 'Bonn'",
        "0:0 0:2 0:3",
    ),
];

#[test]
fn an_old_index_leaves_the_cover(rt: HostRuntime) -> Result<(), Fail> {
    let alloc = rt.alloc();
    expect_covers(&rt, alloc, LISTED, &OF_TOWNS)?;
    expect_covers(&rt, alloc, UNLISTED, &OF_TOWNS)
}

const TAGGED: Setting = (
    "CREATE TABLE c (id INT, h INT, w INT, PRIMARY KEY (id)); \
INSERT INTO c VALUES (1, 20, 30), (2, 40, 50), (3, 60, 70);",
    "MIGRATE (CREATE TABLE ph AS SELECT 1 AS tag, id, h AS num FROM c \
UNION ALL SELECT 2 AS tag, id, w AS num FROM c)",
);

/// Each row of the old table comes once for each tag, so the tag alone leaves out no granule.
const OF_TAGS: [Case; 11] = [
    ("SELECT * FROM ph", "0:0 0:1 0:2"),
    ("SELECT * FROM ph WHERE tag = 2 AND id = 3", "0:2"),
    ("SELECT * FROM ph WHERE tag = 3 AND id = 3", ""),
    ("SELECT * FROM ph WHERE id > 1", "0:1 0:2"),
    (
        "SELECT * FROM ph WHERE tag = 1 AND id BETWEEN 2 AND 9",
        "0:1 0:2",
    ),
    ("SELECT * FROM ph WHERE tag = 2", "0:0 0:1 0:2"),
    ("SELECT * FROM ph WHERE tag = 3", ""),
    ("SELECT * FROM ph WHERE num = 70", "0:2"),
    ("SELECT * FROM ph WHERE tag = 1 AND num = 70", ""),
    (
        "INSERT INTO ph VALUES (1, 3, 0), (2, 3, 0), (2, 1, 0)",
        "0:0 0:2",
    ),
    ("INSERT INTO ph VALUES (3, 1, 0)", ""),
];

const UNITED: Setting = (
    "CREATE TABLE a (id INT, x INT, PRIMARY KEY (id)); \
CREATE TABLE b (id INT, y INT, PRIMARY KEY (id)); \
INSERT INTO a VALUES (1, 10), (2, 20); INSERT INTO b VALUES (1, 30), (3, 10), (4, 50);",
    "MIGRATE (CREATE TABLE ab AS SELECT 1 AS tag, id, x AS v FROM a \
UNION ALL SELECT 2 AS tag, id, y AS v FROM b WHERE y < 50)",
);

/// Rows of two tables are of two units; a row that WHERE leaves out comes from no granule.
const OF_BOTH: [Case; 8] = [
    ("SELECT * FROM ab", "0:0 0:1 1:0 1:1"),
    ("SELECT * FROM ab WHERE tag = 2", "1:0 1:1"),
    ("SELECT * FROM ab WHERE id < 2", "0:0 1:0"),
    ("SELECT * FROM ab WHERE v = 10", "0:0 1:1"),
    ("SELECT * FROM ab WHERE tag = 1 AND id = 1", "0:0"),
    ("SELECT * FROM ab WHERE tag = 2 AND id = 4", ""),
    (
        "INSERT INTO ab VALUES (2, 3, 0), (2, 4, 0), (1, 2, 0)",
        "0:1 1:1",
    ),
    (
        "MIGRATE (CREATE TABLE cd AS SELECT tag, id FROM ab)",
        "0:0 0:1 1:0 1:1 1:2",
    ),
];

#[test]
fn tagged_tables_move_behind_their_tags(rt: HostRuntime) -> Result<(), Fail> {
    let alloc = rt.alloc();
    expect_covers(&rt, alloc, TAGGED, &OF_TAGS)?;
    expect_covers(&rt, alloc, UNITED, &OF_BOTH)
}
