//! Migrations whose rows move by values: groups with their totals, and pairs of rows.

use crate::settings::{Case, Setting, expect_covers};
use std::test::Fail;

const TOTALS: Setting = (
    "CREATE TABLE ord (id INT, cust INT, amt INT CHECK (amt BETWEEN 0 AND 1000), \
PRIMARY KEY (id)); \
INSERT INTO ord VALUES (1, 7, 10), (2, 7, 30), (3, 8, 5), (4, 9, 50);",
    "MIGRATE (CREATE TABLE tot AS SELECT cust, COUNT(*) AS cnt, SUM(amt) AS total \
FROM ord GROUP BY cust)",
);

/// What is said of a total counts as true, and with it the whole conjunct that it stands in.
const OF_TOTALS: [Case; 8] = [
    (
        "SELECT * FROM tot WHERE total > 30 AND cust < 9",
        "0:(7) 0:(8)",
    ),
    ("SELECT * FROM tot WHERE total > 1000", "0:(7) 0:(8) 0:(9)"),
    ("DELETE FROM tot WHERE cnt = 99", "0:(7) 0:(8) 0:(9)"),
    (
        "SELECT * FROM tot WHERE total > 1000 OR cust = 7",
        "0:(7) 0:(8) 0:(9)",
    ),
    (
        "SELECT * FROM tot WHERE NOT (cnt > 5 OR cust = 7)",
        "0:(7) 0:(8) 0:(9)",
    ),
    (
        "SELECT * FROM tot WHERE NOT cnt > 5 AND NOT cust = 7",
        "0:(8) 0:(9)",
    ),
    (
        "SELECT * FROM tot WHERE NOT (cust = 7 OR cust = 8)",
        "0:(9)",
    ),
    ("SELECT * FROM tot WHERE cust = 8 AND total = 0", "0:(8)"),
];

const OF_GROUPS: [Case; 7] = [
    ("SELECT * FROM tot WHERE cust = 8", "0:(8)"),
    ("SELECT * FROM tot WHERE cust = 5", ""),
    ("UPDATE tot SET cnt = 0 WHERE cust > 7", "0:(8) 0:(9)"),
    ("SELECT cust FROM tot", "0:(7) 0:(8) 0:(9)"),
    (
        "INSERT INTO tot VALUES (9, 1, 1), (11, 1, 1), (7, 1, 1)",
        "0:(7) 0:(9)",
    ),
    ("INSERT INTO tot VALUES (11, 1, 1)", ""),
    ("SELECT * FROM ord", "nothing"),
];

/// A group has its value for its key, so a range of the key leaves some of the groups.
const OF_RANGES: [Case; 7] = [
    ("SELECT * FROM tot WHERE cust > 7 AND cust < 9", "0:(8)"),
    (
        "DELETE FROM tot WHERE cust BETWEEN 8 AND 20 AND cnt = 99",
        "0:(8) 0:(9)",
    ),
    ("UPDATE tot SET cnt = 0 WHERE 8 >= cust", "0:(7) 0:(8)"),
    ("SELECT COUNT(*) FROM tot WHERE cust <= 7", "0:(7)"),
    ("SELECT * FROM tot WHERE cust < 7", ""),
    ("SELECT * FROM tot WHERE cust > 9", ""),
    ("SELECT * FROM tot WHERE cust > 8 AND cust < 8", ""),
];

#[test]
fn groups_move_by_what_is_not_of_totals(rt: HostRuntime) -> Result<(), Fail> {
    let alloc = rt.alloc();
    expect_covers(&rt, alloc, TOTALS, &OF_TOTALS)?;
    expect_covers(&rt, alloc, TOTALS, &OF_GROUPS)?;
    expect_covers(&rt, alloc, TOTALS, &OF_RANGES)
}

const FILTERED: Setting = (
    "CREATE TABLE a (id INT, s VARCHAR(3), x INT, PRIMARY KEY (id)); \
INSERT INTO a VALUES (1, 'p', 5), (2, 'q', 6), (3, 'q', 5), (4, 'p', 5), (5, 'p', 6);",
    "MIGRATE (CREATE TABLE g AS SELECT s, x, COUNT(*) AS n FROM a WHERE id > 1 AND id < 5 \
GROUP BY s, x)",
);

/// The rows of the group of 'p' and 6 are all left out by WHERE.
const OF_FILTERED: [Case; 9] = [
    ("SELECT * FROM g", "0:('p', 5) 0:('q', 5) 0:('q', 6)"),
    ("SELECT * FROM g WHERE s = 'p'", "0:('p', 5)"),
    ("SELECT * FROM g WHERE s = 'p' AND x = 6", ""),
    ("SELECT * FROM g WHERE x = 6 AND n = 0", "0:('q', 6)"),
    ("SELECT * FROM g WHERE s = 'q' AND x < 6", "0:('q', 5)"),
    ("SELECT * FROM g WHERE s = 'p' AND x > 5", ""),
    ("SELECT * FROM g WHERE s > 'p'", "0:('q', 5) 0:('q', 6)"),
    (
        "INSERT INTO g VALUES ('p', 6, 1), ('q', 6, 1)",
        "0:('q', 6)",
    ),
    (
        "MIGRATE (CREATE TABLE h AS SELECT s, x FROM g)",
        "0:('p', 5) 0:('p', 6) 0:('q', 5) 0:('q', 6)",
    ),
];

#[test]
fn a_group_without_a_row_moves_for_a_migration_alone(rt: HostRuntime) -> Result<(), Fail> {
    expect_covers(&rt, rt.alloc(), FILTERED, &OF_FILTERED)
}

const PAIRS: Setting = (
    "CREATE TABLE a (aid INT, v INT, PRIMARY KEY (aid)); \
CREATE TABLE b (bid INT, v INT, PRIMARY KEY (bid)); \
INSERT INTO a VALUES (1, 5), (2, 6), (3, 7); INSERT INTO b VALUES (1, 5), (2, 5), (3, 9), (4, 7);",
    "MIGRATE (CREATE TABLE j AS SELECT aid, bid, a.v FROM a JOIN b ON a.v = b.v)",
);

/// The values 6 and 9 stand on one side alone.
const OF_PAIRS: [Case; 11] = [
    ("SELECT * FROM j WHERE aid = 1 AND bid = 2", "0:(5)"),
    ("SELECT * FROM j WHERE aid = 2 AND bid = 3", ""),
    ("SELECT * FROM j", "0:(5) 0:(7)"),
    ("SELECT * FROM j WHERE v > 5", "0:(7)"),
    ("SELECT * FROM j WHERE v = 6", ""),
    ("UPDATE j SET v = 0 WHERE aid < 3", "0:(5)"),
    ("DELETE FROM j WHERE bid = 4", "0:(7)"),
    ("INSERT INTO j VALUES (1, 1, 5), (1, 2, 5)", "0:(5)"),
    (
        "INSERT INTO j VALUES (3, 4, 0), (2, 3, 6), (1, 2, 5)",
        "0:(5) 0:(7)",
    ),
    ("INSERT INTO j VALUES (1, 3, 5)", ""),
    (
        "MIGRATE (CREATE TABLE k AS SELECT aid, bid FROM j)",
        "0:(5) 0:(6) 0:(7) 0:(9)",
    ),
];

#[test]
fn pairs_move_by_the_values_of_both_sides(rt: HostRuntime) -> Result<(), Fail> {
    expect_covers(&rt, rt.alloc(), PAIRS, &OF_PAIRS)
}
