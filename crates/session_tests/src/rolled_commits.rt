// A script of six commits, two of which roll blocks out of a table with a record index and two of which give Free blocks back: what is
// answered, and what the next run finds.
use crate::scenario::{Scenario, Step};

// The last transaction rolls all blocks out and goes back.
static STEPS: [Step; 16] = [
    (b"BEGIN;", b"OK\n", 0),
    (
        b"CREATE TABLE T (A INTEGER, B INTEGER, C INTEGER) ORGANIZE BY (A, B);",
        b"OK\n",
        0,
    ),
    (b"CREATE UNIQUE INDEX U ON T (C);", b"OK\n", 0),
    (b"COMMIT;", b"OK\n", 1),
    (
        b"INSERT INTO T VALUES (1, 1, 10), (1, 2, 20), (2, 1, 30), (2, 2, 40), (1, 1, 50);",
        b"5 ROWS INSERTED\n",
        2,
    ),
    (b"DELETE FROM T WHERE A = 1;", b"3 ROWS DELETED\n", 3),
    (b"REORG TABLE T RECLAIM EXTENTS;", b"OK\n", 4),
    (
        b"INSERT INTO T VALUES (3, 3, 30);",
        b"ERROR 40 duplicate key in U\n",
        4,
    ),
    (
        b"INSERT INTO T VALUES (1, 3, 10), (3, 3, 50);",
        b"2 ROWS INSERTED\n",
        5,
    ),
    (b"BEGIN;", b"OK\n", 5),
    (
        b"DELETE FROM T WHERE B = 3 OR A = 2 AND B = 1;",
        b"3 ROWS DELETED\n",
        5,
    ),
    (b"REORG TABLE T RECLAIM EXTENTS;", b"OK\n", 5),
    (b"COMMIT;", b"OK\n", 6),
    (b"BEGIN;", b"OK\n", 6),
    (b"DELETE FROM T;", b"1 ROWS DELETED\n", 6),
    (b"ROLLBACK;", b"OK\n", 6),
];

// What the next run is asked: for the blocks, for rows by the record index, and for entries of rows that went.
const QUERY: &[u8] =
    b"LIST BLOCKS T; SELECT C FROM T WHERE C > 0; INSERT INTO T VALUES (9, 9, 10), (9, 9, 30);";

// What it answers after each number of commits, from 0 on.
static FOUND: [&[u8]; 7] = [
    b"ERROR 21 no table T\nERROR 21 no table T\nERROR 21 no table T\n",
    b"USED 0 FREE 0 PENDING 0\nC\n0 ROWS\n2 ROWS INSERTED\n",
    b"USED 4 FREE 0 PENDING 0\nC\n10\n20\n30\n40\n50\n5 ROWS\nERROR 40 duplicate key in U\n",
    b"USED 2 FREE 2 PENDING 0\nC\n30\n40\n2 ROWS\nERROR 40 duplicate key in U\n",
    b"USED 2 FREE 0 PENDING 0\nC\n30\n40\n2 ROWS\nERROR 40 duplicate key in U\n",
    b"USED 4 FREE 0 PENDING 0\nC\n30\n40\n10\n50\n4 ROWS\nERROR 40 duplicate key in U\n",
    b"USED 1 FREE 0 PENDING 0\nC\n40\n1 ROWS\n2 ROWS INSERTED\n",
];

/// The script of six commits.
pub fn rolled_commits() -> Scenario {
    Scenario {
        steps: &STEPS,
        query: QUERY,
        found: &FOUND,
    }
}
