// A script of five commits, each of which changes three record indexes but the last, which drops one: what is answered, and what the
// next run finds.
use crate::scenario::{Scenario, Step};

// Two of the rows exchange their keys and go to another cell; one more is refused for its key.
static STEPS: [Step; 12] = [
    (b"BEGIN;", b"OK\n", 0),
    (
        b"CREATE TABLE T (A INTEGER, B INTEGER, C CHAR(3)) ORGANIZE BY (A);",
        b"OK\n",
        0,
    ),
    (b"CREATE UNIQUE INDEX U ON T (B);", b"OK\n", 0),
    (b"CREATE INDEX V ON T (C DESC, A);", b"OK\n", 0),
    (b"CREATE INDEX W ON T (A, B DESC);", b"OK\n", 0),
    (
        b"INSERT INTO T VALUES (1, 10, 'x'), (2, 20, NULL), (1, 30, 'y');",
        b"3 ROWS INSERTED\n",
        0,
    ),
    (b"COMMIT;", b"OK\n", 1),
    (
        b"UPDATE T SET A = A + 1, B = 40 - B, C = 'z' WHERE A = 1;",
        b"2 ROWS UPDATED\n",
        2,
    ),
    (
        b"INSERT INTO T VALUES (3, 40, 'v'), (3, 20, 'w');",
        b"ERROR 40 duplicate key in U\n",
        2,
    ),
    (b"DELETE FROM T WHERE B = 20;", b"1 ROWS DELETED\n", 3),
    (
        b"INSERT INTO T VALUES (3, 20, 'w');",
        b"1 ROWS INSERTED\n",
        4,
    ),
    (b"DROP INDEX V;", b"OK\n", 5),
];

// What the next run is asked: also for a row with a key that not all commits have, and for the entries of all rows.
const QUERY: &[u8] =
    b"SELECT * FROM T; INSERT INTO T VALUES (4, 20, 'q'); CREATE INDEX V ON T (B, C); DELETE FROM T;";

// What it answers after each number of commits, from 0 on.
static FOUND: [&[u8]; 6] = [
    b"ERROR 21 no table T\nERROR 21 no table T\nERROR 21 no table T\nERROR 21 no table T\n",
    b"A|B|C\n1|10|'x'\n2|20|NULL\n1|30|'y'\n3 ROWS\nERROR 40 duplicate key in U\nERROR 24 index V exists\n3 ROWS DELETED\n",
    b"A|B|C\n2|30|'z'\n2|20|NULL\n2|10|'z'\n3 ROWS\nERROR 40 duplicate key in U\nERROR 24 index V exists\n3 ROWS DELETED\n",
    b"A|B|C\n2|30|'z'\n2|10|'z'\n2 ROWS\n1 ROWS INSERTED\nERROR 24 index V exists\n3 ROWS DELETED\n",
    b"A|B|C\n2|30|'z'\n2|10|'z'\n3|20|'w'\n3 ROWS\nERROR 40 duplicate key in U\nERROR 24 index V exists\n3 ROWS DELETED\n",
    b"A|B|C\n2|30|'z'\n2|10|'z'\n3|20|'w'\n3 ROWS\nERROR 40 duplicate key in U\nOK\n3 ROWS DELETED\n",
];

/// The script of five commits.
pub fn indexed_commits() -> Scenario {
    Scenario {
        steps: &STEPS,
        query: QUERY,
        found: &FOUND,
    }
}
