// A script of twelve commits: what is answered, and what the next run finds.
use crate::scenario::{Scenario, Step};

// Three of its transactions are kept, the first without the statement that it was refused, and one goes back.
static STEPS: [Step; 27] = [
    (
        b"CREATE TABLE T (A INTEGER, B INTEGER) ORGANIZE BY (A);",
        b"OK\n",
        1,
    ),
    (
        b"INSERT INTO T VALUES (1, 10), (2, 20);",
        b"2 ROWS INSERTED\n",
        2,
    ),
    (b"INSERT INTO T VALUES (1, 30);", b"1 ROWS INSERTED\n", 3),
    (b"BEGIN;", b"OK\n", 3),
    (b"INSERT INTO T VALUES (3, 40);", b"1 ROWS INSERTED\n", 3),
    (
        b"INSERT INTO T VALUES (4, 50), (5);",
        b"ERROR 35 wrong number of values\n",
        3,
    ),
    (b"UPDATE T SET B = 31 WHERE B = 30;", b"1 ROWS UPDATED\n", 3),
    (b"COMMIT;", b"OK\n", 4),
    (b"DELETE FROM T WHERE A = 1;", b"2 ROWS DELETED\n", 5),
    (b"INSERT INTO T VALUES (4, 50);", b"1 ROWS INSERTED\n", 6),
    (b"BEGIN;", b"OK\n", 6),
    (b"DELETE FROM T;", b"3 ROWS DELETED\n", 6),
    (b"INSERT INTO T VALUES (6, 60);", b"1 ROWS INSERTED\n", 6),
    (b"ROLLBACK;", b"OK\n", 6),
    (b"UPDATE T SET A = 4 WHERE A = 2;", b"1 ROWS UPDATED\n", 7),
    (b"INSERT INTO T VALUES (NULL, 70);", b"1 ROWS INSERTED\n", 8),
    (b"BEGIN;", b"OK\n", 8),
    (b"CREATE TABLE U (C INTEGER) ORGANIZE BY (C);", b"OK\n", 8),
    (b"INSERT INTO U VALUES (80), (81);", b"2 ROWS INSERTED\n", 8),
    (b"DELETE FROM T WHERE A IS NULL;", b"1 ROWS DELETED\n", 8),
    (b"COMMIT;", b"OK\n", 9),
    (b"INSERT INTO T VALUES (3, 90);", b"1 ROWS INSERTED\n", 10),
    (b"BEGIN;", b"OK\n", 10),
    (b"DROP TABLE U;", b"OK\n", 10),
    (b"UPDATE T SET B = B + 1;", b"4 ROWS UPDATED\n", 10),
    (b"COMMIT;", b"OK\n", 11),
    (b"DELETE FROM T WHERE A = 4;", b"2 ROWS DELETED\n", 12),
];

// What the next run is asked.
const QUERY: &[u8] = b"SELECT * FROM T; SELECT * FROM U;";

// What it answers after each number of commits, from 0 on.
static FOUND: [&[u8]; 13] = [
    b"ERROR 21 no table T\nERROR 21 no table U\n",
    b"A|B\n0 ROWS\nERROR 21 no table U\n",
    b"A|B\n1|10\n2|20\n2 ROWS\nERROR 21 no table U\n",
    b"A|B\n1|10\n2|20\n1|30\n3 ROWS\nERROR 21 no table U\n",
    b"A|B\n1|10\n2|20\n1|31\n3|40\n4 ROWS\nERROR 21 no table U\n",
    b"A|B\n2|20\n3|40\n2 ROWS\nERROR 21 no table U\n",
    b"A|B\n2|20\n3|40\n4|50\n3 ROWS\nERROR 21 no table U\n",
    b"A|B\n4|20\n3|40\n4|50\n3 ROWS\nERROR 21 no table U\n",
    b"A|B\n4|20\n3|40\n4|50\nNULL|70\n4 ROWS\nERROR 21 no table U\n",
    b"A|B\n4|20\n3|40\n4|50\n3 ROWS\nC\n80\n81\n2 ROWS\n",
    b"A|B\n4|20\n3|40\n4|50\n3|90\n4 ROWS\nC\n80\n81\n2 ROWS\n",
    b"A|B\n4|21\n3|41\n4|51\n3|91\n4 ROWS\nERROR 21 no table U\n",
    b"A|B\n3|41\n3|91\n2 ROWS\nERROR 21 no table U\n",
];

/// The script of twelve commits.
pub fn twelve_commits() -> Scenario {
    Scenario {
        steps: &STEPS,
        query: QUERY,
        found: &FOUND,
    }
}
