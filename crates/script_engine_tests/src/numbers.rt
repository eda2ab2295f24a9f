// Row numbers that are used up.
use crate::broken::{found_on, is_answered};
use crate::patches::bytes_at;
use crate::stores::fresh_store;
use std::alloc::Global;
use std::test::Fail;

// The table's page is page 1.
const ONE_ROW: &[u8] = b"CREATE TABLE T (A INTEGER NOT NULL, B INTEGER) ORGANIZE BY (A);
INSERT INTO T VALUES (1, 10)";

// Where the number of the next row stands in a table's page.
const NEXT: usize = 22;

// Whether a script is so answered on the table, once its next row has this number.
fn answers_from(
    alloc: Global,
    next: &'static [u8],
    script: &[u8],
    replies: &[u8],
) -> Result<bool, Fail> {
    is_answered(alloc, ONE_ROW, &[bytes_at(1, NEXT, next)], script, replies)
}

// 2^64 - 1: there is no number for a row, and other statements go on. What is said against rows comes first.
const NONE_LEFT: &[u8] = b"\xff\xff\xff\xff\xff\xff\xff\xff";

const AT_THE_END: &[u8] = b"INSERT INTO T VALUES (2, 20);
INSERT INTO T VALUES (2, 20), (3, 30);
INSERT INTO T VALUES (2, 20), (NULL, 30);
SELECT * FROM T;
LIST BLOCKS T;
UPDATE T SET A = 5;
DELETE FROM T;
INSERT INTO T VALUES (1, 10);
LIST BLOCKS T;
DROP TABLE T;
CREATE TABLE T (A INTEGER) ORGANIZE BY (A);
INSERT INTO T VALUES (1)";

const AT_THE_END_SAID: &[u8] = b"ERROR 71 row numbers used up at 18446744073709551615
ERROR 71 row numbers used up at 18446744073709551615
ERROR 32 null in A
A|B
1|10
1 ROWS
USED 1 FREE 0 PENDING 0
1 ROWS UPDATED
1 ROWS DELETED
ERROR 71 row numbers used up at 18446744073709551615
USED 0 FREE 1 PENDING 0
OK
OK
1 ROWS INSERTED
";

// 2^64 - 2: there is one for a row, and none for two.
const ONE_LEFT: &[u8] = b"\xff\xff\xff\xff\xff\xff\xff\xfe";

const BEFORE_THE_END: &[u8] = b"INSERT INTO T VALUES (2, 20), (3, 30);
SELECT * FROM T;
LIST BLOCKS T;
BEGIN;
INSERT INTO T VALUES (3, 30);
INSERT INTO T VALUES (4, 40);
SELECT * FROM T;
ROLLBACK;
INSERT INTO T VALUES (0, 20);
INSERT INTO T VALUES (3, 30);
SELECT * FROM T;
LIST BLOCKS T";

const BEFORE_THE_END_SAID: &[u8] = b"ERROR 71 row numbers used up at 18446744073709551614
A|B
1|10
1 ROWS
USED 1 FREE 0 PENDING 0
OK
1 ROWS INSERTED
ERROR 71 row numbers used up at 18446744073709551615
A|B
1|10
3|30
2 ROWS
OK
1 ROWS INSERTED
ERROR 71 row numbers used up at 18446744073709551615
A|B
1|10
0|20
2 ROWS
USED 2 FREE 0 PENDING 0
";

// 2^64 - 3: there are two.
const TWO_LEFT: &[u8] = b"\xff\xff\xff\xff\xff\xff\xff\xfd";

const TWO: &[u8] = b"INSERT INTO T VALUES (2, 20), (3, 30), (4, 40);
INSERT INTO T VALUES (2, 20), (3, 30);
INSERT INTO T VALUES (4, 40)";

const TWO_SAID: &[u8] = b"ERROR 71 row numbers used up at 18446744073709551613
2 ROWS INSERTED
ERROR 71 row numbers used up at 18446744073709551615
";

#[test]
fn row_numbers_are_used_up(rt: HostRuntime) -> Result<(), Fail> {
    let alloc = rt.alloc();
    assert!(rt; answers_from(alloc, NONE_LEFT, AT_THE_END, AT_THE_END_SAID)?);
    assert!(rt; answers_from(alloc, ONE_LEFT, BEFORE_THE_END, BEFORE_THE_END_SAID)?);
    assert!(rt; answers_from(alloc, TWO_LEFT, TWO, TWO_SAID)?);
    Ok(())
}

// What is found by whoever opens the store again.
fn found_from(
    alloc: Global,
    next: &'static [u8],
    script: &[u8],
    last: &[u8],
) -> Result<Vec<u8>, Fail> {
    let patches = [bytes_at(1, NEXT, next)];
    found_on(alloc, fresh_store(alloc)?, ONE_ROW, &patches, script, last)
}

const FOUND: &[u8] = b"A|B
1|10
2|20
2 ROWS
ERROR 71 row numbers used up at 18446744073709551615
";

#[test]
fn the_last_row_number_is_used_once(rt: HostRuntime) -> Result<(), Fail> {
    let alloc = rt.alloc();
    let script = b"INSERT INTO T VALUES (2, 20)";
    let last = b"SELECT * FROM T; INSERT INTO T VALUES (3, 30)";
    assert_eq!(rt;
        found_from(alloc, ONE_LEFT, script, last)?.as_slice(),
        FOUND
    );
    Ok(())
}
