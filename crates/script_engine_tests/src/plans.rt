// EXPLAIN: the plan, the blocks that were fetched and the rows that qualify, in each plan mode; and rows that are found in each.
use crate::scripts::answers;
use std::process::Abort;
use std::test::Fail;

// A test on one column of a dimension of two takes the blocks under both of its cells.
const COMPOSITE: &[u8] = b"CREATE TABLE G (A INTEGER, B INTEGER, C INTEGER) ORGANIZE BY (A, (B, C));
INSERT INTO G VALUES (1, 2, 3), (1, 2, 4), (1, 5, 3);
EXPLAIN SELECT * FROM G WHERE B = 2";

const COMPOSITE_SAID: &[u8] = b"OK
3 ROWS INSERTED
PLAN BLOCK
BLOCKS 2
ROWS 2
";

const NO_INDEX: &[u8] = b"CREATE TABLE T (A INTEGER, B INTEGER) ORGANIZE BY DIMENSIONS (A);
INSERT INTO T VALUES (1, 1), (2, 2);
SET PLAN RECORD;
EXPLAIN SELECT * FROM T WHERE A = 1";

const NO_INDEX_SAID: &[u8] = b"OK
2 ROWS INSERTED
OK
PLAN SCAN
BLOCKS 2
ROWS 1
";

const MIXED: &[u8] = b"CREATE TABLE T (A INTEGER, B INTEGER) ORGANIZE BY DIMENSIONS (A);
CREATE INDEX V ON T (B);
INSERT INTO T VALUES (1, 100), (2, 200), (3, 300);
EXPLAIN SELECT * FROM T WHERE A = 1 OR B = 200;
EXPLAIN SELECT * FROM T WHERE A < 3 AND B = 300;
SET PLAN SCAN;
EXPLAIN SELECT * FROM T WHERE A = 1";

const MIXED_SAID: &[u8] = b"OK
OK
3 ROWS INSERTED
PLAN MIXED
BLOCKS 2
ROWS 2
PLAN MIXED
BLOCKS 0
ROWS 0
OK
PLAN SCAN
BLOCKS 3
ROWS 1
";

#[test]
fn the_plan_is_told_with_its_blocks_and_rows(rt: HostRuntime) -> Result<(), Fail> {
    answers(&rt, COMPOSITE, COMPOSITE_SAID)?;
    answers(&rt, NO_INDEX, NO_INDEX_SAID)?;
    answers(&rt, MIXED, MIXED_SAID)?;
    Ok(())
}

// Behind a table of three blocks, of which one has two rows.
const TABLE: &[u8] = b"CREATE TABLE T (A INTEGER, B INTEGER) ORGANIZE BY (A);
CREATE INDEX V ON T (B);
INSERT INTO T VALUES (1, 100), (2, 200), (3, 300), (1, 200);
";

// Behind the table a script is answered so.
fn comes(rt: &(impl Abort + AllocGlobal), script: &[u8], replies: &[u8]) -> Result<(), Fail> {
    let alloc = rt.alloc();
    let mut all = Vec::from_slice(alloc, TABLE)?;
    all.extend_from_slice(script)?;
    let mut said = Vec::from_slice(alloc, b"OK\nOK\n4 ROWS INSERTED\n")?;
    said.extend_from_slice(replies)?;
    answers(rt, all.as_slice(), said.as_slice())
}

const MODES: &[u8] = b"EXPLAIN SELECT * FROM T WHERE A = 1 AND B = 200;
EXPLAIN SELECT * FROM T WHERE B = 200;
EXPLAIN SELECT * FROM T WHERE A = 1 OR B = 300;
SET PLAN BLOCK;
EXPLAIN SELECT * FROM T WHERE A = 1 AND B = 200;
EXPLAIN SELECT * FROM T WHERE B = 200;
EXPLAIN SELECT * FROM T WHERE A = 1 OR B = 300;
SET PLAN RECORD;
EXPLAIN SELECT * FROM T WHERE A = 1 AND B = 200;
EXPLAIN SELECT * FROM T WHERE B = 200;
EXPLAIN SELECT * FROM T WHERE A = 1 OR B = 300;
SET PLAN SCAN;
EXPLAIN SELECT * FROM T WHERE A = 1 AND B = 200;
EXPLAIN SELECT * FROM T WHERE B = 200;
EXPLAIN SELECT * FROM T WHERE A = 1 OR B = 300";

const MODES_SAID: &[u8] = b"PLAN MIXED
BLOCKS 1
ROWS 1
PLAN RECORD
BLOCKS 2
ROWS 2
PLAN MIXED
BLOCKS 2
ROWS 3
OK
PLAN BLOCK
BLOCKS 1
ROWS 1
PLAN SCAN
BLOCKS 3
ROWS 2
PLAN SCAN
BLOCKS 3
ROWS 3
OK
PLAN RECORD
BLOCKS 2
ROWS 1
PLAN RECORD
BLOCKS 2
ROWS 2
PLAN SCAN
BLOCKS 3
ROWS 3
OK
PLAN SCAN
BLOCKS 3
ROWS 1
PLAN SCAN
BLOCKS 3
ROWS 2
PLAN SCAN
BLOCKS 3
ROWS 3
";

const TESTS: &[u8] = b"EXPLAIN SELECT * FROM T;
EXPLAIN SELECT * FROM T WHERE NOT A = 1;
EXPLAIN SELECT * FROM T WHERE NOT B = 200;
EXPLAIN SELECT * FROM T WHERE A IS NULL;
EXPLAIN SELECT * FROM T WHERE B IS NOT NULL AND A BETWEEN 2 AND 3;
EXPLAIN SELECT * FROM T WHERE B BETWEEN 100 AND 200;
EXPLAIN SELECT * FROM T WHERE B IN (100, 300);
EXPLAIN SELECT * FROM T WHERE B = NULL;
EXPLAIN SELECT * FROM T WHERE A = B;
EXPLAIN SELECT * FROM T WHERE NOT (A = 1 AND B = 200);
EXPLAIN SELECT * FROM T WHERE NOT (A = 1 OR B < 300)";

const TESTS_SAID: &[u8] = b"PLAN SCAN
BLOCKS 3
ROWS 4
PLAN BLOCK
BLOCKS 2
ROWS 2
PLAN SCAN
BLOCKS 3
ROWS 2
PLAN BLOCK
BLOCKS 0
ROWS 0
PLAN MIXED
BLOCKS 2
ROWS 2
PLAN RECORD
BLOCKS 2
ROWS 3
PLAN RECORD
BLOCKS 2
ROWS 2
PLAN RECORD
BLOCKS 0
ROWS 0
PLAN SCAN
BLOCKS 3
ROWS 0
PLAN SCAN
BLOCKS 3
ROWS 3
PLAN MIXED
BLOCKS 1
ROWS 1
";

#[test]
fn a_plan_is_that_of_the_mode_and_the_test(rt: HostRuntime) -> Result<(), Fail> {
    comes(&rt, MODES, MODES_SAID)?;
    comes(&rt, TESTS, TESTS_SAID)?;
    Ok(())
}

// Free blocks aren't fetched, work of the open transaction is seen, and a plan mode outlives ROLLBACK and what is refused.
const TURNS: &[u8] = b"DELETE FROM T WHERE A = 2;
EXPLAIN SELECT * FROM T;
BEGIN;
SET PLAN SCAN;
DELETE FROM T WHERE A = 1;
EXPLAIN SELECT * FROM T WHERE B = 300;
ROLLBACK;
EXPLAIN SELECT * FROM T WHERE B = 300;
SET PLAN NONE;
EXPLAIN SELECT * FROM T WHERE A = 3;
SET PLAN AUTO;
SET CURRENT MDC ROLLOUT MODE DEFERRED;
EXPLAIN SELECT * FROM T WHERE A = 3";

const TURNS_SAID: &[u8] = b"1 ROWS DELETED
PLAN SCAN
BLOCKS 2
ROWS 3
OK
OK
2 ROWS DELETED
PLAN SCAN
BLOCKS 1
ROWS 1
OK
PLAN SCAN
BLOCKS 2
ROWS 1
ERROR 10 syntax at byte 10
PLAN SCAN
BLOCKS 2
ROWS 1
OK
ERROR 14 not built
PLAN BLOCK
BLOCKS 1
ROWS 1
";

// It is refused as its query is, but forms no sums; lines that are joined or cut count as the rows that qualify.
const QUERIES: &[u8] = b"EXPLAIN SELECT * FROM U;
EXPLAIN SELECT C FROM T;
EXPLAIN SELECT A FROM T GROUP BY B;
EXPLAIN SELECT * FROM T WHERE A = 'x';
EXPLAIN SELECT * FROM T WHERE A = 9223372036854775808;
EXPLAIN SELECT A, COUNT(*) FROM T WHERE A < 3 GROUP BY A ORDER BY A FETCH FIRST ROW ONLY;
CREATE TABLE B (A BIGINT) ORGANIZE BY (A);
INSERT INTO B VALUES (9223372036854775807), (1);
SELECT SUM(A) FROM B;
EXPLAIN SELECT SUM(A) FROM B";

const QUERIES_SAID: &[u8] = b"ERROR 21 no table U
ERROR 22 no column C
ERROR 27 column A not grouped
ERROR 30 wrong type for A
ERROR 31 out of range for A
PLAN BLOCK
BLOCKS 2
ROWS 3
OK
2 ROWS INSERTED
ERROR 37 overflow in A
PLAN SCAN
BLOCKS 2
ROWS 2
";

#[test]
fn a_plan_is_told_of_what_is_there_now(rt: HostRuntime) -> Result<(), Fail> {
    comes(&rt, TURNS, TURNS_SAID)?;
    comes(&rt, QUERIES, QUERIES_SAID)?;
    Ok(())
}

// Each mode finds the same rows.
const FOUND: &[u8] = b"SELECT * FROM T WHERE A = 1 AND B = 200;
SELECT B, COUNT(*) FROM T WHERE A = 1 OR B = 200 GROUP BY B ORDER BY B;
SELECT COUNT(*) FROM T WHERE A < 3;
SELECT COUNT(*) FROM T WHERE B > 100;
UPDATE T SET B = B + 1 WHERE B = 200 AND A < 3;
SELECT * FROM T WHERE B > 200;
UPDATE T SET A = 3 WHERE A = 1;
SELECT * FROM T WHERE A = 3;
DELETE FROM T WHERE A = 3 AND B < 201;
SELECT * FROM T";

const FOUND_SAID: &[u8] = b"A|B
1|200
1 ROWS
B|COUNT(*)
100|1
200|2
2 ROWS
COUNT(*)
3
1 ROWS
COUNT(*)
3
1 ROWS
2 ROWS UPDATED
A|B
2|201
3|300
1|201
3 ROWS
2 ROWS UPDATED
A|B
3|100
3|300
3|201
3 ROWS
1 ROWS DELETED
A|B
2|201
3|300
3|201
3 ROWS
";

// So it is behind a statement that sets the mode.
fn finds(rt: &(impl Abort + AllocGlobal), setting: &[u8]) -> Result<(), Fail> {
    let alloc = rt.alloc();
    let mut all = Vec::from_slice(alloc, setting)?;
    all.extend_from_slice(FOUND)?;
    let mut said = Vec::from_slice(alloc, b"OK\n")?;
    said.extend_from_slice(FOUND_SAID)?;
    comes(rt, all.as_slice(), said.as_slice())
}

#[test]
fn each_mode_finds_the_same_rows(rt: HostRuntime) -> Result<(), Fail> {
    finds(&rt, b"SET PLAN AUTO;")?;
    finds(&rt, b"SET PLAN BLOCK;")?;
    finds(&rt, b"SET PLAN RECORD;")?;
    finds(&rt, b"SET PLAN SCAN;")?;
    Ok(())
}
