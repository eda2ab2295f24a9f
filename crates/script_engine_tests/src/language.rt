// Statements outside transactions, each committed by itself.
use crate::scripts::{AMPLE, run_on};
use crate::stores::fresh_store;
use std::alloc::Global;
use std::test::Fail;

// What a script on an empty database answers, which is also what its store was told.
fn said(alloc: Global, script: &[u8]) -> Result<Vec<u8>, Fail> {
    let (said, store) = run_on(alloc, fresh_store(alloc)?, AMPLE, script)?;
    if store.told() != said.as_slice() {
        return Err("a reply that wasn't told")?;
    }
    Ok(said)
}

const SALES: &[u8] =
    b"CREATE TABLE SALES (SOLD DATE NOT NULL, REGION CHAR(8), AMOUNT BIGINT) ORGANIZE BY DIMENSIONS (SOLD, (REGION));
INSERT INTO SALES VALUES ('2003-01-31', 'NORTH', 250), ('2003-02-01', 'it''s', NULL);
INSERT INTO SALES (AMOUNT, SOLD) VALUES (7, DATE '2003-02-28'), (DEFAULT, '2003-03-01');
SELECT REGION, AMOUNT FROM SALES WHERE AMOUNT > 6 AND SOLD < '2003-02-01';
SELECT REGION FROM SALES WHERE AMOUNT NOT IN (5, NULL);
SELECT REGION FROM SALES WHERE REGION = NULL;
SELECT SOLD FROM SALES WHERE REGION IS NULL AND NOT AMOUNT IS NULL;
UPDATE SALES SET AMOUNT = AMOUNT * 2, REGION = 'SOUTH' WHERE REGION = 'NORTH';
SELECT * FROM SALES;
DELETE FROM SALES WHERE SOLD < DATE '2003-02-01';
SELECT SOLD, REGION FROM SALES;
DROP TABLE SALES;
SELECT * FROM SALES;
CREATE TABLE SALES (A INTEGER) ORGANIZE BY (A);
SELECT * FROM SALES";

const SALES_SAID: &[u8] = b"OK
2 ROWS INSERTED
2 ROWS INSERTED
REGION|AMOUNT
'NORTH'|250
1 ROWS
REGION
0 ROWS
REGION
0 ROWS
SOLD
2003-02-28
1 ROWS
1 ROWS UPDATED
SOLD|REGION|AMOUNT
2003-01-31|'SOUTH'|500
2003-02-01|'it''s'|NULL
2003-02-28|NULL|7
2003-03-01|NULL|NULL
4 ROWS
1 ROWS DELETED
SOLD|REGION
2003-02-01|'it''s'
2003-02-28|NULL
2003-03-01|NULL
3 ROWS
OK
ERROR 21 no table SALES
OK
A
0 ROWS
";

#[test]
fn a_table_comes_is_changed_and_goes(rt: HostRuntime) -> Result<(), Fail> {
    assert_eq!(rt; said(rt.alloc(), SALES)?.as_slice(), SALES_SAID);
    Ok(())
}

// Rows change within their cells, then all of them from one cell to another.
const CELLS: &[u8] = b"CREATE TABLE T (A INTEGER, B INTEGER) ORGANIZE BY DIMENSIONS (A);
INSERT INTO T VALUES (1, 10), (2, 20), (1, 30);
UPDATE T SET B = B - 1 WHERE A = 1;
UPDATE T SET A = A + 1;
SELECT * FROM T;
UPDATE T SET A = B, B = A WHERE A = 2;
SELECT B, A FROM T WHERE NOT A = 3;
DELETE FROM T WHERE A IN (9, 3);
INSERT INTO T VALUES (3, 40);
SELECT * FROM T;
DELETE FROM T;
SELECT * FROM T";

const CELLS_SAID: &[u8] = b"OK
3 ROWS INSERTED
2 ROWS UPDATED
3 ROWS UPDATED
A|B
2|9
3|20
2|29
3 ROWS
2 ROWS UPDATED
B|A
2|9
2|29
2 ROWS
2 ROWS DELETED
1 ROWS INSERTED
A|B
29|2
3|40
2 ROWS
2 ROWS DELETED
A|B
0 ROWS
";

#[test]
fn rows_go_from_cell_to_cell(rt: HostRuntime) -> Result<(), Fail> {
    assert_eq!(rt; said(rt.alloc(), CELLS)?.as_slice(), CELLS_SAID);
    Ok(())
}

const REFUSED: &[u8] = b"CREATE TABLE C (K INTEGER NOT NULL, S CHAR(2), L CHAR(4)) ORGANIZE BY (K);
INSERT INTO C VALUES (1, 'ab', 'ab'), (2147483647, NULL, 'abcd');
INSERT INTO C VALUES (5, NULL, NULL), (NULL, 'x', 'y');
INSERT INTO C (S) VALUES ('x');
UPDATE C SET K = K + 1;
UPDATE C SET K = 3, S = L;
UPDATE C SET K = NULL WHERE K = 1;
CREATE TABLE C (A INTEGER) ORGANIZE BY (A);
INSERT INTO C VALUES (3, 'abc', NULL);
SELECT X FROM C;
SELECT FROM C;
SELECT * FROM C;
INSERT INTO C VALUES (3, 'cd', NULL);
SELECT K FROM C WHERE K < 4";

const REFUSED_SAID: &[u8] = b"OK
2 ROWS INSERTED
ERROR 32 null in K
ERROR 32 null in K
ERROR 37 overflow in K
ERROR 33 text too long for S
ERROR 32 null in K
ERROR 20 table C exists
ERROR 33 text too long for S
ERROR 22 no column X
ERROR 10 syntax at byte 8
K|S|L
1|'ab'|'ab'
2147483647|NULL|'abcd'
2 ROWS
1 ROWS INSERTED
K
1
3
2 ROWS
";

#[test]
fn what_is_refused_changes_nothing(rt: HostRuntime) -> Result<(), Fail> {
    assert_eq!(rt; said(rt.alloc(), REFUSED)?.as_slice(), REFUSED_SAID);
    Ok(())
}

const NOT_BUILT: &[u8] = b"CREATE TABLE T (A INTEGER, B INTEGER) ORGANIZE BY (A);
CREATE TABLE G (A INTEGER, B INTEGER GENERATED ALWAYS AS (A/10)) ORGANIZE BY (B);
CLEAN 1 STEPS;
CLEAN TABLE T;
SET CLEANUP PACE 0;
SET CURRENT MDC ROLLOUT MODE DEFERRED;
INSERT INTO T VALUES (1, 2);
SELECT * FROM T";

const NOT_BUILT_SAID: &[u8] = b"OK
ERROR 14 not built
ERROR 14 not built
ERROR 14 not built
ERROR 14 not built
ERROR 14 not built
1 ROWS INSERTED
A|B
1|2
1 ROWS
";

#[test]
fn forms_that_are_not_built_are_refused(rt: HostRuntime) -> Result<(), Fail> {
    assert_eq!(rt; said(rt.alloc(), NOT_BUILT)?.as_slice(), NOT_BUILT_SAID);
    Ok(())
}

// Blocks come with rows, one for each cell, and are left free where their rows go.
const BLOCKS: &[u8] = b"CREATE TABLE T (A INTEGER, B INTEGER) ORGANIZE BY (A);
LIST BLOCKS T;
INSERT INTO T VALUES (NULL, 1), (3, 2);
LIST BLOCKS T;
DROP TABLE T;
LIST BLOCKS T;
CREATE TABLE T (A INTEGER, B INTEGER) ORGANIZE BY (A);
INSERT INTO T VALUES (1, 10);
DELETE FROM T WHERE B = 10;
LIST BLOCKS T;
INSERT INTO T VALUES (9, 5);
LIST BLOCKS T;
LIST BLOCKS U";

const BLOCKS_SAID: &[u8] = b"OK
USED 0 FREE 0 PENDING 0
2 ROWS INSERTED
USED 2 FREE 0 PENDING 0
OK
ERROR 21 no table T
OK
1 ROWS INSERTED
1 ROWS DELETED
USED 0 FREE 1 PENDING 0
1 ROWS INSERTED
USED 1 FREE 0 PENDING 0
ERROR 21 no table U
";

#[test]
fn blocks_are_counted(rt: HostRuntime) -> Result<(), Fail> {
    assert_eq!(rt; said(rt.alloc(), BLOCKS)?.as_slice(), BLOCKS_SAID);
    Ok(())
}

const INDEXED: &[u8] = b"CREATE TABLE P (A INTEGER, B INTEGER) ORGANIZE BY (A);
CREATE INDEX V ON P (B DESC, A);
CREATE INDEX V ON P (A);
DROP INDEX V;
DROP INDEX V;
CREATE UNIQUE INDEX U ON P (B);
INSERT INTO P VALUES (1, 1), (1, 2);
UPDATE P SET B = 3 - B;
UPDATE P SET B = 7;
SELECT * FROM P;
INSERT INTO P VALUES (5, NULL), (6, NULL);
INSERT INTO P VALUES (5, NULL);
INSERT INTO P VALUES (6, NULL);
INSERT INTO P VALUES (6, 1);
DELETE FROM P WHERE B = 1;
INSERT INTO P VALUES (1, 1);
CREATE UNIQUE INDEX W ON P (A);
DELETE FROM P WHERE A = 1;
CREATE UNIQUE INDEX W ON P (A);
UPDATE P SET A = A + 1;
INSERT INTO P VALUES (6, 8);
DROP TABLE P;
DROP INDEX U";

const INDEXED_SAID: &[u8] = b"OK
OK
ERROR 24 index V exists
OK
ERROR 25 no index V
OK
2 ROWS INSERTED
2 ROWS UPDATED
ERROR 40 duplicate key in U
A|B
1|2
1|1
2 ROWS
ERROR 40 duplicate key in U
1 ROWS INSERTED
ERROR 40 duplicate key in U
ERROR 40 duplicate key in U
1 ROWS DELETED
1 ROWS INSERTED
ERROR 40 duplicate key in W
2 ROWS DELETED
OK
1 ROWS UPDATED
ERROR 40 duplicate key in W
OK
ERROR 25 no index U
";

#[test]
fn keys_are_judged_as_the_statement_leaves_rows(rt: HostRuntime) -> Result<(), Fail> {
    assert_eq!(rt; said(rt.alloc(), INDEXED)?.as_slice(), INDEXED_SAID);
    Ok(())
}
