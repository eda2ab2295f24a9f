// A database of sixteen extents of two pages, which runs full.
use crate::scripts::{run_on, sound_on};
use crate::stores::fresh_store;
use std::test::Fail;

const EXTENTS: u32 = 16;

// A row has 780 bytes, so a page has five and a block ten. The trees of W take three index pages in two extents, so there are
// fourteen blocks, and each row with a D of its own takes one.
const SCRIPT: &[u8] =
    b"CREATE TABLE W (D INTEGER, K INTEGER, X CHAR(254), Y CHAR(254), Z CHAR(254)) ORGANIZE BY (D);
INSERT INTO W (D, K) VALUES (1, 1), (2, 2), (3, 3), (4, 4), (5, 5), (6, 6), (7, 7), (8, 8), (9, 9), (10, 10), (11, 11), (12, 12), (13, 13);
INSERT INTO W (D, K) VALUES (14, 14), (15, 15);
SELECT D FROM W WHERE D > 12;
INSERT INTO W (D, K) VALUES (14, 14);
INSERT INTO W (D, K) VALUES (15, 15);
CREATE TABLE V (A INTEGER) ORGANIZE BY (A);
INSERT INTO W (D, K) VALUES (14, 140);
UPDATE W SET D = 15 WHERE K = 140;
SELECT D, K FROM W;
UPDATE W SET D = 15 WHERE D = 2;
UPDATE W SET D = 2 WHERE D = 15;
DELETE FROM W WHERE D = 1;
INSERT INTO W (D, K) VALUES (15, 15);
BEGIN;
DELETE FROM W WHERE D = 2;
INSERT INTO W (D, K) VALUES (16, 16), (17, 17);
SELECT D FROM W WHERE D < 4 OR D > 14;
COMMIT;
SELECT D FROM W WHERE D < 4 OR D > 14;
DROP TABLE W;
CREATE TABLE V (A INTEGER) ORGANIZE BY (A)";

const SAID: &[u8] = b"OK
13 ROWS INSERTED
ERROR 70 file full at 16 extents
D
13
1 ROWS
1 ROWS INSERTED
ERROR 70 file full at 16 extents
ERROR 70 file full at 16 extents
1 ROWS INSERTED
ERROR 70 file full at 16 extents
D|K
1|1
2|2
3|3
4|4
5|5
6|6
7|7
8|8
9|9
10|10
11|11
12|12
13|13
14|14
14|140
15 ROWS
1 ROWS UPDATED
1 ROWS UPDATED
1 ROWS DELETED
1 ROWS INSERTED
OK
1 ROWS DELETED
ERROR 70 file full at 16 extents
D
3
15
2 ROWS
OK
D
3
15
2 ROWS
OK
OK
";

#[test]
fn a_statement_that_runs_full_changes_nothing(rt: HostRuntime) -> Result<(), Fail> {
    let alloc = rt.alloc();
    let (said, _) = run_on(alloc, fresh_store(alloc)?, EXTENTS, SCRIPT)?;
    assert_eq!(rt; said.as_slice(), SAID);
    Ok(())
}

// The trees of W and U take six index pages in three extents, so there are thirteen blocks.
const GIVEN_BACK: &[u8] = b"CREATE TABLE W (D INTEGER, K INTEGER) ORGANIZE BY (D);
CREATE TABLE U (X INTEGER) ORGANIZE BY (X);
INSERT INTO W VALUES (1, 1), (2, 2), (3, 3), (4, 4), (5, 5), (6, 6), (7, 7), (8, 8), (9, 9), (10, 10), (11, 11), (12, 12), (13, 13);
INSERT INTO U VALUES (7);
DELETE FROM W WHERE D IN (4, 9);
INSERT INTO U VALUES (7);
BEGIN;
REORG TABLE W RECLAIM EXTENTS;
INSERT INTO U VALUES (7);
ROLLBACK;
INSERT INTO U VALUES (7);
REORG TABLE W RECLAIM EXTENTS;
LIST BLOCKS W;
INSERT INTO U VALUES (7), (8);
INSERT INTO W VALUES (14, 14);
INSERT INTO W VALUES (13, 14);
DELETE FROM W WHERE D < 12;
INSERT INTO W VALUES (14, 14);
LIST BLOCKS W;
SELECT * FROM W";

const GIVEN_BACK_SAID: &[u8] = b"OK
OK
13 ROWS INSERTED
ERROR 70 file full at 16 extents
2 ROWS DELETED
ERROR 70 file full at 16 extents
OK
OK
1 ROWS INSERTED
OK
ERROR 70 file full at 16 extents
OK
USED 11 FREE 0 PENDING 0
2 ROWS INSERTED
ERROR 70 file full at 16 extents
1 ROWS INSERTED
9 ROWS DELETED
1 ROWS INSERTED
USED 3 FREE 8 PENDING 0
D|K
12|12
13|13
13|14
14|14
4 ROWS
";

// A free block serves its own table alone, until it is given back.
#[test]
fn blocks_that_are_given_back_serve_another_table(rt: HostRuntime) -> Result<(), Fail> {
    let alloc = rt.alloc();
    let said = sound_on(alloc, fresh_store(alloc)?, EXTENTS, GIVEN_BACK)?;
    assert_eq!(rt; said.as_slice(), GIVEN_BACK_SAID);
    Ok(())
}
