// Files that run full with record indexes. An extent has two pages.
use crate::scripts::{run_on, sound_on};
use crate::stores::fresh_store;
use std::alloc::Global;
use std::process::Abort;
use std::test::Fail;

// What a script answers where there are at most so many extents. Behind it the pages are sound.
fn said(alloc: Global, extents: u32, script: &[u8]) -> Result<Vec<u8>, Fail> {
    sound_on(alloc, fresh_store(alloc)?, extents, script)
}

// Thirty rows of a cell each, so each in a block of its own. A leaf has room for 4,080 bytes: for thirty entries of each tree but the
// block map, of 132 bytes with a block and of 134 with a place. So six trees are a full root each, in three extents, and 33
// extents are in use, with no page of them left. The next row asks for an extent as its block; then five trees, one after the
// other, ask for two pages each, and so for an extent.
const FILLED: &[u8] = b"CREATE TABLE W (D CHAR(127), C CHAR(127)) ORGANIZE BY (D);
CREATE UNIQUE INDEX U ON W (D);
CREATE INDEX V ON W (D DESC);
CREATE INDEX X ON W (C);
BEGIN;
INSERT INTO W (D) VALUES ('01'), ('02'), ('03'), ('04'), ('05'), ('06'), ('07'), ('08'), ('09'), ('10'), ('11'), ('12'), ('13'), ('14'), ('15'), ('16'), ('17'), ('18'), ('19'), ('20'), ('21'), ('22'), ('23'), ('24'), ('25'), ('26'), ('27'), ('28'), ('29'), ('30');
";

const FILLED_SAID: &[u8] = b"OK
OK
OK
OK
OK
30 ROWS INSERTED
";

const ONE_MORE: &[u8] = b"INSERT INTO W VALUES ('31', 'x')";

// The row is refused where it is tried again too, and not for its key. In the place of another it finds room in all trees.
const REFUSED: &[u8] = b"INSERT INTO W VALUES ('31', 'x');
INSERT INTO W VALUES ('32', 'x'), ('30', 'x');
INSERT INTO W VALUES ('31', 'x');
LIST BLOCKS W;
SELECT COUNT(*), COUNT(C) FROM W;
UPDATE W SET C = 'y' WHERE D > '28';
DELETE FROM W WHERE D = '05';
INSERT INTO W VALUES ('31', 'x');
INSERT INTO W VALUES ('31', 'y');
UPDATE W SET D = '05' WHERE D > '29' AND C = 'x';
LIST BLOCKS W;
COMMIT;
INSERT INTO W VALUES ('31', 'x');
SELECT D FROM W WHERE C IS NOT NULL";

const SAID_BETWEEN: &[u8] = b"USED 30 FREE 0 PENDING 0
COUNT(*)|COUNT(C)
30|0
1 ROWS
2 ROWS UPDATED
1 ROWS DELETED
1 ROWS INSERTED
ERROR 40 duplicate key in U
1 ROWS UPDATED
USED 30 FREE 0 PENDING 0
OK
";

const SAID_AT_LAST: &[u8] = b"D
'29'
'30'
'05'
3 ROWS
";

// The pieces of a text, one after the other.
fn joined(alloc: Global, pieces: &[&[u8]]) -> Result<Vec<u8>, Fail> {
    let mut text = Vec::new(alloc);
    for piece in pieces {
        text.extend_from_slice(piece)?;
    }
    Ok(text)
}

// One row more runs full where there are so many extents, and leaves all as it was.
fn runs_full(rt: &(impl Abort + AllocGlobal), extents: u32, full: &[u8]) -> Result<(), Fail> {
    let alloc = rt.alloc();
    let duplicate = b"ERROR 40 duplicate key in U\n";
    let replies = [
        FILLED_SAID,
        full,
        duplicate,
        full,
        SAID_BETWEEN,
        full,
        SAID_AT_LAST,
    ];
    let script = joined(alloc, &[FILLED, REFUSED])?;
    assert_eq!(rt;
        said(alloc, extents, &script)?,
        joined(alloc, &replies)?,
        "{extents}"
    );
    Ok(())
}

#[test]
fn a_row_that_runs_full_at_any_of_its_claims_changes_nothing(rt: HostRuntime) -> Result<(), Fail> {
    // its block, the index of all dimensions, that of D, and the three record indexes
    runs_full(&rt, 33, b"ERROR 70 file full at 33 extents\n")?;
    runs_full(&rt, 34, b"ERROR 70 file full at 34 extents\n")?;
    runs_full(&rt, 35, b"ERROR 70 file full at 35 extents\n")?;
    runs_full(&rt, 36, b"ERROR 70 file full at 36 extents\n")?;
    runs_full(&rt, 37, b"ERROR 70 file full at 37 extents\n")?;
    runs_full(&rt, 38, b"ERROR 70 file full at 38 extents\n")?;
    let alloc = rt.alloc();
    let script = joined(alloc, &[FILLED, ONE_MORE])?;
    let replies = joined(alloc, &[FILLED_SAID, b"1 ROWS INSERTED\n"])?;
    assert_eq!(rt; said(alloc, 39, &script)?, replies);
    Ok(())
}

// Four extents: a block each for two cells, and two for the three trees of the table, which leave a page. An index on C has 134 bytes an
// entry, so that its tree takes this page, and asks for two more with the 31st row.
const BUILDING: &[u8] = b"CREATE TABLE W (D INTEGER, N INTEGER, C CHAR(127)) ORGANIZE BY (D);
INSERT INTO W (D, N) VALUES (1, 1), (1, 2), (1, 3), (1, 4), (1, 5), (1, 6), (1, 7), (1, 8), (1, 9), (1, 10), (1, 11), (1, 12), (1, 13), (1, 14), (1, 15), (1, 16), (1, 17), (1, 18), (1, 19), (1, 20), (1, 21), (1, 22), (1, 23), (1, 24), (1, 25), (1, 26), (1, 27), (1, 28), (1, 29), (1, 30), (2, 31);
CREATE INDEX X ON W (C);
DROP INDEX X;
CREATE UNIQUE INDEX X ON W (N DESC);
INSERT INTO W VALUES (1, 31, 'x');
CREATE INDEX Y ON W (D);
DROP INDEX X;
DELETE FROM W WHERE N = 31;
CREATE INDEX Y ON W (C);
INSERT INTO W VALUES (2, 31, 'x');
LIST BLOCKS W;
UPDATE W SET C = 'y' WHERE N < 3;
INSERT INTO W VALUES (1, 31, 'x');
SELECT COUNT(*), COUNT(C) FROM W;
DROP INDEX Y;
INSERT INTO W VALUES (2, 31, 'x');
CREATE UNIQUE INDEX Y ON W (C);
CREATE UNIQUE INDEX X ON W (N)";

const BUILDING_SAID: &[u8] = b"OK
31 ROWS INSERTED
ERROR 70 file full at 4 extents
ERROR 25 no index X
OK
ERROR 40 duplicate key in X
ERROR 70 file full at 4 extents
OK
1 ROWS DELETED
OK
ERROR 70 file full at 4 extents
USED 1 FREE 1 PENDING 0
2 ROWS UPDATED
ERROR 70 file full at 4 extents
COUNT(*)|COUNT(C)
30|2
1 ROWS
OK
1 ROWS INSERTED
ERROR 40 duplicate key in Y
OK
";

#[test]
fn an_index_that_runs_full_is_not_there(rt: HostRuntime) -> Result<(), Fail> {
    assert_eq!(rt; said(rt.alloc(), 4, BUILDING)?.as_slice(), BUILDING_SAID);
    Ok(())
}
