// A file that runs full.
use crate::hosts::{host_of, small_database};
use crate::runs::{run_script, said_by};
use session::Served;
use std::test::Fail;

// A row has 780 bytes, so a page has five and a block ten. The trees of W and its record index take four index pages in two of the
// sixteen extents, so there are fourteen blocks, and each row with a D of its own takes one.
const SCRIPT: &[u8] =
    b"CREATE TABLE W (D INTEGER, K INTEGER, X CHAR(254), Y CHAR(254), Z CHAR(254)) ORGANIZE BY (D);
CREATE INDEX I ON W (K);
INSERT INTO W (D, K) VALUES (1, 1);
INSERT INTO W (D, K) VALUES (2, 2);
INSERT INTO W (D, K) VALUES (3, 3);
INSERT INTO W (D, K) VALUES (4, 4);
INSERT INTO W (D, K) VALUES (5, 5);
INSERT INTO W (D, K) VALUES (6, 6);
INSERT INTO W (D, K) VALUES (7, 7);
INSERT INTO W (D, K) VALUES (8, 8);
INSERT INTO W (D, K) VALUES (9, 9);
INSERT INTO W (D, K) VALUES (10, 10);
INSERT INTO W (D, K) VALUES (11, 11);
INSERT INTO W (D, K) VALUES (12, 12);
INSERT INTO W (D, K) VALUES (13, 13);
INSERT INTO W (D, K) VALUES (14, 14);
INSERT INTO W (D, K) VALUES (15, 15);
SELECT COUNT(*) FROM W;
CREATE INDEX J ON W (D);
LIST BLOCKS W;
DELETE FROM W WHERE D = 1;
LIST BLOCKS W;
INSERT INTO W (D, K) VALUES (15, 15);
LIST BLOCKS W;";

const SAID: &[u8] = b"OK
OK
1 ROWS INSERTED
1 ROWS INSERTED
1 ROWS INSERTED
1 ROWS INSERTED
1 ROWS INSERTED
1 ROWS INSERTED
1 ROWS INSERTED
1 ROWS INSERTED
1 ROWS INSERTED
1 ROWS INSERTED
1 ROWS INSERTED
1 ROWS INSERTED
1 ROWS INSERTED
1 ROWS INSERTED
ERROR 70 file full at 16 extents
COUNT(*)
14
1 ROWS
ERROR 70 file full at 16 extents
USED 14 FREE 0 PENDING 0
1 ROWS DELETED
USED 13 FREE 1 PENDING 0
1 ROWS INSERTED
USED 14 FREE 0 PENDING 0
";

const ROWS: &[u8] = b"D|K
2|2
3|3
4|4
5|5
6|6
7|7
8|8
9|9
10|10
11|11
12|12
13|13
14|14
15|15
14 ROWS
";

// Ten rows of one cell fill a block, and the eleventh takes another.
const ELEVEN: &[u8] =
    b"CREATE TABLE W (D INTEGER, K INTEGER, X CHAR(254), Y CHAR(254), Z CHAR(254)) ORGANIZE BY (D);
INSERT INTO W (D, K) VALUES (1, 1), (1, 2), (1, 3), (1, 4), (1, 5), (1, 6), (1, 7), (1, 8), (1, 9), (1, 10);
LIST BLOCKS W;
INSERT INTO W (D, K) VALUES (1, 11);
LIST BLOCKS W;";

const SAID_OF_ELEVEN: &[u8] = b"OK
10 ROWS INSERTED
USED 1 FREE 0 PENDING 0
1 ROWS INSERTED
USED 2 FREE 0 PENDING 0
";

#[test]
fn the_eleventh_row_of_a_cell_takes_another_block(rt: HostRuntime) -> Result<(), Fail> {
    let alloc = rt.alloc();
    let file = small_database(alloc)?;
    let (end, host) = run_script(alloc, ELEVEN, host_of(alloc, &file, &[])?)?;
    assert_eq!(rt; end, Ok(Served::AllDone));
    assert_eq!(rt; host.said(), SAID_OF_ELEVEN);
    Ok(())
}

#[test]
fn a_file_has_fourteen_blocks_and_the_next_run_finds_them(rt: HostRuntime) -> Result<(), Fail> {
    let alloc = rt.alloc();
    let file = small_database(alloc)?;
    let (end, host) = run_script(alloc, SCRIPT, host_of(alloc, &file, &[])?)?;
    assert_eq!(rt; end, Ok(Served::SomeRefused));
    assert_eq!(rt; host.said(), SAID);
    let (end, said) = said_by(alloc, b"SELECT D, K FROM W;", host)?;
    assert_eq!(rt; end, Ok(Served::AllDone));
    assert_eq!(rt; said.as_slice(), ROWS);
    Ok(())
}
