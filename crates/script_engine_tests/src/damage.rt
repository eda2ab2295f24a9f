// Statements on pages that are broken: which damage they stop at, and what they don't meet.
use crate::broken::{damage_of, found_on, is_answered, tried};
use crate::patches::{Patch, bytes_at};
use crate::stores::fresh_store;
use std::process::Abort;
use std::test::Fail;
use store_api::Damage;

// T is the table of docs/FORMAT.md's picture, with a column more. Its block map is page 18, its index of A and R page 19, that of A
// page 20 and that of R page 21; block 2 has the pages 22 and 23, block 3 24 and 25, block 4 26 and 27. A row has 22 bytes, and a
// page 184 slots. U has the pages 28 to 30 and its rows in the blocks 7 and 8, of which the first has the pages 32 and 33. The record
// index V of T is page 31.
const TABLES: &[u8] = b"CREATE TABLE T (A INTEGER, R INTEGER, B INTEGER) ORGANIZE BY (A, R);
INSERT INTO T VALUES (1, 7, 10), (2, 7, 20), (1, 7, 30), (NULL, 9, 40);
CREATE TABLE U (X INTEGER) ORGANIZE BY (X);
INSERT INTO U VALUES (1), (2);
CREATE INDEX V ON T (B)";

// On the broken tables a statement stops at the damage that is named. It comes behind one that is answered, and its own reply isn't
// told.
fn stops(
    rt: &(impl Abort + AllocGlobal),
    patches: &[Patch],
    script: &[u8],
    named: Option<Damage>,
) -> Result<(), Fail> {
    let alloc = rt.alloc();
    let mut all = Vec::from_slice(alloc, b"INSERT INTO U VALUES (3); ")?;
    all.extend_from_slice(script)?;
    let came = tried(alloc, TABLES, patches, all.as_slice())?;
    let first = b"1 ROWS INSERTED\n".as_slice();
    assert_eq!(rt; came.said.as_slice(), first, "{}", script.escape_ascii());
    assert_eq!(rt; came.damage, named, "{}", script.escape_ascii());
    Ok(())
}

// On the broken tables a script meets no damage, and is answered so.
fn goes_on(
    rt: &(impl Abort + AllocGlobal),
    patches: &[Patch],
    script: &[u8],
    replies: &[u8],
) -> Result<(), Fail> {
    let came = tried(rt.alloc(), TABLES, patches, script)?;
    assert_eq!(rt; came.damage, None, "{}", script.escape_ascii());
    assert_eq!(rt; came.said.as_slice(), replies, "{}", script.escape_ascii());
    Ok(())
}

// A DELETE by whole blocks reads none where it sweeps the record index.
#[test]
fn what_reads_a_row_page_without_its_letters_stops(rt: HostRuntime) -> Result<(), Fail> {
    let broken = [bytes_at(22, 0, b"S")];
    let named = damage_of(7, 22);
    stops(&rt, &broken, b"SELECT * FROM T", named)?;
    stops(&rt, &broken, b"SELECT B FROM T WHERE R = 7", named)?;
    stops(&rt, &broken, b"INSERT INTO T VALUES (1, 7, 50)", named)?;
    stops(&rt, &broken, b"UPDATE T SET B = 0 WHERE A = 1", named)?;
    stops(&rt, &broken, b"DELETE FROM T WHERE A < 3 AND B > 5", named)?;
    let swept = b"DELETE FROM T WHERE A < 3";
    goes_on(&rt, &broken, swept, b"3 ROWS DELETED\n")?;
    Ok(())
}

// Statements on the rows of other blocks of the table, and LIST BLOCKS.
const OTHER_BLOCKS: &[u8] = b"LIST BLOCKS T;
SELECT B FROM T WHERE A = 2;
INSERT INTO T VALUES (2, 7, 50), (5, 5, 60);
UPDATE T SET B = 70 WHERE A = 5;
DELETE FROM T WHERE B < 30 AND A = 2;
SELECT A, B FROM T WHERE A > 1;
DELETE FROM T WHERE A > 2;
LIST BLOCKS T";

const OTHER_BLOCKS_SAID: &[u8] = b"USED 3 FREE 0 PENDING 0
B
20
1 ROWS
2 ROWS INSERTED
1 ROWS UPDATED
1 ROWS DELETED
A|B
2|50
5|70
2 ROWS
1 ROWS DELETED
USED 3 FREE 1 PENDING 0
";

// The second page has no row, so that what reads all rows of the block doesn't look at it either.
#[test]
fn a_page_that_a_statement_does_not_read_is_not_met(rt: HostRuntime) -> Result<(), Fail> {
    let first = [bytes_at(22, 0, b"S")];
    goes_on(&rt, &first, OTHER_BLOCKS, OTHER_BLOCKS_SAID)?;
    let second = [bytes_at(23, 1, b"S")];
    goes_on(&rt, &second, OTHER_BLOCKS, OTHER_BLOCKS_SAID)?;
    let insert = b"INSERT INTO T VALUES (1, 7, 50)";
    goes_on(&rt, &second, insert, b"1 ROWS INSERTED\n")?;
    let read = b"SELECT B FROM T WHERE A = 1";
    goes_on(&rt, &second, read, b"B\n10\n30\n2 ROWS\n")?;
    Ok(())
}

// What reads the rows of a page counts them. Where both pages state that they are full, no place is left for a row that the block map
// has room for.
#[test]
fn what_needs_the_stated_rows_of_a_page_stops(rt: HostRuntime) -> Result<(), Fail> {
    let full = [bytes_at(22, 5, b"\xb8"), bytes_at(23, 5, b"\xb8")];
    let insert = b"INSERT INTO T VALUES (1, 7, 50)";
    stops(&rt, &full, insert, damage_of(7, 22))?;
    goes_on(&rt, &full, OTHER_BLOCKS, OTHER_BLOCKS_SAID)?;
    let one = [bytes_at(22, 5, b"\xb8")];
    goes_on(&rt, &one, insert, b"1 ROWS INSERTED\n")?;
    stops(&rt, &one, b"SELECT * FROM T", damage_of(7, 22))?;
    stops(&rt, &one, b"SELECT B FROM T WHERE A = 1", damage_of(7, 22))?;
    stops(
        &rt,
        &one,
        b"UPDATE T SET B = 0 WHERE B <> 99",
        damage_of(7, 22),
    )?;
    stops(&rt, &one, b"DELETE FROM T WHERE B <> 99", damage_of(7, 22))?;
    Ok(())
}

// The line of block 2 has its count at 21 of page 18. With another number of rows than there are, what reads them stops, and so does
// what takes another number of entries out of a record index. Where there is none, a DELETE by whole blocks counts by the line.
#[test]
fn a_block_with_fewer_rows_than_it_has_stops_what_reads_them(rt: HostRuntime) -> Result<(), Fail> {
    let fewer = [bytes_at(18, 22, b"\x01")];
    let named = damage_of(8, 22);
    stops(&rt, &fewer, b"SELECT * FROM T", named)?;
    stops(&rt, &fewer, b"SELECT B FROM T WHERE R = 7", named)?;
    stops(&rt, &fewer, b"DELETE FROM T WHERE A = 1 AND B < 50", named)?;
    stops(&rt, &fewer, b"DELETE FROM T WHERE B < 50", named)?;
    stops(&rt, &fewer, b"UPDATE T SET A = 5 WHERE A = 1", named)?;
    stops(&rt, &fewer, b"DELETE FROM T WHERE A = 1", named)?;
    let by_line = b"DROP INDEX V; DELETE FROM T WHERE A = 1";
    goes_on(&rt, &fewer, by_line, b"OK\n1 ROWS DELETED\n")?;
    goes_on(&rt, &fewer, OTHER_BLOCKS, OTHER_BLOCKS_SAID)?;
    Ok(())
}

// The second row of block 2 has its A at 71 of page 22.
#[test]
fn a_row_of_another_cell_stops_what_reads_its_block(rt: HostRuntime) -> Result<(), Fail> {
    let moved = [bytes_at(22, 74, b"\x03")];
    let named = damage_of(9, 22);
    stops(&rt, &moved, b"SELECT * FROM T", named)?;
    stops(&rt, &moved, b"SELECT B FROM T WHERE R = 7", named)?;
    stops(&rt, &moved, b"UPDATE T SET B = 0 WHERE A = 1", named)?;
    stops(&rt, &moved, b"DELETE FROM T WHERE B <> 99", named)?;
    goes_on(&rt, &moved, OTHER_BLOCKS, OTHER_BLOCKS_SAID)?;
    Ok(())
}

// A row has 780 bytes, so a page has five and a block ten: block 2 is full.
const FULL: &[u8] =
    b"CREATE TABLE W (D INTEGER, K INTEGER, X CHAR(254), Y CHAR(254), Z CHAR(254)) ORGANIZE BY (D);
INSERT INTO W (D, K) VALUES (1, 1), (1, 2), (1, 3), (1, 4), (1, 5), (1, 6), (1, 7), (1, 8), (1, 9), (1, 10)";

// Its line says that there is room for one more.
#[test]
fn a_full_block_with_room_by_its_line_stops_what_puts_a_row(rt: HostRuntime) -> Result<(), Fail> {
    let alloc = rt.alloc();
    let nine = [bytes_at(18, 22, b"\x09")];
    let came = tried(
        alloc,
        FULL,
        &nine,
        b"INSERT INTO W (D, K) VALUES (2, 1); INSERT INTO W (D, K) VALUES (2, 2), (1, 11)",
    )?;
    assert_eq!(rt; came.damage, damage_of(8, 22));
    assert_eq!(rt; came.said.as_slice(), b"1 ROWS INSERTED\n".as_slice());
    let list = b"LIST BLOCKS W";
    assert!(rt; is_answered(alloc, FULL, &nine, list, b"USED 1 FREE 0 PENDING 0\n")?);
    Ok(())
}

// The second entry of the index of A and R has its A at 31 of page 19, and its block at 40. The block leaves the indexes with its row
// 1, behind a row that was taken out before. Rows are found by the index of A.
#[test]
fn an_index_with_a_block_under_another_cell_stops_what_frees_it(
    rt: HostRuntime,
) -> Result<(), Fail> {
    let moved = [bytes_at(19, 34, b"\x03")];
    let named = damage_of(10, 19);
    stops(&rt, &moved, b"DELETE FROM T", named)?;
    stops(&rt, &moved, b"DELETE FROM T WHERE R = 7", named)?;
    stops(&rt, &moved, b"UPDATE T SET A = 9 WHERE R = 7", named)?;
    let read = b"SELECT B FROM T WHERE A < 3; SELECT B FROM T; LIST BLOCKS T";
    let said = b"B\n10\n20\n30\n3 ROWS\nB\n10\n20\n30\n40\n4 ROWS\nUSED 3 FREE 0 PENDING 0\n";
    goes_on(&rt, &moved, read, said)?;
    Ok(())
}

// The second entry of the index of A has its A at 26 of page 20. What unlists its block stops, and what finds rows by it misses them.
#[test]
fn an_index_of_a_dimension_stops_what_frees_a_block(rt: HostRuntime) -> Result<(), Fail> {
    let moved = [bytes_at(20, 29, b"\x03")];
    stops(&rt, &moved, b"DELETE FROM T WHERE A = 2", damage_of(10, 20))?;
    let other =
        b"SELECT B FROM T WHERE A = 2; INSERT INTO T VALUES (2, 7, 50); SET PLAN SCAN; UPDATE T SET B = 0 WHERE A = 2";
    let said = b"B\n0 ROWS\n1 ROWS INSERTED\nOK\n2 ROWS UPDATED\n";
    goes_on(&rt, &moved, other, said)?;
    Ok(())
}

// Under the cell of (2, 7) is block 11, which is free, or block 7, which is one of U. What counts by cells meets it, and so does what
// puts a row into the cell or frees its block; what finds rows by the index of A doesn't.
#[test]
fn an_index_with_a_block_that_is_none_of_the_table_stops(rt: HostRuntime) -> Result<(), Fail> {
    let named = damage_of(10, 19);
    let free = [bytes_at(19, 43, b"\x0b")];
    stops(&rt, &free, b"INSERT INTO T VALUES (2, 7, 50)", named)?;
    stops(&rt, &free, b"SELECT COUNT(*) FROM T WHERE A = 2", named)?;
    let other = [bytes_at(19, 43, b"\x07")];
    stops(&rt, &other, b"INSERT INTO T VALUES (2, 7, 50)", named)?;
    stops(&rt, &other, b"SELECT COUNT(*) FROM T WHERE A = 2", named)?;
    stops(&rt, &other, b"UPDATE T SET R = 8 WHERE A = 2", named)?;
    stops(&rt, &other, b"DELETE FROM T WHERE A = 2", named)?;
    let read = b"SELECT B FROM T WHERE A = 2; UPDATE T SET B = 0 WHERE A = 2";
    goes_on(&rt, &other, read, b"B\n20\n1 ROWS\n1 ROWS UPDATED\n")?;
    Ok(())
}

#[test]
fn a_block_map_that_is_no_node_stops(rt: HostRuntime) -> Result<(), Fail> {
    let broken = [bytes_at(18, 0, b"\x4d")];
    let named = damage_of(4, 18);
    stops(&rt, &broken, b"SELECT * FROM T", named)?;
    stops(&rt, &broken, b"INSERT INTO T VALUES (1, 7, 50)", named)?;
    stops(&rt, &broken, b"UPDATE T SET B = 0 WHERE A = 1", named)?;
    stops(&rt, &broken, b"DELETE FROM T WHERE A = 1", named)?;
    stops(&rt, &broken, b"LIST BLOCKS T", named)?;
    stops(&rt, &broken, b"DROP TABLE T", named)?;
    stops(&rt, &broken, b"SELECT B FROM T WHERE A = 1", named)?;
    Ok(())
}

#[test]
fn an_index_of_cells_that_is_no_node_stops(rt: HostRuntime) -> Result<(), Fail> {
    let broken = [bytes_at(19, 0, b"\x4d")];
    let named = damage_of(4, 19);
    stops(&rt, &broken, b"SELECT COUNT(*) FROM T WHERE A = 1", named)?;
    stops(&rt, &broken, b"INSERT INTO T VALUES (1, 7, 50)", named)?;
    stops(&rt, &broken, b"UPDATE T SET A = 4 WHERE A = 1", named)?;
    stops(&rt, &broken, b"DELETE FROM T", named)?;
    let read = b"SELECT B FROM T; LIST BLOCKS T; UPDATE T SET B = 0 WHERE A = 1";
    let said = b"B\n10\n20\n30\n40\n4 ROWS\nUSED 3 FREE 0 PENDING 0\n2 ROWS UPDATED\n";
    goes_on(&rt, &broken, read, said)?;
    Ok(())
}

// The first entry of V, that of the row with B = 10, has its B at 17 of page 31. Under another key the row isn't found by its own, but
// read all the same, and goes once V is gone.
const BESIDE_AN_ENTRY: &[u8] = b"DELETE FROM T WHERE B = 10;
SELECT B FROM T WHERE B < 20;
UPDATE T SET B = B WHERE A = 1;
INSERT INTO T VALUES (1, 7, 11);
DELETE FROM T WHERE B = 30;
CREATE UNIQUE INDEX W ON T (A, R, B DESC);
DROP INDEX V;
DELETE FROM T WHERE B = 10;
SELECT B FROM T";

const BESIDE_AN_ENTRY_SAID: &[u8] = b"0 ROWS DELETED
B
10
1 ROWS
2 ROWS UPDATED
1 ROWS INSERTED
1 ROWS DELETED
OK
OK
1 ROWS DELETED
B
20
40
11
3 ROWS
";

#[test]
fn a_record_index_without_the_entry_of_a_row_stops_what_takes_it_out(
    rt: HostRuntime,
) -> Result<(), Fail> {
    let moved = [bytes_at(31, 20, b"\x0b")];
    let named = damage_of(11, 31);
    stops(&rt, &moved, b"DELETE FROM T WHERE B < 20", named)?;
    stops(&rt, &moved, b"UPDATE T SET B = 5 WHERE A = 1", named)?;
    stops(&rt, &moved, b"UPDATE T SET R = 8 WHERE R = 7", named)?;
    goes_on(&rt, &moved, BESIDE_AN_ENTRY, BESIDE_AN_ENTRY_SAID)?;
    Ok(())
}

#[test]
fn a_record_index_that_is_no_node_stops(rt: HostRuntime) -> Result<(), Fail> {
    let broken = [bytes_at(31, 0, b"\x4d")];
    let named = damage_of(4, 31);
    stops(&rt, &broken, b"INSERT INTO T VALUES (1, 7, 50)", named)?;
    stops(&rt, &broken, b"UPDATE T SET B = 0 WHERE A = 1", named)?;
    stops(&rt, &broken, b"DELETE FROM T WHERE A = 1", named)?;
    stops(&rt, &broken, b"DROP INDEX V", named)?;
    stops(&rt, &broken, b"DROP TABLE T", named)?;
    let other =
        b"UPDATE T SET B = B; CREATE INDEX W ON T (B); SELECT B FROM T WHERE A < 3; LIST BLOCKS T";
    let said = b"4 ROWS UPDATED\nOK\nB\n10\n20\n30\n3 ROWS\nUSED 3 FREE 0 PENDING 0\n";
    goes_on(&rt, &broken, other, said)?;
    Ok(())
}

// An entry has 128 bytes, and a leaf room for 31 of them. So the index of all dimensions, page 19, is cut with row 31: its lower half
// goes to page 21 or 86, and its upper half to the other. Its root is named.
const DEEP: &[u8] = b"CREATE TABLE D (K CHAR(123), B INTEGER) ORGANIZE BY (K);
INSERT INTO D VALUES ('a', 1), ('b', 2), ('c', 3), ('d', 4), ('e', 5), ('f', 6), ('g', 7), ('h', 8), ('i', 9), ('j', 10), ('k', 11),
('l', 12), ('m', 13), ('n', 14), ('o', 15), ('p', 16), ('q', 17), ('r', 18), ('s', 19), ('t', 20), ('u', 21), ('v', 22), ('w', 23),
('x', 24), ('y', 25), ('z', 26), ('A', 27), ('B', 28), ('C', 29), ('D', 30), ('E', 31), ('F', 32)";

#[test]
fn the_root_of_a_leaf_that_is_no_node_is_named(rt: HostRuntime) -> Result<(), Fail> {
    let alloc = rt.alloc();
    let broken = [bytes_at(86, 0, b"\x4d")];
    let count = b"SELECT COUNT(*) FROM D WHERE K = 'F'";
    let came = tried(alloc, DEEP, &broken, count)?;
    assert_eq!(rt; came.damage, damage_of(4, 19));
    assert!(rt; is_answered(alloc, DEEP, &[], count, b"COUNT(*)\n1\n1 ROWS\n")?);
    let read = b"SELECT B FROM D WHERE K = 'F'";
    assert!(rt; is_answered(alloc, DEEP, &broken, read, b"B\n32\n1 ROWS\n")?);
    Ok(())
}

// What is met is page 26, then page 22, then page 32; what is named is the lowest page of the first rule.
#[test]
fn the_first_rule_and_the_lowest_page_are_named(rt: HostRuntime) -> Result<(), Fail> {
    let two_pages = [bytes_at(26, 0, b"S"), bytes_at(23, 0, b"S")];
    let read = b"SELECT B FROM T WHERE R = 9";
    stops(&rt, &two_pages, read, damage_of(7, 23))?;
    let two_rules = [bytes_at(22, 0, b"S"), bytes_at(20, 0, b"\x4d")];
    stops(&rt, &two_rules, b"SELECT * FROM T", damage_of(4, 20))?;
    let two_tables = [bytes_at(32, 0, b"S"), bytes_at(22, 0, b"S")];
    stops(&rt, &two_tables, b"SELECT * FROM U", damage_of(7, 22))?;
    Ok(())
}

// Statements on the table beside the broken one, in a transaction and outside.
const BESIDE: &[u8] = b"SELECT * FROM U;
INSERT INTO U VALUES (3);
UPDATE U SET X = X + 1 WHERE X = 3;
BEGIN;
DELETE FROM U WHERE X = 1;
LIST BLOCKS U;
ROLLBACK;
DELETE FROM U WHERE X = 2;
LIST BLOCKS U;
SELECT * FROM U;
CREATE TABLE V (Y DATE) ORGANIZE BY (Y);
DROP TABLE U;
LIST BLOCKS U;
INSERT INTO V VALUES ('2003-01-31');
SELECT * FROM V";

const BESIDE_SAID: &[u8] = b"X
1
2
2 ROWS
1 ROWS INSERTED
1 ROWS UPDATED
OK
1 ROWS DELETED
USED 2 FREE 1 PENDING 0
OK
1 ROWS DELETED
USED 2 FREE 1 PENDING 0
X
1
4
2 ROWS
OK
OK
ERROR 21 no table U
1 ROWS INSERTED
Y
2003-01-31
1 ROWS
";

// The statements beside the broken table are answered as if nothing was.
fn goes_on_beside(rt: &(impl Abort + AllocGlobal), patch: Patch) -> Result<(), Fail> {
    goes_on(rt, &[patch], BESIDE, BESIDE_SAID)
}

#[test]
fn a_table_beside_a_broken_one_goes_on(rt: HostRuntime) -> Result<(), Fail> {
    goes_on(&rt, &[], BESIDE, BESIDE_SAID)?;
    goes_on_beside(&rt, bytes_at(22, 0, b"S"))?;
    goes_on_beside(&rt, bytes_at(22, 5, b"\xb8"))?;
    goes_on_beside(&rt, bytes_at(18, 22, b"\x01"))?;
    goes_on_beside(&rt, bytes_at(19, 34, b"\x03"))?;
    goes_on_beside(&rt, bytes_at(18, 0, b"\x4d"))?;
    goes_on_beside(&rt, bytes_at(19, 0, b"\x4d"))?;
    Ok(())
}

// Whoever opens the broken tables again, once a script was run on them, is answered so.
fn finds(
    rt: &(impl Abort + AllocGlobal),
    patches: &[Patch],
    script: &[u8],
    last: &[u8],
    replies: &[u8],
) -> Result<(), Fail> {
    let alloc = rt.alloc();
    let found = found_on(alloc, fresh_store(alloc)?, TABLES, patches, script, last)?;
    assert_eq!(rt; found.as_slice(), replies, "{}", script.escape_ascii());
    Ok(())
}

// A DELETE that stops changes nothing; what was answered stays, unless it was in a transaction.
#[test]
fn what_was_answered_before_a_stop_stays(rt: HostRuntime) -> Result<(), Fail> {
    let fewer = [bytes_at(18, 22, b"\x01")];
    let last = b"SELECT X FROM U; LIST BLOCKS T";
    let script = b"INSERT INTO U VALUES (3); DELETE FROM T WHERE B < 50";
    let said = b"X\n1\n2\n3\n3 ROWS\nUSED 3 FREE 0 PENDING 0\n";
    finds(&rt, &fewer, script, last, said)?;
    let script = b"BEGIN; INSERT INTO U VALUES (3); DELETE FROM T WHERE B < 50";
    let said = b"X\n1\n2\n2 ROWS\nUSED 3 FREE 0 PENDING 0\n";
    finds(&rt, &fewer, script, last, said)?;
    Ok(())
}
