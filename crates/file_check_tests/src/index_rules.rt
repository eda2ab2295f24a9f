// Rules 10 to 12: block indexes, record indexes, row numbers and unique keys.
use crate::patches::{THREE_CELLS, broken, verdict, verdict_on_cells};
use file_check::Verdict;
use script_engine_tests::bytes_at;
use std::alloc::Global;
use std::test::Fail;

// The row of block 3 has its A at 55 of page 24; the first entry of the index of R has its number from 17 on. Of two indexes that
// lack a block the lower root is named.
#[test]
fn the_root_of_a_wrong_block_index_is_named(rt: HostRuntime) -> Result<(), Fail> {
    let alloc = rt.alloc();
    assert_eq!(rt; verdict_on_cells(alloc, 24, 58, b"\x03")?, broken(10, 19));
    assert_eq!(rt; verdict_on_cells(alloc, 21, 20, b"\x06")?, broken(10, 21));
    let freed = [bytes_at(18, 27, b"\x00"), bytes_at(18, 29, b"\x00")];
    assert_eq!(rt; verdict(alloc, THREE_CELLS, &freed)?, broken(10, 19));
    Ok(())
}

// The next number is 4, and stands at 22 of page 1; the number of the row of block 4 stands at 45 of page 26.
#[test]
fn the_table_page_of_wrong_row_numbers_is_named(rt: HostRuntime) -> Result<(), Fail> {
    let alloc = rt.alloc();
    assert_eq!(rt; verdict_on_cells(alloc, 1, 29, b"\x03")?, broken(12, 1));
    assert_eq!(rt; verdict_on_cells(alloc, 1, 29, b"\x05")?, Verdict::Sound);
    assert_eq!(rt; verdict_on_cells(alloc, 26, 52, b"\x00")?, broken(12, 1));
    Ok(())
}

// A table whose block map is page 18, composite index 19 and index of A 20. Its rows lie in block 2, whose first page is 22; the K of
// the second row stands at 73 there. Its record index is page 21, whose entries begin at 16 and have 11 bytes; the table page says at
// 636 that it is UNIQUE.
const TWO_ROWS: &[u8] = b"CREATE TABLE U (K INTEGER NOT NULL, A INTEGER) ORGANIZE BY (A);
INSERT INTO U VALUES (5, 1), (6, 1);
CREATE UNIQUE INDEX I ON U (K)";

const RIGHT: &[u8] =
    b"\x00\x80\x00\x00\x05\x00\x00\x00\x02\x00\x00\x00\x80\x00\x00\x06\x00\x00\x00\x02\x00\x01";

const OTHER_KEY: &[u8] =
    b"\x00\x80\x00\x00\x05\x00\x00\x00\x02\x00\x00\x00\x80\x00\x00\x07\x00\x00\x00\x02\x00\x01";

const EMPTY_SLOT: &[u8] =
    b"\x00\x80\x00\x00\x05\x00\x00\x00\x02\x00\x00\x00\x80\x00\x00\x06\x00\x00\x00\x02\x00\x02";

const NO_SLOT: &[u8] =
    b"\x00\x80\x00\x00\x05\x00\x00\x00\x02\x00\x00\x00\x80\x00\x00\x06\x00\x00\x00\x02\xff\xff";

const NO_EXTENT: &[u8] =
    b"\x00\x80\x00\x00\x05\x00\x00\x00\x02\x00\x00\x00\x80\x00\x00\x06\x00\x00\xff\xff\x00\x01";

const BOTH_FIVE: &[u8] =
    b"\x00\x80\x00\x00\x05\x00\x00\x00\x02\x00\x00\x00\x80\x00\x00\x05\x00\x00\x00\x02\x00\x01";

// The verdict on the two rows where their index has these entries.
fn verdict_on_index(alloc: Global, entries: &'static [u8]) -> Result<Verdict, Fail> {
    verdict(alloc, TWO_ROWS, &[bytes_at(21, 16, entries)])
}

#[test]
fn the_root_of_a_wrong_record_index_is_named(rt: HostRuntime) -> Result<(), Fail> {
    let alloc = rt.alloc();
    assert_eq!(rt; verdict(alloc, TWO_ROWS, &[])?, Verdict::Sound);
    assert_eq!(rt; verdict_on_index(alloc, RIGHT)?, Verdict::Sound);
    let one_less = [bytes_at(21, 5, b"\x01"), bytes_at(21, 27, &[0; 11])];
    assert_eq!(rt; verdict(alloc, TWO_ROWS, &one_less)?, broken(11, 21));
    assert_eq!(rt; verdict_on_index(alloc, OTHER_KEY)?, broken(11, 21));
    assert_eq!(rt; verdict_on_index(alloc, EMPTY_SLOT)?, broken(11, 21));
    assert_eq!(rt; verdict_on_index(alloc, NO_SLOT)?, broken(11, 21));
    assert_eq!(rt; verdict_on_index(alloc, NO_EXTENT)?, broken(11, 21));
    assert_eq!(rt; verdict_on_index(alloc, BOTH_FIVE)?, broken(11, 21));
    Ok(())
}

// Both rows have the key 5.
#[test]
fn the_table_page_of_equal_keys_is_named(rt: HostRuntime) -> Result<(), Fail> {
    let alloc = rt.alloc();
    let key = bytes_at(22, 76, b"\x05");
    let entries = bytes_at(21, 16, BOTH_FIVE);
    assert_eq!(rt; verdict(alloc, TWO_ROWS, &[key, entries])?, broken(12, 1));
    let plain = [key, entries, bytes_at(1, 636, b"\x00")];
    assert_eq!(rt; verdict(alloc, TWO_ROWS, &plain)?, Verdict::Sound);
    Ok(())
}
