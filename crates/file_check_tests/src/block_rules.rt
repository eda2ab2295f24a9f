// Rules 7 to 9: row pages, counts and cells.
use crate::patches::{THREE_CELLS, broken, verdict, verdict_on_cells};
use file_check::Verdict;
use script_engine_tests::bytes_at;
use std::test::Fail;

// A row of two columns has 18 bytes, and a page 225 slots, which begin at 45. Page 25 has none filled.
#[test]
fn a_page_that_is_no_row_page_is_named(rt: HostRuntime) -> Result<(), Fail> {
    let alloc = rt.alloc();
    assert_eq!(rt; verdict_on_cells(alloc, 22, 0, b"S")?, broken(7, 22));
    assert_eq!(rt; verdict_on_cells(alloc, 25, 16, b"\x80")?, broken(7, 25));
    assert_eq!(rt; verdict_on_cells(alloc, 27, 4095, b"\x01")?, broken(7, 27));
    let both = [bytes_at(26, 5, b"\x02"), bytes_at(23, 0, b"S")];
    assert_eq!(rt; verdict(alloc, THREE_CELLS, &both)?, broken(7, 23));
    Ok(())
}

// The first slot of page 23 is empty.
#[test]
fn the_bytes_of_an_empty_slot_are_not_looked_at(rt: HostRuntime) -> Result<(), Fail> {
    let alloc = rt.alloc();
    assert_eq!(rt; verdict_on_cells(alloc, 23, 45, b"\x01")?, Verdict::Sound);
    Ok(())
}

// The line of block 3 stands at 23 of page 18, its state at 27 and its count at 28.
#[test]
fn the_first_page_of_a_miscounted_block_is_named(rt: HostRuntime) -> Result<(), Fail> {
    let alloc = rt.alloc();
    assert_eq!(rt; verdict_on_cells(alloc, 18, 29, b"\x02")?, broken(8, 24));
    assert_eq!(rt; verdict_on_cells(alloc, 18, 29, b"\x00")?, broken(8, 24));
    assert_eq!(rt; verdict_on_cells(alloc, 18, 27, b"\x00")?, broken(8, 24));
    assert_eq!(rt; verdict_on_cells(alloc, 18, 27, b"\x02")?, broken(8, 24));
    Ok(())
}

// The second row of block 2 stands at 63 of page 22, its A at 73.
#[test]
fn the_first_page_of_a_block_of_two_cells_is_named(rt: HostRuntime) -> Result<(), Fail> {
    let alloc = rt.alloc();
    assert_eq!(rt; verdict_on_cells(alloc, 22, 76, b"\x02")?, broken(9, 22));
    Ok(())
}
