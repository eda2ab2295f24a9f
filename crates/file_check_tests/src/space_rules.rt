// Rules 1 to 6: the root page, the extent map, table pages, trees, their pages, and block maps.
use crate::patches::{THREE_CELLS, broken, verdict, verdict_on_cells};
use file_check::Verdict;
use script_engine_tests::bytes_at;
use std::test::Fail;

#[test]
fn what_scripts_make_is_sound(rt: HostRuntime) -> Result<(), Fail> {
    let alloc = rt.alloc();
    assert_eq!(rt; verdict(alloc, b"", &[])?, Verdict::Sound);
    assert_eq!(rt; verdict(alloc, THREE_CELLS, &[])?, Verdict::Sound);
    Ok(())
}

// There are 28 pages: 18 and five extents of two.
#[test]
fn a_wrong_page_count_is_named(rt: HostRuntime) -> Result<(), Fail> {
    let alloc = rt.alloc();
    assert_eq!(rt; verdict_on_cells(alloc, 0, 11, b"\x1d")?, broken(1, 0));
    assert_eq!(rt; verdict_on_cells(alloc, 0, 11, b"\x1a")?, broken(1, 0));
    assert_eq!(rt; verdict_on_cells(alloc, 0, 11, b"\x1e")?, broken(1, 28));
    assert_eq!(rt; verdict_on_cells(alloc, 0, 3, b"U")?, broken(1, 0));
    assert_eq!(rt; verdict_on_cells(alloc, 0, 4000, b"\x01")?, broken(1, 0));
    Ok(())
}

// The entry of extent e stands at 8 e of page 17. Extent 5 would lie past the count.
#[test]
fn a_wrong_entry_of_the_extent_map_is_named(rt: HostRuntime) -> Result<(), Fail> {
    let alloc = rt.alloc();
    assert_eq!(rt; verdict_on_cells(alloc, 17, 3, b"\x01")?, broken(2, 17));
    assert_eq!(rt; verdict_on_cells(alloc, 17, 17, b"\x01")?, broken(2, 17));
    assert_eq!(rt; verdict_on_cells(alloc, 17, 40, b"\x01")?, broken(2, 17));
    assert_eq!(rt; verdict_on_cells(alloc, 17, 128, b"\x01")?, broken(2, 17));
    assert_eq!(rt; verdict_on_cells(alloc, 17, 7, b"\x07")?, broken(2, 17));
    Ok(())
}

#[test]
fn a_wrong_table_page_is_named(rt: HostRuntime) -> Result<(), Fail> {
    let alloc = rt.alloc();
    assert_eq!(rt; verdict_on_cells(alloc, 1, 0, b"\x55")?, broken(3, 1));
    assert_eq!(rt; verdict_on_cells(alloc, 1, 33, b"\x16")?, broken(3, 1));
    assert_eq!(rt; verdict_on_cells(alloc, 1, 33, b"\x11")?, broken(3, 1));
    assert_eq!(rt; verdict_on_cells(alloc, 9, 100, b"\x01")?, broken(3, 9));
    Ok(())
}

// Both tables are T, once the second one's name is written over.
#[test]
fn the_lower_of_two_tables_of_one_name_is_named(rt: HostRuntime) -> Result<(), Fail> {
    let alloc = rt.alloc();
    let script = b"CREATE TABLE T (A INTEGER) ORGANIZE BY (A);
CREATE TABLE U (A INTEGER) ORGANIZE BY (A)";
    assert_eq!(rt; verdict(alloc, script, &[])?, Verdict::Sound);
    assert_eq!(rt;
        verdict(alloc, script, &[bytes_at(2, 1, b"T")])?,
        broken(3, 1)
    );
    Ok(())
}

// A root that is an inner node whose first child is itself; a leaf whose first entry is above the second, or is as wide as none.
#[test]
fn the_root_of_what_is_no_tree_is_named(rt: HostRuntime) -> Result<(), Fail> {
    let alloc = rt.alloc();
    let inner = b"\x49\x00\x00\x0e\x00\x01\x00\x00\x00\x00\x00\x13\x00\x00\x00\x00";
    assert_eq!(rt; verdict_on_cells(alloc, 19, 0, inner)?, broken(4, 19));
    assert_eq!(rt; verdict_on_cells(alloc, 18, 19, b"\x04")?, broken(4, 18));
    assert_eq!(rt; verdict_on_cells(alloc, 20, 3, b"\x08")?, broken(4, 20));
    Ok(())
}

// Page 21 is no longer a used page; both dimensions have one index.
#[test]
fn a_page_of_no_tree_or_of_two_is_named(rt: HostRuntime) -> Result<(), Fail> {
    let alloc = rt.alloc();
    assert_eq!(rt; verdict_on_cells(alloc, 17, 15, b"\x01")?, broken(5, 21));
    assert_eq!(rt; verdict_on_cells(alloc, 1, 45, b"\x14")?, broken(5, 20));
    Ok(())
}

// The third line of the map names extent 5, which is free, or has a state that there isn't; extent 4 is no block.
#[test]
fn a_block_map_that_names_other_blocks_is_named(rt: HostRuntime) -> Result<(), Fail> {
    let alloc = rt.alloc();
    assert_eq!(rt; verdict_on_cells(alloc, 18, 33, b"\x05")?, broken(6, 18));
    assert_eq!(rt; verdict_on_cells(alloc, 18, 34, b"\x03")?, broken(6, 18));
    assert_eq!(rt; verdict_on_cells(alloc, 17, 32, b"\x00")?, broken(6, 18));
    Ok(())
}
