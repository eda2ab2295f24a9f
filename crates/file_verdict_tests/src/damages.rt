// A damage for each of the twelve rules, on a file with two tables.
use crate::files::{broken, said_of, two_tables, with_patches};
use file_check::Verdict;
use script_engine_tests::{Patch, bytes_at};
use std::process::Abort;
use std::test::Fail;

// A place in a page, the bytes that are written there, and the rule and the page that are then named.
type Damaged = (u32, usize, &'static [u8], u16, u32);

// The root page isn't zeros behind its count. An entry of the extent map has a fourth form. A table page has a byte where there is no
// table. The root of the index of A and R is an inner node whose first child is itself. Page 21 isn't used. A line of T's block map
// has a state that there isn't. A page of a block has a bit of its map where there is no slot. A block with one row is counted as of
// two. The second row of block 2 is of another cell. The row of block 3 has another A than the indexes say. The next number of T is
// that of its last row.
static DAMAGES: [Damaged; 11] = [
    (0, 4000, b"\x01", 1, 0),
    (17, 3, b"\x01", 2, 17),
    (9, 100, b"\x01", 3, 9),
    (
        19,
        0,
        b"\x49\x00\x00\x0e\x00\x01\x00\x00\x00\x00\x00\x13\x00\x00\x00\x00",
        4,
        19,
    ),
    (17, 15, b"\x01", 5, 21),
    (18, 34, b"\x03", 6, 18),
    (25, 16, b"\x80", 7, 25),
    (18, 29, b"\x02", 8, 24),
    (22, 76, b"\x02", 9, 22),
    (24, 58, b"\x03", 10, 19),
    (1, 29, b"\x03", 12, 1),
];

// With one damage its rule and its page are named.
fn expect_broken(
    rt: &(impl Abort + AllocGlobal),
    file: &[u8],
    damage: &Damaged,
) -> Result<(), Fail> {
    let &(page, at, bytes, rule, named) = damage;
    let file = with_patches(rt.alloc(), file, &[bytes_at(page, at, bytes)])?;
    assert_eq!(rt; said_of(rt.alloc(), &file)?, broken(rule, named), "{rule}");
    Ok(())
}

#[test]
fn each_rule_is_named_with_the_page_that_breaks_it(rt: HostRuntime) -> Result<(), Fail> {
    let file = two_tables(rt.alloc())?;
    assert_eq!(rt; said_of(rt.alloc(), &file)?, Ok(Verdict::Sound));
    for damage in &DAMAGES {
        expect_broken(&rt, &file, damage)?;
    }
    Ok(())
}

// A UNIQUE index I on the K of U in page 31: the table page states it, the page is used, and is a leaf of two entries.
fn indexed(entries: &'static [u8]) -> [Patch; 8] {
    [
        bytes_at(17, 55, b"\x03"),
        bytes_at(2, 21, b"\x01"),
        bytes_at(2, 618, b"I                 "),
        bytes_at(2, 636, b"\x01"),
        bytes_at(2, 637, b"\x01"),
        bytes_at(2, 670, b"\x00\x00\x00\x1f\x00"),
        bytes_at(31, 0, b"\x4c\x00\x00\x0b\x00\x02"),
        bytes_at(31, 16, entries),
    ]
}

// The entries of both rows, and those with another key for the second one.
const RIGHT: &[u8] =
    b"\x00\x80\x00\x00\x05\x00\x00\x00\x07\x00\x00\x00\x80\x00\x00\x06\x00\x00\x00\x07\x00\x01";

const OTHER_KEY: &[u8] =
    b"\x00\x80\x00\x00\x05\x00\x00\x00\x07\x00\x00\x00\x80\x00\x00\x07\x00\x00\x00\x07\x00\x01";

#[test]
fn a_record_index_is_judged_also_where_no_script_makes_one(rt: HostRuntime) -> Result<(), Fail> {
    let alloc = rt.alloc();
    let file = two_tables(alloc)?;
    let right = with_patches(alloc, &file, &indexed(RIGHT))?;
    assert_eq!(rt; said_of(alloc, &right)?, Ok(Verdict::Sound));
    let wrong = with_patches(alloc, &file, &indexed(OTHER_KEY))?;
    assert_eq!(rt; said_of(alloc, &wrong)?, broken(11, 31));
    Ok(())
}

// Of two damages the first rule is named, and of two pages the lower one.
#[test]
fn the_first_rule_and_its_lowest_page_are_named(rt: HostRuntime) -> Result<(), Fail> {
    let alloc = rt.alloc();
    let file = two_tables(alloc)?;
    let rules = [bytes_at(25, 16, b"\x80"), bytes_at(9, 100, b"\x01")];
    assert_eq!(rt;
        said_of(alloc, &with_patches(alloc, &file, &rules)?)?,
        broken(3, 9)
    );
    let pages = [bytes_at(33, 16, b"\x80"), bytes_at(25, 16, b"\x80")];
    assert_eq!(rt;
        said_of(alloc, &with_patches(alloc, &file, &pages)?)?,
        broken(7, 25)
    );
    Ok(())
}
