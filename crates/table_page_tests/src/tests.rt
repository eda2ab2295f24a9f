// A table page worked by hand, read and printed, and pages that are no table page.
use mdc_ast::{ColumnDef, GenKind, IndexDef, TableDef};
use mdc_values::ColType;
use std::alloc::Global;
use std::process::Abort;
use std::test::Fail;
use store_api::{Page, blank_page, put};
use table_page::{DefFault, def_of, def_page};

/// The page of `ORDERS (K INTEGER NOT NULL, C CHAR(3), D DATE, Y INTEGER made by YEAR(D))` with the dimensions K and Y and a
/// unique index IX by C descending and K, byte by byte. Its next row is 258.
fn page_by_hand() -> Page {
    let mut page = *blank_page();
    put(&mut page, 0, b"\x54ORDERS            \x04\x02\x01");
    put(&mut page, 22, b"\0\0\0\0\0\0\x01\x02");
    put(&mut page, 30, b"\0\0\0\x42\0\0\0\x43\0\0\0\x44\0\0\0\x45");
    put(&mut page, 54, b"K                 \x01\x00\x01");
    put(&mut page, 85, b"C                 \x03\x03\x00");
    put(&mut page, 116, b"D                 \x04\x00\x00");
    put(&mut page, 147, b"Y                 \x01\x00\x00\x02\x02");
    put(&mut page, 550, b"\x01\x00");
    put(&mut page, 567, b"\x01\x03");
    put(
        &mut page,
        618,
        b"IX                \x01\x02\x01\x01\x00\x00",
    );
    put(&mut page, 670, b"\0\0\0\x46");
    page
}

#[test]
fn a_definition_is_read_and_printed(rt: HostRuntime) -> Result<(), Fail> {
    let alloc = rt.alloc();
    let page = page_by_hand();
    let found = def_of(alloc, &page, 3).expect(&rt, "no fault");
    let def = found.expect(&rt, "a definition");
    has_the_lists(&rt, &def);
    assert_eq!(rt; def.number, 3);
    assert_eq!(rt; def.next, 258);
    assert_eq!(rt; def.roots.map, 66);
    assert_eq!(rt; def.roots.composite, 67);
    assert!(rt; def.roots.dims.as_slice() == [68, 69].as_slice());
    let mut printed = [0xff; 4096];
    def_page(&def, &mut printed);
    assert!(rt; printed[..] == page[..]);
    Ok(())
}

fn has_the_lists(rt: &impl Abort, def: &TableDef) {
    assert!(rt; def.name.0.bytes() == b"ORDERS".as_slice());
    assert_eq!(rt; def.columns.len(), 4);
    is_the_key(rt, def.columns.at(0));
    is_the_year(rt, def.columns.at(3));
    assert_eq!(rt; def.dims.len(), 2);
    assert!(rt; def.dims.at(1).as_slice() == [3].as_slice());
    assert_eq!(rt; def.indexes.len(), 1);
    is_the_index(rt, def.indexes.at(0));
}

fn is_the_key(rt: &impl Abort, column: &ColumnDef) {
    assert!(rt; column.name.0.bytes() == b"K".as_slice());
    assert!(rt; column.ty == ColType::Integer);
    assert!(rt; column.not_null);
    assert!(rt; column.made.is_none());
}

fn is_the_year(rt: &impl Abort, column: &ColumnDef) {
    let made = column.made.expect(rt, "an expression");
    assert!(rt; made.kind == GenKind::Year);
    assert_eq!(rt; made.base, 2);
    assert_eq!(rt; made.k, 0);
}

fn is_the_index(rt: &impl Abort, index: &IndexDef) {
    assert!(rt; index.name.0.bytes() == b"IX".as_slice());
    assert!(rt; index.unique);
    assert_eq!(rt; index.root, 70);
    assert_eq!(rt; index.parts.len(), 2);
    assert_eq!(rt; index.parts.at(0).column, 1);
    assert!(rt; index.parts.at(0).descending);
}

/// Whether a page has neither zeros alone nor is the page of a definition.
fn has_no_form(alloc: Global, page: &Page) -> bool {
    matches!(def_of(alloc, page, 3), Err(DefFault::Form))
}

#[test]
fn zeros_alone_are_no_table(rt: HostRuntime) -> Result<(), Fail> {
    let found = def_of(rt.alloc(), blank_page(), 0).expect(&rt, "no fault");
    assert!(rt; found.is_none());
    Ok(())
}

#[test]
fn a_byte_that_is_not_used_is_zero(rt: HostRuntime) -> Result<(), Fail> {
    let alloc = rt.alloc();
    for at in [
        46, 53, 73, 75, 84, 135, 178, 549, 552, 584, 617, 642, 674, 1065, 1066, 4095,
    ] {
        let mut page = page_by_hand();
        put(&mut page, at, b"\x01");
        assert!(rt; has_no_form(alloc, &page));
    }
    assert!(rt; !has_no_form(alloc, &page_by_hand()));
    Ok(())
}

#[test]
fn what_no_statement_makes_has_no_form(rt: HostRuntime) -> Result<(), Fail> {
    let alloc = rt.alloc();
    let places: [(usize, &[u8]); 9] = [
        (0, b"U"),
        (1, b"ORDER "),
        (1, b"orders"),
        (19, b"\x03"),
        (74, b"\x02"),
        (85, b"K"),
        (104, b"\xff"),
        (177, b"\x01"),
        (568, b"\x00"),
    ];
    for (at, bytes) in places {
        let mut page = page_by_hand();
        if at <= 4000 && bytes.len() <= 96 {
            put(&mut page, at, bytes);
        }
        assert!(rt; has_no_form(alloc, &page));
    }
    Ok(())
}
