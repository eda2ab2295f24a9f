// Row pages by bytes worked by hand: what is written, what a view lends, and what is no row page.
ghost use Rattle.std.specs.Prelude.{◌<◌, IfOk, IsTrue};
ghost use Rattle.mdc_ast.specs.Database.{fits_all};
ghost use Rattle.row_page.specs.Row.{AreRowColumns};

use mdc_ast::{ColumnDef, Name, Row};
use mdc_values::ColType::{Char, Date, Integer};
use mdc_values::Value::{Day, Int, Null, Text};
use mdc_values::{Chars, ColType, List, Value, print};
use row_fitting::do_fit;
use row_page::{RowPageView, RowShape, RowView, capacity, row_width};
use std::alloc::Global;
use std::process::Abort;
use std::test::Fail;
use store_api::{Page, blank_page, put};

/// Columns of these types, which may be null, within the limits of a row.
fn columns_of(alloc: Global, types: &[ColType]) -> Result<List<ColumnDef>, Fail>
    ensures { IfOk result AreRowColumns }
{
    let mut columns = List::new(alloc);
    for ty in types {
        columns.push(ColumnDef {
            name: Name(Chars::of(alloc, b"C")?),
            ty: *ty,
            not_null: false,
            made: None,
        })?;
    }
    if !are_within(&columns) {
        return Err("columns beyond the limits")?;
    }
    Ok(columns)
}

/// Whether columns are those of rows within the limits.
fn are_within(columns: &List<ColumnDef>) -> bool
    ensures { IsTrue result → AreRowColumns columns.now }
{
    columns.len() <= 16 && row_width(columns.as_slice()) <= 1000
}

/// A page of two INTEGER columns with row 0 in slot 0, of the values 2 and 10, byte by byte.
fn page_of_a_pair() -> Page {
    let mut page = *blank_page();
    put(&mut page, 0, b"RP\x00\xe1\x00\x01");
    put(&mut page, 16, b"\x80");
    let row = b"\0\0\0\0\0\0\0\0\0\0\x00\x00\x00\x02\x00\x00\x00\x0a";
    put(&mut page, 45, row);
    page
}

/// The same page with row 7 in slot 23 besides, of the value -2 and a null.
fn page_of_two_rows() -> Page {
    let mut page = page_of_a_pair();
    put(&mut page, 5, b"\x02");
    put(&mut page, 18, b"\x01");
    let row = b"\0\0\0\0\0\0\0\x07\0\x02\xff\xff\xff\xfe\0\0\0\0";
    put(&mut page, 459, row);
    page
}

/// A row of these values, which fit the columns.
fn row_of(
    alloc: Global,
    columns: &List<ColumnDef>,
    number: u64,
    first: Value,
    second: Value,
) -> Result<Row, Fail>
    ensures { IfOk result (λ row. IsTrue (fits_all columns.now row.values)) }
{
    let values = List::from_vec(vec![in alloc; first, second]?);
    if !do_fit(columns.as_slice(), values.as_slice()) {
        return Err("values that don't fit")?;
    }
    Ok(Row { number, values })
}

fn has_slots(rt: &(impl Abort + AllocGlobal), types: &[ColType], slots: u16) -> Result<(), Fail> {
    let columns = columns_of(rt.alloc(), types)?;
    assert_eq!(rt; capacity(&columns), slots);
    Ok(())
}

#[test]
fn pages_have_as_many_slots_as_fit(rt: HostRuntime) -> Result<(), Fail> {
    has_slots(&rt, &[Integer, Integer], 225)?;
    has_slots(&rt, &[Char(3), Date], 238)?;
    has_slots(&rt, &[Integer, Integer, Char(254), Char(254), Char(254)], 5)
}

#[test]
fn a_row_is_written_as_its_bytes(rt: HostRuntime) -> Result<(), Fail> {
    let columns = columns_of(rt.alloc(), &[Integer, Integer])?;
    let row = row_of(rt.alloc(), &columns, 0, Int(2), Int(10))?;
    let shape = RowShape::of(&columns);
    assert!(rt; shape.slots() > 8);
    let mut page = [0xff; 4096];
    shape.wipe(&mut page);
    shape.put(&mut page, 0, &row);
    assert!(rt; page == page_of_a_pair());
    shape.put(&mut page, 8, &row);
    assert!(rt; page[..18] == b"RP\x00\xe1\x00\x02\0\0\0\0\0\0\0\0\0\0\x80\x80"[..]);
    shape.clear(&mut page, 8);
    assert!(rt; page[..18] == b"RP\x00\xe1\x00\x01\0\0\0\0\0\0\0\0\0\0\x80\x00"[..]);
    Ok(())
}

#[test]
fn texts_days_and_nulls_are_written_so(rt: HostRuntime) -> Result<(), Fail> {
    let alloc = rt.alloc();
    let columns = columns_of(alloc, &[Char(3), Date])?;
    let text = Text(Chars::of(alloc, b"A")?);
    let row = row_of(alloc, &columns, 258, text, Day(20_030_115))?;
    let nulls = row_of(alloc, &columns, 258, Null, Null)?;
    let shape = RowShape::of(&columns);
    assert!(rt; shape.slots() > 1);
    let mut page = [0xff; 4096];
    shape.wipe(&mut page);
    shape.put(&mut page, 1, &row);
    assert!(rt; page[16] == 0x40);
    assert!(rt; page[63..80] == b"\0\0\0\0\0\0\x01\x02\0\0A  \x01\x31\xa2\xa3"[..]);
    shape.put(&mut page, 1, &nulls);
    assert!(rt; page[63..80] == b"\0\0\0\0\0\0\x01\x02\0\x03\0\0\0\0\0\0\0"[..]);
    Ok(())
}

#[test]
fn a_view_tells_which_slots_have_rows(rt: HostRuntime) -> Result<(), Fail> {
    let columns = columns_of(rt.alloc(), &[Integer, Integer])?;
    assert_eq!(rt; capacity(&columns), 225);
    let page = page_of_two_rows();
    let view = RowPageView::read(&page, &columns).expect(&rt, "a row page");
    assert_eq!(rt; view.rows(), 2);
    assert_eq!(rt; view.first_empty(), Some(1));
    assert_eq!(rt; view.next_filled(0), Some(0));
    assert_eq!(rt; view.next_filled(1), Some(23));
    assert_eq!(rt; view.next_filled(24), None);
    assert!(rt; view.row(1).is_none());
    Ok(())
}

#[test]
fn a_view_lends_what_a_row_has(rt: HostRuntime) -> Result<(), Fail> {
    let alloc = rt.alloc();
    let columns = columns_of(alloc, &[Integer, Integer])?;
    assert_eq!(rt; capacity(&columns), 225);
    assert_eq!(rt; columns.len(), 2);
    let page = page_of_two_rows();
    let view = RowPageView::read(&page, &columns).expect(&rt, "a row page");
    let row = view.row(23).expect(&rt, "a row");
    assert_eq!(rt; row.number(), 7);
    assert!(rt; row.bytes(0) == Some(b"\xff\xff\xff\xfe".as_slice()));
    assert!(rt; row.bytes(1).is_none());
    let mut shown = Vec::new(alloc);
    print(&row.value(alloc, 0)?, &mut shown)?;
    print(&row.value(alloc, 1)?, &mut shown)?;
    assert_eq!(rt; shown.as_slice(), b"-2NULL".as_slice());
    shows_negative_and_null(&rt, alloc, row)
}

/// A row 7 of -2 and a null.
fn shows_negative_and_null(rt: &impl Abort, alloc: Global, row: RowView) -> Result<(), Fail> {
    let copy = row.to_row(alloc)?;
    assert_eq!(rt; copy.number, 7);
    assert_eq!(rt; copy.values.len(), 2);
    let mut shown = Vec::new(alloc);
    for value in copy.values.as_slice() {
        print(value, &mut shown)?;
    }
    assert_eq!(rt; shown.as_slice(), b"-2NULL".as_slice());
    Ok(())
}

/// The page of a pair is no row page with this byte in the place of its own.
fn is_refused(rt: &impl Abort, columns: &List<ColumnDef>, at: usize, byte: u8)
    requires columns { AreRowColumns columns.now }
    requires there { at < 4096 }
{
    let mut page = page_of_a_pair();
    page[at] = byte;
    assert!(rt; RowPageView::read(&page, columns).is_none());
}

#[test]
fn other_pages_are_no_row_pages(rt: HostRuntime) -> Result<(), Fail> {
    let columns = columns_of(rt.alloc(), &[Integer, Integer])?;
    assert!(rt; RowPageView::read(&page_of_a_pair(), &columns).is_some());
    // In the head: the mark, the number of slots, that of rows, and a zero.
    is_refused(&rt, &columns, 0, b'r');
    is_refused(&rt, &columns, 3, 0xe0);
    is_refused(&rt, &columns, 5, 2);
    is_refused(&rt, &columns, 9, 1);
    // A spare bit, and a spare byte.
    is_refused(&rt, &columns, 44, 0x40);
    is_refused(&rt, &columns, 4095, 1);
    // The null bits of a column that isn't there, and of one that has a value.
    is_refused(&rt, &columns, 54, 4);
    is_refused(&rt, &columns, 54, 1);
    assert!(rt; RowPageView::look(blank_page(), &columns).is_none());
    Ok(())
}

#[test]
fn bytes_of_empty_slots_are_not_looked_at(rt: HostRuntime) -> Result<(), Fail> {
    let columns = columns_of(rt.alloc(), &[Integer, Integer])?;
    let mut page = page_of_a_pair();
    put(&mut page, 63, b"an empty slot");
    assert!(rt; RowPageView::read(&page, &columns).is_some());
    Ok(())
}
