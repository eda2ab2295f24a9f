// A table with two record indexes, and rows of it.
ghost use Rattle.std.specs.Prelude.{◌≡◌, ◌<◌, false, length, IfOk, IsTrue};
ghost use Rattle.record_index.specs.RecordIndexes.{HasRecordIndexes, HaveKeysIn, parts_of_record_index};

use entry_tree::Tree;
use extent_map::SpaceNotes;
use mdc_ast::{Row, TableDef};
use mdc_values::{Chars, List, Memory, Value};
use row_fitting::do_fit;
use std::alloc::Global;
use std::test::Fail;
use store_api::{Page, Pages, Shape, blank_page, put};
use table_page::def_of;

/// `W (A INTEGER, B CHAR(3), C DATE, D BIGINT)` with the record indexes V (B, A DESC) and X (C DESC, D), whose trees it makes.
pub fn indexed_table<P: Pages>(
    alloc: Global,
    shape: Shape,
    notes: &mut SpaceNotes,
    pages: &mut P,
) -> Result<TableDef, Fail>
    requires going { (P.state pages.old).ended ≡ false }
    ensures indexes { IfOk result HasRecordIndexes }
    ensures going { (P.state pages.new).ended ≡ false }
{
    let v = Tree::make(alloc, shape, notes, pages, 15)?;
    let x = Tree::make(alloc, shape, notes, pages, 20)?;
    definition_on(alloc, &page_with(v.root, x.root))
}

// The definition on a page of the table 0.
fn definition_on(alloc: Global, page: &Page) -> Result<TableDef, Fail>
    ensures { IfOk result HasRecordIndexes }
{
    let found = def_of(alloc, page, 0)?;
    match found {
        Some(def) => Ok(def),
        None => Err(Fail::new("a page of zeros")),
    }
}

// The page of the table, with these roots of its indexes.
fn page_with(v: u32, x: u32) -> Page {
    let mut page = *blank_page();
    put(&mut page, 0, b"\x54W                 \x04\x01\x02");
    put(&mut page, 54, b"A                 \x01\x00\x00");
    put(&mut page, 85, b"B                 \x03\x03\x00");
    put(&mut page, 116, b"C                 \x04\x00\x00");
    put(&mut page, 147, b"D                 \x02\x00\x00");
    put(&mut page, 550, b"\x01\x00");
    put(
        &mut page,
        618,
        b"V                 \x00\x02\x01\x00\x00\x01",
    );
    put(&mut page, 670, &v.to_be_bytes());
    put(
        &mut page,
        674,
        b"X                 \x00\x02\x02\x01\x03\x00",
    );
    put(&mut page, 726, &x.to_be_bytes());
    page
}

/// The rows of the scenario: `(1, 'ab', null, 5)`, `(2, 'ab', 20260102, -1)`, `(null, 'ab', 20260101, 7)` and
/// `(1, 'b', 20260101, null)`.
pub fn row_of(alloc: Global, which: u8) -> Result<Row, Memory> {
    let values = match which {
        0 => values_of(alloc, Value::Int(1), b"ab", Value::Null, Value::Int(5))?,
        1 => values_of(
            alloc,
            Value::Int(2),
            b"ab",
            Value::Day(20_260_102),
            Value::Int(-1),
        )?,
        2 => values_of(
            alloc,
            Value::Null,
            b"ab",
            Value::Day(20_260_101),
            Value::Int(7),
        )?,
        _ => values_of(
            alloc,
            Value::Int(1),
            b"b",
            Value::Day(20_260_101),
            Value::Null,
        )?,
    };
    Ok(Row {
        number: u64::from(which),
        values,
    })
}

fn values_of(alloc: Global, a: Value, b: &[u8], c: Value, d: Value) -> Result<List<Value>, Memory> {
    let b = Chars::of(alloc, b)?;
    let values = vec![in alloc; a, Value::Text(b), c, d]?;
    Ok(List::from_vec(values))
}

/// Whether a row may be entered in that record index.
pub fn may_enter(def: &TableDef, index: u8, row: &Row) -> bool
    requires { HasRecordIndexes def.now }
    ensures there { IsTrue result → index < length def.now.indexes }
    ensures keys { IsTrue result → HaveKeysIn def.now.columns (parts_of_record_index def.now index) row.now.values }
{
    if usize::from(index) >= def.indexes.len() {
        return false;
    }
    do_fit(def.columns.as_slice(), row.values.as_slice())
}
