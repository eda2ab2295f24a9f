// The tables of these tests: their trees, and their definitions by the bytes of table pages.
ghost use Rattle.std.specs.Prelude.{◌≡◌, ◌≤◌, false, IfOk};
ghost use Rattle.mdc_ast.specs.TableLimits.{IsTableDef};

use entry_tree::Tree;
use entry_tree_tests::extents_of;
use extent_map::SpaceNotes;
use mdc_ast::TableDef;
use mdc_table::Rooms;
use std::alloc::Global;
use std::test::Fail;
use store_api::{Page, Pages, Shape, blank_page, put};
use table_page::def_of;

/// Which table.
#[derive(Clone, Copy)]
pub enum TableKind {
    /// `W (D INTEGER, K INTEGER, X CHAR(254), Y CHAR(254), Z CHAR(254))` by D. A row has 780 bytes, so a block has 10.
    Wide,
    /// `W (K INTEGER NOT NULL, D INTEGER, R INTEGER, V BIGINT, T CHAR(8), S DATE)` by D and (R, T). A row has 42 bytes, so a
    /// block has 192.
    Mixed,
    /// `W (D INTEGER, S DATE)` by D and S. A row has 18 bytes, so a block has 450.
    Narrow,
}

/// A table that is changed, and the notes that go with it.
#[derive(Drop)]
pub struct Table {
    pub kind: TableKind,
    pub def: TableDef,
    pub shape: Shape,
    pub notes: SpaceNotes,
    pub rooms: Rooms,
}

/// An empty table in a database of so many extents of two pages.
pub fn table_of<P: Pages>(
    alloc: Global,
    kind: TableKind,
    extents: u32,
    pages: &mut P,
) -> Result<Table, Fail>
    requires going { (P.state pages.old).ended ≡ false }
    ensures defined { IfOk result (λ table. IsTableDef table.def.number table.def) }
    ensures going { (P.state pages.new).ended ≡ false }
    ensures marked { (P.state pages.new).marked ≡ (P.state pages.old).marked }
{
    let shape = extents_of(extents)?;
    let mut notes = SpaceNotes::new();
    let page = page_of(alloc, kind, shape, &mut notes, pages)?;
    Ok(Table {
        kind,
        def: definition_on(alloc, &page)?,
        shape,
        notes,
        rooms: Rooms::new(alloc),
    })
}

// How wide the entries of the index of all dimensions are.
fn width_of_all(kind: TableKind) -> u16
    ensures wide { 5 ≤ result }
    ensures narrow { result ≤ 134 }
{
    match kind {
        TableKind::Wide => 9,
        TableKind::Mixed => 23,
        TableKind::Narrow => 14,
    }
}

// Makes the trees of a table, and its page.
fn page_of<P: Pages>(
    alloc: Global,
    kind: TableKind,
    shape: Shape,
    notes: &mut SpaceNotes,
    pages: &mut P,
) -> Result<Page, Fail>
    requires going { (P.state pages.old).ended ≡ false }
    ensures going { (P.state pages.new).ended ≡ false }
    ensures marked { (P.state pages.new).marked ≡ (P.state pages.old).marked }
{
    let map = root_of(alloc, 7, shape, notes, pages)?;
    let all = root_of(alloc, width_of_all(kind), shape, notes, pages)?;
    let by_d = root_of(alloc, 9, shape, notes, pages)?;
    match kind {
        TableKind::Wide => Ok(wide_page(map, all, by_d)),
        TableKind::Mixed => {
            let by_rt = root_of(alloc, 18, shape, notes, pages)?;
            Ok(mixed_page(map, all, by_d, by_rt))
        }
        TableKind::Narrow => {
            let by_s = root_of(alloc, 9, shape, notes, pages)?;
            Ok(narrow_page(map, all, by_d, by_s))
        }
    }
}

// The root of a new tree of entries of this width.
fn root_of<P: Pages>(
    alloc: Global,
    width: u16,
    shape: Shape,
    notes: &mut SpaceNotes,
    pages: &mut P,
) -> Result<u32, Fail>
    requires wide { 5 ≤ width }
    requires narrow { width ≤ 134 }
    requires going { (P.state pages.old).ended ≡ false }
    ensures going { (P.state pages.new).ended ≡ false }
    ensures marked { (P.state pages.new).marked ≡ (P.state pages.old).marked }
{
    Ok(Tree::make(alloc, shape, notes, pages, width)?.root)
}

// The definition on a page of the table 0, which has no indexes.
fn definition_on(alloc: Global, page: &Page) -> Result<TableDef, Fail>
    ensures defined { IfOk result (λ def. IsTableDef def.number def) }
{
    let found = def_of(alloc, page, 0)?;
    let Some(def) = found else {
        return Err(Fail::new("a page of zeros"));
    };
    if def.indexes.len() > 0 {
        return Err(Fail::new("a table with indexes"));
    }
    Ok(def)
}

// The page of the wide table with these roots.
fn wide_page(map: u32, all: u32, by_d: u32) -> Page {
    let mut page = *blank_page();
    put(&mut page, 0, b"\x54W                 \x05\x01\x00");
    put(&mut page, 30, &map.to_be_bytes());
    put(&mut page, 34, &all.to_be_bytes());
    put(&mut page, 38, &by_d.to_be_bytes());
    put(&mut page, 54, b"D                 \x01\x00\x00");
    put(&mut page, 85, b"K                 \x01\x00\x00");
    put(&mut page, 116, b"X                 \x03\xfe\x00");
    put(&mut page, 147, b"Y                 \x03\xfe\x00");
    put(&mut page, 178, b"Z                 \x03\xfe\x00");
    put(&mut page, 550, b"\x01\x00");
    page
}

// The page of the mixed table with these roots.
fn mixed_page(map: u32, all: u32, by_d: u32, by_rt: u32) -> Page {
    let mut page = *blank_page();
    put(&mut page, 0, b"\x54W                 \x06\x02\x00");
    put(&mut page, 30, &map.to_be_bytes());
    put(&mut page, 34, &all.to_be_bytes());
    put(&mut page, 38, &by_d.to_be_bytes());
    put(&mut page, 42, &by_rt.to_be_bytes());
    put(&mut page, 54, b"K                 \x01\x00\x01");
    put(&mut page, 85, b"D                 \x01\x00\x00");
    put(&mut page, 116, b"R                 \x01\x00\x00");
    put(&mut page, 147, b"V                 \x02\x00\x00");
    put(&mut page, 178, b"T                 \x03\x08\x00");
    put(&mut page, 209, b"S                 \x04\x00\x00");
    put(&mut page, 550, b"\x01\x01");
    put(&mut page, 567, b"\x02\x02\x04");
    page
}

// The page of the narrow table with these roots.
fn narrow_page(map: u32, all: u32, by_d: u32, by_s: u32) -> Page {
    let mut page = *blank_page();
    put(&mut page, 0, b"\x54W                 \x02\x02\x00");
    put(&mut page, 30, &map.to_be_bytes());
    put(&mut page, 34, &all.to_be_bytes());
    put(&mut page, 38, &by_d.to_be_bytes());
    put(&mut page, 42, &by_s.to_be_bytes());
    put(&mut page, 54, b"D                 \x01\x00\x00");
    put(&mut page, 85, b"S                 \x04\x00\x00");
    put(&mut page, 550, b"\x01\x00");
    put(&mut page, 567, b"\x01\x01");
    page
}
