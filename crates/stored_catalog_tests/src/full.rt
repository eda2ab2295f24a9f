// Databases with no free extent left: one that is full of rows, and one that is full of tables.
ghost use Rattle.std.specs.Prelude.{◌≡◌, None, [], false, IfOk};
ghost use Rattle.mdc_ast.specs.TableLimits.{IsTableDef};
ghost use Rattle.stored_catalog.specs.StoredDefinitions.{AreWithinLimits};

use crate::looks::{check_count, check_map, check_tables};
use crate::rows::{delete, fill, fill_table, insert, try_insert};
use crate::stores::fresh_store;
use crate::tables::{TWO_TABLES, check_loaded, create, create_two, loaded, taken, try_create};
use catalog::Catalog;
use entry_tree_tests::extents_of;
use extent_map::{SpaceFault, SpaceNotes};
use mdc_ast::TableDef;
use mdc_values::Rid;
use std::alloc::Global;
use std::test::Fail;
use store_api::{Pages, Shape};

// The place of the first row of a table.
const FIRST_PLACE: Rid = Rid { block: 2, slot: 0 };

// Makes a table, and takes its definition out of the catalog.
fn make_and_take<P: Pages>(
    alloc: Global,
    catalog: &mut Catalog,
    shape: Shape,
    notes: &mut SpaceNotes,
    pages: &mut P,
) -> Result<TableDef, Fail>
    requires catalog { AreWithinLimits catalog.old }
    requires going { (P.state pages.old).ended ≡ false }
    ensures defined { IfOk result (λ def. IsTableDef def.number def) }
    ensures no_indexes { IfOk result (λ def. def.indexes ≡ []) }
    ensures going { (P.state pages.new).ended ≡ false }
    ensures marked { (P.state pages.new).marked ≡ (P.state pages.old).marked }
{
    create(alloc, catalog, shape, notes, pages, b'W', 0)?;
    taken(catalog, 0)
}

// The definition of a new table in the database that the pages have.
fn new_table<P: Pages>(
    alloc: Global,
    shape: Shape,
    notes: &mut SpaceNotes,
    pages: &mut P,
) -> Result<TableDef, Fail>
    requires going { (P.state pages.old).ended ≡ false }
    ensures defined { IfOk result (λ def. IsTableDef def.number def) }
    ensures no_indexes { IfOk result (λ def. def.indexes ≡ []) }
    ensures going { (P.state pages.new).ended ≡ false }
    ensures marked { (P.state pages.new).marked ≡ (P.state pages.old).marked }
{
    let mut catalog = loaded(alloc, pages)?;
    make_and_take(alloc, &mut catalog, shape, notes, pages)
}

// Fails unless the answer is Full, with so many extents.
fn check_full<T: Copy>(answer: Result<T, SpaceFault>, extents: u32) -> Result<(), Fail> {
    match answer {
        Err(SpaceFault::Full(cap)) if cap == extents => Ok(()),
        _ => Err(Fail::new("a file that isn't full")),
    }
}

// Inserts a row of a fifteenth cell, which doesn't find a block, and undoes that.
fn insert_and_undo<P: Pages>(
    alloc: Global,
    def: &mut TableDef,
    shape: Shape,
    notes: &mut SpaceNotes,
    pages: &mut P,
) -> Result<(), Fail>
    requires defined { IsTableDef def.old.number def.old }
    requires no_indexes { def.old.indexes ≡ [] }
    requires going { (P.state pages.old).ended ≡ false }
    requires unmarked { (P.state pages.old).marked ≡ None }
    ensures defined { IsTableDef def.new.number def.new }
    ensures no_indexes { def.new.indexes ≡ [] }
    ensures going { (P.state pages.new).ended ≡ false }
{
    pages.mark();
    let answer = try_insert(alloc, def, shape, notes, pages, 15)?;
    pages.undo();
    notes.forget();
    check_full(answer, 16)
}

// The first row leaves, and one of the fifteenth cell takes its block.
fn retry<P: Pages>(
    alloc: Global,
    def: &mut TableDef,
    shape: Shape,
    notes: &mut SpaceNotes,
    pages: &mut P,
) -> Result<(), Fail>
    requires defined { IsTableDef def.old.number def.old }
    requires no_indexes { def.old.indexes ≡ [] }
    requires going { (P.state pages.old).ended ≡ false }
    ensures going { (P.state pages.new).ended ≡ false }
{
    delete(alloc, def, shape, notes, pages, FIRST_PLACE, 0, 1)?;
    insert(alloc, def, shape, notes, pages, 15, FIRST_PLACE)?;
    if def.next != 15 {
        return Err(Fail::new("another next row number"));
    }
    check_count(pages, 50)
}

// Rows of fourteen cells come, and one of a fifteenth doesn't find a block; it is undone, and tried again once a block is Free.
fn fill_and_retry<P: Pages>(
    alloc: Global,
    def: &mut TableDef,
    shape: Shape,
    notes: &mut SpaceNotes,
    pages: &mut P,
) -> Result<(), Fail>
    requires defined { IsTableDef def.old.number def.old }
    requires no_indexes { def.old.indexes ≡ [] }
    requires going { (P.state pages.old).ended ≡ false }
    requires unmarked { (P.state pages.old).marked ≡ None }
{
    fill(alloc, def, shape, notes, pages, 14, 2)?;
    check_count(pages, 50)?;
    insert_and_undo(alloc, def, shape, notes, pages)?;
    retry(alloc, def, shape, notes, pages)
}

// The same in a new table.
fn fill_with_rows<P: Pages>(
    alloc: Global,
    shape: Shape,
    notes: &mut SpaceNotes,
    pages: &mut P,
) -> Result<(), Fail>
    requires going { (P.state pages.old).ended ≡ false }
    requires unmarked { (P.state pages.old).marked ≡ None }
{
    let mut def = new_table(alloc, shape, notes, pages)?;
    fill_and_retry(alloc, &mut def, shape, notes, pages)
}

// The three trees take the extents 0 and 1, so there are fourteen blocks. All 16 extents are 32 pages behind the first 18.
#[test]
fn a_row_of_a_new_cell_finds_no_extent(rt: HostRuntime) -> Result<(), Fail> {
    let alloc = rt.alloc();
    fill_with_rows(
        alloc,
        extents_of(16)?,
        &mut SpaceNotes::new(),
        &mut fresh_store(alloc)?,
    )
}

// The entries of an extent that is full of index pages, and of a free one.
const FULL_OF_INDEX: [u8; 8] = *b"\x02\x00\x00\x00\x00\x00\x00\x03";

const FREE: [u8; 8] = [0; 8];

// Makes a table C, which has no room for its third tree, and undoes that.
fn make_third_and_undo<P: Pages>(
    alloc: Global,
    catalog: &mut Catalog,
    shape: Shape,
    notes: &mut SpaceNotes,
    pages: &mut P,
) -> Result<(), Fail>
    requires catalog { AreWithinLimits catalog.old }
    requires going { (P.state pages.old).ended ≡ false }
    requires unmarked { (P.state pages.old).marked ≡ None }
    ensures going { (P.state pages.new).ended ≡ false }
{
    pages.mark();
    let answer = try_create(alloc, catalog, shape, notes, pages, b'C')?;
    pages.undo();
    notes.forget();
    check_full(answer, 4)
}

// The pages have the two tables alone.
fn check_undone<P: Pages>(alloc: Global, pages: &mut P) -> Result<(), Fail>
    requires going { (P.state pages.old).ended ≡ false }
    ensures going { (P.state pages.new).ended ≡ false }
{
    check_count(pages, 24)?;
    check_map(pages, &[FULL_OF_INDEX, FULL_OF_INDEX, FULL_OF_INDEX, FREE])?;
    check_loaded(alloc, pages, &TWO_TABLES)
}

// Inserts a row into the second table of the pages. It takes the block 3.
fn insert_into_second<P: Pages>(
    alloc: Global,
    shape: Shape,
    notes: &mut SpaceNotes,
    pages: &mut P,
) -> Result<(), Fail>
    requires going { (P.state pages.old).ended ≡ false }
    ensures going { (P.state pages.new).ended ≡ false }
{
    let mut catalog = loaded(alloc, pages)?;
    fill_table(alloc, &mut catalog, shape, notes, pages, 1, 1, 3)
}

// Two tables come, and a third has no room for its third tree; it is undone. A row of the second takes the extent that is left.
fn make_three<P: Pages>(
    alloc: Global,
    catalog: &mut Catalog,
    shape: Shape,
    notes: &mut SpaceNotes,
    pages: &mut P,
) -> Result<(), Fail>
    requires catalog { AreWithinLimits catalog.old }
    requires going { (P.state pages.old).ended ≡ false }
    requires unmarked { (P.state pages.old).marked ≡ None }
{
    create_two(alloc, catalog, shape, notes, pages)?;
    make_third_and_undo(alloc, catalog, shape, notes, pages)?;
    check_undone(alloc, pages)?;
    insert_into_second(alloc, shape, notes, pages)?;
    check_tables(catalog, &TWO_TABLES)?;
    check_count(pages, 26)
}

// The same in the database that the pages have.
fn fill_with_tables<P: Pages>(
    alloc: Global,
    shape: Shape,
    notes: &mut SpaceNotes,
    pages: &mut P,
) -> Result<(), Fail>
    requires going { (P.state pages.old).ended ≡ false }
    requires unmarked { (P.state pages.old).marked ≡ None }
{
    let mut catalog = loaded(alloc, pages)?;
    make_three(alloc, &mut catalog, shape, notes, pages)
}

#[test]
fn a_table_finds_no_page_for_a_tree(rt: HostRuntime) -> Result<(), Fail> {
    let alloc = rt.alloc();
    fill_with_tables(
        alloc,
        extents_of(4)?,
        &mut SpaceNotes::new(),
        &mut fresh_store(alloc)?,
    )
}
