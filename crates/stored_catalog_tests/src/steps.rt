// Scripts of changes of a catalog and its pages, and of looks at them.
ghost use Rattle.std.specs.Prelude.{◌≡◌, false, OnOk};
ghost use Rattle.mdc_ast.specs.TableLimits.{IsTableDef};
ghost use Rattle.stored_catalog.specs.StoredDefinitions.{AreWithinLimits};

use crate::looks::{Look, check_count, check_map, check_page, check_tables};
use crate::rows::fill_table;
use crate::stores::{fresh_store, root_page};
use crate::tables::{check_loaded, create, drop_at, loaded, taken, wide_page};
use catalog::Catalog;
use entry_tree_tests::extents_of;
use extent_map::SpaceNotes;
use mdc_ast::TableDef;
use mdc_table::row_at;
use mdc_values::Rid;
use std::alloc::Global;
use std::test::Fail;
use store_api::{Pages, Shape, blank_page};

/// A change, or a look.
#[derive(Clone, Copy)]
pub enum Step {
    /// A table of a name is made, which has to come in a place.
    Create(u8, u8),
    /// So many rows come into the table in a place, each in a block of its own from one on; then the catalog is loaded again.
    Fill { table: u8, rows: u32, first: u32 },
    /// The table in a place is dropped.
    DropTable(u8),
    /// The catalog is loaded again.
    Load,
    /// The catalog has these tables in its first places, and no others.
    Kept([Option<Look>; 2]),
    /// So has the one that the pages have.
    Loaded([Option<Look>; 2]),
    /// The row 0 of the second table of the pages lies there.
    RowOfSecond(Rid),
    /// There are so many pages.
    Count(u32),
    /// The root page is that of a store of so many pages.
    Root(u32),
    /// A page is that of a table of a name with these roots.
    Definition(u32, u8, [u32; 3]),
    /// The page of the extent map has these entries first, and others of free extents.
    Map([[u8; 8]; 4]),
    /// A page has zeros alone.
    Blank(u32),
}

// Loads the catalog again.
fn load_again<P: Pages>(alloc: Global, catalog: &mut Catalog, pages: &mut P) -> Result<(), Fail>
    requires going { (P.state pages.old).ended ≡ false }
    ensures catalog { OnOk result (AreWithinLimits catalog.new) }
    ensures going { (P.state pages.new).ended ≡ false }
{
    *catalog = loaded(alloc, pages)?;
    Ok(())
}

// Puts rows into a table, and loads the catalog again.
fn fill_and_load<P: Pages>(
    alloc: Global,
    catalog: &mut Catalog,
    shape: Shape,
    notes: &mut SpaceNotes,
    pages: &mut P,
    table: u8,
    rows: u32,
    first: u32,
) -> Result<(), Fail>
    requires catalog { AreWithinLimits catalog.old }
    requires going { (P.state pages.old).ended ≡ false }
    ensures catalog { OnOk result (AreWithinLimits catalog.new) }
    ensures going { (P.state pages.new).ended ≡ false }
{
    fill_table(alloc, catalog, shape, notes, pages, table, rows, first)?;
    load_again(alloc, catalog, pages)
}

// Fails where the row 0 of a table doesn't lie there.
fn check_row<P: Pages>(
    alloc: Global,
    def: &TableDef,
    shape: Shape,
    pages: &mut P,
    rid: Rid,
) -> Result<(), Fail>
    requires defined { IsTableDef def.now.number def.now }
    requires going { (P.state pages.old).ended ≡ false }
    ensures going { (P.state pages.new).ended ≡ false }
{
    let is_there = match row_at(alloc, def, shape, pages, rid)? {
        Some(row) => row.number == 0,
        None => false,
    };
    if !is_there {
        return Err(Fail::new("another row, or none"));
    }
    Ok(())
}

// The same of the second table of a catalog.
fn check_row_of_second<P: Pages>(
    alloc: Global,
    catalog: &mut Catalog,
    shape: Shape,
    pages: &mut P,
    rid: Rid,
) -> Result<(), Fail>
    requires catalog { AreWithinLimits catalog.old }
    requires going { (P.state pages.old).ended ≡ false }
    ensures going { (P.state pages.new).ended ≡ false }
{
    let def = taken(catalog, 1)?;
    check_row(alloc, &def, shape, pages, rid)
}

// The same of the catalog that the pages have.
fn check_loaded_row<P: Pages>(
    alloc: Global,
    shape: Shape,
    pages: &mut P,
    rid: Rid,
) -> Result<(), Fail>
    requires going { (P.state pages.old).ended ≡ false }
    ensures going { (P.state pages.new).ended ≡ false }
{
    let mut catalog = loaded(alloc, pages)?;
    check_row_of_second(alloc, &mut catalog, shape, pages, rid)
}

// Makes the change, or fails where something else is seen.
fn play<P: Pages>(
    alloc: Global,
    catalog: &mut Catalog,
    shape: Shape,
    notes: &mut SpaceNotes,
    pages: &mut P,
    step: Step,
) -> Result<(), Fail>
    requires catalog { AreWithinLimits catalog.old }
    requires going { (P.state pages.old).ended ≡ false }
    ensures catalog { OnOk result (AreWithinLimits catalog.new) }
    ensures going { (P.state pages.new).ended ≡ false }
{
    match step {
        Step::Create(name, place) => create(alloc, catalog, shape, notes, pages, name, place),
        Step::Fill { table, rows, first } => {
            fill_and_load(alloc, catalog, shape, notes, pages, table, rows, first)
        }
        Step::DropTable(table) => drop_at(alloc, catalog, shape, notes, pages, table),
        Step::Load => load_again(alloc, catalog, pages),
        Step::Kept(places) => check_tables(catalog, &places),
        Step::Loaded(places) => check_loaded(alloc, pages, &places),
        Step::RowOfSecond(rid) => check_loaded_row(alloc, shape, pages, rid),
        Step::Count(count) => check_count(pages, count),
        Step::Root(many) => check_page(pages, 0, &root_page(many)),
        Step::Definition(page, name, roots) => check_page(pages, page, &wide_page(name, roots)),
        Step::Map(entries) => check_map(pages, &entries),
        Step::Blank(page) => check_page(pages, page, blank_page()),
    }
}

// Plays these steps, one after another.
fn play_all<P: Pages>(
    alloc: Global,
    catalog: &mut Catalog,
    shape: Shape,
    notes: &mut SpaceNotes,
    pages: &mut P,
    steps: &[Step],
) -> Result<(), Fail>
    requires catalog { AreWithinLimits catalog.old }
    requires going { (P.state pages.old).ended ≡ false }
{
    for step in steps {
        play(alloc, catalog, shape, notes, pages, *step)?;
    }
    Ok(())
}

// The same on the catalog that the pages have.
fn load_and_play<P: Pages>(
    alloc: Global,
    shape: Shape,
    notes: &mut SpaceNotes,
    pages: &mut P,
    steps: &[Step],
) -> Result<(), Fail>
    requires going { (P.state pages.old).ended ≡ false }
{
    let mut catalog = loaded(alloc, pages)?;
    play_all(alloc, &mut catalog, shape, notes, pages, steps)
}

/// Plays these steps in an empty database of 16 extents.
pub fn run_steps(alloc: Global, steps: &[Step]) -> Result<(), Fail> {
    load_and_play(
        alloc,
        extents_of(16)?,
        &mut SpaceNotes::new(),
        &mut fresh_store(alloc)?,
        steps,
    )
}
