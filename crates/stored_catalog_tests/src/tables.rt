// Tables by their names of one letter: made, taken out of a catalog, written back and dropped.
ghost use Rattle.std.specs.Prelude.{◌≡◌, ◌<◌, [], false, None, IfOk, IfSome, IsSome, IsTrue, OnOk};
ghost use Rattle.mdc_ast.specs.Definitions.{def_at, empty_place, place_of};
ghost use Rattle.mdc_ast.specs.TableLimits.{IsTableDef};
ghost use Rattle.stored_catalog.specs.NewTables.{IsNewTableDef};
ghost use Rattle.stored_catalog.specs.StoredDefinitions.{AreWithinLimits};

use crate::looks::{Look, check_count, check_tables};
use crate::wrong::Wrong;
use catalog::Catalog;
use extent_map::{SpaceFault, SpaceNotes};
use mdc_ast::{Name, TableDef};
use std::alloc::Global;
use std::test::Fail;
use store_api::{Page, Pages, Shape, blank_page, put};
use stored_catalog::{add_table, drop_table, load_catalog, save_table};
use table_page::def_of;

/// The page of a table `(D INTEGER, K INTEGER, X CHAR(254), Y CHAR(254), Z CHAR(254))` by D, with this name and these roots. A row
/// has 780 bytes, so a page has five and a block ten.
pub fn wide_page(name: u8, roots: [u32; 3]) -> Page {
    let mut page = *blank_page();
    put(&mut page, 0, b"\x54                  \x05\x01\x00");
    put(&mut page, 1, &[name]);
    put(&mut page, 30, &roots[0].to_be_bytes());
    put(&mut page, 34, &roots[1].to_be_bytes());
    put(&mut page, 38, &roots[2].to_be_bytes());
    put(&mut page, 54, b"D                 \x01\x00\x00");
    put(&mut page, 85, b"K                 \x01\x00\x00");
    put(&mut page, 116, b"X                 \x03\xfe\x00");
    put(&mut page, 147, b"Y                 \x03\xfe\x00");
    put(&mut page, 178, b"Z                 \x03\xfe\x00");
    put(&mut page, 550, b"\x01\x00");
    page
}

/// The catalog that the pages have.
pub fn loaded<P: Pages>(alloc: Global, pages: &mut P) -> Result<Catalog, Fail>
    requires going { (P.state pages.old).ended ≡ false }
    ensures catalog { IfOk result AreWithinLimits }
    ensures going { (P.state pages.new).ended ≡ false }
    ensures marked { (P.state pages.new).marked ≡ (P.state pages.old).marked }
{
    Ok(load_catalog(alloc, pages)?)
}

/// Fails where the catalog that the pages have isn't one whose first places are these, and whose others are empty.
pub fn check_loaded<P: Pages>(
    alloc: Global,
    pages: &mut P,
    first: &[Option<Look>],
) -> Result<(), Fail>
    requires going { (P.state pages.old).ended ≡ false }
    ensures going { (P.state pages.new).ended ≡ false }
    ensures marked { (P.state pages.new).marked ≡ (P.state pages.old).marked }
{
    let catalog = loaded(alloc, pages)?;
    check_tables(&catalog, first)
}

// The definition of a table that is to be made.
fn definition(alloc: Global, name: u8) -> Result<TableDef, Fail>
    ensures new { IfOk result IsNewTableDef }
{
    let found = def_of(alloc, &wide_page(name, [0, 0, 0]), 0)?;
    let Some(def) = found else {
        return Err(Fail::new("a page of zeros"));
    };
    if def.indexes.len() > 0 {
        return Err(Fail::new("a table with indexes"));
    }
    Ok(def)
}

fn has_room(catalog: &Catalog) -> bool
    ensures { IsTrue result → IsSome (empty_place catalog.now) }
{
    !catalog.is_full()
}

fn is_free(catalog: &Catalog, name: &Name) -> bool
    ensures { IsTrue result → place_of catalog.now name.now ≡ None }
{
    match catalog.table(name) {
        Some(_) => false,
        None => true,
    }
}

/// What making a table of this name answers.
pub fn try_create<P: Pages>(
    alloc: Global,
    catalog: &mut Catalog,
    shape: Shape,
    notes: &mut SpaceNotes,
    pages: &mut P,
    name: u8,
) -> Result<Result<u8, SpaceFault>, Fail>
    requires catalog { AreWithinLimits catalog.old }
    requires going { (P.state pages.old).ended ≡ false }
    ensures catalog { OnOk result (AreWithinLimits catalog.new) }
    ensures going { (P.state pages.new).ended ≡ false }
    ensures marked { (P.state pages.new).marked ≡ (P.state pages.old).marked }
{
    let def = definition(alloc, name)?;
    if !has_room(catalog) || !is_free(catalog, &def.name) {
        return Err(Fail::new("no place for a table of this name"));
    }
    match add_table(alloc, catalog, shape, notes, pages, def) {
        Ok(place) => Ok(Ok(place)),
        Err(fault) => Ok(Err(fault)),
    }
}

/// Makes a table of this name, which has to come in this place.
pub fn create<P: Pages>(
    alloc: Global,
    catalog: &mut Catalog,
    shape: Shape,
    notes: &mut SpaceNotes,
    pages: &mut P,
    name: u8,
    place: u8,
) -> Result<(), Fail>
    requires catalog { AreWithinLimits catalog.old }
    requires going { (P.state pages.old).ended ≡ false }
    ensures catalog { OnOk result (AreWithinLimits catalog.new) }
    ensures going { (P.state pages.new).ended ≡ false }
    ensures marked { (P.state pages.new).marked ≡ (P.state pages.old).marked }
{
    let made = try_create(alloc, catalog, shape, notes, pages, name)??;
    if made != place {
        return Err(Fail::from(Wrong::Table(made)));
    }
    Ok(())
}

/// The tables A and B of a database that had none. The first takes the pages 18, 19 and 20, and the second the page 21 that is
/// left of extent 1, and then 22 and 23 of extent 2.
pub const TWO_TABLES: [Option<Look>; 2] = [
    Some(Look {
        name: b'A',
        number: 0,
        next: 0,
        roots: [18, 19, 20],
    }),
    Some(Look {
        name: b'B',
        number: 1,
        next: 0,
        roots: [21, 22, 23],
    }),
];

/// Makes these two tables, and looks after each at how many pages there are.
pub fn create_two<P: Pages>(
    alloc: Global,
    catalog: &mut Catalog,
    shape: Shape,
    notes: &mut SpaceNotes,
    pages: &mut P,
) -> Result<(), Fail>
    requires catalog { AreWithinLimits catalog.old }
    requires going { (P.state pages.old).ended ≡ false }
    ensures catalog { OnOk result (AreWithinLimits catalog.new) }
    ensures going { (P.state pages.new).ended ≡ false }
    ensures marked { (P.state pages.new).marked ≡ (P.state pages.old).marked }
{
    create(alloc, catalog, shape, notes, pages, b'A', 0)?;
    check_count(pages, 22)?;
    create(alloc, catalog, shape, notes, pages, b'B', 1)?;
    check_count(pages, 24)
}

/// Makes them in the database that the pages have.
pub fn make_two<P: Pages>(
    alloc: Global,
    shape: Shape,
    notes: &mut SpaceNotes,
    pages: &mut P,
) -> Result<(), Fail>
    requires going { (P.state pages.old).ended ≡ false }
    ensures going { (P.state pages.new).ended ≡ false }
{
    let mut catalog = loaded(alloc, pages)?;
    create_two(alloc, &mut catalog, shape, notes, pages)
}

// Whether there is a table in a place, which has no record index.
fn may_drop(catalog: &Catalog, table: u8) -> bool
    ensures place { IsTrue result → table < 16 }
    ensures there { IsTrue result → IsSome (def_at catalog.now table) }
    ensures no_indexes { IsTrue result → IfSome (def_at catalog.now table) (λ def. def.indexes ≡ []) }
{
    if table >= 16 {
        return false;
    }
    match catalog.def(table) {
        Some(def) => def.indexes.len() == 0,
        None => false,
    }
}

/// Drops the table in a place.
pub fn drop_at<P: Pages>(
    alloc: Global,
    catalog: &mut Catalog,
    shape: Shape,
    notes: &mut SpaceNotes,
    pages: &mut P,
    table: u8,
) -> Result<(), Fail>
    requires catalog { AreWithinLimits catalog.old }
    requires going { (P.state pages.old).ended ≡ false }
    ensures catalog { OnOk result (AreWithinLimits catalog.new) }
    ensures going { (P.state pages.new).ended ≡ false }
{
    if !may_drop(catalog, table) {
        return Err(Fail::new("no table to drop"));
    }
    drop_table(alloc, catalog, shape, notes, pages, table)?;
    Ok(())
}

/// Takes a definition out of a catalog, so that rows can be put.
pub fn taken(catalog: &mut Catalog, table: u8) -> Result<TableDef, Fail>
    requires catalog { AreWithinLimits catalog.old }
    ensures catalog { OnOk result (AreWithinLimits catalog.new) }
    ensures defined { IfOk result (λ def. IsTableDef def.number def) }
    ensures no_indexes { IfOk result (λ def. def.indexes ≡ []) }
{
    if table >= 16 {
        return Err(Fail::new("no such place"));
    }
    let Some(def) = catalog.take(table) else {
        return Err(Fail::new("no such table"));
    };
    if def.indexes.len() > 0 {
        return Err(Fail::new("a table with indexes"));
    }
    Ok(def)
}

/// Puts a definition back, and writes its page.
pub fn save<P: Pages>(catalog: &mut Catalog, pages: &mut P, def: TableDef) -> Result<(), Fail>
    requires defined { IsTableDef def.number def }
    requires going { (P.state pages.old).ended ≡ false }
    ensures going { (P.state pages.new).ended ≡ false }
{
    let table = def.number;
    if table >= 16 {
        return Err(Fail::new("no such place"));
    }
    catalog.put(table, def);
    save_table(catalog, pages, table)?;
    Ok(())
}
