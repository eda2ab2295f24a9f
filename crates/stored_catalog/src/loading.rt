// The definitions of all tables, from their pages.
ghost use Rattle.std.specs.Prelude.{◌≡◌, ◌+◌, ◌<◌, false, flat_map, IsTrue, IfOk, IfErr, IfSome, OnOk, slice_set};
ghost use Rattle.mdc_ast.specs.ValidDatabase.{AllDefsDiffer, index_names};
ghost use Rattle.mdc_ast.specs.Definitions.{AllNamesDiffer, no_tables};
ghost use Rattle.store_api.specs.Causes.{fault_of};
ghost use Rattle.store_api.specs.Frame.{NoPage, OnlyPage};
ghost use Rattle.store_api.specs.RunsOverPages.{RunsOverPages};
ghost use Rattle.stored_catalog.specs.StoredDefinitions.{AreStored, AreWithinLimits, BreaksTablePage, BreaksTablePages, IsAnyTablePage, IsNameTaken, IsStoredPlace, IsWithinLimits};
ghost use Rattle.stored_catalog.specs.StoredDefinitions as spec;

use crate::saving::no_table_page;
use catalog::Catalog;
use mdc_ast::{IndexDef, TableDef};
use std::alloc::Global;
use store_api::layout::{FIRST_TABLE_PAGE, TABLE_PLACES};
use store_api::rules::TABLE_PAGES_RULE;
use store_api::{Damage, Pages, StoreFault, bring};
use table_page::{DefFault, def_of};

/// The catalog of the definitions that the table pages have, no two of which are of one name, as no two record indexes are. Damaged
/// names page 0 where a table page isn't there, a table page that has neither zeros alone nor a definition, or the lower one of two
/// tables that share a name, their own or that of a record index.
pub fn load_catalog<P: Pages>(alloc: Global, pages: &mut P) -> Result<Catalog, StoreFault>
    requires going { (P.state pages.old).ended ≡ false }
    ensures loads { IfOk result (λ catalog. IsTrue (P.state pages.old).is_told → AreStored (P.state pages.old).work catalog) }
    ensures limits { IfOk result AreWithinLimits }
    ensures names { IfOk result AllDefsDiffer }
    ensures index_names { IfOk result (λ catalog. AllNamesDiffer (flat_map index_names catalog)) }
    ensures same { (P.state pages.new).work ≡ (P.state pages.old).work }
    ensures runs { RunsOverPages P.Pages NoPage IsAnyTablePage (BreaksTablePages P.Pages pages.old) pages.old pages.new (fault_of result) }
{
    let mut catalog = empty_catalog(alloc)?;
    for t in 0..TABLE_PLACES {
        let def = load_def(alloc, pages, t)?;
        put_def(&mut catalog, t, def)?;
    }
    Ok(catalog)
}

/// The definition that table page t has, or None where it has zeros alone.
fn load_def<P: Pages>(alloc: Global, pages: &mut P, t: u8) -> Result<Option<TableDef>, StoreFault>
    requires place { t < 16 }
    requires going { (P.state pages.old).ended ≡ false }
    ensures told { IfOk result (λ def. IsTrue (P.state pages.old).is_told → IsStoredPlace (P.state pages.old).work t def) }
    ensures limits { IfOk result (IsWithinLimits t) }
    ensures same { (P.state pages.new).work ≡ (P.state pages.old).work }
    ensures runs { RunsOverPages P.Pages NoPage (OnlyPage (1 + t)) (BreaksTablePage P.Pages pages.old t) pages.old pages.new (fault_of result) }
{
    let page = FIRST_TABLE_PAGE + u32::from(t);
    if page >= pages.count() {
        return Err(no_table_page());
    }
    bring(pages, page)?;
    match def_of(alloc, pages.page(), t) {
        Ok(def) => Ok(def),
        Err(DefFault::Form) => Err(StoreFault::Damaged(Damage {
            page,
            rule: TABLE_PAGES_RULE,
        })),
        Err(DefFault::Memory) => Err(StoreFault::Memory),
    }
}

/// Puts what a table page has into a place of the catalog, unless a table there has a name of it already, its own or that of a
/// record index. It takes no memory.
fn put_def(catalog: &mut Catalog, t: u8, def: Option<TableDef>) -> Result<(), StoreFault>
    requires place { t < 16 }
    requires limits { IsWithinLimits t def }
    ensures puts { OnOk result (catalog.new ≡ slice_set catalog.old t def) }
    ensures names { OnOk result (AllDefsDiffer catalog.old → AllDefsDiffer catalog.new) }
    ensures index_names { OnOk result (AllNamesDiffer (flat_map index_names catalog.old) → AllNamesDiffer (flat_map index_names catalog.new)) }
    ensures taken { IfErr result (IsNameTaken catalog.old def) }
{
    let Some(def) = def else {
        catalog.leave(t);
        return Ok(());
    };
    if let Some(earlier) = catalog.table(&def.name) {
        return Err(name_taken(earlier.number));
    }
    if let Some((earlier, _)) = taken_index(catalog, def.indexes.as_slice()) {
        return Err(name_taken(earlier));
    }
    catalog.put(t, def);
    Ok(())
}

/// Where the record index of the catalog is that has the name of one of these.
fn taken_index(catalog: &Catalog, indexes: &[IndexDef]) -> Option<(u8, usize)>
    ensures found { result ≡ spec.taken_index catalog.now indexes.now }
    ensures place { IfSome result (λ found. found.0 < 16) }
{
    for index in indexes {
        if let Some(found) = catalog.index(&index.name) {
            return Some(found);
        }
    }
    None
}

/// The fault of two tables that share a name, the lower of which this one is.
fn name_taken(table: u8) -> StoreFault
    requires { table < 16 }
    ensures { result ≡ StoreFault.Damaged (record { page = 1 + table; rule = 3 }) }
{
    StoreFault::Damaged(Damage {
        page: FIRST_TABLE_PAGE + u32::from(table),
        rule: TABLE_PAGES_RULE,
    })
}

/// A catalog of no tables.
fn empty_catalog(alloc: Global) -> Result<Catalog, StoreFault>
    ensures empty { IfOk result (λ catalog. catalog ≡ no_tables) }
    ensures memory { IfErr result (λ fault. fault ≡ StoreFault.Memory) }
{
    Ok(Catalog::empty(alloc)?)
}
