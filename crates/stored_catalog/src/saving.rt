// The definition of a table, onto its page.
ghost use Rattle.std.specs.Prelude.{◌≡◌, ◌+◌, ◌<◌, length, false, None, Some, IsTrue, IfSome, OnOk, slice_set};
ghost use Rattle.mdc_ast.specs.Definitions.{Definitions, def_at};
ghost use Rattle.store_api.specs.Causes.{fault_of};
ghost use Rattle.store_api.specs.Frame.{NoPage, OnlyPage};
ghost use Rattle.store_api.specs.RunsOverPages.{RunsOverPages};
ghost use Rattle.mdc_ast.specs.TableLimits.{IsTableDef};
ghost use Rattle.stored_catalog.specs.StoredDefinitions.{AreStored, LacksTablePage, with_stored};

use catalog::Catalog;
use mdc_ast::TableDef;
use store_api::layout::{FIRST_TABLE_PAGE, ROOT_PAGE};
use store_api::rules::ROOT_PAGE_RULE;
use store_api::{Damage, Page, Pages, StoreFault, blank_page, write_page};
use table_page::def_page;

/// Writes the page of a place of the catalog: that of the definition there, or zeros. Damaged names page 0 where there is no such
/// page.
pub fn save_table<P: Pages>(catalog: &Catalog, pages: &mut P, table: u8) -> Result<(), StoreFault>
    requires place { table < 16 }
    requires limits { IfSome (def_at catalog.now table) (IsTableDef table) }
    requires going { (P.state pages.old).ended ≡ false }
    ensures there { OnOk result (1 + table < length (P.state pages.old).work) }
    ensures saves { OnOk result (IsTrue (P.state pages.old).is_told → (P.state pages.new).work ≡ with_stored (P.state pages.old).work table (def_at catalog.now table)) }
    ensures stored { OnOk result (IsTrue (P.state pages.old).is_told → (defs : Definitions) → AreStored (P.state pages.old).work defs → AreStored (P.state pages.new).work (slice_set defs table (def_at catalog.now table))) }
    ensures count { length (P.state pages.new).work ≡ length (P.state pages.old).work }
    ensures runs { RunsOverPages P.Pages (OnlyPage (1 + table)) NoPage (LacksTablePage P.Pages pages.old table) pages.old pages.new (fault_of result) }
{
    match catalog.def(table) {
        Some(def) => write_def(pages, table, def),
        None => clear_def(pages, table),
    }
}

/// Makes a table page that of a definition. Damaged names page 0 where there is no such page.
pub fn write_def<P: Pages>(pages: &mut P, table: u8, def: &TableDef) -> Result<(), StoreFault>
    requires limits { IsTableDef table def.now }
    requires place { table < 16 }
    requires going { (P.state pages.old).ended ≡ false }
    ensures there { OnOk result (1 + table < length (P.state pages.old).work) }
    ensures saves { OnOk result (IsTrue (P.state pages.old).is_told → (P.state pages.new).work ≡ with_stored (P.state pages.old).work table (Some def.now)) }
    ensures count { length (P.state pages.new).work ≡ length (P.state pages.old).work }
    ensures runs { RunsOverPages P.Pages (OnlyPage (1 + table)) NoPage (LacksTablePage P.Pages pages.old table) pages.old pages.new (fault_of result) }
{
    let mut page = *blank_page();
    def_page(def, &mut page);
    write_table_page(pages, table, &page)
}

/// Makes a table page zeros.
pub(crate) fn clear_def<P: Pages>(pages: &mut P, table: u8) -> Result<(), StoreFault>
    requires place { table < 16 }
    requires going { (P.state pages.old).ended ≡ false }
    ensures there { OnOk result (1 + table < length (P.state pages.old).work) }
    ensures saves { OnOk result (IsTrue (P.state pages.old).is_told → (P.state pages.new).work ≡ with_stored (P.state pages.old).work table None) }
    ensures count { length (P.state pages.new).work ≡ length (P.state pages.old).work }
    ensures runs { RunsOverPages P.Pages (OnlyPage (1 + table)) NoPage (LacksTablePage P.Pages pages.old table) pages.old pages.new (fault_of result) }
{
    write_table_page(pages, table, blank_page())
}

/// Writes over a table page.
fn write_table_page<P: Pages>(pages: &mut P, table: u8, bytes: &Page) -> Result<(), StoreFault>
    requires place { table < 16 }
    requires going { (P.state pages.old).ended ≡ false }
    ensures there { OnOk result (1 + table < length (P.state pages.old).work) }
    ensures saves { OnOk result (IsTrue (P.state pages.old).is_told → (P.state pages.new).work ≡ slice_set (P.state pages.old).work (1 + table) bytes.now) }
    ensures count { length (P.state pages.new).work ≡ length (P.state pages.old).work }
    ensures runs { RunsOverPages P.Pages (OnlyPage (1 + table)) NoPage (LacksTablePage P.Pages pages.old table) pages.old pages.new (fault_of result) }
{
    let page = FIRST_TABLE_PAGE + u32::from(table);
    if page >= pages.count() {
        return Err(no_table_page());
    }
    write_page(pages, page, bytes)
}

/// The fault of a store whose pages are so few that a table page isn't there.
pub(crate) fn no_table_page() -> StoreFault
    ensures { result ≡ StoreFault.Damaged (record { page = 0; rule = 1 }) }
{
    StoreFault::Damaged(Damage {
        page: ROOT_PAGE,
        rule: ROOT_PAGE_RULE,
    })
}
