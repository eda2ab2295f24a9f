// The next row number of a table, onto its page.
ghost use Rattle.std.specs.Prelude.{◌≡◌, ◌+◌, ◌<◌, ℕ, length, false, Some, IsTrue, IsSome, OnOk, slice_set};
ghost use Rattle.mdc_ast.specs.declared.definition.TableDef.{TableDef};
ghost use Rattle.mdc_ast.specs.Definitions.{Definitions, def_at};
ghost use Rattle.store_api.specs.Causes.{NoDamage, fault_of};
ghost use Rattle.store_api.specs.Frame.{OnlyPage};
ghost use Rattle.store_api.specs.RunsOverPages.{RunsOverPages};
ghost use Rattle.store_api.specs.StoreState.{page_at};
ghost use Rattle.table_page.specs.TablePage.{IsTablePageOf};
ghost use Rattle.mdc_sound.specs.TablePages.{DefinesTable};
ghost use Rattle.stored_catalog.specs.StoredDefinitions.{AreStored, LacksTablePage, with_stored};

use crate::saving::no_table_page;
use catalog::Catalog;
use store_api::layout::FIRST_TABLE_PAGE;
use store_api::{Pages, StoreFault};
use table_page::set_next;

/// Writes the next row number of the definition in a place of the catalog to its table page, which has all else of it. Damaged
/// names page 0 where there is no such page.
pub fn save_next<P: Pages>(catalog: &Catalog, pages: &mut P, table: u8) -> Result<(), StoreFault>
    requires place { table < 16 }
    requires defined { IsSome (def_at catalog.now table) }
    requires going { (P.state pages.old).ended ≡ false }
    ensures there { OnOk result (1 + table < length (P.state pages.old).work) }
    ensures saves { OnOk result (IsTrue (P.state pages.old).is_told → (def : TableDef) → def_at catalog.now table ≡ Some def → (n : ℕ) → DefinesTable (P.state pages.old).work table (record def { next = n })
        → (P.state pages.new).work ≡ with_stored (P.state pages.old).work table (Some def)) }
    ensures stored { OnOk result (IsTrue (P.state pages.old).is_told → (def : TableDef) → def_at catalog.now table ≡ Some def → (n : ℕ) (defs : Definitions) → def_at defs table ≡ Some (record def { next = n })
        → AreStored (P.state pages.old).work defs → AreStored (P.state pages.new).work (slice_set defs table (Some def))) }
    ensures count { length (P.state pages.new).work ≡ length (P.state pages.old).work }
    ensures runs { RunsOverPages P.Pages (OnlyPage (1 + table)) (OnlyPage (1 + table)) (LacksTablePage P.Pages pages.old table) pages.old pages.new (fault_of result) }
{
    let Some(def) = catalog.def(table) else {
        unreachable!()
    };
    write_next(pages, table, def.next)
}

/// Makes the page of a table that of its definition with this next row number.
fn write_next<P: Pages>(pages: &mut P, table: u8, next: u64) -> Result<(), StoreFault>
    requires place { table < 16 }
    requires going { (P.state pages.old).ended ≡ false }
    ensures there { OnOk result (1 + table < length (P.state pages.old).work) }
    ensures numbers { OnOk result (IsTrue (P.state pages.old).is_told → (def : TableDef) → DefinesTable (P.state pages.old).work table def → DefinesTable (P.state pages.new).work table (record def { next = next })) }
    ensures count { length (P.state pages.new).work ≡ length (P.state pages.old).work }
    ensures runs { RunsOverPages P.Pages (OnlyPage (1 + table)) (OnlyPage (1 + table)) (LacksTablePage P.Pages pages.old table) pages.old pages.new (fault_of result) }
{
    let page = FIRST_TABLE_PAGE + u32::from(table);
    if page >= pages.count() {
        return Err(no_table_page());
    }
    edit_next(pages, page, next)
}

/// Makes a page that is that of a definition that of the same one with this next row number.
fn edit_next<P: Pages>(pages: &mut P, page: u32, next: u64) -> Result<(), StoreFault>
    requires going { (P.state pages.old).ended ≡ false }
    requires within { page < length (P.state pages.old).work }
    ensures numbers { OnOk result (IsTrue (P.state pages.old).is_told → (t : ℕ) (def : TableDef) → IsTablePageOf t def (page_at (P.state pages.old).work page)
        → IsTablePageOf t (record def { next = next }) (page_at (P.state pages.new).work page)) }
    ensures count { length (P.state pages.new).work ≡ length (P.state pages.old).work }
    ensures runs { RunsOverPages P.Pages (OnlyPage page) (OnlyPage page) NoDamage pages.old pages.new (fault_of result) }
{
    set_next(pages.edit(page)?, next);
    Ok(())
}
