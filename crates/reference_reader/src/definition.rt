// The definition of a table, on its page.
ghost use Rattle.std.specs.Prelude.{◌≡◌, ◌+◌, ◌<◌, false, IsTrue, IfOk, IfSome, MatchOption};
ghost use Rattle.store_api.specs.Causes.{fault_of};
ghost use Rattle.store_api.specs.Frame.{NoPage, OnlyPage};
ghost use Rattle.store_api.specs.RunsOverPages.{RunsOverPages};
ghost use Rattle.store_api.specs.StoreState.{zero_page};
ghost use Rattle.mdc_ast.specs.TableLimits.{IsTableDef};
ghost use Rattle.mdc_sound.specs.TablePages.{DefinesTable, table_page_at};
ghost use Rattle.reference_reader.specs.ReadPages.{BreaksDefinition};

use crate::page::bring_page;
use mdc_ast::TableDef;
use std::alloc::Global;
use store_api::layout::FIRST_TABLE_PAGE;
use store_api::rules::TABLE_PAGES_RULE;
use store_api::{Damage, Pages, Shape, StoreFault};
use table_page::{DefFault, def_of};

/// The definition of a table, or None where its page has zeros alone.
pub fn read_definition<P: Pages>(
    alloc: Global,
    shape: Shape,
    pages: &mut P,
    t: u8,
) -> Result<Option<TableDef>, StoreFault>
    requires place { t < 16 }
    requires going { (P.state pages.old).ended ≡ false }
    ensures told { IfOk result (λ def. IsTrue (P.state pages.old).is_told
        → MatchOption def (table_page_at (P.state pages.old).work t ≡ zero_page) (DefinesTable (P.state pages.old).work t)) }
    ensures limits { IfOk result (λ def. IfSome def (IsTableDef t)) }
    ensures same { (P.state pages.new).work ≡ (P.state pages.old).work }
    ensures runs { RunsOverPages P.Pages NoPage (OnlyPage (1 + t)) (BreaksDefinition shape (P.state pages.old)) pages.old pages.new (fault_of result) }
{
    let undefined = Damage {
        page: FIRST_TABLE_PAGE + u32::from(t),
        rule: TABLE_PAGES_RULE,
    };
    bring_page(pages, undefined)?;
    match def_of(alloc, pages.page(), t) {
        Ok(def) => Ok(def),
        Err(DefFault::Form) => Err(StoreFault::Damaged(undefined)),
        Err(DefFault::Memory) => Err(StoreFault::Memory),
    }
}
