// The definition that a page is.
ghost use Rattle.std.specs.Prelude.{◌≡◌, ◌↔◌, Ok, None, IsTrue};
ghost use Rattle.mdc_ast.specs.declared.definition.TableDef.{TableDef};
ghost use Rattle.store_api.specs.StoreState.{zero_page};
ghost use Rattle.table_page.specs.PageAnswers.{GivesTable, TellsTable};
ghost use Rattle.mdc_ast.specs.TableLimits.{IsTableDef};
ghost use Rattle.table_page.specs.TablePage.{IsTablePageOf, table_page};

use crate::DefFault;
use crate::definition_limits::is_within_limits;
use crate::definition_page::def_page;
use crate::definition_reading::read_definition;
use mdc_ast::TableDef;
use std::alloc::Global;
use store_api::{Page, blank_page};

/// The definition of a table that a page is, or None where the page has zeros alone. What is read is judged against the
/// limits and printed again: `Form` comes exactly where that isn't this very page.
pub fn def_of(alloc: Global, page: &Page, table: u8) -> Result<Option<TableDef>, DefFault>
    ensures told { TellsTable table page.now result }
    ensures found { (def : TableDef) → IsTablePageOf table def page.now → GivesTable def result }
    ensures blank { page.now ≡ zero_page → result ≡ Ok None }
{
    if is_blank(page) {
        return Ok(None);
    }
    let def = read_definition(alloc, &page[..], table)?;
    if !is_within_limits(alloc, &def)? {
        return Err(DefFault::Form);
    }
    if !is_page_of(&def, page) {
        return Err(DefFault::Form);
    }
    Ok(Some(def))
}

fn is_blank(page: &Page) -> bool
    ensures { IsTrue result ↔ (page.now ≡ zero_page) }
{
    page[..] == blank_page()[..]
}

/// Whether a page is that of a definition within the limits.
fn is_page_of(def: &TableDef, page: &Page) -> bool
    requires { IsTableDef def.now.number def.now }
    ensures { IsTrue result ↔ (page.now ≡ table_page def.now) }
{
    let mut printed = *blank_page();
    def_page(def, &mut printed);
    page[..] == printed[..]
}
