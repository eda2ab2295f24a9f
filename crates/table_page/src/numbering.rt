// The next row number of a table page that is there.
ghost use Rattle.std.specs.Prelude.{ℕ};
ghost use Rattle.mdc_ast.specs.declared.definition.TableDef.{TableDef};
ghost use Rattle.table_page.specs.TablePage.{IsTablePageOf};

use crate::layout::NEXT;
use store_api::{Page, put};

/// Makes the page of a definition that of the same one with this next row number.
pub fn set_next(page: &mut Page, next: u64)
    ensures { (t : ℕ) (def : TableDef) → IsTablePageOf t def page.old → IsTablePageOf t (record def { next = next }) page.new }
{
    put(page, NEXT, &next.to_be_bytes());
}
