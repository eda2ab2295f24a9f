// All rows of a block.
ghost use Rattle.std.specs.Prelude.{◌≡◌, ◌<◌, map, false, IfOk, IsTrue};
ghost use Rattle.store_api.specs.Causes.{fault_of};
ghost use Rattle.store_api.specs.Frame.{NoPage};
ghost use Rattle.store_api.specs.RunsOverPages.{RunsOverPages};
ghost use Rattle.row_page.specs.Row.{AreRowColumns};
ghost use Rattle.block_rows.specs.HeldRows.{HaveReadValues, placed_row};
ghost use Rattle.mdc_sound.specs.TableRows.{rows_in_block};
ghost use Rattle.file_check.specs.Known.{BlockHasRowPages};
ghost use Rattle.file_check.specs.Looking.{AnyPage, Unless};

use block_rows::Hit;
use mdc_ast::TableDef;
use std::alloc::Global;
use store_api::{Pages, Shape, StoreFault};

/// Copies of the rows of a block whose pages are row pages, by rising slot, each with its place.
pub(crate) fn rows_of_block<P: Pages>(
    alloc: Global,
    shape: Shape,
    pages: &mut P,
    def: &TableDef,
    block: u32,
) -> Result<Vec<Hit>, StoreFault>
    requires columns { AreRowColumns def.now.columns }
    requires below { block < shape.extents }
    requires going { (P.state pages.old).ended ≡ false }
    ensures rows { IfOk result (λ hits. IsTrue (P.state pages.old).is_told → BlockHasRowPages shape (P.state pages.old).work def.now block
        → map placed_row hits.items ≡ rows_in_block shape (P.state pages.old).work def.now block) }
    ensures keyed { IfOk result (λ hits. HaveReadValues def.now.columns hits.items) }
    ensures same { (P.state pages.new).work ≡ (P.state pages.old).work }
    ensures runs { RunsOverPages P.Pages NoPage AnyPage (Unless P.Pages pages.old (λ told. BlockHasRowPages shape told def.now block)) pages.old pages.new (fault_of result) }
{
    match block_rows::rows_of_block(alloc, def, shape, pages, block) {
        Ok(hits) => Ok(hits),
        Err(fault) => Err(fault),
    }
}
