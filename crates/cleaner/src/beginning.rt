// A pass begins with the blocks that wait.
ghost use Rattle.std.specs.Prelude.{◌≡◌, List, false, IfOk};
ghost use Rattle.mdc_ast.specs.TableLimits.{IsTableDef};
ghost use Rattle.store_api.specs.Causes.{fault_of};
ghost use Rattle.store_api.specs.Frame.{NoPage};
ghost use Rattle.store_api.specs.RunsOverPages.{RunsOverPages};
ghost use Rattle.store_api.specs.declared.shape.Shape.{Shape};
ghost use Rattle.extent_map.specs.declared.kind.Kind.{Kind};
ghost use Rattle.block_map.specs.MapLines.{pending_blocks};
ghost use Rattle.mdc_sound.specs.StandingTable.{BreaksTable, StandsTable, TableForests};
ghost use Rattle.table_blocks.specs.BlockChanges.{IsTreeOrMapPageOfTable};
ghost use Rattle.cleaner.specs.Passes.{BeginsPass};

use crate::Pass;
use block_map::{BlockMap, BlockState};
use mdc_ast::TableDef;
use std::alloc::Global;
use store_api::{Pages, StoreFault};

/// The pass over all Pending blocks of a table, before its first step. None where no block of it is Pending. Nothing changes.
pub fn begin<P: Pages>(
    alloc: Global,
    def: &TableDef,
    pages: &mut P,
) -> Result<Option<Pass>, StoreFault>
    requires defined { IsTableDef def.now.number def.now }
    requires going { (P.state pages.old).ended ≡ false }
    ensures begins { IfOk result (λ pass. (shape : Shape) (owners : List Kind) (forests : TableForests) → StandsTable P.Pages shape pages.old def.now owners forests
        → BeginsPass def.now (pending_blocks forests.map) pass) }
    ensures same { (P.state pages.new).work ≡ (P.state pages.old).work }
    ensures runs { (shape : Shape) → RunsOverPages P.Pages NoPage (IsTreeOrMapPageOfTable P.Pages shape pages.old def.now) (BreaksTable P.Pages shape pages.old def.now) pages.old pages.new (fault_of result) }
{
    let map = BlockMap::at(alloc, def.roots.map);
    let blocks = map.list(pages, BlockState::Pending)?;
    if blocks.as_slice().is_empty() {
        return Ok(None);
    }
    Ok(Some(Pass {
        table: def.number,
        blocks,
        index: 0,
        bound: None,
    }))
}
