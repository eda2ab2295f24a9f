// How many blocks a table has in each state.
ghost use Rattle.std.specs.Prelude.{◌≡◌, List, false, length, IfOk};
ghost use Rattle.store_api.specs.Causes.{fault_of};
ghost use Rattle.store_api.specs.Frame.{NoPage};
ghost use Rattle.store_api.specs.RunsOverPages.{RunsOverPages};
ghost use Rattle.extent_map.specs.declared.kind.Kind.{Kind};
ghost use Rattle.block_map.specs.MapLines.{blocks_of_state};
ghost use Rattle.block_map.specs.MapRows.{state_number};
ghost use Rattle.table_trees.specs.TableTrees.{map_place};
ghost use Rattle.table_trees.specs.TreesBeside.{IsTreePageAt};
ghost use Rattle.mdc_sound.specs.StandingTable.{BreaksTable, StandsTable, TableForests};
ghost use Rattle.mdc_table.specs.TableReading.{CountsBlocks};

use block_map::{BlockMap, BlockState};
use mdc_ast::TableDef;
use std::alloc::Global;
use store_api::{Pages, Shape, StoreFault};

/// How many blocks of a table are in each state.
#[derive(Clone, Copy, Debug, PartialEq, Eq)]
pub struct Account {
    pub used: u64,
    pub free: u64,
    pub pending: u64,
}

/// Counts the blocks of a table by their states. It looks at no row page.
pub fn account_of<P: Pages>(
    alloc: Global,
    def: &TableDef,
    shape: Shape,
    pages: &mut P,
) -> Result<Account, StoreFault>
    requires going { (P.state pages.old).ended ≡ false }
    ensures counts { IfOk result (λ account. (owners : List Kind) (forests : TableForests) → StandsTable P.Pages shape pages.old def.now owners forests → CountsBlocks forests.map account) }
    ensures same { (P.state pages.new).work ≡ (P.state pages.old).work }
    ensures runs { RunsOverPages P.Pages NoPage (IsTreePageAt P.Pages pages.old (map_place def.now)) (BreaksTable P.Pages shape pages.old def.now) pages.old pages.new (fault_of result) }
{
    let used = count_blocks(alloc, def, shape, pages, BlockState::Used)?;
    let free = count_blocks(alloc, def, shape, pages, BlockState::Free)?;
    let pending = count_blocks(alloc, def, shape, pages, BlockState::Pending)?;
    Ok(Account {
        used,
        free,
        pending,
    })
}

/// How many blocks are in a state.
fn count_blocks<P: Pages>(
    alloc: Global,
    def: &TableDef,
    shape: Shape,
    pages: &mut P,
    state: BlockState,
) -> Result<u64, StoreFault>
    requires going { (P.state pages.old).ended ≡ false }
    ensures counts { IfOk result (λ count. (owners : List Kind) (forests : TableForests) → StandsTable P.Pages shape pages.old def.now owners forests → count ≡ length (blocks_of_state (state_number state) forests.map)) }
    ensures same { (P.state pages.new).work ≡ (P.state pages.old).work }
    ensures runs { RunsOverPages P.Pages NoPage (IsTreePageAt P.Pages pages.old (map_place def.now)) (BreaksTable P.Pages shape pages.old def.now) pages.old pages.new (fault_of result) }
{
    let _shape = shape;
    let blocks = BlockMap::at(alloc, def.roots.map).list(pages, state)?;
    Ok(blocks.len() as u64)
}
