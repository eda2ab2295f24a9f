// The blocks in which a row may qualify.
ghost use Rattle.std.specs.Prelude.{◌≡◌, ◌≤◌, [], ◌∷◌, ◌++◌, List, AllPairs, Contains, Some, None, false, map, IfOk, IfErr, OnOk};
ghost use Rattle.std.specs.List.{AllByRecursion};
ghost use Rattle.store_api.specs.Causes.{fault_of};
ghost use Rattle.store_api.specs.Frame.{NoPage};
ghost use Rattle.store_api.specs.RunsOverPages.{RunsOverPages};
ghost use Rattle.extent_map.specs.declared.kind.Kind.{Kind};
ghost use Rattle.mdc_ast.specs.TableLimits.{IsTableDef};
ghost use Rattle.mdc_values.specs.Rising.{IsLower, IsRising};
ghost use Rattle.entry_tree.specs.Forest.{Forest};
ghost use Rattle.block_map.specs.MapLines.{map_lines};
ghost use Rattle.table_trees.specs.TableTrees.{map_place};
ghost use Rattle.table_trees.specs.TreesBeside.{HoldsTreeAt, IsTreePageAt};
ghost use Rattle.mdc_sound.specs.StandingTable.{BreaksExpected, BreaksTable, StandsTable, TableForests};
ghost use Rattle.mdc_table.specs.SeenBlocks.{used_line_of};
ghost use Rattle.mdc_table.specs.TableReading.{HasUsedBlock};
ghost use Rattle.table_scan.specs.Choices.{ChoosesBlocks, HaveSameMembers, IsChoiceOf, IsOfEntry, blocks_chosen};
ghost use Rattle.table_scan.specs.declared.choosing.ChosenEntry.{ChosenEntry};
ghost use Rattle.table_scan.specs.FoundRows.{HaveQualifying, IsChoicePage};
ghost use Rattle.table_scan.specs.SeenTable.{AreListedSo, ListsBlocks, blocks_listed, listed_line};

use crate::copying::copy_of_cell;
use block_index::{CellBlock, cells};
use block_map::BlockRow;
use cell_filter::may_hold;
use mdc_ast::{Pred, TableDef};
use mdc_table::{ListedBlock, rows_of_line, used_lines};
use mdc_values::Memory;
use std::alloc::Global;
use store_api::{Pages, Shape, StoreFault};

/// The Used blocks of a table in whose cells a row may qualify, by rising number, with what the trees say of each: all of the block
/// map without a predicate, and else those that the composite index lists under such a cell. No row page is looked at. Damaged where
/// the block map doesn't have one of these as a Used block.
pub(crate) fn listed_blocks<P: Pages>(
    alloc: Global,
    def: &TableDef,
    shape: Shape,
    pages: &mut P,
    pred: &Option<Pred>,
) -> Result<Vec<ListedBlock>, StoreFault>
    requires defined { IsTableDef def.now.number def.now }
    requires going { (P.state pages.old).ended ≡ false }
    ensures lists { IfOk result (λ listed. ListsBlocks P.Pages pages.old def.now pred.now listed.items) }
    ensures chosen { IfOk result (λ listed. (owners : List Kind) (forests : TableForests) → StandsTable P.Pages shape pages.old def.now owners forests
        → HaveQualifying P.Pages shape pages.old def.now pred.now (blocks_listed listed.items) forests) }
    ensures listed { IfOk result (λ listed. (owners : List Kind) (forests : TableForests) → StandsTable P.Pages shape pages.old def.now owners forests
        → AreListedSo P.Pages shape pages.old def.now owners forests listed.items) }
    ensures same { (P.state pages.new).work ≡ (P.state pages.old).work }
    ensures runs { RunsOverPages P.Pages NoPage (IsChoicePage P.Pages shape pages.old def.now) (BreaksTable P.Pages shape pages.old def.now) pages.old pages.new (fault_of result) }
{
    match pred {
        Some(pred) => listed_by_cell(alloc, def, shape, pages, pred),
        None => listed_by_map(alloc, def, shape, pages),
    }
}

/// All Used blocks.
fn listed_by_map<P: Pages>(
    alloc: Global,
    def: &TableDef,
    shape: Shape,
    pages: &mut P,
) -> Result<Vec<ListedBlock>, StoreFault>
    requires going { (P.state pages.old).ended ≡ false }
    ensures lists { IfOk result (λ listed. ListsBlocks P.Pages pages.old def.now None listed.items) }
    ensures chosen { IfOk result (λ listed. (owners : List Kind) (forests : TableForests) → StandsTable P.Pages shape pages.old def.now owners forests
        → HaveQualifying P.Pages shape pages.old def.now None (blocks_listed listed.items) forests) }
    ensures listed { IfOk result (λ listed. (owners : List Kind) (forests : TableForests) → StandsTable P.Pages shape pages.old def.now owners forests
        → AreListedSo P.Pages shape pages.old def.now owners forests listed.items) }
    ensures same { (P.state pages.new).work ≡ (P.state pages.old).work }
    ensures runs { RunsOverPages P.Pages NoPage (IsChoicePage P.Pages shape pages.old def.now) (BreaksTable P.Pages shape pages.old def.now) pages.old pages.new (fault_of result) }
{
    let lines = used_lines(alloc, def, shape, pages)?;
    Ok(listed_by_lines(alloc, lines.as_slice())?)
}

/// Blocks with what their lines say, without a cell.
fn listed_by_lines(alloc: Global, lines: &[BlockRow]) -> Result<Vec<ListedBlock>, Memory>
    ensures { IfOk result (λ listed. listed.items ≡ map listed_line lines.now) }
{
    let mut listed = Vec::with_capacity(alloc, lines.len())?;
    for line in lines {
        listed.push(ListedBlock {
            block: line.block,
            rows: line.rows,
            cell: None,
        })?;
    }
    Ok(listed)
}

/// The blocks that the composite index lists under a cell in which the predicate may hold.
fn listed_by_cell<P: Pages>(
    alloc: Global,
    def: &TableDef,
    shape: Shape,
    pages: &mut P,
    pred: &Pred,
) -> Result<Vec<ListedBlock>, StoreFault>
    requires defined { IsTableDef def.now.number def.now }
    requires going { (P.state pages.old).ended ≡ false }
    ensures lists { IfOk result (λ listed. ListsBlocks P.Pages pages.old def.now (Some pred.now) listed.items) }
    ensures chosen { IfOk result (λ listed. (owners : List Kind) (forests : TableForests) → StandsTable P.Pages shape pages.old def.now owners forests
        → HaveQualifying P.Pages shape pages.old def.now (Some pred.now) (blocks_listed listed.items) forests) }
    ensures listed { IfOk result (λ listed. (owners : List Kind) (forests : TableForests) → StandsTable P.Pages shape pages.old def.now owners forests
        → AreListedSo P.Pages shape pages.old def.now owners forests listed.items) }
    ensures same { (P.state pages.new).work ≡ (P.state pages.old).work }
    ensures runs { RunsOverPages P.Pages NoPage (IsChoicePage P.Pages shape pages.old def.now) (BreaksTable P.Pages shape pages.old def.now) pages.old pages.new (fault_of result) }
{
    let found = cells(alloc, def, pages)?;
    let entries = found.as_slice();
    let Ok(chosen) = chosen_entries(alloc, def, pred, entries) else {
        return Err(StoreFault::Memory);
    };
    let mut listed = Vec::new(alloc);
    for one in chosen.as_slice() {
        let block = listed_block(alloc, def, shape, pages, pred, entries, one)?;
        push_listed(&mut listed, block)?;
    }
    Ok(listed)
}

/// The block of an entry that was chosen, with its line in the block map and its cell.
fn listed_block<P: Pages>(
    alloc: Global,
    def: &TableDef,
    shape: Shape,
    pages: &mut P,
    pred: &Pred,
    entries: &[CellBlock],
    chosen: &ChosenEntry,
) -> Result<ListedBlock, StoreFault>
    requires choice { IsChoiceOf def.now pred.now entries.now chosen.now }
    requires going { (P.state pages.old).ended ≡ false }
    ensures block { IfOk result (λ one. one.block ≡ chosen.now.block) }
    ensures line { IfOk result (λ one. (t : Forest) → HoldsTreeAt P.Pages pages.old (map_place def.now) t → Contains (map_lines t) (used_line_of one)) }
    ensures entry { IfOk result (IsOfEntry def.now pred.now entries.now) }
    ensures same { (P.state pages.new).work ≡ (P.state pages.old).work }
    ensures runs { RunsOverPages P.Pages NoPage (IsTreePageAt P.Pages pages.old (map_place def.now)) (BreaksExpected P.Pages shape pages.old def.now (HasUsedBlock chosen.now.block)) pages.old pages.new (fault_of result) }
{
    let _pred = pred;
    let Ok(cell) = copy_of_cell(alloc, &entries[chosen.at].cell) else {
        return Err(StoreFault::Memory);
    };
    let rows = rows_of_line(alloc, def, shape, pages, chosen.block)?;
    Ok(ListedBlock {
        block: chosen.block,
        rows,
        cell: Some(cell),
    })
}

/// Puts a block last.
fn push_listed(listed: &mut Vec<ListedBlock>, one: ListedBlock) -> Result<(), StoreFault>
    ensures pushed { OnOk result (listed.new.items ≡ listed.old.items ++ one ∷ []) }
    ensures memory { IfErr result (λ fault. fault ≡ StoreFault.Memory) }
{
    listed.push(one)?;
    Ok(())
}

/// An entry of the composite index that was chosen: the block that it lists, and its place among the entries.
#[derive(Clone, Copy, Debug)]
pub(crate) struct ChosenEntry {
    pub(crate) block: u32,
    pub(crate) at: usize,
}

/// The entries of cells in which the predicate may hold, by rising block, one for each block.
fn chosen_entries(
    alloc: Global,
    def: &TableDef,
    pred: &Pred,
    entries: &[CellBlock],
) -> Result<Vec<ChosenEntry>, Memory>
    ensures chosen { IfOk result (λ chosen. ChoosesBlocks def.now pred.now entries.now (blocks_chosen chosen.items)) }
    ensures entries { IfOk result (λ chosen. AllByRecursion (IsChoiceOf def.now pred.now entries.now) chosen.items) }
{
    let mut chosen = Vec::new(alloc);
    for at in 0..entries.len() {
        let one = &entries[at];
        if !may_hold(pred, def, &one.cell) {
            continue;
        }
        chosen.push(ChosenEntry {
            block: one.block,
            at,
        })?;
    }
    chosen.sort_unstable_by_key(|one| one.block);
    each_once(alloc, chosen.as_slice())
}

/// Of entries whose blocks rise, or stand still, one for each block.
fn each_once(alloc: Global, entries: &[ChosenEntry]) -> Result<Vec<ChosenEntry>, Memory>
    requires sorted { AllPairs (λ a b. a.block ≤ b.block) entries.now }
    ensures same { IfOk result (λ once. HaveSameMembers (blocks_chosen entries.now) (blocks_chosen once.items)) }
    ensures rising { IfOk result (λ once. IsRising IsLower (blocks_chosen once.items)) }
    ensures some { IfOk result (λ once. (entry : ChosenEntry) → Contains once.items entry → Contains entries.now entry) }
{
    let mut once = Vec::new(alloc);
    // The lowest block that may come next.
    let mut next = 0;
    for one in entries {
        if u64::from(one.block) < next {
            continue;
        }
        once.push(*one)?;
        next = u64::from(one.block) + 1;
    }
    Ok(once)
}
