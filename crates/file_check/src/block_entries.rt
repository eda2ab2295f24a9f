// Rule 10: the block indexes. All rows of a block have one entry in each, so that its first row is asked for alone; and an index that
// has as many entries as there are blocks has no other.
ghost use Rattle.std.specs.Prelude.{◌≡◌, ◌↔◌, false, map, Contains, IfOk, IsTrue};
ghost use Rattle.store_api.specs.Causes.{fault_of};
ghost use Rattle.store_api.specs.Frame.{NoPage};
ghost use Rattle.store_api.specs.RunsOverPages.{RunsOverPages};
ghost use Rattle.entry_tree.specs.Forest.{Forest, leaf_entries};
ghost use Rattle.mdc_ast.specs.TableLimits.{IsTableDef};
ghost use Rattle.table_trees.specs.TableTrees.{place_of_tree};
ghost use Rattle.table_trees.specs.ToldPages.{HasTree};
ghost use Rattle.block_rows.specs.HeldRows.{HasReadValues, HaveReadValues, placed_row};
ghost use Rattle.file_check.specs.BlockEntries.{BreaksEntryCount, HasEntry, HasEntryCount, IsFirstEntered, LacksEntry, LacksFirst};
ghost use Rattle.file_check.specs.Judging.{Judges, JudgesEach};
ghost use Rattle.file_check.specs.KnownTables.{StandIndexes};
ghost use Rattle.file_check.specs.Looking.{AnyPage, Unless};
ghost use Rattle.file_check.specs.TableIndexes.{FitsTable, UnlessTree, entry_of_kind, indexes_of_kind};
ghost use Rattle.file_check.specs.declared.table_index.IndexKind.TheVariants.{Blocks};

use crate::entries::entries_of;
use crate::lowest::lower;
use crate::row_entries::entry_of_row;
use crate::table_index::{IndexKind, TableIndex};
use block_rows::Hit;
use mdc_ast::TableDef;
use std::alloc::Global;
use store_api::{Pages, StoreFault};

/// The lowest root of a block index that hasn't the entry of the first of these rows, if there are any.
pub(crate) fn judge_entries_of_block<P: Pages>(
    alloc: Global,
    pages: &mut P,
    def: &TableDef,
    rows: &[Hit],
) -> Result<Option<u32>, StoreFault>
    requires limits { IsTableDef def.now.number def.now }
    requires read { HaveReadValues def.now.columns rows.now }
    requires going { (P.state pages.old).ended ≡ false }
    ensures judged { IfOk result (λ found. IsTrue (P.state pages.old).is_told → StandIndexes Blocks (P.state pages.old).work def.now
        → Judges (IsFirstEntered (P.state pages.old).work def.now (map placed_row rows.now)) (LacksFirst (P.state pages.old).work def.now (map placed_row rows.now)) found) }
    ensures same { (P.state pages.new).work ≡ (P.state pages.old).work }
    ensures runs { RunsOverPages P.Pages NoPage AnyPage (Unless P.Pages pages.old (λ told. StandIndexes Blocks told def.now)) pages.old pages.new (fault_of result) }
{
    if rows.is_empty() {
        return Ok(None);
    }
    judge_entries_of_row(alloc, pages, def, &rows[0])
}

/// The lowest root of a block index that hasn't the entry of a row's block.
fn judge_entries_of_row<P: Pages>(
    alloc: Global,
    pages: &mut P,
    def: &TableDef,
    hit: &Hit,
) -> Result<Option<u32>, StoreFault>
    requires limits { IsTableDef def.now.number def.now }
    requires read { HasReadValues def.now.columns hit.now.row }
    requires going { (P.state pages.old).ended ≡ false }
    ensures judged { IfOk result (λ found. IsTrue (P.state pages.old).is_told → StandIndexes Blocks (P.state pages.old).work def.now
        → JudgesEach (HasEntry (P.state pages.old).work def.now (placed_row hit.now)) (LacksEntry (P.state pages.old).work def.now (placed_row hit.now)) (indexes_of_kind Blocks def.now) found) }
    ensures same { (P.state pages.new).work ≡ (P.state pages.old).work }
    ensures runs { RunsOverPages P.Pages NoPage AnyPage (Unless P.Pages pages.old (λ told. StandIndexes Blocks told def.now)) pages.old pages.new (fault_of result) }
{
    let kind = IndexKind::Blocks;
    let mut lowest = None;
    for place in 0..kind.count(def) {
        let index = TableIndex::at(alloc, def, kind, place)?;
        if has_entry(alloc, pages, def, &index, hit)? {
            continue;
        }
        lowest = lower(lowest, Some(index.tree.root));
    }
    Ok(lowest)
}

/// Whether an index has the entry of a row.
fn has_entry<P: Pages>(
    alloc: Global,
    pages: &mut P,
    def: &TableDef,
    index: &TableIndex,
    hit: &Hit,
) -> Result<bool, StoreFault>
    requires index { FitsTable def.now index.now }
    requires read { HasReadValues def.now.columns hit.now.row }
    requires going { (P.state pages.old).ended ≡ false }
    ensures has { IfOk result (λ there. IsTrue (P.state pages.old).is_told → (tree : Forest) → HasTree (P.state pages.old).work (place_of_tree index.now.tree) tree
        → IsTrue there ↔ Contains (leaf_entries tree) (entry_of_kind index.now.kind def.now index.now.parts (placed_row hit.now))) }
    ensures same { (P.state pages.new).work ≡ (P.state pages.old).work }
    ensures runs { RunsOverPages P.Pages NoPage AnyPage (UnlessTree P.Pages pages.old (place_of_tree index.now.tree)) pages.old pages.new (fault_of result) }
{
    let entry = entry_of_row(alloc, def, index, hit)?;
    index.tree.has(pages, &entry)
}

/// The lowest root of a block index that hasn't as many entries as there are Used blocks.
pub(crate) fn judge_entry_counts<P: Pages>(
    alloc: Global,
    pages: &mut P,
    def: &TableDef,
    blocks: usize,
) -> Result<Option<u32>, StoreFault>
    requires limits { IsTableDef def.now.number def.now }
    requires going { (P.state pages.old).ended ≡ false }
    ensures judged { IfOk result (λ found. IsTrue (P.state pages.old).is_told → StandIndexes Blocks (P.state pages.old).work def.now
        → JudgesEach (HasEntryCount (P.state pages.old).work blocks) (BreaksEntryCount (P.state pages.old).work blocks) (indexes_of_kind Blocks def.now) found) }
    ensures same { (P.state pages.new).work ≡ (P.state pages.old).work }
    ensures runs { RunsOverPages P.Pages NoPage AnyPage (Unless P.Pages pages.old (λ told. StandIndexes Blocks told def.now)) pages.old pages.new (fault_of result) }
{
    let kind = IndexKind::Blocks;
    let mut lowest = None;
    for place in 0..kind.count(def) {
        let index = TableIndex::at(alloc, def, kind, place)?;
        let entries = entries_of(alloc, pages, &index.tree)?;
        if entries.len() == blocks {
            continue;
        }
        lowest = lower(lowest, Some(index.tree.root));
    }
    Ok(lowest)
}
