// The entries of blocks that go leave the record indexes of a table, each of which is swept once.
ghost use Rattle.std.specs.Prelude.{◌≡◌, ◌≢◌, ◌<◌, List, Some, false, true, length, IfErr, IsTrue, OnOk};
ghost use Rattle.mdc_words.specs.ByteOrder.{below};
ghost use Rattle.mdc_ast.specs.TableLimits.{IsTableDef};
ghost use Rattle.mdc_values.specs.Rising.{IsLower, IsRising};
ghost use Rattle.store_api.specs.Causes.{fault_of};
ghost use Rattle.store_api.specs.RunsOverPages.{RunsOverPages};
ghost use Rattle.extent_map.specs.declared.kind.Kind.{Kind};
ghost use Rattle.key_codec.specs.Keys.{width_of_parts};
ghost use Rattle.entry_tree.specs.Forest.{Forest};
ghost use Rattle.table_trees.specs.TableTrees.{record_places};
ghost use Rattle.table_trees.specs.TreesBeside.{IsTreesOrMapPage};
ghost use Rattle.block_index.specs.Reading.{room_above};
ghost use Rattle.mdc_sound.specs.StandingTable.{BreaksExpected, StandsTable, TableForests, pages_of};
ghost use Rattle.record_index.specs.OneIndex.{AmongTrees, ChangesOneTree};
ghost use Rattle.record_index.specs.RecordIndexes.{parts_of_record_index, place_of_record_index};
ghost use Rattle.record_index.specs.SweptLeaf.{TakesNoSpace};
ghost use Rattle.row_entries.specs.ChosenTrees.{StandIndexes};
ghost use Rattle.row_entries.specs.RowEntries.{IsTreeOrMapPageOfTable};
ghost use Rattle.rollout.specs.LeavingRows.{AreUsedBlocks, ExpectsSweeping, LeavesBlocks, rows_in_blocks};
ghost use Rattle.rollout.specs.SweptIndexes.{BreaksCounted, EachNamesSoMany, NamesSoManyIn, SweepsIndexes, SweptTree};

use block_index::{is_below, out_of_order};
use entry_tree::Tree;
use extent_map::SpaceNotes;
use mdc_ast::TableDef;
use mdc_values::Blocks;
use record_index::{first_bound, sweep_step};
use std::alloc::Global;
use store_api::rules::RECORD_INDEXES_RULE;
use store_api::{Damage, Pages, Shape, StoreFault};
use table_trees::record_tree;

/// Takes the rows of Used blocks, of which there are so many, out of all record indexes of a table by a sweep. It claims no page, and no
/// row page comes to hand. Damaged where another number of entries names the blocks.
pub(crate) fn sweep_entries<P: Pages>(
    alloc: Global,
    def: &TableDef,
    shape: Shape,
    notes: &mut SpaceNotes,
    pages: &mut P,
    blocks: &Blocks,
    rows: u128,
) -> Result<(), StoreFault>
    requires defined { IsTableDef def.now.number def.now }
    requires rising { IsRising IsLower blocks.now }
    requires going { (P.state pages.old).ended ≡ false }
    ensures leaves { OnOk result ((owners : List Kind) (forests : TableForests) → StandsTable P.Pages shape pages.old def.now owners forests → AreUsedBlocks blocks.now owners forests
        → rows ≡ length (rows_in_blocks shape (pages_of P.Pages pages.old) def.now blocks.now) → LeavesBlocks P.Pages shape notes.old notes.new pages.old pages.new def.now blocks.now owners forests) }
    ensures space { OnOk result ((owners : List Kind) (forests : TableForests) → StandsTable P.Pages shape pages.old def.now owners forests
        → TakesNoSpace shape (pages_of P.Pages pages.old) (pages_of P.Pages pages.new)) }
    ensures count { length (P.state pages.new).work ≡ length (P.state pages.old).work }
    ensures runs { RunsOverPages P.Pages (IsTreeOrMapPageOfTable P.Pages shape pages.old def.now) (IsTreeOrMapPageOfTable P.Pages shape pages.old def.now)
        (BreaksExpected P.Pages shape pages.old def.now (ExpectsSweeping P.Pages shape pages.old def.now blocks.now rows)) pages.old pages.new (fault_of result) }
{
    sweep_indexes(alloc, def, shape, notes, pages, blocks, rows)
}

/// Takes the entries that name one of these blocks, so many in each, out of all record indexes of a table, each of which is gone over
/// once, leaf by leaf. It claims no page, and no row page comes to hand. All other trees stay. After a fault `undo` goes back, and the
/// notes are to be forgotten.
fn sweep_indexes<P: Pages>(
    alloc: Global,
    def: &TableDef,
    shape: Shape,
    notes: &mut SpaceNotes,
    pages: &mut P,
    blocks: &Blocks,
    rows: u128,
) -> Result<(), StoreFault>
    requires defined { IsTableDef def.now.number def.now }
    requires going { (P.state pages.old).ended ≡ false }
    ensures sweeps { OnOk result ((owners : List Kind) (trees : List Forest) → StandIndexes P.Pages shape pages.old def.now owners trees
        → SweepsIndexes P.Pages shape notes.old notes.new pages.new def.now blocks.now rows owners trees) }
    ensures space { OnOk result ((owners : List Kind) (trees : List Forest) → StandIndexes P.Pages shape pages.old def.now owners trees → IsTrue (P.state pages.old).is_told
        → TakesNoSpace shape (P.state pages.old).work (P.state pages.new).work) }
    ensures count { length (P.state pages.new).work ≡ length (P.state pages.old).work }
    ensures runs { RunsOverPages P.Pages (IsTreesOrMapPage P.Pages shape pages.old (record_places def.now)) (IsTreesOrMapPage P.Pages shape pages.old (record_places def.now))
        (BreaksCounted P.Pages shape pages.old def.now (EachNamesSoMany def.now blocks.now rows)) pages.old pages.new (fault_of result) }
{
    for index in 0..def.indexes.len() {
        sweep_index(alloc, def, index as u8, shape, notes, pages, blocks, rows)?;
    }
    Ok(())
}

/// Takes those entries out of one record index, leaf by leaf. Damaged where there are more of them, or fewer.
fn sweep_index<P: Pages>(
    alloc: Global,
    def: &TableDef,
    index: u8,
    shape: Shape,
    notes: &mut SpaceNotes,
    pages: &mut P,
    blocks: &Blocks,
    rows: u128,
) -> Result<(), StoreFault>
    requires defined { IsTableDef def.now.number def.now }
    requires there { index < length def.now.indexes }
    requires going { (P.state pages.old).ended ≡ false }
    ensures sweeps { OnOk result (AmongTrees P.Pages shape pages.old (place_of_record_index def.now index)
        (ChangesOneTree P.Pages shape notes.old notes.new pages.new (SweptTree (width_of_parts def.now.columns (parts_of_record_index def.now index)) blocks.now rows))) }
    ensures frees { OnOk result (AmongTrees P.Pages shape pages.old (place_of_record_index def.now index) (λ owners places trees i. IsTrue (P.state pages.old).is_told
        → TakesNoSpace shape (P.state pages.old).work (P.state pages.new).work)) }
    ensures count { length (P.state pages.new).work ≡ length (P.state pages.old).work }
    ensures runs { RunsOverPages P.Pages (IsTreesOrMapPage P.Pages shape pages.old (record_places def.now)) (IsTreesOrMapPage P.Pages shape pages.old (record_places def.now))
        (BreaksCounted P.Pages shape pages.old def.now (NamesSoManyIn def.now blocks.now rows index)) pages.old pages.new (fault_of result) }
{
    let tree = record_tree(alloc, def, usize::from(index));
    let mut bound = first_bound(alloc, def, index);
    let mut left = rows;
    'leaves: loop {
        let swept = sweep_step(
            alloc,
            def,
            index,
            shape,
            notes,
            pages,
            bound.bytes(),
            blocks,
        )?;
        let removed = u128::from(swept.removed);
        if left < removed {
            return Err(other_count(&tree));
        }
        left -= removed;
        let Some(next) = swept.next else {
            return all_found(&tree, left);
        };
        if !lies_above(next.bytes(), bound.bytes()) {
            return Err(out_of_order(&tree));
        }
        bound = next;
    }
}

/// Damaged where some of the entries weren't found.
fn all_found(tree: &Tree, left: u128) -> Result<(), StoreFault>
    ensures found { OnOk result (left ≡ 0) }
    ensures not { IfErr result (λ fault. (fault ≡ StoreFault.Damaged (record { page = tree.now.root; rule = 11 })) × (left ≢ 0)) }
{
    if left != 0 {
        return Err(other_count(tree));
    }
    Ok(())
}

/// The fault of a record index that has another number of entries of rows than the blocks have rows.
fn other_count(tree: &Tree) -> StoreFault
    ensures { result ≡ StoreFault.Damaged (record { page = tree.now.root; rule = 11 }) }
{
    StoreFault::Damaged(Damage {
        page: tree.root,
        rule: RECORD_INDEXES_RULE,
    })
}

/// Whether a bound lies above another one of its length, so that a sweep ends whatever the pages hold.
fn lies_above(high: &[u8], low: &[u8]) -> bool
    requires { length high.now ≡ length low.now }
    ensures above { result ≡ below low.now high.now }
    ensures falls { result ≡ true → room_above (length low.now) (Some high.now) < room_above (length low.now) (Some low.now) }
{
    is_below(low, high)
}
