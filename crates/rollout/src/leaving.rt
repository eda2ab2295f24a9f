// The rows of blocks that go leave the record indexes of their table.
ghost use Rattle.std.specs.Prelude.{◌≡◌, ◌++◌, ◌<◌, ◌≤◌, ◌*◌, List, map, false, length, nat_le, IfOk, OnOk};
ghost use Rattle.mdc_values.specs.Rising.{IsLower, IsRising};
ghost use Rattle.store_api.specs.Causes.{fault_of};
ghost use Rattle.store_api.specs.Fetching.{BringsOnce};
ghost use Rattle.store_api.specs.Frame.{NoPage};
ghost use Rattle.store_api.specs.RunsOverPages.{RunsOverPages};
ghost use Rattle.extent_map.specs.declared.kind.Kind.{Kind};
ghost use Rattle.mdc_ast.specs.TableLimits.{IsTableDef};
ghost use Rattle.block_rows.specs.HeldRows.{HaveReadValues, placed_row};
ghost use Rattle.block_map.specs.MapRows.{line_of};
ghost use Rattle.mdc_sound.specs.StandingTable.{BreaksExpected, StandsTable, TableForests, pages_of};
ghost use Rattle.record_index.specs.SweptLeaf.{TakesNoSpace};
ghost use Rattle.row_entries.specs.RowEntries.{IsTreeOrMapPageOfTable};
ghost use Rattle.rollout.specs.LeavingRows.{AreUsedBlocks, ExpectsLeaving, HasTheirEntries, IsLeavingPage, IsPageOfBlocks, IsTreeOrRowPage, LeavesBlocks, LeavesRows, rows_in_blocks};
ghost use Rattle.rollout.specs.RolledBlocks.{GivesBackSpace};
ghost use Rattle.rollout.specs.RolledPages.{BringsRowsOnce};
ghost use Rattle.rollout.specs.SweptPart.{all_rows, rows_among, rows_if_among};

use crate::sweeping::sweep_entries;
use block_map::BlockRow;
use extent_map::SpaceNotes;
use mdc_ast::TableDef;
use mdc_table::{Hit, rows_of_used_block, used_lines};
use mdc_values::{Blocks, Memory};
use row_entries::leave_row;
use std::alloc::Global;
use store_api::{Pages, Shape, StoreFault};

/// From one row in so many on that goes, the record indexes are swept whole. Measured with two indexes on 100,000 rows: to find and
/// take out the two entries of a row costs some 4,900 instructions, and a sweep goes over two entries in some 390.
const ROWS_SWEPT_FOR_ONE: u128 = 12;

/// Takes the rows of Used blocks out of all record indexes. Where they are a large part of the table's rows each index is swept once, and
/// no row page comes to hand; else the blocks' pages do, each once, and the rows leave one by one. Where the table has no record index
/// nothing is done.
pub(crate) fn leave_entries<P: Pages>(
    alloc: Global,
    def: &TableDef,
    shape: Shape,
    notes: &mut SpaceNotes,
    pages: &mut P,
    blocks: &Blocks,
) -> Result<(), StoreFault>
    requires defined { IsTableDef def.now.number def.now }
    requires rising { IsRising IsLower blocks.now }
    requires going { (P.state pages.old).ended ≡ false }
    ensures leaves { OnOk result ((owners : List Kind) (forests : TableForests) → StandsTable P.Pages shape pages.old def.now owners forests → AreUsedBlocks blocks.now owners forests
        → LeavesBlocks P.Pages shape notes.old notes.new pages.old pages.new def.now blocks.now owners forests) }
    ensures space { OnOk result ((owners : List Kind) (forests : TableForests) → StandsTable P.Pages shape pages.old def.now owners forests
        → TakesNoSpace shape (pages_of P.Pages pages.old) (pages_of P.Pages pages.new)) }
    ensures count { length (P.state pages.new).work ≡ length (P.state pages.old).work }
    ensures once { OnOk result ((owners : List Kind) (forests : TableForests) → StandsTable P.Pages shape pages.old def.now owners forests
        → BringsRowsOnce P.Pages shape pages.old pages.new def.now owners (IsPageOfBlocks shape blocks.now)) }
    ensures runs { RunsOverPages P.Pages (IsTreeOrMapPageOfTable P.Pages shape pages.old def.now) (IsLeavingPage P.Pages shape pages.old def.now blocks.now)
        (BreaksExpected P.Pages shape pages.old def.now (ExpectsLeaving P.Pages shape pages.old def.now blocks.now)) pages.old pages.new (fault_of result) }
{
    if def.indexes.len() == 0 {
        return Ok(());
    }
    let lines = used_lines(alloc, def, shape, pages)?;
    let rows = counted_rows(lines.as_slice(), blocks);
    if are_many(lines.as_slice(), rows) {
        return sweep_entries(alloc, def, shape, notes, pages, blocks, rows);
    }
    leave_row_by_row(alloc, def, shape, notes, pages, blocks)
}

/// How many rows the lines of these blocks count. No lines count so many that the sum runs over.
fn counted_rows(lines: &[BlockRow], blocks: &Blocks) -> u128
    ensures value { result ≡ rows_among (map line_of lines.now) blocks.now }
    ensures few { result ≤ 65536 * length lines.now }
{
    let mut rows: u128 = 0;
    for line in lines {
        rows += counted_in(line, blocks);
    }
    rows
}

/// How many rows a line counts, where its block is one of these.
fn counted_in(line: &BlockRow, blocks: &Blocks) -> u128
    ensures value { result ≡ rows_if_among blocks.now (line_of line.now) }
    ensures few { result < 65536 }
{
    if blocks.as_slice().binary_search(&line.block).is_ok() {
        return stated(line);
    }
    0
}

/// How many rows a line counts.
fn stated(line: &BlockRow) -> u128
    ensures value { result ≡ line.now.rows }
    ensures few { result < 65536 }
{
    u128::from(line.rows)
}

/// Whether so many rows are so large a part of those that all lines count that a sweep costs less.
fn are_many(lines: &[BlockRow], going: u128) -> bool
    requires few { going ≤ 65536 * length lines.now }
    ensures { result ≡ nat_le (all_rows (map line_of lines.now)) (going * 12) }
{
    let mut all: u128 = 0;
    for line in lines {
        all += stated(line);
    }
    all <= going * ROWS_SWEPT_FOR_ONE
}

/// Takes the rows of Used blocks out of all record indexes, one by one. Each page of the blocks comes to hand once.
fn leave_row_by_row<P: Pages>(
    alloc: Global,
    def: &TableDef,
    shape: Shape,
    notes: &mut SpaceNotes,
    pages: &mut P,
    blocks: &Blocks,
) -> Result<(), StoreFault>
    requires defined { IsTableDef def.now.number def.now }
    requires rising { IsRising IsLower blocks.now }
    requires going { (P.state pages.old).ended ≡ false }
    ensures leaves { OnOk result ((owners : List Kind) (forests : TableForests) → StandsTable P.Pages shape pages.old def.now owners forests → AreUsedBlocks blocks.now owners forests
        → LeavesBlocks P.Pages shape notes.old notes.new pages.old pages.new def.now blocks.now owners forests) }
    ensures space { OnOk result ((owners : List Kind) (forests : TableForests) → StandsTable P.Pages shape pages.old def.now owners forests
        → TakesNoSpace shape (pages_of P.Pages pages.old) (pages_of P.Pages pages.new)) }
    ensures count { length (P.state pages.new).work ≡ length (P.state pages.old).work }
    ensures once { OnOk result ((owners : List Kind) (forests : TableForests) → StandsTable P.Pages shape pages.old def.now owners forests
        → BringsRowsOnce P.Pages shape pages.old pages.new def.now owners (IsPageOfBlocks shape blocks.now)) }
    ensures runs { RunsOverPages P.Pages (IsTreeOrMapPageOfTable P.Pages shape pages.old def.now) (IsTreeOrRowPage P.Pages shape pages.old def.now blocks.now)
        (BreaksExpected P.Pages shape pages.old def.now (ExpectsLeaving P.Pages shape pages.old def.now blocks.now)) pages.old pages.new (fault_of result) }
{
    let hits = rows_of_blocks(alloc, def, shape, pages, blocks)?;
    leave_rows(alloc, def, shape, notes, pages, hits.as_slice())
}

/// Copies of the rows of Used blocks, by rising place. Each of their pages comes to hand once, and no other page.
fn rows_of_blocks<P: Pages>(
    alloc: Global,
    def: &TableDef,
    shape: Shape,
    pages: &mut P,
    blocks: &Blocks,
) -> Result<Vec<Hit>, StoreFault>
    requires defined { IsTableDef def.now.number def.now }
    requires going { (P.state pages.old).ended ≡ false }
    ensures rows { IfOk result (λ hits. (owners : List Kind) (forests : TableForests) → StandsTable P.Pages shape pages.old def.now owners forests → AreUsedBlocks blocks.now owners forests
        → map placed_row hits.items ≡ rows_in_blocks shape (pages_of P.Pages pages.old) def.now blocks.now) }
    ensures keyed { IfOk result (λ hits. HaveReadValues def.now.columns hits.items) }
    ensures same { (P.state pages.new).work ≡ (P.state pages.old).work }
    ensures once { OnOk result (BringsOnce P.Pages (IsPageOfBlocks shape blocks.now) pages.old pages.new) }
    ensures runs { RunsOverPages P.Pages NoPage (IsPageOfBlocks shape blocks.now) (BreaksExpected P.Pages shape pages.old def.now (AreUsedBlocks blocks.now)) pages.old pages.new (fault_of result) }
{
    let mut hits = Vec::new(alloc);
    for block in blocks.as_slice() {
        let more = rows_of_used_block(alloc, def, shape, pages, *block)?;
        append(&mut hits, more)?;
    }
    Ok(hits)
}

/// Puts rows last.
fn append(hits: &mut Vec<Hit>, mut more: Vec<Hit>) -> Result<(), Memory>
    ensures { OnOk result (hits.new.items ≡ hits.old.items ++ more.items) }
{
    hits.append(&mut more)?;
    Ok(())
}
/// Takes rows out of all record indexes, one after the other.
fn leave_rows<P: Pages>(
    alloc: Global,
    def: &TableDef,
    shape: Shape,
    notes: &mut SpaceNotes,
    pages: &mut P,
    hits: &[Hit],
) -> Result<(), StoreFault>
    requires defined { IsTableDef def.now.number def.now }
    requires read { HaveReadValues def.now.columns hits.now }
    requires going { (P.state pages.old).ended ≡ false }
    ensures leaves { OnOk result ((owners : List Kind) (forests : TableForests) → StandsTable P.Pages shape pages.old def.now owners forests
        → LeavesRows P.Pages shape notes.old notes.new pages.old pages.new def.now (map placed_row hits.now) owners forests) }
    ensures space { OnOk result ((owners : List Kind) (forests : TableForests) → StandsTable P.Pages shape pages.old def.now owners forests
        → GivesBackSpace shape (pages_of P.Pages pages.old) (pages_of P.Pages pages.new)) }
    ensures count { length (P.state pages.new).work ≡ length (P.state pages.old).work }
    ensures runs { RunsOverPages P.Pages (IsTreeOrMapPageOfTable P.Pages shape pages.old def.now) (IsTreeOrMapPageOfTable P.Pages shape pages.old def.now)
        (BreaksExpected P.Pages shape pages.old def.now (HasTheirEntries def.now (map placed_row hits.now))) pages.old pages.new (fault_of result) }
{
    for hit in hits {
        leave_row(alloc, def, shape, notes, pages, &hit.row, hit.rid)?;
    }
    Ok(())
}
