// A block that is listed whole.
ghost use Rattle.std.specs.Prelude.{◌≡◌, ◌<◌, List, None, Some, false, Contains, IsTrue, OnOk};
ghost use Rattle.mdc_ast.specs.TableLimits.{IsTableDef};
ghost use Rattle.store_api.specs.Causes.{fault_of};
ghost use Rattle.store_api.specs.Frame.{NoPage};
ghost use Rattle.store_api.specs.RunsOverPages.{RunsOverPages};
ghost use Rattle.extent_map.specs.declared.kind.Kind.{Kind};
ghost use Rattle.block_map.specs.MapLines.{used_blocks};
ghost use Rattle.block_rows.specs.CountedRows.{IsCountedPage, counted_rows};
ghost use Rattle.block_rows.specs.Giving.{WasGiven};
ghost use Rattle.block_rows.specs.HeldRows.{qualifying};
ghost use Rattle.mdc_sound.specs.StandingTable.{BreaksExpected, BreaksTable, StandsTable, TableForests, pages_of};
ghost use Rattle.mdc_sound.specs.TableRows.{rows_in_block};
ghost use Rattle.mdc_table.specs.SeenBlocks.{HasSeenCountedBlock, IsListedSo};
ghost use Rattle.executor.specs.Judging.{AreJudges, IsJudged};
ghost use Rattle.executor.specs.PartRows.{IsPageForPart};
ghost use Rattle.executor.specs.SeenParts.{HasSeenWhole};
ghost use Rattle.executor.specs.SettledSinks.{IsSettling, begun_by};

use crate::beginning::Beginning;
use crate::judges::Judges;
use crate::settled_rows::SettledRows;
use mdc_ast::TableDef;
use mdc_table::{ListedBlock, RowSink, rows_of_line, scan_counted_block};
use std::alloc::Global;
use std::marker::Brand;
use store_api::{Pages, Shape, StoreFault};

/// Gives a sink the rows of a block that qualify, by rising slot. Its pages come to hand up to its last row by its line, each once, and
/// a row is judged by what the cell of the block leaves open. Damaged where the block map doesn't have it as a Used block with a row,
/// and where `scan_counted_block` is.
pub(crate) fn scan_whole<P: Pages, K: RowSink>(
    alloc: Global,
    def: &TableDef,
    shape: Shape,
    pages: &mut P,
    block: u32,
    judges: &mut Judges,
    settled: &mut SettledRows<K, Brand>,
) -> Result<(), StoreFault>
    requires defined { IsTableDef def.now.number def.now }
    requires judges { AreJudges def.now settled.old.pred.now judges.old }
    requires judged { IsJudged def.now settled.old.pred.now }
    requires settling { IsSettling K.RowSink def.now settled.old.pred.now settled.old.sink.ghost_name settled.old }
    requires used { (owners : List Kind) (forests : TableForests) → StandsTable P.Pages shape pages.old def.now owners forests → Contains (used_blocks forests.map) block }
    requires going { (P.state pages.old).ended ≡ false }
    ensures given { OnOk result ((owners : List Kind) (forests : TableForests) → StandsTable P.Pages shape pages.old def.now owners forests
        → WasGiven K.RowSink settled.old.sink.now settled.new.sink.now (qualifying settled.old.pred.now (rows_in_block shape (pages_of P.Pages pages.old) def.now block))) }
    ensures seen { OnOk result (IsTrue (P.state pages.old).is_told → HasSeenWhole P.Pages shape pages.old def.now block) }
    ensures judges { OnOk result (AreJudges def.now settled.old.pred.now judges.new) }
    ensures settling { OnOk result (IsSettling K.RowSink def.now settled.old.pred.now settled.old.sink.ghost_name settled.new) }
    ensures same { (P.state pages.new).work ≡ (P.state pages.old).work }
    ensures runs { RunsOverPages P.Pages NoPage (IsPageForPart P.Pages shape pages.old def.now block) (BreaksTable P.Pages shape pages.old def.now) pages.old pages.new (fault_of result) }
{
    let rows = rows_of_line(alloc, def, shape, pages, block)?;
    let listed = ListedBlock {
        block,
        rows,
        cell: None,
    };
    scan_settled::<P, K, Brand>(alloc, def, shape, pages, &listed, judges, settled)
}

/// The same of a block with its line in the block map.
fn scan_settled<P: Pages, K: RowSink, B: Beginning<K>>(
    alloc: Global,
    def: &TableDef,
    shape: Shape,
    pages: &mut P,
    listed: &ListedBlock,
    judges: &mut Judges,
    settled: &mut SettledRows<K, B>,
) -> Result<(), StoreFault>
    requires defined { IsTableDef def.now.number def.now }
    requires no_cell { listed.now.cell ≡ None }
    requires judges { AreJudges def.now settled.old.pred.now judges.old }
    requires judged { IsJudged def.now settled.old.pred.now }
    requires settling { IsSettling K.RowSink def.now settled.old.pred.now settled.old.sink.ghost_name settled.old }
    requires begun { B.Beginning.begun ≡ Some (begun_by settled.old) }
    requires going { (P.state pages.old).ended ≡ false }
    ensures given { OnOk result (IsTrue (P.state pages.old).is_told
        → WasGiven K.RowSink settled.old.sink.now settled.new.sink.now (qualifying settled.old.pred.now (counted_rows shape (pages_of P.Pages pages.old) def.now listed.now.block listed.now.rows))) }
    ensures seen { OnOk result (IsTrue (P.state pages.old).is_told → HasSeenCountedBlock shape (pages_of P.Pages pages.old) def.now listed.now) }
    ensures some { OnOk result (0 < listed.now.rows) }
    ensures judges { OnOk result (AreJudges def.now settled.old.pred.now judges.new) }
    ensures settling { OnOk result (IsSettling K.RowSink def.now settled.old.pred.now settled.old.sink.ghost_name settled.new) }
    ensures same { (P.state pages.new).work ≡ (P.state pages.old).work }
    ensures runs { RunsOverPages P.Pages NoPage (IsCountedPage P.Pages shape pages.old def.now listed.now.block listed.now.rows) (BreaksExpected P.Pages shape pages.old def.now (IsListedSo P.Pages shape pages.old def.now listed.now)) pages.old pages.new (fault_of result) }
{
    settled.verdict = None;
    scan_counted_block(
        alloc,
        def,
        shape,
        pages,
        &judges.cells,
        listed,
        &mut judges.every,
        settled,
    )?;
    Ok(())
}
