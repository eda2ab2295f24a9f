// The rows of a table in parts of its lists.
ghost use Rattle.std.specs.Prelude.{◌≡◌, List, None, false, length, nat_lt, All, Contains, IsTrue, IfOk, OnOk};
ghost use Rattle.mdc_values.specs.Rising.{IsLower, IsRising};
ghost use Rattle.mdc_ast.specs.declared.row.Row.{Row};
ghost use Rattle.mdc_ast.specs.TableLimits.{IsTableDef};
ghost use Rattle.store_api.specs.Causes.{fault_of};
ghost use Rattle.store_api.specs.Frame.{NoPage};
ghost use Rattle.store_api.specs.RunsOverPages.{RunsOverPages};
ghost use Rattle.extent_map.specs.declared.kind.Kind.{Kind};
ghost use Rattle.row_filter.specs.Filtering.{may_filter};
ghost use Rattle.block_map.specs.MapLines.{used_blocks};
ghost use Rattle.block_rows.specs.Giving.{WasGiven};
ghost use Rattle.block_rows.specs.HeldRows.{HasReadValues, qualifying};
ghost use Rattle.mdc_sound.specs.StandingTable.{BreaksExpected, StandsTable, TableForests, pages_of};
ghost use Rattle.mdc_sound.specs.TableRows.{rows_in_table};
ghost use Rattle.row_entries.specs.SoundEntries.{HasSoundIndexes};
ghost use Rattle.block_lists.specs.declared.part.Part.{Part};
ghost use Rattle.block_lists.specs.Parts.{AreSlots, blocks_of};
ghost use Rattle.executor.specs.Judging.{AreJudges, IsJudged};
ghost use Rattle.executor.specs.PartRows.{HasListedRows, IsPageForPart, IsPartsPage, parts_with_rows, rows_in_part, rows_in_parts};
ghost use Rattle.executor.specs.SeenParts.{HasSeenPart};
ghost use Rattle.executor.specs.SettledSinks.{IsSettling};

use crate::judges::Judges;
use crate::settled_rows::SettledRows;
use crate::whole::scan_whole;
use block_lists::{Merge, Part};
use mdc_ast::{Pred, TableDef};
use mdc_table::{RowSink, scan_slots};
use row_filter::RowFilter;
use std::alloc::Global;
use std::marker::{Brand, PhantomData};
use store_api::{Pages, Shape, StoreFault};
use table_scan::unsettled;

/// Gives a sink the rows that qualify in the parts that a cursor has still to give, part by part and by rising slot, and says how many
/// of these have a row. A block that is listed whole has to be Used where the table stands; of another one nothing comes to hand unless
/// it is, and each listed slot of it has to have a row where the table stands with sound record indexes. Damaged where one hasn't.
pub(crate) fn scan_parts<P: Pages, K: RowSink>(
    alloc: Global,
    def: &TableDef,
    shape: Shape,
    pages: &mut P,
    merge: &mut Merge,
    pred: &Option<Pred>,
    sink: &mut K,
) -> Result<u64, StoreFault>
    requires defined { IsTableDef def.now.number def.now }
    requires judged { (row : Row) → HasReadValues def.now.columns row → IsTrue (may_filter pred.now row.values) }
    requires rise { IsRising IsLower (blocks_of merge.old) }
    requires slots { All (λ part. AreSlots part.slots) merge.old }
    requires used { (part : Part) → Contains merge.old part → part.slots ≡ None
        → (owners : List Kind) (forests : TableForests) → StandsTable P.Pages shape pages.old def.now owners forests → Contains (used_blocks forests.map) part.block }
    requires lies { (part : Part) → Contains merge.old part → HasListedRows P.Pages shape pages.old def.now part }
    requires fits { K.RowSink.is_for def.now.columns sink.old }
    requires going { (P.state pages.old).ended ≡ false }
    ensures gives { OnOk result ((owners : List Kind) (forests : TableForests) → StandsTable P.Pages shape pages.old def.now owners forests
        → WasGiven K.RowSink sink.old sink.new (qualifying pred.now (rows_in_parts (rows_in_table shape (pages_of P.Pages pages.old) def.now forests.map) merge.old))) }
    ensures counts { IfOk result (λ blocks. (owners : List Kind) (forests : TableForests) → StandsTable P.Pages shape pages.old def.now owners forests
        → blocks ≡ length (parts_with_rows (rows_in_table shape (pages_of P.Pages pages.old) def.now forests.map) merge.old)) }
    ensures seen { OnOk result (IsTrue (P.state pages.old).is_told → All (HasSeenPart P.Pages shape pages.old def.now) merge.old) }
    ensures fits { OnOk result (K.RowSink.is_for def.now.columns sink.new) }
    ensures same { (P.state pages.new).work ≡ (P.state pages.old).work }
    ensures runs { RunsOverPages P.Pages NoPage (IsPartsPage P.Pages shape pages.old def.now merge.old) (BreaksExpected P.Pages shape pages.old def.now (HasSoundIndexes P.Pages shape pages.old def.now)) pages.old pages.new (fault_of result) }
{
    let Ok(left) = unsettled(alloc, def, pred) else {
        return Err(StoreFault::Memory);
    };
    let Ok(mut left) = RowFilter::new(alloc, &left, def.columns.len()) else {
        return Err(StoreFault::Memory);
    };
    let every_row = None;
    let Ok(mut judges) = Judges::new(alloc, def, pred, &every_row) else {
        return Err(StoreFault::Memory);
    };
    let mut settled = SettledRows {
        sink,
        left: &mut left,
        def,
        pred,
        verdict: None,
        begun: PhantomData,
    };
    scan_each(alloc, def, shape, pages, merge, &mut judges, &mut settled)
}

/// The same, part by part.
fn scan_each<P: Pages, K: RowSink>(
    alloc: Global,
    def: &TableDef,
    shape: Shape,
    pages: &mut P,
    merge: &mut Merge,
    judges: &mut Judges,
    settled: &mut SettledRows<K, Brand>,
) -> Result<u64, StoreFault>
    requires defined { IsTableDef def.now.number def.now }
    requires judges { AreJudges def.now settled.old.pred.now judges.old }
    requires judged { IsJudged def.now settled.old.pred.now }
    requires settling { IsSettling K.RowSink def.now settled.old.pred.now settled.old.sink.ghost_name settled.old }
    requires rise { IsRising IsLower (blocks_of merge.old) }
    requires slots { All (λ part. AreSlots part.slots) merge.old }
    requires used { (part : Part) → Contains merge.old part → part.slots ≡ None
        → (owners : List Kind) (forests : TableForests) → StandsTable P.Pages shape pages.old def.now owners forests → Contains (used_blocks forests.map) part.block }
    requires lies { (part : Part) → Contains merge.old part → HasListedRows P.Pages shape pages.old def.now part }
    requires going { (P.state pages.old).ended ≡ false }
    ensures gives { OnOk result ((owners : List Kind) (forests : TableForests) → StandsTable P.Pages shape pages.old def.now owners forests
        → WasGiven K.RowSink settled.old.sink.now settled.new.sink.now (qualifying settled.old.pred.now (rows_in_parts (rows_in_table shape (pages_of P.Pages pages.old) def.now forests.map) merge.old))) }
    ensures counts { IfOk result (λ blocks. (owners : List Kind) (forests : TableForests) → StandsTable P.Pages shape pages.old def.now owners forests
        → blocks ≡ length (parts_with_rows (rows_in_table shape (pages_of P.Pages pages.old) def.now forests.map) merge.old)) }
    ensures seen { OnOk result (IsTrue (P.state pages.old).is_told → All (HasSeenPart P.Pages shape pages.old def.now) merge.old) }
    ensures settling { OnOk result (IsSettling K.RowSink def.now settled.old.pred.now settled.old.sink.ghost_name settled.new) }
    ensures same { (P.state pages.new).work ≡ (P.state pages.old).work }
    ensures runs { RunsOverPages P.Pages NoPage (IsPartsPage P.Pages shape pages.old def.now merge.old) (BreaksExpected P.Pages shape pages.old def.now (HasSoundIndexes P.Pages shape pages.old def.now)) pages.old pages.new (fault_of result) }
{
    let mut blocks: u64 = 0;
    'parts: loop {
        let Some(part) = merge.next()? else {
            return Ok(blocks);
        };
        blocks += u64::from(scan_part(alloc, def, shape, pages, part, judges, settled)?);
    }
}

/// Gives a sink the rows of one part that qualify, and says whether the part has a row.
fn scan_part<P: Pages, K: RowSink>(
    alloc: Global,
    def: &TableDef,
    shape: Shape,
    pages: &mut P,
    part: Part,
    judges: &mut Judges,
    settled: &mut SettledRows<K, Brand>,
) -> Result<bool, StoreFault>
    requires defined { IsTableDef def.now.number def.now }
    requires judges { AreJudges def.now settled.old.pred.now judges.old }
    requires judged { IsJudged def.now settled.old.pred.now }
    requires settling { IsSettling K.RowSink def.now settled.old.pred.now settled.old.sink.ghost_name settled.old }
    requires slots { AreSlots part.slots }
    requires used { part.slots ≡ None → (owners : List Kind) (forests : TableForests) → StandsTable P.Pages shape pages.old def.now owners forests → Contains (used_blocks forests.map) part.block }
    requires lies { HasListedRows P.Pages shape pages.old def.now part }
    requires going { (P.state pages.old).ended ≡ false }
    ensures given { OnOk result ((owners : List Kind) (forests : TableForests) → StandsTable P.Pages shape pages.old def.now owners forests
        → WasGiven K.RowSink settled.old.sink.now settled.new.sink.now (qualifying settled.old.pred.now (rows_in_part (rows_in_table shape (pages_of P.Pages pages.old) def.now forests.map) part))) }
    ensures some { IfOk result (λ some. (owners : List Kind) (forests : TableForests) → StandsTable P.Pages shape pages.old def.now owners forests
        → some ≡ nat_lt 0 (length (rows_in_part (rows_in_table shape (pages_of P.Pages pages.old) def.now forests.map) part))) }
    ensures seen { OnOk result (IsTrue (P.state pages.old).is_told → HasSeenPart P.Pages shape pages.old def.now part) }
    ensures judges { OnOk result (AreJudges def.now settled.old.pred.now judges.new) }
    ensures settling { OnOk result (IsSettling K.RowSink def.now settled.old.pred.now settled.old.sink.ghost_name settled.new) }
    ensures same { (P.state pages.new).work ≡ (P.state pages.old).work }
    ensures runs { RunsOverPages P.Pages NoPage (IsPageForPart P.Pages shape pages.old def.now part.block) (BreaksExpected P.Pages shape pages.old def.now (HasSoundIndexes P.Pages shape pages.old def.now)) pages.old pages.new (fault_of result) }
{
    match &part.slots {
        Some(slots) => scan_slots(
            alloc,
            def,
            shape,
            pages,
            part.block,
            slots.as_slice(),
            &mut judges.whole,
            &mut *settled.sink,
        ),
        None => {
            scan_whole(alloc, def, shape, pages, part.block, judges, settled)?;
            Ok(true)
        }
    }
}
