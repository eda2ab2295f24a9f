// The answer to a query of a table.
ghost use Rattle.std.specs.Prelude.{◌≡◌, List, length, false, true, IsTrue};
ghost use Rattle.mdc_ast.specs.declared.row.Row.{Row};
ghost use Rattle.mdc_ast.specs.TableLimits.{IsTableDef};
ghost use Rattle.store_api.specs.Causes.{store_fault_in};
ghost use Rattle.store_api.specs.Frame.{NoPage};
ghost use Rattle.store_api.specs.RunsOverPages.{RunsOverPages};
ghost use Rattle.extent_map.specs.declared.kind.Kind.{Kind};
ghost use Rattle.block_rows.specs.HeldRows.{HasReadValues};
ghost use Rattle.mdc_sound.specs.BlockRules.{AreTableIndexesSound};
ghost use Rattle.mdc_sound.specs.StandingTable.{BreaksExpected, StandsTable, TableForests, pages_of, view_of};
ghost use Rattle.row_filter.specs.Filtering.{may_filter};
ghost use Rattle.row_groups.specs.Lines.{shares_lines};
ghost use Rattle.row_groups.specs.Shape.{shape_of};
ghost use Rattle.answer_text.specs.Lines.{are_outs_within};
ghost use Rattle.executor.specs.Planned.{HasSoundIndexes};
ghost use Rattle.table_query.specs.QueryAnswers.{AnswersQuery, AreQueryRows, store_part_of};
ghost use Rattle.table_query.specs.QueryPages.{IsCountedByCells, IsQueryPage, NeedsRows};

use crate::copied::answer_from_copies;
use crate::counted::{answer_from_count, counts_rows_alone};
use crate::fault::QueryFault;
use crate::grouped::answer_from_groups;
use mdc_ast::{BoundSelect, PlanMode, TableDef};
use mdc_values::Chars;
use row_groups::shares_lines;
use std::alloc::Global;
use store_api::{Pages, Shape};
use table_scan::{count_rows, is_settled_by_cells};

/// The text of the lines of a query of a table: names, lines and their number; or the first sum outside BIGINT. Its rows are found by the
/// plan of its predicate in a mode, and only pages come to hand that finding them so looks at; but COUNT(*) of rows that cells tell
/// apart the composite index and the block map answer in each mode, and no row page comes to hand. It needs columns that are there, and
/// a predicate that may be judged on each row that was read.
pub fn answer<P: Pages>(
    alloc: Global,
    def: &TableDef,
    shape: Shape,
    pages: &mut P,
    mode: PlanMode,
    select: &BoundSelect,
) -> Result<Chars, QueryFault>
    requires defined { IsTableDef def.now.number def.now }
    requires shown { IsTrue (are_outs_within (length def.now.columns) select.now.outs) }
    requires judged { (row : Row) → HasReadValues def.now.columns row → IsTrue (may_filter select.now.pred row.values) }
    requires going { (P.state pages.old).ended ≡ false }
    ensures answers { (owners : List Kind) (forests : TableForests) (rows : List Row) → StandsTable P.Pages shape pages.old def.now owners forests
        → AreTableIndexesSound shape (pages_of P.Pages pages.old) (view_of def.now forests) → AreQueryRows P.Pages shape pages.old def.now select.now.pred forests rows
        → AnswersQuery def.now.columns select.now rows result }
    ensures same { (P.state pages.new).work ≡ (P.state pages.old).work }
    ensures runs { RunsOverPages P.Pages NoPage (IsQueryPage P.Pages shape pages.old def.now mode select.now) (BreaksExpected P.Pages shape pages.old def.now (HasSoundIndexes P.Pages shape pages.old def.now)) pages.old pages.new (store_fault_in store_part_of result) }
{
    if !shares_lines(select) {
        return answer_from_copies(alloc, def, shape, pages, mode, select);
    }
    if !counts_by_cells(def, select) {
        return answer_from_groups(alloc, def, shape, pages, mode, select);
    }
    let count = count_rows(alloc, def, shape, pages, &select.pred)?;
    answer_from_count(alloc, def, select, count)
}

/// Whether a query whose rows share lines shows their number alone, and cells tell it.
fn counts_by_cells(def: &TableDef, select: &BoundSelect) -> bool
    requires shares { IsTrue (shares_lines (shape_of select.now)) }
    ensures counted { result ≡ true → IsCountedByCells def.now select.now }
    ensures rows { result ≡ false → NeedsRows def.now select.now }
{
    if !counts_rows_alone(select) {
        return false;
    }
    is_settled_by_cells(&select.pred, def)
}
