// Lines from copies of the rows.
ghost use Rattle.std.specs.Prelude.{◌≡◌, List, false, length, map, IsTrue, MatchResult};
ghost use Rattle.mdc_ast.specs.declared.row.Row.{Row};
ghost use Rattle.mdc_ast.specs.TableLimits.{IsTableDef};
ghost use Rattle.store_api.specs.Causes.{store_fault_in};
ghost use Rattle.store_api.specs.Frame.{NoPage};
ghost use Rattle.store_api.specs.RunsOverPages.{RunsOverPages};
ghost use Rattle.extent_map.specs.declared.kind.Kind.{Kind};
ghost use Rattle.block_rows.specs.HeldRows.{HasReadValues, HaveReadValues};
ghost use Rattle.mdc_sound.specs.BlockRules.{AreTableIndexesSound};
ghost use Rattle.mdc_sound.specs.StandingTable.{BreaksExpected, StandsTable, TableForests, pages_of, view_of};
ghost use Rattle.row_filter.specs.Filtering.{may_filter};
ghost use Rattle.row_groups.specs.Shape.{shape_of};
ghost use Rattle.answer_text.specs.Answering.{GivesLines, IsFirstOverflow, Rise};
ghost use Rattle.answer_text.specs.Lines.{are_outs_within};
ghost use Rattle.executor.specs.Planned.{HasSoundIndexes, IsPlanPage};
ghost use Rattle.table_query.specs.QueryAnswers.{AnswersQuery, AreQueryRows, store_part_of};

use crate::fault::QueryFault;
use answer_text::{AnswerFault, QueryLines};
use block_rows::Hit;
use executor::find_by_plan;
use mdc_ast::{BoundSelect, ColumnDef, PlanMode, TableDef};
use mdc_values::{Chars, List};
use std::alloc::Global;
use store_api::{Pages, Shape};

/// The answer to a query from copies of the rows, by rising number.
pub(crate) fn answer_from_copies<P: Pages>(
    alloc: Global,
    def: &TableDef,
    shape: Shape,
    pages: &mut P,
    mode: PlanMode,
    select: &BoundSelect,
) -> Result<Chars, QueryFault>
    requires defined { IsTableDef def.now.number def.now }
    requires shown { IsTrue (are_outs_within (length def.now.columns) select.now.outs) }
    requires judged { (row : Row) → HasReadValues def.now.columns row → IsTrue (may_filter select.now.pred row.values) }
    requires going { (P.state pages.old).ended ≡ false }
    ensures answers { (owners : List Kind) (forests : TableForests) (rows : List Row) → StandsTable P.Pages shape pages.old def.now owners forests
        → AreTableIndexesSound shape (pages_of P.Pages pages.old) (view_of def.now forests) → AreQueryRows P.Pages shape pages.old def.now select.now.pred forests rows
        → AnswersQuery def.now.columns select.now rows result }
    ensures same { (P.state pages.new).work ≡ (P.state pages.old).work }
    ensures runs { RunsOverPages P.Pages NoPage (IsPlanPage P.Pages shape pages.old def.now mode select.now.pred) (BreaksExpected P.Pages shape pages.old def.now (HasSoundIndexes P.Pages shape pages.old def.now)) pages.old pages.new (store_fault_in store_part_of result) }
{
    let found = find_by_plan(alloc, def, shape, pages, mode, &select.pred)?;
    Ok(lines_of_hits(alloc, select, &def.columns, found.hits.as_slice())?)
}

/// The lines of a query over the rows that were found, which no line copies; or the first sum outside BIGINT.
fn lines_of_hits(
    alloc: Global,
    select: &BoundSelect,
    columns: &List<ColumnDef>,
    hits: &[Hit],
) -> Result<Chars, AnswerFault>
    requires shown { IsTrue (are_outs_within (length columns.now) select.now.outs) }
    requires read { HaveReadValues columns.now hits.now }
    ensures { Rise (map (λ hit. hit.row) hits.now) → MatchResult result
        (GivesLines columns.now (shape_of select.now) (map (λ hit. hit.row) hits.now)) (IsFirstOverflow columns.now (shape_of select.now) (map (λ hit. hit.row) hits.now)) }
{
    let mut lines = QueryLines::new(alloc, select, columns)?;
    for hit in hits {
        lines.add(alloc, hit.row.number, &hit.row.values)?;
    }
    lines.close(alloc)
}
