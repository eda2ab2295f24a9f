// Lines from rows where they lie.
ghost use Rattle.std.specs.Prelude.{◌≡◌, List, false, length, IsTrue};
ghost use Rattle.mdc_ast.specs.declared.row.Row.{Row};
ghost use Rattle.mdc_ast.specs.TableLimits.{IsTableDef};
ghost use Rattle.store_api.specs.Causes.{store_fault_in};
ghost use Rattle.store_api.specs.Frame.{NoPage};
ghost use Rattle.store_api.specs.RunsOverPages.{RunsOverPages};
ghost use Rattle.extent_map.specs.declared.kind.Kind.{Kind};
ghost use Rattle.block_rows.specs.HeldRows.{HasReadValues};
ghost use Rattle.mdc_sound.specs.BlockRules.{AreTableIndexesSound};
ghost use Rattle.mdc_sound.specs.StandingTable.{BreaksExpected, StandsTable, TableForests, pages_of, view_of};
ghost use Rattle.row_filter.specs.Filtering.{may_filter};
ghost use Rattle.row_groups.specs.Lines.{shares_lines};
ghost use Rattle.row_groups.specs.Shape.{shape_of};
ghost use Rattle.answer_text.specs.Lines.{are_outs_within};
ghost use Rattle.executor.specs.Planned.{HasSoundIndexes, IsPlanPage};
ghost use Rattle.table_query.specs.QueryAnswers.{AnswersQuery, AreQueryRows, store_part_of};

use crate::asked::Asked;
use crate::fault::QueryFault;
use crate::gathered_rows::GatheredRows;
use executor::scan_by_plan;
use mdc_ast::{BoundSelect, PlanMode, TableDef};
use mdc_values::Chars;
use std::alloc::Global;
use std::marker::Brand;
use store_api::{Pages, Shape};

/// The answer to a query whose rows share lines, from the rows where they lie.
pub(crate) fn answer_from_groups<P: Pages>(
    alloc: Global,
    def: &TableDef,
    shape: Shape,
    pages: &mut P,
    mode: PlanMode,
    select: &BoundSelect,
) -> Result<Chars, QueryFault>
    requires defined { IsTableDef def.now.number def.now }
    requires shown { IsTrue (are_outs_within (length def.now.columns) select.now.outs) }
    requires shares { IsTrue (shares_lines (shape_of select.now)) }
    requires judged { (row : Row) → HasReadValues def.now.columns row → IsTrue (may_filter select.now.pred row.values) }
    requires going { (P.state pages.old).ended ≡ false }
    ensures answers { (owners : List Kind) (forests : TableForests) (rows : List Row) → StandsTable P.Pages shape pages.old def.now owners forests
        → AreTableIndexesSound shape (pages_of P.Pages pages.old) (view_of def.now forests) → AreQueryRows P.Pages shape pages.old def.now select.now.pred forests rows
        → AnswersQuery def.now.columns select.now rows result }
    ensures same { (P.state pages.new).work ≡ (P.state pages.old).work }
    ensures runs { RunsOverPages P.Pages NoPage (IsPlanPage P.Pages shape pages.old def.now mode select.now.pred) (BreaksExpected P.Pages shape pages.old def.now (HasSoundIndexes P.Pages shape pages.old def.now)) pages.old pages.new (store_fault_in store_part_of result) }
{
    gather::<P, Brand>(alloc, def, shape, pages, mode, select)
}

/// The same, of the query for which a type stands.
fn gather<P: Pages, Q: Asked>(
    alloc: Global,
    def: &TableDef,
    shape: Shape,
    pages: &mut P,
    mode: PlanMode,
    select: &BoundSelect,
) -> Result<Chars, QueryFault>
    requires columns { Q.columns ≡ def.now.columns }
    requires select { Q.select ≡ select.now }
    requires defined { IsTableDef def.now.number def.now }
    requires shown { IsTrue (are_outs_within (length def.now.columns) select.now.outs) }
    requires shares { IsTrue (shares_lines (shape_of select.now)) }
    requires judged { (row : Row) → HasReadValues def.now.columns row → IsTrue (may_filter select.now.pred row.values) }
    requires going { (P.state pages.old).ended ≡ false }
    ensures answers { (owners : List Kind) (forests : TableForests) (rows : List Row) → StandsTable P.Pages shape pages.old def.now owners forests
        → AreTableIndexesSound shape (pages_of P.Pages pages.old) (view_of def.now forests) → AreQueryRows P.Pages shape pages.old def.now select.now.pred forests rows
        → AnswersQuery def.now.columns select.now rows result }
    ensures same { (P.state pages.new).work ≡ (P.state pages.old).work }
    ensures runs { RunsOverPages P.Pages NoPage (IsPlanPage P.Pages shape pages.old def.now mode select.now.pred) (BreaksExpected P.Pages shape pages.old def.now (HasSoundIndexes P.Pages shape pages.old def.now)) pages.old pages.new (store_fault_in store_part_of result) }
{
    let mut rows: GatheredRows<'_, Q> = GatheredRows::new(alloc, def, select)?;
    scan_by_plan(alloc, def, shape, pages, mode, &select.pred, &mut rows)?;
    Ok(rows.into_lines().close(alloc)?)
}
