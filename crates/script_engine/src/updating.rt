// The rows of an UPDATE.
ghost use Rattle.std.specs.Prelude.{◌≡◌, ◌<◌, List, None, flat_map, is_none, length, map, option_map, false, IfOk, IfErr, IsTrue, Ok};
ghost use Rattle.std.specs.List.{AllByRecursion, list_all};
ghost use Rattle.mdc_ast.specs.declared.bound.Bound.TheVariants as bound;
ghost use Rattle.mdc_ast.specs.declared.refusal.Refusal.{Refusal};
ghost use Rattle.mdc_ast.specs.declared.row.Row.{Row};
ghost use Rattle.statement_meaning.specs.Cause.{refusal_of};
ghost use Rattle.mdc_ast.specs.Database.{fits_all};
ghost use Rattle.mdc_ast.specs.Definitions.{def_at};
ghost use Rattle.statement_meaning.specs.Doing.{changed_causes, changed_row};
ghost use Rattle.store_api.specs.Causes.{fault_of, store_fault_in};
ghost use Rattle.store_api.specs.Extents.{first_page_of};
ghost use Rattle.store_api.specs.Frame.{NoPage};
ghost use Rattle.store_api.specs.RunsOverPages.{RunsOverPages};
ghost use Rattle.extent_map.specs.Damages.{IfFull, store_part_of};
ghost use Rattle.extent_map.specs.declared.kind.Kind.{Kind};
ghost use Rattle.block_rows.specs.HeldRows.{HasReadValues, HaveReadValues, placed_row};
ghost use Rattle.mdc_ast.specs.TableLimits.{IsTableDef};
ghost use Rattle.mdc_sound.specs.BlockRules.{AreTableIndexesSound};
ghost use Rattle.mdc_sound.specs.StandingTable.{StandsTable, TableForests, pages_of, view_of};
ghost use Rattle.binder.specs.Saying.{first_of};
ghost use Rattle.row_filter.specs.Filtering.{may_filter};
ghost use Rattle.row_checks.specs.Filtering.{may_change};
ghost use Rattle.row_checks.specs.RowChange.{are_within, misfit_cause};
ghost use Rattle.row_checks.specs.Served.{IsDefined, MaySet};
ghost use Rattle.statement_rows.specs.RowsOfStatement.{AnyPage};
ghost use Rattle.statement_rows.specs.Turning.{turned_row};
ghost use Rattle.table_scan.specs.FoundRows.{FindsRows};
ghost use Rattle.unique_keys.specs.Clashes.{BreaksClash, IsClashPage};
ghost use Rattle.script_engine.specs.Doing.{DoesStatement, LeavesAll, RunsFullAlone, SaysNoRow};
ghost use Rattle.script_engine.specs.Ready.{AreServed, BreaksDatabase, IsNoSoundTable, IsReady, KeepsServed};
ghost use Rattle.script_engine.specs.Replies.{IsDoneAs, IsReplyToBound};
ghost use Rattle.script_engine.specs.SetKeys.{JudgesSet};

use crate::keys::judge_turned;
use crate::set_keys::sets_unique;
use crate::tables::Tables;
use executor::find_by_plan;
use extent_map::{SpaceFault, first_page};
use mdc_ast::{BoundSet, ColumnDef, Outcome, PlanMode, Pred, Refusal, Reply, Row, TableDef};
use mdc_table::Hit;
use mdc_values::{List, Memory};
use row_checks::{Misfit, changed_values, first_misfit, unfit};
use row_fitting::do_fit;
use statement_rows::{Turned, change_rows};
use std::alloc::Global;
use store_api::rules::ROW_PAGES_RULE;
use store_api::{Damage, Pages, Shape, StoreFault};

/// An UPDATE of the rows of a table that qualify, which are found by the plan in the mode that is set. All are judged before one is
/// changed.
pub fn update<P: Pages>(
    tables: &mut Tables,
    pages: &mut P,
    table: u8,
    sets: &[BoundSet],
    pred: &Option<Pred>,
) -> Result<Outcome, SpaceFault>
    requires served { AreServed tables.old.catalog }
    requires there { IsDefined (def_at tables.old.catalog table) (MaySet sets.now pred.now) }
    requires going { (P.state pages.old).ended ≡ false }
    ensures does { IfOk result (λ outcome. IsReady P.Pages pages.old tables.old → DoesStatement P.Pages pages.old pages.new tables.old tables.new (bound.Update table sets.now pred.now) outcome) }
    ensures refused { (refusal : Refusal) → result ≡ Ok (Outcome.Refused refusal) → LeavesAll P.Pages pages.old pages.new tables.old tables.new }
    ensures kind { IfOk result (IsDoneAs (IsReplyToBound (bound.Update table sets.now pred.now))) }
    ensures idle { IfOk result (λ outcome. SaysNoRow outcome → LeavesAll P.Pages pages.old pages.new tables.old tables.new) }
    ensures full { IfErr result (λ fault. IfFull fault (λ cap. (cap ≡ tables.old.shape.extents)
        × (IsReady P.Pages pages.old tables.old → RunsFullAlone tables.old.shape (pages_of P.Pages pages.old) tables.old.catalog (bound.Update table sets.now pred.now)))) }
    ensures keeps { KeepsServed result tables.old tables.new }
    ensures runs { RunsOverPages P.Pages AnyPage AnyPage (BreaksDatabase P.Pages pages.old tables.old) pages.old pages.new (store_fault_in store_part_of result) }
{
    let rooms = &mut tables.rooms.by_table[table as usize];
    let Some(def) = tables.catalog.def(table) else {
        unreachable!()
    };
    let hits = find_fitting(
        tables.alloc,
        def,
        tables.shape,
        pages,
        tables.settings.plan,
        pred,
    )?;
    if let Some(misfit) = first_misfit_of_hits(def.columns.as_slice(), sets, hits.as_slice()) {
        return refused(tables.alloc, misfit);
    }
    let Ok(turned) = turned_rows(tables.alloc, sets, hits) else {
        return Err(SpaceFault::Store(StoreFault::Memory));
    };
    if let Some(refusal) = judge_keys(tables.alloc, def, pages, sets, turned.as_slice())? {
        return Ok(Outcome::Refused(refusal));
    }
    change_rows(
        tables.alloc,
        def,
        tables.shape,
        &mut tables.notes,
        rooms,
        pages,
        turned.as_slice(),
    )?;
    Ok(Outcome::Done(Reply::Updated(turned.len() as u64)))
}

// The rows that qualify, found by the plan in a mode, each of which fits its columns. One that doesn't is damage of its block.
fn find_fitting<P: Pages>(
    alloc: Global,
    def: &TableDef,
    shape: Shape,
    pages: &mut P,
    mode: PlanMode,
    pred: &Option<Pred>,
) -> Result<Vec<Hit>, StoreFault>
    requires defined { IsTableDef def.now.number def.now }
    requires judged { (row : Row) → HasReadValues def.now.columns row → IsTrue (may_filter pred.now row.values) }
    requires going { (P.state pages.old).ended ≡ false }
    ensures finds { IfOk result (λ hits. (owners : List Kind) (forests : TableForests) → StandsTable P.Pages shape pages.old def.now owners forests
        → AreTableIndexesSound shape (pages_of P.Pages pages.old) (view_of def.now forests) → FindsRows P.Pages shape pages.old def.now pred.now hits.items forests) }
    ensures keyed { IfOk result (λ hits. HaveReadValues def.now.columns hits.items) }
    ensures fit { IfOk result (λ hits. IsTrue (list_all (λ hit. fits_all def.now.columns hit.row.values) hits.items)) }
    ensures same { (P.state pages.new).work ≡ (P.state pages.old).work }
    ensures runs { RunsOverPages P.Pages NoPage AnyPage (IsNoSoundTable P.Pages shape pages.old def.now) pages.old pages.new (fault_of result) }
{
    let found = find_by_plan(alloc, def, shape, pages, mode, pred)?;
    if let Some(hit) = first_unfit(def.columns.as_slice(), found.hits.as_slice()) {
        return Err(StoreFault::Damaged(unfit_row(shape, hit)));
    }
    Ok(found.hits)
}

// The first row that doesn't fit its columns.
fn first_unfit<'h>(columns: &[ColumnDef], hits: &'h [Hit]) -> Option<&'h Hit>
    ensures { is_none result ≡ list_all (λ hit. fits_all columns.now hit.row.values) hits.now }
{
    for hit in hits {
        if !do_fit(columns, hit.row.values.as_slice()) {
            return Some(hit);
        }
    }
    None
}

// Damage of the block in which a row doesn't fit: it names the block's first page.
fn unfit_row(shape: Shape, hit: &Hit) -> Damage
    ensures page { hit.now.rid.block < shape.extents → result.page ≡ first_page_of shape.extents shape.extent_pages hit.now.rid.block }
    ensures rule { result.rule ≡ 7 }
{
    let block = hit.rid.block;
    let page = if block < shape.extents {
        first_page(shape, block)
    } else {
        0
    };
    Damage {
        page,
        rule: ROW_PAGES_RULE,
    }
}

// What is said first against the rows as they would be, row by row. It takes no memory.
fn first_misfit_of_hits<'c>(
    columns: &'c [ColumnDef],
    sets: &[BoundSet],
    hits: &[Hit],
) -> Option<Misfit<'c>>
    requires within { IsTrue (are_within (length columns.now) sets.now) }
    requires fit { IsTrue (list_all (λ hit. fits_all columns.now hit.row.values) hits.now) }
    ensures { first_of (flat_map (λ hit. changed_causes columns.now sets.now None hit.row) hits.now) ≡ option_map misfit_cause result }
{
    for hit in hits {
        let found = first_misfit(columns, sets, hit.row.values.as_slice());
        if found.is_some() {
            return found;
        }
    }
    None
}

// An UPDATE that is refused.
fn refused(alloc: Global, misfit: Misfit<'_>) -> Result<Outcome, SpaceFault>
    ensures said { IfOk result (λ outcome. outcome ≡ Outcome.Refused (refusal_of (misfit_cause misfit.entry))) }
    ensures memory { IfErr result (λ fault. fault ≡ SpaceFault.Store StoreFault.Memory) }
{
    Ok(Outcome::Refused(unfit(alloc, misfit)?))
}

// The rows, each with the one that it becomes. It needs that no new number is too large for 64 bits.
fn turned_rows(alloc: Global, sets: &[BoundSet], hits: Vec<Hit>) -> Result<Vec<Turned>, Memory>
    requires settable { IsTrue (list_all (λ hit. may_change sets.now None hit.row) hits.items) }
    ensures { IfOk result (λ turned. map turned_row turned.items ≡ map (λ hit. (placed_row hit, changed_row sets.now None hit.row)) hits.items) }
{
    let mut turned = Vec::with_capacity(alloc, hits.len())?;
    for hit in hits {
        let values = changed_values(alloc, sets, hit.row.values.as_slice())?;
        let row = Row {
            number: hit.row.number,
            values,
        };
        turned.push(Turned { hit, row })?;
    }
    Ok(turned)
}

// Why the rows may not become these: two rows would have equal keys. None is looked for where no column of a UNIQUE index is set.
fn judge_keys<P: Pages>(
    alloc: Global,
    def: &TableDef,
    pages: &mut P,
    sets: &[BoundSet],
    turned: &[Turned],
) -> Result<Option<Refusal>, SpaceFault>
    requires defined { IsTableDef def.now.number def.now }
    requires fit { AllByRecursion (λ values. IsTrue (fits_all def.now.columns values)) (map (λ one. one.row.values) turned.now) }
    requires going { (P.state pages.old).ended ≡ false }
    ensures judges { IfOk result (λ refusal. JudgesSet P.Pages pages.old def.now sets.now turned.now refusal) }
    ensures same { (P.state pages.new).work ≡ (P.state pages.old).work }
    ensures not_full { IfErr result (λ fault. IfFull fault (λ cap. ⊥)) }
    ensures runs { RunsOverPages P.Pages NoPage (IsClashPage P.Pages pages.old def.now) (BreaksClash P.Pages pages.old def.now) pages.old pages.new (store_fault_in store_part_of result) }
{
    if !sets_unique(def.indexes.as_slice(), sets) {
        return Ok(None);
    }
    judge_turned(alloc, def, pages, turned)
}
