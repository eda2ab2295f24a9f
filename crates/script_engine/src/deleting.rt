// The rows of a DELETE.
ghost use Rattle.std.specs.Prelude.{◌≡◌, false, true, IfOk, IsOk, Ok, Some};
ghost use Rattle.mdc_ast.specs.declared.bound.Bound.TheVariants as bound;
ghost use Rattle.mdc_ast.specs.declared.definition.TableDef.{TableDef};
ghost use Rattle.mdc_ast.specs.declared.refusal.Refusal.{Refusal};
ghost use Rattle.mdc_ast.specs.declared.reply.Outcome.TheVariants as said;
ghost use Rattle.mdc_ast.specs.declared.reply.Reply.TheVariants as reply;
ghost use Rattle.mdc_ast.specs.Definitions.{def_at};
ghost use Rattle.store_api.specs.Causes.{fault_of};
ghost use Rattle.store_api.specs.RunsOverPages.{RunsOverPages};
ghost use Rattle.row_checks.specs.Served.{IsDefined, MayJudge};
ghost use Rattle.statement_rows.specs.RowsOfStatement.{AnyPage};
ghost use Rattle.script_engine.specs.Doing.{DoesStatement, LeavesAll, SaysNoRow, goes_by_blocks};
ghost use Rattle.script_engine.specs.Fetching.{FetchesForStatement, FetchesRowsOnce};
ghost use Rattle.script_engine.specs.Ready.{AreServed, BreaksDatabase, IsReady, KeepsServed};
ghost use Rattle.script_engine.specs.Replies.{IsDoneAs, IsReplyToBound};
ghost use Rattle.script_engine.specs.Touching.{TouchesForStatement};

use crate::tables::Tables;
use executor::find_by_plan;
use mdc_ast::{Outcome, Pred, Reply, RolloutMode};
use rollout::{applies, roll_out};
use statement_rows::delete_rows;
use store_api::{Pages, StoreFault};

/// A DELETE of the rows of a table that qualify: block by block in the mode IMMEDIATE, where there is no WHERE, or it names dimension
/// columns alone, and else row by row. By blocks only pages come to hand that rolling them out looks at, those of the table's blocks once; rows are found by the plan in
/// the mode that is set.
pub fn delete<P: Pages>(
    tables: &mut Tables,
    pages: &mut P,
    table: u8,
    pred: &Option<Pred>,
) -> Result<Outcome, StoreFault>
    requires served { AreServed tables.old.catalog }
    requires there { IsDefined (def_at tables.old.catalog table) (MayJudge pred.now) }
    requires going { (P.state pages.old).ended ≡ false }
    ensures does { IfOk result (λ outcome. IsReady P.Pages pages.old tables.old → DoesStatement P.Pages pages.old pages.new tables.old tables.new (bound.Delete table pred.now) outcome) }
    ensures done { (refusal : Refusal) → result ≡ Ok (Outcome.Refused refusal) → ⊥ }
    ensures kind { IfOk result (IsDoneAs (IsReplyToBound (bound.Delete table pred.now))) }
    ensures idle { IfOk result (λ outcome. SaysNoRow outcome → LeavesAll P.Pages pages.old pages.new tables.old tables.new) }
    ensures fetches { FetchesForStatement P.Pages tables.old.shape pages.old pages.new tables.old.catalog tables.old.settings (bound.Delete table pred.now) }
    ensures once { IsOk result → FetchesRowsOnce P.Pages tables.old.shape pages.old pages.new tables.old.catalog tables.old.settings (bound.Delete table pred.now) }
    ensures keeps { KeepsServed result tables.old tables.new }
    ensures touches { TouchesForStatement P.Pages tables.old.shape pages.old pages.new tables.old.catalog tables.old.settings (bound.Delete table pred.now) }
    ensures runs { RunsOverPages P.Pages AnyPage AnyPage (BreaksDatabase P.Pages pages.old tables.old) pages.old pages.new (fault_of result) }
{
    if goes_by_blocks(tables, table, pred) {
        let count = delete_blocks(tables, pages, table, pred)?;
        return Ok(Outcome::Done(Reply::Deleted(count)));
    }
    let count = delete_found(tables, pages, table, pred)?;
    Ok(Outcome::Done(Reply::Deleted(count)))
}

/// Whether a DELETE of these rows of a table releases whole blocks.
fn goes_by_blocks(tables: &Tables, table: u8, pred: &Option<Pred>) -> bool
    requires served { AreServed tables.now.catalog }
    requires there { IsDefined (def_at tables.now.catalog table) (MayJudge pred.now) }
    ensures { (def : TableDef) → def_at tables.now.catalog table ≡ Some def → result ≡ goes_by_blocks tables.now.settings.rollout pred.now def }
{
    let Some(def) = tables.catalog.def(table) else {
        unreachable!()
    };
    match tables.settings.rollout {
        RolloutMode::Immediate => applies(pred, def),
        RolloutMode::None | RolloutMode::Deferred => false,
    }
}

/// Releases the blocks of a table whose rows qualify, and tells how many rows went.
fn delete_blocks<P: Pages>(
    tables: &mut Tables,
    pages: &mut P,
    table: u8,
    pred: &Option<Pred>,
) -> Result<u64, StoreFault>
    requires served { AreServed tables.old.catalog }
    requires there { IsDefined (def_at tables.old.catalog table) (MayJudge pred.now) }
    requires blocks { (def : TableDef) → def_at tables.old.catalog table ≡ Some def → goes_by_blocks tables.old.settings.rollout pred.now def ≡ true }
    requires going { (P.state pages.old).ended ≡ false }
    ensures does { IfOk result (λ count. IsReady P.Pages pages.old tables.old
        → DoesStatement P.Pages pages.old pages.new tables.old tables.new (bound.Delete table pred.now) (said.Done (reply.Deleted count))) }
    ensures idle { IfOk result (λ count. count ≡ 0 → (P.state pages.new).work ≡ (P.state pages.old).work) }
    ensures catalog { tables.new.catalog ≡ tables.old.catalog }
    ensures shape { tables.new.shape ≡ tables.old.shape }
    ensures settings { tables.new.settings ≡ tables.old.settings }
    ensures fetches { FetchesForStatement P.Pages tables.old.shape pages.old pages.new tables.old.catalog tables.old.settings (bound.Delete table pred.now) }
    ensures once { IsOk result → FetchesRowsOnce P.Pages tables.old.shape pages.old pages.new tables.old.catalog tables.old.settings (bound.Delete table pred.now) }
    ensures touches { TouchesForStatement P.Pages tables.old.shape pages.old pages.new tables.old.catalog tables.old.settings (bound.Delete table pred.now) }
    ensures runs { RunsOverPages P.Pages AnyPage AnyPage (BreaksDatabase P.Pages pages.old tables.old) pages.old pages.new (fault_of result) }
{
    let rooms = &mut tables.rooms.by_table[table as usize];
    let Some(def) = tables.catalog.def(table) else {
        unreachable!()
    };
    let rolled = roll_out(
        tables.alloc,
        def,
        tables.shape,
        &mut tables.notes,
        rooms,
        pages,
        pred,
    )?;
    Ok(rolled.rows)
}

/// Deletes the rows that qualify of a table one by one, as the plan in the mode that is set finds them, and tells their number.
fn delete_found<P: Pages>(
    tables: &mut Tables,
    pages: &mut P,
    table: u8,
    pred: &Option<Pred>,
) -> Result<u64, StoreFault>
    requires served { AreServed tables.old.catalog }
    requires there { IsDefined (def_at tables.old.catalog table) (MayJudge pred.now) }
    requires rows { (def : TableDef) → def_at tables.old.catalog table ≡ Some def → goes_by_blocks tables.old.settings.rollout pred.now def ≡ false }
    requires going { (P.state pages.old).ended ≡ false }
    ensures does { IfOk result (λ count. IsReady P.Pages pages.old tables.old
        → DoesStatement P.Pages pages.old pages.new tables.old tables.new (bound.Delete table pred.now) (said.Done (reply.Deleted count))) }
    ensures idle { IfOk result (λ count. count ≡ 0 → (P.state pages.new).work ≡ (P.state pages.old).work) }
    ensures catalog { tables.new.catalog ≡ tables.old.catalog }
    ensures shape { tables.new.shape ≡ tables.old.shape }
    ensures settings { tables.new.settings ≡ tables.old.settings }
    ensures fetches { FetchesForStatement P.Pages tables.old.shape pages.old pages.new tables.old.catalog tables.old.settings (bound.Delete table pred.now) }
    ensures touches { TouchesForStatement P.Pages tables.old.shape pages.old pages.new tables.old.catalog tables.old.settings (bound.Delete table pred.now) }
    ensures runs { RunsOverPages P.Pages AnyPage AnyPage (BreaksDatabase P.Pages pages.old tables.old) pages.old pages.new (fault_of result) }
{
    let rooms = &mut tables.rooms.by_table[table as usize];
    let Some(def) = tables.catalog.def(table) else {
        unreachable!()
    };
    let found = find_by_plan(
        tables.alloc,
        def,
        tables.shape,
        pages,
        tables.settings.plan,
        pred,
    )?;
    delete_rows(
        tables.alloc,
        def,
        tables.shape,
        &mut tables.notes,
        rooms,
        pages,
        found.hits.as_slice(),
    )?;
    Ok(found.hits.len() as u64)
}
