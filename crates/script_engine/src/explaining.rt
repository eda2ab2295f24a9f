// How a query is carried out, which EXPLAIN tells.
ghost use Rattle.std.specs.Prelude.{◌≡◌, false, true, length, IfOk, MatchOption};
ghost use Rattle.mdc_ast.specs.declared.bound.Bound.TheVariants as bound;
ghost use Rattle.mdc_ast.specs.Definitions.{def_at};
ghost use Rattle.mdc_ast.specs.TableLimits.{IsTableDef};
ghost use Rattle.statement_meaning.specs.Binding.{bound_of};
ghost use Rattle.store_api.specs.Causes.{fault_of};
ghost use Rattle.store_api.specs.Frame.{NoPage};
ghost use Rattle.store_api.specs.RunsOverPages.{RunsOverPages};
ghost use Rattle.mdc_sound.specs.StandingTable.{pages_of};
ghost use Rattle.plan_chooser.specs.Rule.{plan_of};
ghost use Rattle.plan_chooser.specs.Words as spec;
ghost use Rattle.row_checks.specs.Served.{IsDefined, IsServed, MayJudge};
ghost use Rattle.statement_rows.specs.RowsOfStatement.{AnyPage};
ghost use Rattle.script_engine.specs.Doing.{DoesReady};
ghost use Rattle.script_engine.specs.Explaining.{ExplainsOn, is_explaining, word_told};
ghost use Rattle.script_engine.specs.Fetching.{FetchesForStatement};
ghost use Rattle.script_engine.specs.Ready.{AreServed, BreaksDatabase, IsReady};
ghost use Rattle.script_engine.specs.Replies.{IsDoneAs, IsLines};
ghost use Rattle.script_engine.specs.Roles.{is_explain, role_of};

use crate::tables::Tables;
use answer_text::explain_text;
use binder::{BindFault, bind};
use executor::{Found, find_by_plan};
use mdc_ast::{Bound, BoundSelect, Outcome, PlanMode, Pred, Reply, Stmt, TableDef};
use mdc_values::Memory;
use plan_chooser::{PlanWord, choose, word_of};
use std::alloc::Global;
use store_api::{Pages, StoreFault};

/// EXPLAIN: what is said against its query first, and else how that is carried out.
pub(crate) fn explain<P: Pages>(
    tables: &Tables,
    pages: &mut P,
    stmt: &Stmt,
) -> Result<Outcome, StoreFault>
    requires served { AreServed tables.now.catalog }
    requires explains { is_explain (role_of stmt.now) ≡ true }
    requires going { (P.state pages.old).ended ≡ false }
    ensures does { IfOk result (λ outcome. IsReady P.Pages pages.old tables.now → DoesReady P.Pages pages.old pages.new tables.now tables.now stmt.now outcome) }
    ensures lines { IfOk result (IsDoneAs IsLines) }
    ensures same { (P.state pages.new).work ≡ (P.state pages.old).work }
    ensures fetches { FetchesForStatement P.Pages tables.now.shape pages.old pages.new tables.now.catalog tables.now.settings (bound_of tables.now.catalog stmt.now) }
    ensures runs { RunsOverPages P.Pages NoPage AnyPage (BreaksDatabase P.Pages pages.old tables.now) pages.old pages.new (fault_of result) }
{
    match bind(tables.alloc, stmt, &tables.catalog) {
        Ok(bound) => explain_bound(tables, pages, &bound),
        Err(BindFault::Refused(refusal)) => Ok(Outcome::Refused(refusal)),
        Err(BindFault::Memory) => Err(StoreFault::Memory),
    }
}

/// The same of a bound one, against which nothing is said.
fn explain_bound<P: Pages>(
    tables: &Tables,
    pages: &mut P,
    statement: &Bound,
) -> Result<Outcome, StoreFault>
    requires served { AreServed tables.now.catalog }
    requires there { IsServed tables.now.catalog statement.now }
    requires explains { is_explaining statement.now ≡ true }
    requires going { (P.state pages.old).ended ≡ false }
    ensures explains { IfOk result (λ outcome. IsReady P.Pages pages.old tables.now
        → ExplainsOn tables.now.shape (pages_of P.Pages pages.old) tables.now.catalog tables.now.settings.plan statement.now outcome) }
    ensures lines { IfOk result (IsDoneAs IsLines) }
    ensures same { (P.state pages.new).work ≡ (P.state pages.old).work }
    ensures fetches { FetchesForStatement P.Pages tables.now.shape pages.old pages.new tables.now.catalog tables.now.settings statement.now }
    ensures runs { RunsOverPages P.Pages NoPage AnyPage (BreaksDatabase P.Pages pages.old tables.now) pages.old pages.new (fault_of result) }
{
    let Some(select) = query_of(statement) else {
        unreachable!()
    };
    explain_query(tables, pages, select)
}

/// The query of a bound EXPLAIN.
fn query_of(statement: &Bound) -> Option<&BoundSelect>
    ensures { MatchOption result (is_explaining statement.now ≡ false) (λ select. statement.now ≡ bound.Explain select.now) }
{
    match statement {
        Bound::Explain(select) => Some(select),
        Bound::CreateTable(_)
        | Bound::CreateIndex { .. }
        | Bound::DropIndex { .. }
        | Bound::DropTable(_)
        | Bound::Insert { .. }
        | Bound::Update { .. }
        | Bound::Delete { .. }
        | Bound::Query(_)
        | Bound::Reclaim(_)
        | Bound::SetRollout(_)
        | Bound::SetPlan(_)
        | Bound::SetPace(_)
        | Bound::Clean(_)
        | Bound::CleanTable(_)
        | Bound::ListBlocks(_)
        | Bound::Begin
        | Bound::Commit
        | Bound::Rollback
        | Bound::AddColumn { .. }
        | Bound::Join(_)
        | Bound::Reorg(_) => None,
    }
}

/// Finds the rows of a query by the plan that the plan rule gives in the mode that is set, and tells the word of the plan, how many
/// Used blocks have a row that it has, and how many rows qualify.
fn explain_query<P: Pages>(
    tables: &Tables,
    pages: &mut P,
    select: &BoundSelect,
) -> Result<Outcome, StoreFault>
    requires served { AreServed tables.now.catalog }
    requires there { IsDefined (def_at tables.now.catalog select.now.table) (MayJudge select.now.pred) }
    requires going { (P.state pages.old).ended ≡ false }
    ensures explains { IfOk result (λ outcome. IsReady P.Pages pages.old tables.now
        → ExplainsOn tables.now.shape (pages_of P.Pages pages.old) tables.now.catalog tables.now.settings.plan (bound.Explain select.now) outcome) }
    ensures lines { IfOk result (IsDoneAs IsLines) }
    ensures same { (P.state pages.new).work ≡ (P.state pages.old).work }
    ensures fetches { FetchesForStatement P.Pages tables.now.shape pages.old pages.new tables.now.catalog tables.now.settings (bound.Explain select.now) }
    ensures runs { RunsOverPages P.Pages NoPage AnyPage (BreaksDatabase P.Pages pages.old tables.now) pages.old pages.new (fault_of result) }
{
    let mode = tables.settings.plan;
    let Some(def) = tables.catalog.def(select.table) else {
        unreachable!()
    };
    let word = word_by(tables.alloc, def, mode, &select.pred)?;
    let found = find_by_plan(tables.alloc, def, tables.shape, pages, mode, &select.pred)?;
    Ok(told(tables.alloc, word, &found)?)
}

/// The word of the plan that the plan rule gives to a predicate in a mode.
fn word_by(
    alloc: Global,
    def: &TableDef,
    mode: PlanMode,
    pred: &Option<Pred>,
) -> Result<PlanWord, Memory>
    requires defined { IsTableDef def.now.number def.now }
    ensures { IfOk result (λ word. word ≡ spec.word_of (plan_of def.now mode pred.now)) }
{
    let plan = choose(alloc, def, mode, pred)?;
    Ok(word_of(&plan))
}

/// What is said of what was found by a plan with this word.
fn told(alloc: Global, word: PlanWord, found: &Found) -> Result<Outcome, Memory>
    ensures { IfOk result (λ outcome. outcome ≡ word_told word found.now.blocks (length found.now.hits.items)) }
{
    let lines = explain_text(alloc, word.text(), found.blocks, found.hits.len() as u64)?;
    Ok(Outcome::Done(Reply::Lines(lines)))
}
