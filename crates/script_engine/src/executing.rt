// A statement on the tables of a database.
ghost use Rattle.std.specs.Prelude.{◌≡◌, false, true, IfOk, IfErr, IfSome, IsOk, MatchResult, Ok};
ghost use Rattle.mdc_ast.specs.declared.bound.Bound.TheVariants as bound;
ghost use Rattle.mdc_ast.specs.declared.refusal.Refusal.{Refusal};
ghost use Rattle.statement_meaning.specs.Binding.{bound_of};
ghost use Rattle.statement_meaning.specs.Built.{is_built_step};
ghost use Rattle.statement_meaning.specs.Cause.{NotBuilt, refusal_of};
ghost use Rattle.store_api.specs.Causes.{store_fault_in};
ghost use Rattle.store_api.specs.RunsOverPages.{RunsOverPages};
ghost use Rattle.store_api.specs.declared.fault.StoreFault.TheVariants as store_fault;
ghost use Rattle.extent_map.specs.Damages.{IfFull, store_part_of};
ghost use Rattle.extent_map.specs.declared.fault.SpaceFault.TheVariants.{Store};
ghost use Rattle.mdc_sound.specs.StandingTable.{pages_of};
ghost use Rattle.statement_rows.specs.RowsOfStatement.{AnyPage};
ghost use Rattle.script_engine.specs.Defining.{IsBoundOn, MayBeExecuted};
ghost use Rattle.script_engine.specs.Doing.{DoesReady, DoesStatement, DoesStep, LeavesAll, RunsFullAlone, SaysNoRow, StepRunsFull, is_query};
ghost use Rattle.script_engine.specs.Fetching.{FetchesForListing, FetchesForStatement, FetchesRowsOnce};
ghost use Rattle.script_engine.specs.Held.{IsWritten};
ghost use Rattle.script_engine.specs.Ready.{AreServed, BreaksDatabase, IsReady, KeepsServed};
ghost use Rattle.script_engine.specs.Replies.{IsDoneAs, IsReplyOf, IsReplyToBound};
ghost use Rattle.script_engine.specs.Roles.{is_built_form, only_reads, role_of};
ghost use Rattle.script_engine.specs.Touching.{TouchesForStatement};

use crate::class::{is_explain, listed};
use crate::defining::{create, remove};
use crate::deleting::delete;
use crate::explaining::explain;
use crate::indexing::{create_index, drop_index};
use crate::inserting::insert;
use crate::listing::list;
use crate::querying::query;
use crate::reclaiming::reclaim_blocks;
use crate::tables::Tables;
use crate::updating::update;
use binder::{BindFault, WholeRows, bind, bind_whole, built};
use extent_map::SpaceFault;
use mdc_ast::{Bound, Outcome, Reply, Stmt};
use mdc_values::Memory;
use row_checks::not_built;
use store_api::{Pages, StoreFault};

/// Executes a statement that is written so in a script. Where it is refused, or it is told that no row went or was changed, pages and
/// definitions stay, whatever the pages are. After a fault the definitions are as they were, `undo` goes back to a mark, and the notes
/// are to be forgotten.
pub fn execute<P: Pages>(
    tables: &mut Tables,
    pages: &mut P,
    stmt: &Stmt,
) -> Result<Outcome, SpaceFault>
    requires served { AreServed tables.old.catalog }
    requires written { IsWritten stmt.now }
    requires going { (P.state pages.old).ended ≡ false }
    ensures does { IfOk result (λ outcome. IsReady P.Pages pages.old tables.old → DoesReady P.Pages pages.old pages.new tables.old tables.new stmt.now outcome) }
    ensures refused { (refusal : Refusal) → result ≡ Ok (Outcome.Refused refusal) → LeavesAll P.Pages pages.old pages.new tables.old tables.new }
    ensures kind { IfOk result (IsDoneAs (IsReplyOf stmt.now)) }
    ensures idle { IfOk result (λ outcome. SaysNoRow outcome → LeavesAll P.Pages pages.old pages.new tables.old tables.new) }
    ensures full { IfErr result (λ fault. IfFull fault (λ cap. (cap ≡ tables.old.shape.extents)
        × (IsReady P.Pages pages.old tables.old → StepRunsFull tables.old.shape (pages_of P.Pages pages.old) tables.old.catalog stmt.now))) }
    ensures unbuilt { is_built_form stmt.now ≡ false → MatchResult result (λ outcome. outcome ≡ Outcome.Refused (refusal_of NotBuilt)) (λ fault. IfFull fault (λ cap. ⊥)) }
    ensures reads { only_reads (role_of stmt.now) ≡ true → LeavesAll P.Pages pages.old pages.new tables.old tables.new }
    ensures fetches { FetchesForStatement P.Pages tables.old.shape pages.old pages.new tables.old.catalog tables.old.settings (bound_of tables.old.catalog stmt.now) }
    ensures once { IsOk result → FetchesRowsOnce P.Pages tables.old.shape pages.old pages.new tables.old.catalog tables.old.settings (bound_of tables.old.catalog stmt.now) }
    ensures lists { FetchesForListing P.Pages pages.old pages.new tables.old.catalog (role_of stmt.now) }
    ensures keeps { KeepsServed result tables.old tables.new }
    ensures touches { TouchesForStatement P.Pages tables.old.shape pages.old pages.new tables.old.catalog tables.old.settings (bound_of tables.old.catalog stmt.now) }
    ensures runs { RunsOverPages P.Pages AnyPage AnyPage (BreaksDatabase P.Pages pages.old tables.old) pages.old pages.new (store_fault_in store_part_of result) }
{
    // Most statements are INSERTs against which nothing is said.
    if let Some(whole) = whole_rows(tables, stmt)? {
        return insert(tables, pages, whole.table, whole.rows);
    }
    match listed(stmt) {
        Some(name) => Ok(list(tables, pages, name)?),
        None => {
            if is_explain(stmt) {
                return Ok(explain(tables, pages, stmt)?);
            }
            step(tables, pages, stmt)
        }
    }
}

/// The rows of an INSERT that names no columns and against which nothing is said, bound in one go.
fn whole_rows(tables: &Tables, stmt: &Stmt) -> Result<Option<WholeRows>, SpaceFault>
    requires served { AreServed tables.now.catalog }
    ensures bound { IfOk result (λ found. IfSome found (λ whole. IsBoundOn tables.now.catalog stmt.now (bound.Insert whole.table whole.rows))) }
    ensures memory { IfErr result (λ fault. fault ≡ Store store_fault.Memory) }
{
    let Stmt::Insert {
        table,
        columns,
        rows,
    } = stmt
    else {
        return Ok(None);
    };
    if columns.is_some() {
        return Ok(None);
    }
    Ok(bind_whole(tables.alloc, table, rows.as_slice(), &tables.catalog)?)
}

/// Executes a statement by which a database steps, and refuses any other.
fn step<P: Pages>(tables: &mut Tables, pages: &mut P, stmt: &Stmt) -> Result<Outcome, SpaceFault>
    requires served { AreServed tables.old.catalog }
    requires written { IsWritten stmt.now }
    requires going { (P.state pages.old).ended ≡ false }
    ensures does { IfOk result (λ outcome. IsReady P.Pages pages.old tables.old → DoesStep P.Pages pages.old pages.new tables.old tables.new stmt.now outcome) }
    ensures refused { (refusal : Refusal) → result ≡ Ok (Outcome.Refused refusal) → LeavesAll P.Pages pages.old pages.new tables.old tables.new }
    ensures kind { IfOk result (IsDoneAs (IsReplyOf stmt.now)) }
    ensures idle { IfOk result (λ outcome. SaysNoRow outcome → LeavesAll P.Pages pages.old pages.new tables.old tables.new) }
    ensures full { IfErr result (λ fault. IfFull fault (λ cap. (cap ≡ tables.old.shape.extents)
        × (IsReady P.Pages pages.old tables.old → StepRunsFull tables.old.shape (pages_of P.Pages pages.old) tables.old.catalog stmt.now))) }
    ensures unbuilt { is_built_step stmt.now ≡ false → MatchResult result (λ outcome. outcome ≡ Outcome.Refused (refusal_of NotBuilt)) (λ fault. IfFull fault (λ cap. ⊥)) }
    ensures reads { only_reads (role_of stmt.now) ≡ true → LeavesAll P.Pages pages.old pages.new tables.old tables.new }
    ensures fetches { FetchesForStatement P.Pages tables.old.shape pages.old pages.new tables.old.catalog tables.old.settings (bound_of tables.old.catalog stmt.now) }
    ensures once { IsOk result → FetchesRowsOnce P.Pages tables.old.shape pages.old pages.new tables.old.catalog tables.old.settings (bound_of tables.old.catalog stmt.now) }
    ensures keeps { KeepsServed result tables.old tables.new }
    ensures touches { TouchesForStatement P.Pages tables.old.shape pages.old pages.new tables.old.catalog tables.old.settings (bound_of tables.old.catalog stmt.now) }
    ensures runs { RunsOverPages P.Pages AnyPage AnyPage (BreaksDatabase P.Pages pages.old tables.old) pages.old pages.new (store_fault_in store_part_of result) }
{
    if !built(stmt) {
        return Ok(Outcome::Refused(not_built(tables.alloc)));
    }
    match bind(tables.alloc, stmt, &tables.catalog) {
        Ok(bound) => carry_out(tables, pages, bound),
        Err(BindFault::Refused(refusal)) => Ok(Outcome::Refused(refusal)),
        Err(BindFault::Memory) => Err(SpaceFault::Store(StoreFault::Memory)),
    }
}

/// Does a bound statement, unless its rows are against it.
fn carry_out<P: Pages>(
    tables: &mut Tables,
    pages: &mut P,
    bound: Bound,
) -> Result<Outcome, SpaceFault>
    requires served { AreServed tables.old.catalog }
    requires may { MayBeExecuted tables.old.catalog bound }
    requires going { (P.state pages.old).ended ≡ false }
    ensures does { IfOk result (λ outcome. IsReady P.Pages pages.old tables.old → DoesStatement P.Pages pages.old pages.new tables.old tables.new bound outcome) }
    ensures refused { (refusal : Refusal) → result ≡ Ok (Outcome.Refused refusal) → LeavesAll P.Pages pages.old pages.new tables.old tables.new }
    ensures kind { IfOk result (IsDoneAs (IsReplyToBound bound)) }
    ensures idle { IfOk result (λ outcome. SaysNoRow outcome → LeavesAll P.Pages pages.old pages.new tables.old tables.new) }
    ensures full { IfErr result (λ fault. IfFull fault (λ cap. (cap ≡ tables.old.shape.extents)
        × (IsReady P.Pages pages.old tables.old → RunsFullAlone tables.old.shape (pages_of P.Pages pages.old) tables.old.catalog bound))) }
    ensures reads { is_query bound ≡ true → LeavesAll P.Pages pages.old pages.new tables.old tables.new }
    ensures fetches { FetchesForStatement P.Pages tables.old.shape pages.old pages.new tables.old.catalog tables.old.settings bound }
    ensures once { IsOk result → FetchesRowsOnce P.Pages tables.old.shape pages.old pages.new tables.old.catalog tables.old.settings bound }
    ensures keeps { KeepsServed result tables.old tables.new }
    ensures touches { TouchesForStatement P.Pages tables.old.shape pages.old pages.new tables.old.catalog tables.old.settings bound }
    ensures runs { RunsOverPages P.Pages AnyPage AnyPage (BreaksDatabase P.Pages pages.old tables.old) pages.old pages.new (store_fault_in store_part_of result) }
{
    match bound {
        Bound::CreateTable(def) => create(tables, pages, def),
        Bound::CreateIndex { table, index } => create_index(tables, pages, table, index),
        Bound::DropIndex { table, index } => Ok(drop_index(tables, pages, table, index)?),
        Bound::DropTable(table) => Ok(remove(tables, pages, table)?),
        Bound::Insert { table, rows } => insert(tables, pages, table, rows),
        Bound::Update { table, sets, pred } => {
            update(tables, pages, table, sets.as_slice(), &pred)
        }
        Bound::Delete { table, pred } => Ok(delete(tables, pages, table, &pred)?),
        Bound::Query(select) => Ok(query(tables, pages, &select)?),
        Bound::Reclaim(table) => Ok(reclaim_blocks(tables, pages, table)?),
        Bound::Explain(_)
        | Bound::SetRollout(_)
        | Bound::SetPlan(_)
        | Bound::SetPace(_)
        | Bound::Clean(_)
        | Bound::CleanTable(_)
        | Bound::ListBlocks(_)
        | Bound::Begin
        | Bound::Commit
        | Bound::Rollback
        | Bound::AddColumn { .. }
        | Bound::Join(_)
        | Bound::Reorg(_) => Ok(Outcome::Done(Reply::Done)),
    }
}
