// What a statement does to the tables, and how it is answered.
ghost use Rattle.std.specs.Prelude.{◌≡◌, IfOk, OnErr};
ghost use Rattle.statement_meaning.specs.Built.{IsBuiltDatabase};
ghost use Rattle.statement_meaning.specs.Step.{step};
ghost use Rattle.row_checks.specs.Executing.{MayBeDone, answer_of, done};

use crate::defining::{create, drop_table};
use crate::deleting::delete;
use crate::indexing::{create_index, drop_index};
use crate::inserting::insert;
use crate::querying::query;
use crate::tables::Tables;
use crate::updating::update;
use binder::{BindFault, bind, bind_whole, built};
use mdc_ast::{Bound, Outcome, Reply, Stmt};
use mdc_values::Memory;
use row_checks::not_built;
use std::alloc::Global;

/// Executes a statement on the tables of a valid database. Where it is refused, and after `Memory`, they stay as they are.
pub fn execute(alloc: Global, stmt: &Stmt, tables: &mut Tables) -> Result<Outcome, Memory>
    requires { IsBuiltDatabase tables.old }
    ensures done { IfOk result (λ outcome. step tables.old stmt.now ≡ (tables.new, answer_of outcome)) }
    ensures memory { OnErr result (tables.new ≡ tables.old) }
    ensures valid { IsBuiltDatabase tables.new }
{
    // Most statements are INSERTs against which nothing is said.
    if let Stmt::Insert {
        table,
        columns,
        rows,
    } = stmt
        && columns.is_none()
        && let Some(whole) = bind_whole(alloc, table, rows.as_slice(), tables.catalog())?
    {
        return insert(alloc, whole.table, whole.rows, tables);
    }
    execute_any(alloc, stmt, tables)
}

// Executes a statement of any form.
fn execute_any(alloc: Global, stmt: &Stmt, tables: &mut Tables) -> Result<Outcome, Memory>
    requires { IsBuiltDatabase tables.old }
    ensures done { IfOk result (λ outcome. step tables.old stmt.now ≡ (tables.new, answer_of outcome)) }
    ensures memory { OnErr result (tables.new ≡ tables.old) }
    ensures valid { IsBuiltDatabase tables.new }
{
    if !built(stmt) {
        return Ok(Outcome::Refused(not_built(alloc)));
    }
    match bind(alloc, stmt, tables.catalog()) {
        Ok(bound) => carry_out(alloc, bound, tables),
        Err(BindFault::Refused(refusal)) => Ok(Outcome::Refused(refusal)),
        Err(BindFault::Memory) => Err(Memory),
    }
}

// Does a bound statement, unless its rows are against it.
fn carry_out(alloc: Global, bound: Bound, tables: &mut Tables) -> Result<Outcome, Memory>
    requires valid { IsBuiltDatabase tables.old }
    requires ready { MayBeDone tables.old bound }
    ensures done { IfOk result (λ outcome. done tables.old bound ≡ (tables.new, answer_of outcome)) }
    ensures memory { OnErr result (tables.new ≡ tables.old) }
{
    match bound {
        Bound::CreateTable(def) => Ok(create(def, tables)),
        Bound::CreateIndex { table, index } => create_index(alloc, table, index, tables),
        Bound::DropTable(table) => Ok(drop_table(table, tables)),
        Bound::DropIndex { table, index } => Ok(drop_index(table, index, tables)),
        Bound::Insert { table, rows } => insert(alloc, table, rows, tables),
        Bound::Update { table, sets, pred } => update(alloc, table, sets.as_slice(), &pred, tables),
        Bound::Delete { table, pred } => Ok(delete(table, &pred, tables)),
        Bound::Query(select) => query(alloc, &select, tables),
        // No blocks are held here that could be given back.
        Bound::Reclaim(_)
        | Bound::Explain(_)
        | Bound::SetRollout(_)
        | Bound::SetPlan(_)
        | Bound::SetPace(_)
        | Bound::Clean(_)
        | Bound::CleanTable(_)
        | Bound::ListBlocks(_)
        | Bound::Begin
        | Bound::Commit
        | Bound::Rollback
        | Bound::AddColumn { .. }
        | Bound::Join(_)
        | Bound::Reorg(_) => Ok(Outcome::Done(Reply::Done)),
    }
}
