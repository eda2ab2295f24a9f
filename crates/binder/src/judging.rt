// What is said first against a statement, class by class in the order of refusals.
ghost use Rattle.std.specs.Prelude.{◌≡◌, IfOk, MatchResult, Some, None};
ghost use Rattle.statement_meaning.specs.Cause.{NoTable};
ghost use Rattle.mdc_ast.specs.Definitions.{def_named};
ghost use Rattle.statement_meaning.specs.Judged.{index_judged, insert_judged, judged_of, query_judged, sets_judged};
ghost use Rattle.statement_meaning.specs.Judging.{in_order, no_fault, on_defined, on_table, then_judged, where_judged};
ghost use Rattle.binder.specs.Knowing.{Knows};
ghost use Rattle.binder.specs.Saying.{objected, first_of, said_by};

use crate::creation::judge_creation;
use crate::filtering::judge_where;
use crate::indexing::{judge_index, judge_index_drop};
use crate::insertion::judge_insertion;
use crate::known_names::KnownNames;
use crate::literals::Class;
use crate::objection::Objection;
use crate::querying::{
    judge_fetch, judge_order, judge_shown, judge_shown_types, judge_tail_columns,
};
use crate::updating::{judge_set_columns, judge_sets};
use catalog::Catalog;
use mdc_ast::{ColumnDef, InsertItem, KeyText, Name, PredText, Select, SetText, Stmt, TableDef};
use mdc_values::{List, Memory};
use std::alloc::Global;

/// Judges a statement. Nothing is said against a form that isn't bound.
pub fn judge<'a>(
    alloc: Global,
    stmt: &'a Stmt,
    catalog: &'a Catalog,
) -> Result<Result<(), Objection<'a>>, Memory>
    ensures { IfOk result (λ judged. first_of (in_order (judged_of catalog.now stmt.now)) ≡ said_by judged) }
{
    match stmt {
        Stmt::CreateTable {
            name,
            columns,
            dims,
        } => judge_creation(alloc, name, columns.as_slice(), dims.as_slice(), catalog),
        Stmt::CreateIndex {
            name,
            table,
            parts,
            ..
        } => Ok(judge_index_on(table, name, parts.as_slice(), catalog)),
        Stmt::DropTable(table) => Ok(judge_table(table, catalog)),
        Stmt::DropIndex(name) => Ok(judge_index_drop(name, catalog)),
        Stmt::Insert {
            table,
            columns,
            rows,
        } => Ok(judge_insert(alloc, table, columns, rows.as_slice(), catalog)),
        Stmt::Update { table, sets, pred } => {
            Ok(judge_update(alloc, table, sets.as_slice(), pred, catalog))
        }
        Stmt::Delete { table, pred } => Ok(judge_delete(alloc, table, pred, catalog)),
        Stmt::Query(select) => judge_query(alloc, select, catalog),
        Stmt::Explain(select) => judge_query(alloc, select, catalog),
        Stmt::Reclaim(table) => Ok(judge_table(table, catalog)),
        Stmt::SetRollout(_)
        | Stmt::SetPlan(_)
        | Stmt::SetPace(_)
        | Stmt::Clean(_)
        | Stmt::CleanTable(_)
        | Stmt::ListBlocks(_)
        | Stmt::Begin
        | Stmt::Commit
        | Stmt::Rollback
        | Stmt::AddColumn { .. }
        | Stmt::OpenReader(_)
        | Stmt::CloseReader(_)
        | Stmt::Reader(..)
        | Stmt::Join(_)
        | Stmt::Reorg(_) => Ok(Ok(())),
    }
}

fn table_named<'a>(table: &'a Name, catalog: &'a Catalog) -> Result<&'a TableDef, Objection<'a>>
    ensures { MatchResult result
        (λ def. def_named catalog.now table.now ≡ Some def.now)
        (λ objection. (def_named catalog.now table.now ≡ None) × (objected objection ≡ NoTable table.now)) }
{
    match catalog.table(table) {
        Some(def) => Ok(def),
        None => Err(Objection::NoTable(table)),
    }
}

// A statement that asks for a table, and for nothing else.
fn judge_table<'a>(table: &'a Name, catalog: &'a Catalog) -> Result<(), Objection<'a>>
    ensures { first_of (in_order (on_table table.now (def_named catalog.now table.now) (λ columns. no_fault))) ≡ said_by result }
{
    table_named(table, catalog)?;
    Ok(())
}

fn judge_index_on<'a>(
    table: &'a Name,
    name: &'a Name,
    parts: &'a [KeyText],
    catalog: &'a Catalog,
) -> Result<(), Objection<'a>>
    ensures { first_of (in_order (on_defined table.now (def_named catalog.now table.now) (index_judged catalog.now name.now parts.now))) ≡ said_by result }
{
    let def = table_named(table, catalog)?;
    judge_index(name, parts, def, catalog)
}

fn judge_insert<'a>(
    alloc: Global,
    table: &'a Name,
    listed: &'a Option<List<Name>>,
    tuples: &[List<InsertItem>],
    catalog: &'a Catalog,
) -> Result<(), Objection<'a>>
    ensures { first_of (in_order (on_table table.now (def_named catalog.now table.now) (insert_judged listed.now tuples.now))) ≡ said_by result }
{
    let def = table_named(table, catalog)?;
    judge_insertion(alloc, def.columns.as_slice(), listed, tuples)
}

fn judge_update<'a>(
    alloc: Global,
    table: &'a Name,
    sets: &'a [SetText],
    pred: &'a Option<PredText>,
    catalog: &'a Catalog,
) -> Result<(), Objection<'a>>
    ensures { first_of (in_order (on_table table.now (def_named catalog.now table.now)
        (λ columns. then_judged (sets_judged sets.now columns) (where_judged columns pred.now)))) ≡ said_by result }
{
    let def = table_named(table, catalog)?;
    judge_setting(alloc, def.columns.as_slice(), sets, pred)
}

#[tactic(auto, using(crate::proofs::FirstLemmas::first_steps))]
fn judge_setting<'a>(
    alloc: Global,
    columns: &'a [ColumnDef],
    sets: &'a [SetText],
    pred: &'a Option<PredText>,
) -> Result<(), Objection<'a>>
    ensures { first_of (in_order (then_judged (sets_judged sets.now columns.now) (where_judged columns.now pred.now))) ≡ said_by result }
{
    judge_set_columns(columns, sets)?;
    judge_where(alloc, Class::Columns, columns, pred)?;
    judge_sets(alloc, Class::Types, columns, sets)?;
    judge_where(alloc, Class::Types, columns, pred)?;
    judge_sets(alloc, Class::Values, columns, sets)?;
    judge_where(alloc, Class::Values, columns, pred)
}

fn judge_delete<'a>(
    alloc: Global,
    table: &'a Name,
    pred: &'a Option<PredText>,
    catalog: &'a Catalog,
) -> Result<(), Objection<'a>>
    ensures { first_of (in_order (on_table table.now (def_named catalog.now table.now) (λ columns. where_judged columns pred.now))) ≡ said_by result }
{
    let def = table_named(table, catalog)?;
    judge_filter(alloc, def.columns.as_slice(), pred)
}

#[tactic(auto, using(crate::proofs::FirstLemmas::first_steps))]
fn judge_filter<'a>(
    alloc: Global,
    columns: &[ColumnDef],
    pred: &'a Option<PredText>,
) -> Result<(), Objection<'a>>
    ensures { first_of (in_order (where_judged columns.now pred.now)) ≡ said_by result }
{
    judge_where(alloc, Class::Columns, columns, pred)?;
    judge_where(alloc, Class::Types, columns, pred)?;
    judge_where(alloc, Class::Values, columns, pred)
}

// The columns of GROUP BY are looked up in a set, so that it takes a step for each name.
fn judge_query<'a>(
    alloc: Global,
    select: &'a Select,
    catalog: &'a Catalog,
) -> Result<Result<(), Objection<'a>>, Memory>
    ensures { IfOk result (λ judged. first_of (in_order (on_table select.now.table (def_named catalog.now select.now.table) (query_judged select.now))) ≡ said_by judged) }
{
    let Some(def) = catalog.table(&select.table) else {
        return Ok(Err(Objection::NoTable(&select.table)));
    };
    let group = KnownNames::of(alloc, select.group.as_slice())?;
    Ok(judge_selection(alloc, def.columns.as_slice(), &group, select))
}

#[tactic(auto, using(crate::proofs::FirstLemmas::first_steps))]
fn judge_selection<'a>(
    alloc: Global,
    columns: &'a [ColumnDef],
    group: &KnownNames<'_>,
    select: &'a Select,
) -> Result<(), Objection<'a>>
    requires { Knows group.now select.now.group }
    ensures { first_of (in_order (query_judged select.now columns.now)) ≡ said_by result }
{
    judge_shown(columns, &select.list)?;
    judge_where(alloc, Class::Columns, columns, &select.pred)?;
    judge_tail_columns(columns, select)?;
    judge_shown_types(columns, group, select)?;
    judge_where(alloc, Class::Types, columns, &select.pred)?;
    judge_order(group, select)?;
    judge_where(alloc, Class::Values, columns, &select.pred)?;
    judge_fetch(select.first)
}
