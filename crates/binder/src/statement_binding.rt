// A statement against which nothing is said, with its names as places and its literals as values.
ghost use Rattle.std.specs.Prelude.{◌≡◌, ◌≤◌, [], length, map, IfOk, IfSome, MatchOption, None, Some};
ghost use Rattle.statement_meaning.specs.Binding as binding;
ghost use Rattle.mdc_ast.specs.Definitions.{AllNamesDiffer, column_names, def_named, place_of};
ghost use Rattle.mdc_ast.specs.ValidDatabase.{AreValidDefs};
ghost use Rattle.statement_meaning.specs.Judged.{judged_of, targets};
ghost use Rattle.statement_meaning.specs.Judging.{in_order};

use crate::index_binding::{bound_drop_index, bound_index};
use crate::query_binding::bound_select;
use crate::row_binding::bound_tuples;
use crate::set_binding::bound_sets;
use crate::table_binding::bound_table;
use crate::targets::Targets;
use crate::where_binding::bound_where;
use catalog::Catalog;
use mdc_ast::{
    Bound, ColumnDef, InsertItem, KeyText, Name, PredText, Select, SetText, Stmt, TableDef,
};
use mdc_values::{List, Memory};
use std::alloc::Global;

/// Binds a statement against which nothing is said. A form without a bound one of its own is BEGIN.
pub fn bound(alloc: Global, stmt: &Stmt, catalog: &Catalog) -> Result<Bound, Memory>
    requires valid { AreValidDefs catalog.now }
    requires faultless { in_order (judged_of catalog.now stmt.now) ≡ [] }
    ensures { IfOk result (λ bound. bound ≡ binding.bound_of catalog.now stmt.now) }
{
    match stmt {
        Stmt::CreateTable {
            name,
            columns,
            dims,
        } => Ok(Bound::CreateTable(bound_table(alloc, name, columns.as_slice(), dims.as_slice())?)),
        Stmt::CreateIndex {
            name,
            unique,
            table,
            parts,
        } => bound_index_on(alloc, table, name, *unique, parts.as_slice(), catalog),
        Stmt::DropTable(table) => Ok(bound_drop(table, catalog)),
        Stmt::Reclaim(table) => Ok(bound_reclaim(table, catalog)),
        Stmt::DropIndex(name) => Ok(bound_drop_index(name, catalog)),
        Stmt::Insert {
            table,
            columns,
            rows,
        } => bound_insert(alloc, table, columns, rows.as_slice(), catalog),
        Stmt::Update { table, sets, pred } => {
            bound_update(alloc, table, sets.as_slice(), pred, catalog)
        }
        Stmt::Delete { table, pred } => bound_delete(alloc, table, pred, catalog),
        Stmt::Query(select) => bound_query(alloc, select, catalog),
        Stmt::Explain(select) => bound_explain(alloc, select, catalog),
        Stmt::SetRollout(_)
        | Stmt::SetPlan(_)
        | Stmt::SetPace(_)
        | Stmt::Clean(_)
        | Stmt::CleanTable(_)
        | Stmt::ListBlocks(_)
        | Stmt::Begin
        | Stmt::Commit
        | Stmt::Rollback
        | Stmt::AddColumn { .. }
        | Stmt::OpenReader(_)
        | Stmt::CloseReader(_)
        | Stmt::Reader(..)
        | Stmt::Join(_)
        | Stmt::Reorg(_) => Ok(Bound::Begin),
    }
}

/// The table of that name, whose columns have different names.
pub fn table_there<'a>(table: &Name, catalog: &'a Catalog) -> Option<&'a TableDef>
    requires { AreValidDefs catalog.now }
    ensures there { MatchOption result
        (place_of catalog.now table.now ≡ None)
        (λ def. (place_of catalog.now table.now ≡ Some def.now.number) × (def_named catalog.now table.now ≡ Some def.now)) }
    ensures few { IfSome result (λ def. length def.now.columns ≤ 16) }
    ensures differ { IfSome result (λ def. AllNamesDiffer (column_names def.now.columns)) }
{
    catalog.table(table)
}

fn bound_drop(table: &Name, catalog: &Catalog) -> Bound
    requires { AreValidDefs catalog.now }
    ensures { result ≡ binding.bound_on catalog.now table.now (λ place columns. Bound.DropTable place) }
{
    match table_there(table, catalog) {
        Some(def) => Bound::DropTable(def.number),
        None => Bound::Begin,
    }
}

fn bound_reclaim(table: &Name, catalog: &Catalog) -> Bound
    requires { AreValidDefs catalog.now }
    ensures { result ≡ binding.bound_on catalog.now table.now (λ place columns. Bound.Reclaim place) }
{
    match table_there(table, catalog) {
        Some(def) => Bound::Reclaim(def.number),
        None => Bound::Begin,
    }
}

fn bound_index_on(
    alloc: Global,
    table: &Name,
    name: &Name,
    unique: bool,
    parts: &[KeyText],
    catalog: &Catalog,
) -> Result<Bound, Memory>
    requires { AreValidDefs catalog.now }
    ensures { IfOk result (λ bound. bound ≡ binding.bound_on catalog.now table.now
        (λ place columns. Bound.CreateIndex place (binding.bound_index columns name.now unique parts.now))) }
{
    let Some(def) = table_there(table, catalog) else {
        return Ok(Bound::Begin);
    };
    Ok(Bound::CreateIndex {
        table: def.number,
        index: bound_index(alloc, def.columns.as_slice(), name, unique, parts)?,
    })
}

fn bound_insert(
    alloc: Global,
    table: &Name,
    listed: &Option<List<Name>>,
    tuples: &[List<InsertItem>],
    catalog: &Catalog,
) -> Result<Bound, Memory>
    requires { AreValidDefs catalog.now }
    ensures { IfOk result (λ bound. bound ≡ binding.bound_on catalog.now table.now
        (λ place columns. Bound.Insert place (map (binding.bound_tuple columns (targets columns listed.now)) tuples.now))) }
{
    let Some(def) = table_there(table, catalog) else {
        return Ok(Bound::Begin);
    };
    let columns = def.columns.as_slice();
    let targets = Targets::of(columns, listed);
    Ok(Bound::Insert {
        table: def.number,
        rows: bound_tuples(alloc, columns, targets, tuples)?,
    })
}

fn bound_update(
    alloc: Global,
    table: &Name,
    sets: &[SetText],
    pred: &Option<PredText>,
    catalog: &Catalog,
) -> Result<Bound, Memory>
    requires { AreValidDefs catalog.now }
    ensures { IfOk result (λ bound. bound ≡ binding.bound_on catalog.now table.now
        (λ place columns. Bound.Update place (map (binding.bound_set columns) sets.now) (binding.bound_where columns pred.now))) }
{
    match table_there(table, catalog) {
        Some(def) => update_of(alloc, def.number, def.columns.as_slice(), sets, pred),
        None => Ok(Bound::Begin),
    }
}

fn update_of(
    alloc: Global,
    table: u8,
    columns: &[ColumnDef],
    sets: &[SetText],
    pred: &Option<PredText>,
) -> Result<Bound, Memory>
    requires { length columns.now ≤ 16 }
    ensures { IfOk result (λ bound. bound ≡ Bound.Update table (map (binding.bound_set columns.now) sets.now) (binding.bound_where columns.now pred.now)) }
{
    Ok(Bound::Update {
        table,
        sets: bound_sets(alloc, columns, sets)?,
        pred: bound_where(alloc, columns, pred)?,
    })
}

fn bound_delete(
    alloc: Global,
    table: &Name,
    pred: &Option<PredText>,
    catalog: &Catalog,
) -> Result<Bound, Memory>
    requires { AreValidDefs catalog.now }
    ensures { IfOk result (λ bound. bound ≡ binding.bound_on catalog.now table.now
        (λ place columns. Bound.Delete place (binding.bound_where columns pred.now))) }
{
    match table_there(table, catalog) {
        Some(def) => delete_of(alloc, def.number, def.columns.as_slice(), pred),
        None => Ok(Bound::Begin),
    }
}

fn delete_of(
    alloc: Global,
    table: u8,
    columns: &[ColumnDef],
    pred: &Option<PredText>,
) -> Result<Bound, Memory>
    requires { length columns.now ≤ 16 }
    ensures { IfOk result (λ bound. bound ≡ Bound.Delete table (binding.bound_where columns.now pred.now)) }
{
    Ok(Bound::Delete {
        table,
        pred: bound_where(alloc, columns, pred)?,
    })
}

fn bound_query(alloc: Global, select: &Select, catalog: &Catalog) -> Result<Bound, Memory>
    requires { AreValidDefs catalog.now }
    ensures { IfOk result (λ bound. bound ≡ binding.bound_of catalog.now (Stmt.Query select.now)) }
{
    match table_there(&select.table, catalog) {
        Some(def) => query_of(alloc, def.number, def.columns.as_slice(), select),
        None => Ok(Bound::Begin),
    }
}

fn query_of(
    alloc: Global,
    table: u8,
    columns: &[ColumnDef],
    select: &Select,
) -> Result<Bound, Memory>
    requires { length columns.now ≤ 16 }
    ensures { IfOk result (λ bound. bound ≡ Bound.Query (binding.bound_select table columns.now select.now)) }
{
    Ok(Bound::Query(bound_select(alloc, table, columns, select)?))
}

fn bound_explain(alloc: Global, select: &Select, catalog: &Catalog) -> Result<Bound, Memory>
    requires { AreValidDefs catalog.now }
    ensures { IfOk result (λ bound. bound ≡ binding.bound_of catalog.now (Stmt.Explain select.now)) }
{
    match table_there(&select.table, catalog) {
        Some(def) => explain_of(alloc, def.number, def.columns.as_slice(), select),
        None => Ok(Bound::Begin),
    }
}

fn explain_of(
    alloc: Global,
    table: u8,
    columns: &[ColumnDef],
    select: &Select,
) -> Result<Bound, Memory>
    requires { length columns.now ≤ 16 }
    ensures { IfOk result (λ bound. bound ≡ Bound.Explain (binding.bound_select table columns.now select.now)) }
{
    Ok(Bound::Explain(bound_select(alloc, table, columns, select)?))
}
