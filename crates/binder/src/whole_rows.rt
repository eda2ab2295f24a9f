// The rows of an INSERT that names no columns, judged and bound in one go where nothing is said against them.
ghost use Rattle.std.specs.Prelude.{◌≡◌, [], None, IfOk, IfSome};
ghost use Rattle.mdc_ast.specs.declared.bound.Bound.TheVariants as bound;
ghost use Rattle.mdc_ast.specs.declared.statement.Stmt.TheVariants as stmt;
ghost use Rattle.statement_meaning.specs.Binding.{bound_of};
ghost use Rattle.mdc_ast.specs.ValidDatabase.{AreValidDefs};
ghost use Rattle.statement_meaning.specs.Judged.{judged_of};
ghost use Rattle.statement_meaning.specs.Judging.{in_order};
ghost use Rattle.binder.specs.WholeRows.{AreFitted, AreWhole, IsFitted};

use crate::statement_binding::table_there;
use catalog::Catalog;
use mdc_ast::{ColumnDef, InsertItem, Name};
use mdc_values::{List, Memory, Value, ValueFault, fit};
use std::alloc::Global;

/// The rows of an INSERT, and the place of their table.
#[derive(Debug, Drop)]
pub struct WholeRows {
    pub table: u8,
    pub rows: List<List<Value>>,
}

/// The rows of an INSERT that names no columns, where nothing is said against it. Each literal is fitted once. Where
/// something is said it answers `None`, and `bind` judges the statement class by class.
pub fn bind_whole(
    alloc: Global,
    table: &Name,
    tuples: &[List<InsertItem>],
    catalog: &Catalog,
) -> Result<Option<WholeRows>, Memory>
    requires { AreValidDefs catalog.now }
    ensures { IfOk result (λ found. IfSome found (λ whole.
        (in_order (judged_of catalog.now (stmt.Insert table.now None tuples.now)) ≡ [])
        × (bound.Insert whole.table whole.rows ≡ bound_of catalog.now (stmt.Insert table.now None tuples.now)))) }
{
    let Some(def) = table_there(table, catalog) else {
        return Ok(None);
    };
    match fitted_rows(alloc, def.columns.as_slice(), tuples)? {
        Some(rows) => Ok(Some(WholeRows {
            table: def.number,
            rows,
        })),
        None => Ok(None),
    }
}

fn fitted_rows(
    alloc: Global,
    columns: &[ColumnDef],
    tuples: &[List<InsertItem>],
) -> Result<Option<List<List<Value>>>, Memory>
    ensures { IfOk result (λ found. IfSome found (λ rows. AreWhole columns.now tuples.now rows)) }
{
    let mut rows = Vec::with_capacity(alloc, tuples.len())?;
    for tuple in tuples {
        match fitted_row(alloc, columns, tuple.as_slice())? {
            Some(row) => rows.push(row)?,
            None => return Ok(None),
        }
    }
    Ok(Some(List::from_vec(rows)))
}

fn fitted_row(
    alloc: Global,
    columns: &[ColumnDef],
    items: &[InsertItem],
) -> Result<Option<List<Value>>, Memory>
    ensures { IfOk result (λ found. IfSome found (λ row. AreFitted columns.now items.now row)) }
{
    if items.len() != columns.len() {
        return Ok(None);
    }
    let mut row = Vec::with_capacity(alloc, columns.len())?;
    for (place, column) in columns.iter().enumerate() {
        match fitted(alloc, column, &items[place])? {
            Some(value) => row.push(value)?,
            None => return Ok(None),
        }
    }
    Ok(Some(List::from_vec(row)))
}

// Only a text takes memory.
fn fitted(alloc: Global, column: &ColumnDef, item: &InsertItem) -> Result<Option<Value>, Memory>
    ensures { IfOk result (λ found. IfSome found (λ value. IsFitted column.now item.now value)) }
{
    let InsertItem::Literal(literal) = item else {
        return Ok(Some(Value::Null));
    };
    if column.made.is_some() {
        return Ok(None);
    }
    match fit(alloc, column.ty, literal) {
        Ok(value) => Ok(Some(value)),
        Err(ValueFault::Memory) => Err(Memory),
        Err(_) => Ok(None),
    }
}
