// The rows of an UPDATE: all are judged before one is changed.
ghost use Rattle.std.specs.Prelude.{◌≡◌, length, map, filter, flat_map, option_map, IfOk, OnErr, IsTrue};
ghost use Rattle.mdc_ast.specs.declared.bound.Bound.TheVariants as bound;
ghost use Rattle.statement_meaning.specs.Built.{IsBuiltDatabase};
ghost use Rattle.mdc_ast.specs.Database.{table_at};
ghost use Rattle.mdc_ast.specs.Truth as spec;
ghost use Rattle.statement_meaning.specs.Doing.{changed_causes, changed_row};
ghost use Rattle.answer_text.specs.Lines.{are_rows_wide};
ghost use Rattle.binder.specs.Saying.{first_of};
ghost use Rattle.row_checks.specs.Executing.{IsThere, MayUpdate, answer_of, done};
ghost use Rattle.row_filter.specs.Filtering.{may_filter};
ghost use Rattle.row_checks.specs.Filtering.{are_changeable, are_filterable, may_change};
ghost use Rattle.row_checks.specs.RowChange.{are_within, misfit_cause};

use crate::copying::Copied;
use crate::keys::first_clash;
use crate::tables::Tables;
use mdc_ast::{BoundSet, ColumnDef, Outcome, Pred, Reply, Row};
use mdc_values::Memory;
use row_checks::{Misfit, changed_values, duplicate_key, first_misfit_of_row, qualifies, unfit};
use std::alloc::Global;

/// An UPDATE: all rows are judged before one is changed. After `Memory` nothing has changed.
pub fn update(
    alloc: Global,
    table: u8,
    sets: &[BoundSet],
    pred: &Option<Pred>,
    tables: &mut Tables,
) -> Result<Outcome, Memory>
    requires valid { IsBuiltDatabase tables.old }
    requires ready { IsThere (table_at tables.old table) (MayUpdate sets.now pred.now) }
    ensures done { IfOk result (λ outcome. done tables.old (bound.Update table sets.now pred.now) ≡ (tables.new, answer_of outcome)) }
    ensures memory { OnErr result (tables.new ≡ tables.old) }
{
    let lent = tables.table(table);
    let columns = lent.def.columns.as_slice();
    if let Some(misfit) = first_misfit_among(columns, sets, pred, lent.rows) {
        return Ok(Outcome::Refused(unfit(alloc, misfit)?));
    }
    let rows = changed_rows(alloc, sets, pred, lent.rows)?;
    if let Some(index) = first_clash(alloc, lent.def.indexes.as_slice(), rows.as_slice(), &[])? {
        return Ok(Outcome::Refused(duplicate_key(alloc, index)?));
    }
    let count = hits(pred, lent.rows);
    tables.put_rows(table, rows);
    Ok(Outcome::Done(Reply::Updated(count)))
}

// The first thing that is said against the rows as they would be, row by row. It takes no memory.
fn first_misfit_among<'c>(
    columns: &'c [ColumnDef],
    sets: &[BoundSet],
    pred: &Option<Pred>,
    rows: &[Row],
) -> Option<Misfit<'c>>
    requires within { IsTrue (are_within (length columns.now) sets.now) }
    requires wide { IsTrue (are_rows_wide (length columns.now) rows.now) }
    requires filterable { IsTrue (are_filterable pred.now rows.now) }
    ensures { first_of (flat_map (changed_causes columns.now sets.now pred.now) rows.now) ≡ option_map misfit_cause result }
{
    for row in rows {
        let found = first_misfit_of_row(columns, sets, pred, row);
        if found.is_some() {
            return found;
        }
    }
    None
}

// The rows with those changed that qualify, each from what it was. It needs that nothing is said against them as they will be.
fn changed_rows(
    alloc: Global,
    sets: &[BoundSet],
    pred: &Option<Pred>,
    rows: &[Row],
) -> Result<Vec<Row>, Memory>
    requires filterable { IsTrue (are_filterable pred.now rows.now) }
    requires changeable { IsTrue (are_changeable sets.now pred.now rows.now) }
    ensures { IfOk result (λ changed. changed.items ≡ map (changed_row sets.now pred.now) rows.now) }
{
    let mut all = Vec::with_capacity(alloc, rows.len())?;
    for row in rows {
        all.push(changed(alloc, sets, pred, row)?)?;
    }
    Ok(all)
}

// The number of rows that qualify.
fn hits(pred: &Option<Pred>, rows: &[Row]) -> u64
    requires { IsTrue (are_filterable pred.now rows.now) }
    ensures { result ≡ length (filter (λ row. spec.qualifies pred.now row.values) rows.now) }
{
    let mut count = 0;
    for row in rows {
        if qualifies(pred, row) {
            count += 1;
        }
    }
    count
}

// A row as an UPDATE leaves it.
fn changed(alloc: Global, sets: &[BoundSet], pred: &Option<Pred>, row: &Row) -> Result<Row, Memory>
    requires filterable { IsTrue (may_filter pred.now row.now.values) }
    requires changeable { IsTrue (may_change sets.now pred.now row.now) }
    ensures { IfOk result (λ changed. changed ≡ changed_row sets.now pred.now row.now) }
{
    if !qualifies(pred, row) {
        return row.copied(alloc);
    }
    let values = changed_values(alloc, sets, row.values.as_slice())?;
    Ok(Row {
        number: row.number,
        values,
    })
}
