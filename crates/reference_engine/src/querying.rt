// The lines of a query.
ghost use Rattle.std.specs.Prelude.{◌≡◌, length, filter, IfOk, IsTrue, MatchResult};
ghost use Rattle.mdc_ast.specs.declared.bound.Bound.TheVariants as bound;
ghost use Rattle.statement_meaning.specs.Built.{IsBuiltDatabase};
ghost use Rattle.mdc_ast.specs.Database.{table_at};
ghost use Rattle.mdc_ast.specs.Truth as spec;
ghost use Rattle.row_groups.specs.Shape.{shape_of};
ghost use Rattle.answer_text.specs.Answering.{GivesLines, IsFirstOverflow, Rise};
ghost use Rattle.row_checks.specs.Executing.{IsThere, MayShow, answer_of, done};
ghost use Rattle.row_checks.specs.Filtering.{are_filterable};
ghost use Rattle.answer_text.specs.Lines.{are_outs_within, are_rows_wide};

use crate::tables::Tables;
use answer_text::{AnswerFault, QueryLines};
use mdc_ast::{BoundSelect, ColumnDef, Outcome, Reply, Row};
use mdc_values::{Chars, List, Memory};
use row_checks::{overflow, qualifies};
use std::alloc::Global;

/// A query.
pub fn query(alloc: Global, select: &BoundSelect, tables: &Tables) -> Result<Outcome, Memory>
    requires valid { IsBuiltDatabase tables.now }
    requires ready { IsThere (table_at tables.now select.now.table) (MayShow select.now.outs select.now.pred) }
    ensures { IfOk result (λ outcome. done tables.now (bound.Query select.now) ≡ (tables.now, answer_of outcome)) }
{
    let table = tables.table(select.table);
    match lines_found(alloc, select, &table.def.columns, table.rows) {
        Ok(lines) => Ok(Outcome::Done(Reply::Lines(lines))),
        Err(AnswerFault::Overflow(column)) => Ok(Outcome::Refused(overflow(column))),
        Err(AnswerFault::Memory) => Err(Memory),
    }
}

// The lines of a query, or the first sum outside BIGINT. No row is copied.
fn lines_found(
    alloc: Global,
    select: &BoundSelect,
    columns: &List<ColumnDef>,
    rows: &[Row],
) -> Result<Chars, AnswerFault>
    requires shown { IsTrue (are_outs_within (length columns.now) select.now.outs) }
    requires wide { IsTrue (are_rows_wide (length columns.now) rows.now) }
    requires filterable { IsTrue (are_filterable select.now.pred rows.now) }
    ensures { Rise (filter (λ row. spec.qualifies select.now.pred row.values) rows.now) → MatchResult result
        (GivesLines columns.now (shape_of select.now) (filter (λ row. spec.qualifies select.now.pred row.values) rows.now))
        (IsFirstOverflow columns.now (shape_of select.now) (filter (λ row. spec.qualifies select.now.pred row.values) rows.now)) }
{
    let mut lines = QueryLines::new(alloc, select, columns)?;
    for row in rows {
        if qualifies(&select.pred, row) {
            lines.add(alloc, row.number, &row.values)?;
        }
    }
    lines.close(alloc)
}
