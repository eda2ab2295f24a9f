// The answer to a query over rows that were found.
ghost use Rattle.std.specs.Prelude.{◌≡◌, ℕ, length, IsTrue, MatchResult};
ghost use Rattle.row_groups.specs.Shape.{shape_of};
ghost use Rattle.answer_text.specs.Answering.{GivesLines, IsFirstOverflow, Rise};
ghost use Rattle.answer_text.specs.Lines.{are_outs_within, are_rows_wide};

use crate::fault::AnswerFault;
use crate::query_lines::QueryLines;
use mdc_ast::{BoundSelect, Row, TableDef};
use mdc_values::{Chars, List};
use std::alloc::Global;

/// The lines of a query that found these rows, by rising number and each with a value for each column of the table; or the first
/// sum outside BIGINT.
pub fn select_lines(
    alloc: Global,
    query: &BoundSelect,
    def: &TableDef,
    rows: &List<Row>,
) -> Result<Chars, AnswerFault>
    requires outs { IsTrue (are_outs_within (length def.now.columns) query.now.outs) }
    requires rows { IsTrue (are_rows_wide (length def.now.columns) rows.now) }
    ensures { Rise rows.now
        → MatchResult result (GivesLines def.now.columns (shape_of query.now) rows.now) (IsFirstOverflow def.now.columns (shape_of query.now) rows.now) }
{
    let mut lines = QueryLines::new(alloc, query, &def.columns)?;
    for row in rows.as_slice() {
        lines.add(alloc, row.number, &row.values)?;
    }
    lines.close(alloc)
}
