// The lines of any query, as rows are found.
ghost use Rattle.std.specs.Prelude.{◌≡◌, ◌++◌, ◌∷◌, [], ℕ, List, length, IsTrue, IfOk, OnOk, MatchResult};
ghost use Rattle.std.specs.List.{list_all};
ghost use Rattle.mdc_ast.specs.declared.bound.BoundSelect.{BoundSelect};
ghost use Rattle.mdc_ast.specs.declared.definition.ColumnDef.{ColumnDef};
ghost use Rattle.mdc_ast.specs.declared.row.Row.{Row};
ghost use Rattle.row_groups.specs.Shape.{shape_of};
ghost use Rattle.answer_text.specs.Answering.{AreLinesOf, GivesLines, IsFirstOverflow, Rise, outs_at_once};
ghost use Rattle.answer_text.specs.Lines.{are_outs_within, is_column_out, is_plain_select};

use crate::entries::push_headings;
use crate::fault::AnswerFault;
use crate::grouped::grouped_text;
use crate::lines::Lines;
use mdc_ast::{BoundOut, BoundSelect, ColumnDef};
use mdc_values::{Chars, List, Memory, Value};
use row_groups::Groups;
use std::alloc::Global;

/// The lines of a query over the rows that it was given so far. Those of a query without aggregate, GROUP BY, ORDER BY and FETCH
/// FIRST are written as rows come; else what is kept is a line for each group.
#[derive(Drop)]
pub enum QueryLines<'q> {
    Plain(Lines<'q>),
    /// The columns of the table, the line of the names, and the groups.
    Grouped(&'q List<ColumnDef>, Vec<u8>, Groups<'q>),
}

impl<'q> QueryLines<'q> {
    /// The lines of a query over a table of these columns, and no rows.
    pub fn new(
        alloc: Global,
        select: &'q BoundSelect,
        columns: &'q List<ColumnDef>,
    ) -> Result<QueryLines<'q>, Memory>
        requires { IsTrue (are_outs_within (length columns.now) select.now.outs) }
        ensures { IfOk result (AreLinesOf columns.now select.now []) }
    {
        if is_plain(select) {
            return Ok(QueryLines::Plain(Lines::new(alloc, &select.outs, columns)?));
        }
        let mut text = Vec::new(alloc);
        push_headings(select.outs.as_slice(), columns, &mut text)?;
        Ok(QueryLines::Grouped(columns, text, Groups::new(alloc, select)?))
    }

    /// Adds a row with this number and these values. After `Memory` the lines are done with.
    pub fn add(&mut self, alloc: Global, number: u64, values: &List<Value>) -> Result<(), Memory>
        requires { IsTrue (are_outs_within (length values.now) (outs_at_once self.old)) }
        ensures { (columns : List ColumnDef) → (select : BoundSelect) → (rows : List Row) → AreLinesOf columns select rows self.old
            → OnOk result (AreLinesOf columns select (rows ++ record { number = number; values = values.now } ∷ []) self.new) }
    {
        match self {
            QueryLines::Plain(lines) => lines.add(values),
            QueryLines::Grouped(_, _, groups) => groups.add(alloc, number, values.as_slice()),
        }
    }

    /// The text of the lines of rows by rising number, or the first sum outside BIGINT.
    pub fn close(self, alloc: Global) -> Result<Chars, AnswerFault>
        ensures { (columns : List ColumnDef) → (select : BoundSelect) → (rows : List Row) → AreLinesOf columns select rows self.entry → Rise rows
            → MatchResult result (GivesLines columns (shape_of select) rows) (IsFirstOverflow columns (shape_of select) rows) }
    {
        match self {
            QueryLines::Plain(lines) => Ok(lines.close()?),
            QueryLines::Grouped(columns, text, groups) => {
                grouped_text(alloc, columns, text, groups)
            }
        }
    }
}

/// A query that shows each row that it finds, in the order of their numbers.
fn is_plain(select: &BoundSelect) -> bool
    ensures { result ≡ is_plain_select select.now }
{
    are_columns(select.outs.as_slice())
        && select.group.as_slice().is_empty()
        && select.order.as_slice().is_empty()
        && select.first.is_none()
}

fn are_columns(outs: &[BoundOut]) -> bool
    ensures { result ≡ list_all is_column_out outs.now }
{
    outs.iter().all(|out| is_column(*out))
}

fn is_column(out: BoundOut) -> bool
    ensures { result ≡ is_column_out out }
{
    matches!(out, BoundOut::Column(_))
}
