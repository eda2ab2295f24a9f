// The text of lines that rows share, or that are ordered or cut.
ghost use Rattle.std.specs.Prelude.{◌≡◌, ◌++◌, ℕ, List, codes, flat_map, length, map, slice_get, IfOk, MatchResult};
ghost use Rattle.std.specs.Fmt.{decimal};
ghost use Rattle.mdc_ast.specs.declared.bound.BoundSelect.{BoundSelect};
ghost use Rattle.mdc_ast.specs.declared.row.Row.{Row};
ghost use Rattle.row_groups.specs.Gathering.{AreGroupsOf};
ghost use Rattle.row_groups.specs.Shape.{shape_of};
ghost use Rattle.row_groups.specs.declared.line.Line.{Line};
ghost use Rattle.statement_meaning.specs.Queries.{heading, line, name_of, shown_text};
ghost use Rattle.answer_text.specs.Answering.{GivesLines, IsFirstOverflow, Rise};

use crate::appending::append_count;
use crate::entries::push_shown;
use crate::fault::AnswerFault;
use mdc_ast::{ColumnDef, Name};
use mdc_values::{Chars, List, Memory};
use row_groups::{GroupFault, Groups, Line};
use std::alloc::Global;

/// The text of the lines of groups behind the line of their names, or the first sum outside BIGINT.
pub fn grouped_text(
    alloc: Global,
    columns: &List<ColumnDef>,
    text: Vec<u8>,
    groups: Groups<'_>,
) -> Result<Chars, AnswerFault>
    ensures { (select : BoundSelect) → (rows : List Row) → text.items ≡ line (map (heading columns.now) select.outs) → AreGroupsOf (shape_of select) rows groups.entry
        → Rise rows → MatchResult result (GivesLines columns.now (shape_of select) rows) (IsFirstOverflow columns.now (shape_of select) rows) }
{
    match groups.finish(alloc) {
        Ok(lines) => Ok(text_of_lines(text, lines.as_slice())?),
        Err(GroupFault::Overflow(column)) => {
            Err(AnswerFault::Overflow(name_at(alloc, columns, column)?))
        }
        Err(GroupFault::Memory) => Err(AnswerFault::Memory),
    }
}

/// The name of the column in a place.
fn name_at(alloc: Global, columns: &List<ColumnDef>, column: u8) -> Result<Name, Memory>
    ensures { IfOk result (λ name. name.0 ≡ name_of (slice_get columns.now column)) }
{
    match columns.as_slice().get(usize::from(column)) {
        Some(column) => Ok(Name(Chars::of(alloc, column.name.0.bytes())?)),
        None => Ok(Name(Chars::from_vec(Vec::new(alloc)))),
    }
}

/// Lines behind a text, and their number.
fn text_of_lines(text: Vec<u8>, lines: &[Line]) -> Result<Chars, Memory>
    ensures { IfOk result (λ whole. whole ≡ text.items ++ flat_map (λ (one : Line). line (map shown_text one.shows)) lines.now ++ decimal (length lines.now) ++ codes " ROWS\n") }
{
    let mut text = text;
    for line in lines {
        push_shown(line.shows.as_slice(), &mut text)?;
    }
    append_count(lines.len() as u64, b" ROWS\n", &mut text)?;
    Ok(Chars::from_vec(text))
}
