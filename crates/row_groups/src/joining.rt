// The lines so far: of no rows, and of one more.
ghost use Rattle.std.specs.Prelude.{◌≡◌, ◌≤◌, ◌++◌, ◌∷◌, [], length, IfOk, OnOk};
ghost use Rattle.row_groups.specs.declared.line.Line.{Line};
ghost use Rattle.row_groups.specs.Adding.{line_of_row, lines_in, with_rows};
ghost use Rattle.row_groups.specs.Gathering.{AreAllLines};
ghost use Rattle.row_groups.specs.Lines.{made_lines};
ghost use Rattle.row_groups.specs.Shape.{shape_of};

use crate::grouping::{Grouping, grouping_of};
use crate::keyed_lines::KeyedLines;
use crate::line_so_far::LineSoFar;
use crate::ordering::sort_by_number;
use mdc_ast::BoundSelect;
use mdc_values::{Memory, Value};
use std::alloc::Global;

/// The lines of no rows: one where all rows share it, and else none.
pub(crate) fn lines_of_none(alloc: Global, select: &BoundSelect) -> Result<Vec<LineSoFar>, Memory>
    ensures { IfOk result (λ lines. lines_in lines.items ≡ made_lines (shape_of select.now) []) }
{
    let mut lines = Vec::new(alloc);
    let Grouping::AllRows = grouping_of(select) else {
        return Ok(lines);
    };
    let none: Vec<Value> = Vec::new(alloc);
    lines.push(LineSoFar::begin(alloc, select, 0, none.as_slice())?)?;
    Ok(lines)
}

/// A row with a line of its own.
pub(crate) fn add_line(
    alloc: Global,
    select: &BoundSelect,
    number: u64,
    values: &[Value],
    lines: &mut Vec<LineSoFar>,
) -> Result<(), Memory>
    ensures added { OnOk result (lines.new.items ≡ lines.old.items ++ line_of_row (shape_of select.now) (record { number = number; values = values.now }) ∷ []) }
    ensures longer { length lines.old.items ≤ length lines.new.items }
{
    lines.push(LineSoFar::of_rows(alloc, select, number, 1, values)?)?;
    Ok(())
}

/// So many rows of the one line of all rows.
pub(crate) fn add_to_whole(
    alloc: Global,
    select: &BoundSelect,
    count: u64,
    values: &[Value],
    lines: &mut Vec<LineSoFar>,
) -> Result<(), Memory>
    requires { 1 ≤ length lines.old.items }
    ensures added { (line : Line) → lines_in lines.old.items ≡ line ∷ [] → OnOk result (lines_in lines.new.items ≡ with_rows count select.now.outs line values.now ∷ []) }
    ensures longer { length lines.old.items ≤ length lines.new.items }
{
    lines[0].add_values(alloc, select.outs.as_slice(), count, values)
}

/// All lines, in the order of their first rows.
pub(crate) fn all_lines(lines: Vec<LineSoFar>, found: KeyedLines) -> Result<Vec<LineSoFar>, Memory>
    ensures { IfOk result (λ all. AreAllLines lines.items found all.items) }
{
    let mut lines = lines;
    let mut others = found.into_lines();
    lines.append(&mut others)?;
    sort_by_number(&mut lines)?;
    Ok(lines)
}
