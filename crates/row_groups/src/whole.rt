// The lines of rows that are all at hand.
ghost use Rattle.std.specs.Prelude.{MatchResult};
ghost use Rattle.row_groups.specs.Answers.{IsAnswer, IsFault};
ghost use Rattle.row_groups.specs.Numbers.{DifferInNumber};
ghost use Rattle.row_groups.specs.Shape.{shape_of};

use crate::fault::GroupFault;
use crate::groups::Groups;
use crate::line::Line;
use mdc_ast::{BoundSelect, Row};
use mdc_values::List;
use std::alloc::Global;

/// The lines of a query that found these rows.
pub fn shown_lines(
    alloc: Global,
    select: &BoundSelect,
    rows: &[Row],
) -> Result<List<Line>, GroupFault>
    ensures { DifferInNumber rows.now → MatchResult result (IsAnswer (shape_of select.now) rows.now) (IsFault (shape_of select.now) rows.now) }
{
    let mut groups = Groups::new(alloc, select)?;
    for row in rows {
        groups.add(alloc, row.number, row.values.as_slice())?;
    }
    groups.finish(alloc)
}
