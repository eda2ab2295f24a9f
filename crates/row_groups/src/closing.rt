// Lines whose rows are all there.
ghost use Rattle.std.specs.Prelude.{◌≡◌, [], MatchResult};
ghost use Rattle.row_groups.specs.Adding.{lines_in};
ghost use Rattle.row_groups.specs.Answers.{AnswersLines, AreWide, IsOutgrown, outgrown_sums};
ghost use Rattle.row_groups.specs.Shape.{shape_of};

use crate::fault::GroupFault;
use crate::line::Line;
use crate::line_so_far::LineSoFar;
use crate::ordering::{cut_lines, sort_lines};
use mdc_ast::{BoundOut, BoundSelect};
use mdc_values::List;
use std::alloc::Global;

/// Lines in order and cut, or the first sum outside BIGINT.
pub(crate) fn answer_of(
    alloc: Global,
    select: &BoundSelect,
    lines: Vec<LineSoFar>,
) -> Result<List<Line>, GroupFault>
    ensures { AreWide select.now.outs (lines_in lines.items) → MatchResult result (AnswersLines (shape_of select.now) (lines_in lines.items)) (IsOutgrown (outgrown_sums select.now.outs (lines_in lines.items))) }
{
    let mut closed = close_lines(alloc, select.outs.as_slice(), lines)?;
    sort_lines(select.order.as_slice(), &mut closed)?;
    cut_lines(select.first, &mut closed);
    Ok(List::from_vec(closed))
}

/// The lines, or the first sum outside BIGINT, in the order of the lines and there in list order.
fn close_lines(
    alloc: Global,
    outs: &[BoundOut],
    lines: Vec<LineSoFar>,
) -> Result<Vec<Line>, GroupFault>
    ensures { AreWide outs.now (lines_in lines.items) → MatchResult result (λ closed. (closed.items ≡ lines_in lines.items) × (outgrown_sums outs.now (lines_in lines.items) ≡ [])) (IsOutgrown (outgrown_sums outs.now (lines_in lines.items))) }
{
    let mut closed = List::new(alloc);
    for line in lines {
        closed.push(line.close(alloc, outs)?)?;
    }
    Ok(closed.into_vec())
}
