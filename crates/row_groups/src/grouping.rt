// Which rows share a line.
ghost use Rattle.std.specs.Prelude.{◌≡◌};
ghost use Rattle.std.specs.List.{list_any};
ghost use Rattle.row_groups.specs.Lines as spec;
ghost use Rattle.row_groups.specs.Lines.{is_aggregate, shares_lines};
ghost use Rattle.row_groups.specs.Shape.{shape_of};

use mdc_ast::{BoundOut, BoundSelect};

/// Which rows share a line: none, all, or those with the same values in the columns of GROUP BY.
#[derive(Clone, Copy, Debug, PartialEq, Eq)]
pub enum Grouping {
    EachRow,
    AllRows,
    ByValues,
}

/// Which rows of a query share a line.
pub(crate) fn grouping_of(select: &BoundSelect) -> Grouping
    ensures { result ≡ spec.grouping_of select.now.outs select.now.group }
{
    match select.group.as_slice() {
        [] if has_aggregate(select.outs.as_slice()) => Grouping::AllRows,
        [] => Grouping::EachRow,
        _ => Grouping::ByValues,
    }
}

/// Whether rows share lines, as under GROUP BY and with aggregates.
pub fn shares_lines(select: &BoundSelect) -> bool
    ensures { result ≡ shares_lines (shape_of select.now) }
{
    !matches!(grouping_of(select), Grouping::EachRow)
}

fn has_aggregate(outs: &[BoundOut]) -> bool
    ensures { result ≡ list_any is_aggregate outs.now }
{
    outs.iter().any(|out| !matches!(out, BoundOut::Column(_)))
}
