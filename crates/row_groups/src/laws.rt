// ORDER BY determines the lines, and so do the columns that are named.
ghost use Rattle.std.specs.Prelude.{◌≡◌};
ghost use Rattle.std.specs.List.{AllZip};
ghost use Rattle.row_groups.specs.Lines.{made_lines};
ghost use Rattle.row_groups.specs.Naming.{AgreeInNamed};
ghost use Rattle.row_groups.specs.Numbers.{by_number, values_of};
ghost use Rattle.row_groups.specs.Ordering.{IsOrdered};
ghost use Rattle.row_groups.specs.Shape.{shape_of};

use crate::line::Line;
use mdc_ast::{BoundSelect, KeyPart, Row};

/// Two lists in order that were the same lines are the same list.
pub fn order_is_one(_parts: &[KeyPart], _lines: &[Line], _sorted: &[Line], _other: &[Line])
    ensures { IsOrdered _parts.now _lines.now _sorted.now → IsOrdered _parts.now _lines.now _other.now → _sorted.now ≡ _other.now }
{}

/// Rows that agree in the columns that the list, GROUP BY and ORDER BY name give the same lines, so that the other values may be
/// left out.
pub fn named_columns_decide(_select: &BoundSelect, _rows: &[Row], _others: &[Row])
    ensures { AllZip (AgreeInNamed (shape_of _select.now)) _rows.now _others.now → made_lines (shape_of _select.now) (values_of (by_number _rows.now)) ≡ made_lines (shape_of _select.now) (values_of (by_number _others.now)) }
{}
