// A cut in a column as a bound of keys.
ghost use Rattle.std.specs.Prelude.{IfOk, IsTrue};
ghost use Rattle.key_codec.specs.Keys.{part_width};
ghost use Rattle.key_codec.specs.Spans.{IsBoundOf, IsShortBound, cut_has_kind_of};

use crate::Key;
use crate::edge::Edge;
use mdc_ast::Cut;
use mdc_values::{ColType, Memory};
use std::alloc::Global;

/// The bound that the keys of the values above a cut reach, and no others do. In a descending part they are the keys of
/// the values below it. Without a bound none is reached.
pub(crate) fn bound_of(
    alloc: Global,
    ty: ColType,
    descending: bool,
    cut: &Cut,
) -> Result<Option<Key>, Memory>
    requires { IsTrue (cut_has_kind_of ty cut.now) }
    ensures bound { IfOk result (IsBoundOf ty descending cut.now) }
    ensures short { IfOk result (IsShortBound (part_width ty)) }
{
    let edge = Edge::at(alloc, ty, cut)?;
    if descending {
        return Ok(edge.turned().bound());
    }
    Ok(edge.bound())
}
