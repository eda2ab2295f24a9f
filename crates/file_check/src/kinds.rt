// What all extents are.
ghost use Rattle.std.specs.Prelude.{◌≡◌, List, length, false, IfOk};
ghost use Rattle.store_api.specs.Causes.{fault_of};
ghost use Rattle.store_api.specs.Frame.{NoPage};
ghost use Rattle.store_api.specs.RunsOverPages.{RunsOverPages};
ghost use Rattle.extent_map.specs.Damages.{BreaksSpace};
ghost use Rattle.extent_map.specs.Map.{HoldsMap};
ghost use Rattle.extent_map.specs.declared.kind.Kind.{Kind};
ghost use Rattle.file_check.specs.Looking.{AnyPage};

use extent_map::{Kind, kind_of};
use std::alloc::Global;
use store_api::{Pages, Shape, StoreFault};

/// What each extent is, in their order. It takes memory for all of them.
pub(crate) fn kinds_of<P: Pages>(
    alloc: Global,
    shape: Shape,
    pages: &mut P,
) -> Result<Vec<Kind>, StoreFault>
    requires going { (P.state pages.old).ended ≡ false }
    ensures kinds { IfOk result (λ kinds. (owners : List Kind) → HoldsMap P.Pages shape pages.old owners → kinds.items ≡ owners) }
    ensures count { IfOk result (λ kinds. length kinds.items ≡ shape.extents) }
    ensures same { (P.state pages.new).work ≡ (P.state pages.old).work }
    ensures runs { RunsOverPages P.Pages NoPage AnyPage (BreaksSpace P.Pages shape pages.old) pages.old pages.new (fault_of result) }
{
    let mut kinds = Vec::new(alloc);
    for e in 0..shape.extents {
        kinds.push(kind_of(shape, pages, e)?)?;
    }
    Ok(kinds)
}
