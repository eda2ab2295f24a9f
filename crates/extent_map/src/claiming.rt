// The two things that a claim takes: a free extent, or a page of an index extent.
ghost use Rattle.std.specs.Prelude.{◌≡◌, ◌+◌, ◌<◌, List, length, false, IfOk, IfSome, IfNone, OnErr};
ghost use Rattle.store_api.specs.Frame.{OnlyPage, NoPage};
ghost use Rattle.store_api.specs.Causes.{fault_of};
ghost use Rattle.store_api.specs.RunsOverPages.{RunsOverPages};
ghost use Rattle.extent_map.specs.Claims.{ClaimsExtent, HasNoneFrom, TakesPage};
ghost use Rattle.extent_map.specs.Damages.{BreaksSpace};
ghost use Rattle.extent_map.specs.Kinds.{IsKindOf};
ghost use Rattle.extent_map.specs.Map.{HoldsMap, IsSpacePage, ChangesCount, BringsZeros, KeepsMapForm, map_page_of};
ghost use Rattle.extent_map.specs.Searches.{IsFound, ShowsOwner};
ghost use Rattle.extent_map.specs.declared.kind.Kind.{Kind};
ghost use Rattle.extent_map.specs.declared.finding.Wanted.TheVariants.{UnusedPage};

use crate::Kind;
use crate::changing::{grow_to, set_kind};
use crate::finding::{Wanted, find};
use crate::kind::{lowest_unused_place, with_place};
use crate::layout::wrong_entry;
use crate::places::{end_of, first_page};
use store_api::{Pages, Shape, StoreFault};

/// Makes the lowest free extent from one on of a kind, where there is one. After a fault the owners are as they
/// were.
pub(crate) fn claim_extent<P: Pages>(
    shape: Shape,
    pages: &mut P,
    from: u32,
    kind: Kind,
) -> Result<Option<u32>, StoreFault>
    requires going { (P.state pages.old).ended ≡ false }
    requires kind { IsKindOf shape.extent_pages kind }
    ensures claims { IfOk result (λ found. IfSome found (λ e. ClaimsExtent P.Pages shape from kind pages.old pages.new e)) }
    ensures none { IfOk result (λ found. IfNone found ((owners : List Kind) → HoldsMap P.Pages shape pages.old owners → HasNoneFrom shape owners from shape.extents)) }
    ensures none_same { IfOk result (λ found. IfNone found ((P.state pages.new).work ≡ (P.state pages.old).work)) }
    ensures kept { OnErr result ((owners : List Kind) → HoldsMap P.Pages shape pages.old owners → HoldsMap P.Pages shape pages.new owners) }
    ensures root { ChangesCount P.Pages pages.old pages.new }
    ensures zeros { BringsZeros P.Pages NoPage pages.old pages.new }
    ensures forms { KeepsMapForm P.Pages shape pages.old pages.new }
    ensures runs { RunsOverPages P.Pages (IsSpacePage shape) (IsSpacePage shape) (BreaksSpace P.Pages shape pages.old) pages.old pages.new (fault_of result) }
{
    let found = find(shape, pages, Wanted::FreeExtent, from, shape.extents)?;
    let Some((e, _)) = found else {
        return Ok(None);
    };
    grow_to(pages, end_of(shape, e))?;
    set_kind(pages, e, kind)?;
    Ok(Some(e))
}

/// Makes the lowest page of an index extent that isn't used a used one, and answers its number. Its page of the map was
/// looked at.
pub(crate) fn take_page<P: Pages>(
    shape: Shape,
    pages: &mut P,
    e: u32,
    kind: Kind,
) -> Result<u32, StoreFault>
    requires going { (P.state pages.old).ended ≡ false }
    requires found { IsFound UnusedPage shape.extent_pages 0 shape.extents (e, kind) }
    requires there { map_page_of e < length (P.state pages.old).work }
    requires shown { ShowsOwner P.Pages shape pages.old e kind }
    ensures takes { IfOk result (λ p. TakesPage P.Pages shape kind pages.old pages.new e p) }
    ensures kept { OnErr result ((P.state pages.new).work ≡ (P.state pages.old).work) }
    ensures forms { KeepsMapForm P.Pages shape pages.old pages.new }
    ensures runs { RunsOverPages P.Pages (OnlyPage (map_page_of e)) (OnlyPage (map_page_of e)) (BreaksSpace P.Pages shape pages.old) pages.old pages.new (fault_of result) }
{
    if end_of(shape, e) > pages.count() {
        return Err(StoreFault::Damaged(wrong_entry(e)));
    }
    let place = lowest_unused_place(kind, shape.extent_pages).unwrap();
    set_kind(pages, e, with_place(kind, place))?;
    Ok(first_page(shape, e) + place)
}
