// The search of the extent map.
ghost use Rattle.std.specs.Prelude.{◌≡◌, ◌+◌, ◌*◌, ◌/◌, ◌<◌, ◌≤◌, List, length, false, IfOk, IfErr, IfSome, OnOk};
ghost use Rattle.store_api.specs.Frame.{NoPage, OnlyPage};
ghost use Rattle.store_api.specs.Causes.{fault_of};
ghost use Rattle.store_api.specs.RunsOverPages.{RunsOverPages};
ghost use Rattle.extent_map.specs.Damages.{BreaksSpace};
ghost use Rattle.extent_map.specs.Map.{HoldsMap, HoldsMapPage, IsMapPage, map_page_of};
ghost use Rattle.extent_map.specs.Searches.{is_wanted, FindsWanted, IsFound, IsMalformed, ShowsKinds, ShowsOwner};
ghost use Rattle.extent_map.specs.declared.kind.Kind.{Kind};

use crate::changing::bring_map_page;
use crate::kind::{Kind, kind_in, lowest_unused_place};
use crate::layout::wrong_entry;
use store_api::layout::MAP_PAGE_EXTENTS;
use store_api::{Page, Pages, Shape, StoreFault};

/// What a search looks for.
#[derive(Clone, Copy, Debug)]
pub(crate) enum Wanted {
    /// A free extent.
    FreeExtent,
    /// An index extent with a page that isn't used.
    UnusedPage,
}

/// The lowest extent from one on to before another that is wanted, with what it is, where there is one.
pub(crate) fn find<P: Pages>(
    shape: Shape,
    pages: &mut P,
    wanted: Wanted,
    from: u32,
    to: u32,
) -> Result<Option<(u32, Kind)>, StoreFault>
    requires going { (P.state pages.old).ended ≡ false }
    requires within { to ≤ shape.extents }
    ensures found { IfOk result (λ found. (owners : List Kind) → HoldsMap P.Pages shape pages.old owners → FindsWanted wanted shape.extent_pages owners from to found) }
    ensures fits { IfOk result (λ found. IfSome found (IsFound wanted shape.extent_pages from to)) }
    ensures shown { IfOk result (λ found. IfSome found (λ at. ShowsOwner P.Pages shape pages.old at.0 at.1)) }
    ensures there { IfOk result (λ found. IfSome found (λ at. map_page_of at.0 < length (P.state pages.old).work)) }
    ensures same { (P.state pages.new).work ≡ (P.state pages.old).work }
    ensures runs { RunsOverPages P.Pages NoPage (IsMapPage shape) (BreaksSpace P.Pages shape pages.old) pages.old pages.new (fault_of result) }
{
    let mut next = from;
    while next < to {
        let end = to.min((next / MAP_PAGE_EXTENTS + 1) * MAP_PAGE_EXTENTS);
        let found = find_on_page(shape, pages, wanted, next, end)?;
        if found.is_some() {
            return Ok(found);
        }
        next = end;
    }
    Ok(None)
}

/// The same of extents that stand on one page of the map.
fn find_on_page<P: Pages>(
    shape: Shape,
    pages: &mut P,
    wanted: Wanted,
    from: u32,
    to: u32,
) -> Result<Option<(u32, Kind)>, StoreFault>
    requires going { (P.state pages.old).ended ≡ false }
    requires some { from < to }
    requires one_page { to ≤ 512 * (from / 512 + 1) }
    requires within { to ≤ shape.extents }
    ensures found { IfOk result (λ found. (owners : List Kind) → HoldsMapPage P.Pages shape pages.old owners (from / 512) → FindsWanted wanted shape.extent_pages owners from to found) }
    ensures fits { IfOk result (λ found. IfSome found (IsFound wanted shape.extent_pages from to)) }
    ensures shown { IfOk result (λ found. IfSome found (λ at. ShowsOwner P.Pages shape pages.old at.0 at.1)) }
    ensures there { OnOk result (map_page_of from < length (P.state pages.old).work) }
    ensures same { (P.state pages.new).work ≡ (P.state pages.old).work }
    ensures runs { RunsOverPages P.Pages NoPage (OnlyPage (map_page_of from)) (BreaksSpace P.Pages shape pages.old) pages.old pages.new (fault_of result) }
{
    bring_map_page(shape, pages, from)?;
    match scan(pages.page(), shape.extent_pages, wanted, from, to) {
        Ok(found) => Ok(found),
        Err(malformed) => Err(StoreFault::Damaged(wrong_entry(malformed.extent))),
    }
}

/// The bytes of this extent have a wrong form.
#[derive(Clone, Copy, Debug)]
struct Malformed {
    extent: u32,
}

/// The same on the bytes of that page.
fn scan(
    page: &Page,
    extent_pages: u32,
    wanted: Wanted,
    from: u32,
    to: u32,
) -> Result<Option<(u32, Kind)>, Malformed>
    requires { extent_pages ≤ 32 }
    ensures found { IfOk result (λ found. (owners : List Kind) → ShowsKinds extent_pages page.now owners from to → FindsWanted wanted extent_pages owners from to found) }
    ensures fits { IfOk result (λ found. IfSome found (IsFound wanted extent_pages from to)) }
    ensures malformed { IfErr result (λ malformed. IsMalformed extent_pages page.now from to malformed.extent) }
{
    for e in from..to {
        let Some(kind) = kind_in(page, e, extent_pages) else {
            return Err(Malformed { extent: e });
        };
        if is_wanted(wanted, extent_pages, kind) {
            return Ok(Some((e, kind)));
        }
    }
    Ok(None)
}

fn is_wanted(wanted: Wanted, extent_pages: u32, kind: Kind) -> bool
    ensures { result ≡ is_wanted wanted extent_pages kind }
{
    match wanted {
        Wanted::FreeExtent => kind == Kind::Free,
        Wanted::UnusedPage => lowest_unused_place(kind, extent_pages).is_some(),
    }
}
